//! The bytes at a path, read to their end.
ghost use Rattle.std.specs.Prelude.{◌≡◌, ◌≤◌, ◌^◌, ℕ, List, length, IfOk, IfErr};
ghost use Rattle.pl_seek.specs.Files.{IsHeld, IsUnreadFile};

use pl_csv::read_all::LIMIT;
use pl_csv::run::Refusal;
use pl_frame::error::PolarsError;
use pl_frame::opener::Opener;
use pl_frame::read_all::{ReadAllFault, read_all};
use std::alloc::Global;

/// The bytes at a path, of which there are no more than the largest input has. Refuses `Source` only where the opener's count of faults
/// rose, `TooLong` only where there are more bytes, and want of memory.
pub(crate) fn read_path<O: Opener>(
    alloc: Global,
    opener: &mut O,
    path: &str,
) -> Result<Vec<u8>, Refusal>
    ensures bytes { IfOk result (λ bytes. IsHeld (O.holds opener.old) path.now bytes.items) }
    ensures within { IfOk result (λ bytes. length bytes.items ≤ 2 ^ 36) }
    ensures refused { IfErr result (IsUnreadFile (O.holds opener.old) path.now (O.faults opener.old) (O.faults opener.new)) }
    ensures later { O.faults opener.old ≤ O.faults opener.new }
    ensures stays { (other : List ℕ) → O.holds opener.new other ≡ O.holds opener.old other }
{
    let Ok(mut opened) = opener.open_path(path) else {
        return Err(Refusal::Source);
    };
    let read = read_all(alloc, &mut opened, LIMIT);
    opener.close(opened);
    match read {
        Ok(bytes) => Ok(bytes),
        Err(ReadAllFault::Source) => Err(Refusal::Source),
        Err(ReadAllFault::TooLong) => Err(Refusal::TooLong),
        Err(ReadAllFault::OutOfMemory) => Err(Refusal::Polars(PolarsError::OutOfMemory)),
    }
}
