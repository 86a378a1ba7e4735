//! A source read to its end.
ghost use Rattle.std.specs.Prelude.{◌≡◌, ◌<◌, ◌≤◌, length, Err, IfOk, IsErrOf};
ghost use Rattle.std.specs.Io.KnownBytes.{Consumes, IsAtEnd};
ghost use Rattle.pl_frame.specs.Causes.{Rose};
ghost use Rattle.pl_frame.specs.Came.{Came};

use crate::error::PolarsError;
use crate::source::Source;
use std::alloc::Global;
use thiserror::Error;

/// Why a source was not read to its end.
#[derive(Clone, Copy, Debug, PartialEq, Eq, Error)]
pub enum ReadAllFault {
    /// A read failed.
    #[error("a read failed")]
    Source,
    /// More bytes came than the limit allows.
    #[error("more bytes came than the limit allows")]
    TooLong,
    #[error("out of memory")]
    OutOfMemory,
}

impl From<ReadAllFault> for PolarsError {
    ghost use Rattle.std.specs.Prelude.{◌≡◌};
    ghost use Rattle.pl_frame.specs.Converted.{error_of_read_all};

    ghost from_gives = { λ fault error. error ≡ error_of_read_all fault };

    fn from(fault: ReadAllFault) -> PolarsError {
        match fault {
            ReadAllFault::Source => PolarsError::IO,
            ReadAllFault::TooLong | ReadAllFault::OutOfMemory => PolarsError::OutOfMemory,
        }
    }
}

/// How many bytes a read asks for.
pub const BLOCK_SIZE: usize = 65536;

/// All the bytes that are left of a source, if there are no more than `limit`.
///
/// Refuses `TooLong` exactly where more than `limit` bytes came, `Source` only where the source's count of faults rose and
/// at most `limit` bytes had come before, and want of memory.
pub fn read_all<So: Source>(
    alloc: Global,
    source: &mut So,
    limit: usize,
) -> Result<Vec<u8>, ReadAllFault>
    ensures all { IfOk result (λ all. Consumes (So.left source.old) (So.left source.new) all.items) }
    ensures end { IfOk result (λ _. IsAtEnd (So.left source.new)) }
    ensures within { IfOk result (λ all. length all.items ≤ limit) }

    // Every other answer, with the bytes that had come.
    ensures too_long { IsErrOf result ReadAllFault.TooLong → Came (So.left source.old) (So.left source.new) (λ bytes. limit < length bytes) }
    ensures failed { IsErrOf result ReadAllFault.Source → Came (So.left source.old) (So.left source.new) (λ bytes. length bytes ≤ limit) }
    ensures wanted { IsErrOf result ReadAllFault.OutOfMemory → Came (So.left source.old) (So.left source.new) (λ bytes. length bytes ≤ limit) }

    // A fault of the source is its own, and its count never falls.
    ensures cause { IsErrOf result ReadAllFault.Source → Rose (So.faults source.old) (So.faults source.new) }
    ensures later { So.faults source.old ≤ So.faults source.new }
{
    let mut all = Vec::new(alloc);
    let mut block = [0u8; BLOCK_SIZE];
    loop {
        let count = match source.read(&mut block) {
            Ok(count) => count,
            Err(_) => return Err(ReadAllFault::Source),
        };
        if count == 0 {
            return Ok(all);
        }
        if count > limit - all.len() {
            return Err(ReadAllFault::TooLong);
        }
        if all.extend_from_slice(&block[..count]).is_err() {
            return Err(ReadAllFault::OutOfMemory);
        }
    }
}
