//! The index of an input.
ghost use Rattle.std.specs.Prelude.{◌≡◌, ◌<◌, IfOk, OnOk, IfErr};
ghost use Rattle.pl_seek.specs.Building.{index_in, MayIndex, IsBuildFault};

use crate::checking::{check_input, prefix_of, settings_of};
use crate::fault::SeekFault;
use crate::index::SeekIndex;
use crate::places::{Groups, find_places};
use pl_options::read_options::CsvReadOptions;
use sha2::{Digest, Sha256};
use std::alloc::Global;

/// The index of an input, whose groups are of so many records. Refuses wrong options (`Options`): no schema is given, a limit of rows is,
/// or no column is asked for; then the first cause against the input that stands before those of its rows (`Polars`, docs/refusals.md);
/// and want of memory.
pub fn build_index(
    alloc: Global,
    input: &[u8],
    read: &CsvReadOptions,
    every: usize,
) -> Result<SeekIndex, SeekFault>
    requires { 0 < every }
    ensures index { IfOk result (λ index. index ≡ index_in read.now every input.now) }
    ensures sound { OnOk result (MayIndex read.now input.now) }
    ensures refused { IfErr result (IsBuildFault read.now input.now) }
{
    let start = check_input(alloc, input, read)?;
    let Groups {
        every: _,
        records,
        places,
        wait: _,
    } = find_places(alloc, input, start, &read.parse_options.dialect(), every)?;
    let comment_prefix = prefix_of(alloc, read)?;
    let digest = Sha256::digest(input);
    let settings = settings_of(read);
    Ok(SeekIndex::new(digest, settings, comment_prefix, every, records, places))
}
