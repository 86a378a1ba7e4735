//! Data cut into regions.
ghost use Rattle.std.specs.Prelude.{◌≡◌, ◌<◌, ◌≤◌, IfOk, IfSome, length, map};
ghost use Rattle.std.specs.List.{concat};

use pl_intake::cuts::{LOOK, find_row};
use pl_scan::dialect::Dialect;
use std::alloc::{AllocError, Global};

// So many regions a worker there are at most, however short pieces are.
const ROUNDS: usize = 1 << 10;

/// How long regions are: a piece each or less, so that there are as many for each worker; longer where there would be too many.
pub(crate) fn region_size(length: usize, workers: usize, piece_size: usize) -> usize
    requires workers { 0 < workers }
    requires size { 0 < piece_size }
    ensures { 0 < result }
{
    let share = length.div_ceil(workers);
    let rounds = share.div_ceil(piece_size).clamp(1, ROUNDS);
    share.div_ceil(rounds).max(1)
}

/// The texts of regions of about this size, which are the data one behind the other. Each ends by a guess: where
/// rows with as many fields as the schema has columns seem to begin. None where that is not told at more than one place. Refuses only want of
/// memory.
pub(crate) fn guess_regions<'a>(
    alloc: Global,
    size: usize,
    records: &'a [u8],
    dialect: &Dialect<'_>,
    width: usize,
) -> Result<Option<Vec<&'a [u8]>>, AllocError>
    requires { 0 < size }
    ensures { IfOk result (λ found. IfSome found (λ texts. concat (map (λ text. text.now) texts.items) ≡ records.now)) }
{
    let look = size.min(LOOK);
    let mut texts = Vec::new(alloc);
    let mut from = 0;
    let mut to = size;
    let mut is_missed = false;
    while to < records.len() {
        match find_row(records, to, look, dialect, width) {
            Some(place) if from < place => {
                texts.push(&records[from..place])?;
                from = place;
                to = place.saturating_add(size);
            }
            _ if is_missed => return Ok(None),
            _ => {
                is_missed = true;
                to = to.saturating_add(size);
            }
        }
    }
    texts.push(&records[from..])?;
    Ok(Some(texts))
}
