//! Where lines end.
ghost use Rattle.std.specs.Prelude.{◌≡◌, ℕ, ◌+◌, ◌<◌, ◌≤◌, ◌&&◌, not, length, take, get_or};
ghost use Rattle.pl_row_numbers.specs.Parts.{is_end, odd_behind};
ghost use Rattle.pl_scan.specs.Bits.{test, odd_at};

use pl_scan::masks::{equal_to, odd_through};
use std::simd::prelude::*;

// The bits of a word, or none within quotes.
#[inline(always)]
fn ends_outside(ends: u64, odd: bool) -> u64
    ensures { (i : ℕ) → test result i ≡ (test ends i && not odd) }
{
    if odd { 0 } else { ends }
}

// Of the words of line feeds and of quotes of a block: a bit for each line feed that stands behind an even number of quotes, and whether an odd
// number stands behind the block.
#[inline(always)]
fn even_ends(ends: u64, quotes: u64, odd: bool) -> (u64, bool)
    ensures ends { (i : ℕ) → i < 64 → test result.0 i ≡ (test ends i && not (odd_at quotes odd (i + 1))) }
    ensures odd { result.1 ≡ odd_at quotes odd 64 }
{
    if quotes == 0 {
        return (ends_outside(ends, odd), odd);
    }
    let through = odd_through(quotes, odd);
    (ends & !through, through >> 63 == 1)
}

/// Of the first 64 bytes of a text: a bit for each that ends a line, and whether an odd number of quotes stands behind them, given whether one
/// does in front.
#[inline(always)]
pub(crate) fn ends_in_block(text: &[u8], odd: bool) -> (u64, bool)
    requires long { 64 ≤ length text.now }
    ensures ends { (i : ℕ) → i < 64 → test result.0 i ≡ is_end (odd_behind odd (take i text.now)) (get_or text.now i 0) }
    ensures odd { result.1 ≡ odd_behind odd (take 64 text.now) }
{
    let block = u8x64::from_slice(&text[..64]);
    even_ends(equal_to(block, b'\n'), equal_to(block, b'"'), odd)
}
