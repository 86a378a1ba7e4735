//! Line ends behind an even number of quotes.
ghost use Rattle.std.specs.Prelude.{◌≡◌, ℕ, ◌<◌, ◌≤◌, ◌+◌, ◌*◌, ◌/◌, ◌^◌, ◌==◌, ◌&&◌, not, length, take, None, unwrap_or, count_by};
ghost use Rattle.std.specs.List.{last_or};
ghost use Rattle.pl_scan.specs.Bits.{test, odd_at, set_bits};
ghost use Rattle.pl_scan.specs.EvenCounts.{HasCounted};
ghost use Rattle.pl_scan.specs.LineEnds.{LineMarks, even_ends, cut_size};

use crate::fields::is_the_quote;
use crate::masks::{equal_to, odd_through, quote_bits};
use std::marker::Model;
use std::simd::prelude::*;

// How far a count has come: the number of line ends behind an even number of quotes, the place of the last one, or 0, and whether
// an odd number of quotes came.
#[derive(Clone, Copy)]
struct Counted {
    number: usize,
    last: usize,
    odd: bool,
}

// Counts one more byte, the one at this place.
#[inline(always)]
fn count_byte(
    bytes: &[u8],
    at: usize,
    quote_char: Option<u8>,
    eol_char: u8,
    so_far: Counted,
) -> Counted
    requires at { at < length bytes.now }
    requires so_far { HasCounted quote_char eol_char bytes.now at so_far }
    ensures { HasCounted quote_char eol_char bytes.now (at + 1) result }
{
    let x = bytes[at];
    if is_the_quote(quote_char, x) {
        Counted {
            number: so_far.number,
            last: so_far.last,
            odd: !so_far.odd,
        }
    } else if so_far.odd {
        so_far
    } else if x == eol_char {
        Counted {
            number: so_far.number + 1,
            last: at,
            odd: so_far.odd,
        }
    } else {
        so_far
    }
}

// Of the words of line ends and of quotes of a block: a bit for each line end that is no quote and stands behind an even number of
// quotes, and whether an odd number of quotes stands behind the block.
#[inline(always)]
fn even_bits(ends: u64, quotes: u64, odd: bool) -> (u64, bool)
    ensures bits { (i : ℕ) → i < 64 → test result.0 i ≡ (test ends i && not (test quotes i) && not (odd_at quotes odd i)) }
    ensures odd { result.1 ≡ odd_at quotes odd 64 }
{
    let through = odd_through(quotes, odd);
    (ends & !(quotes | through), through >> 63 == 1)
}

// The place of the highest bit of a word whose lowest bit has this place, or `last` where there is none.
#[inline(always)]
fn last_place(bits: u64, at: usize, last: usize) -> usize
    requires { at + 64 < 2 ^ 64 }
    ensures { result ≡ unwrap_or (last_or None (set_bits 64 at bits)) last }
{
    if bits == 0 {
        last
    } else {
        at + (63 - bits.leading_zeros()) as usize
    }
}

// Counts the 64 bytes from this place on.
#[inline(always)]
fn count_block(
    bytes: &[u8],
    at: usize,
    quote_char: Option<u8>,
    eol_char: u8,
    so_far: Counted,
) -> Counted
    requires at { at + 64 ≤ length bytes.now }
    requires so_far { HasCounted quote_char eol_char bytes.now at so_far }
    ensures { HasCounted quote_char eol_char bytes.now (at + 64) result }
{
    let block = u8x64::from_slice(&bytes[at..at + 64]);
    let quotes = quote_bits(block, quote_char);
    let (even, odd) = even_bits(equal_to(block, eol_char), quotes, so_far.odd);
    Counted {
        number: so_far.number + even.count_ones() as usize,
        last: last_place(even, at, so_far.last),
        odd,
    }
}

// Counts 64 bytes at a time, and leaves fewer than 64.
fn count_blocks(bytes: &[u8], quote_char: Option<u8>, eol_char: u8) -> Counted
    ensures { HasCounted quote_char eol_char bytes.now (length bytes.now / 64 * 64) result }
{
    let mut counted = Counted {
        number: 0,
        last: 0,
        odd: false,
    };
    for k in 0..bytes.len() / 64 {
        counted = count_block(bytes, k * 64, quote_char, eol_char, counted);
    }
    counted
}

// The number of line ends behind an even number of quotes, and the place of the last one, or 0.
fn count_even_ends(bytes: &[u8], quote_char: Option<u8>, eol_char: u8) -> (usize, usize)
    ensures number { result.0 ≡ length (even_ends quote_char eol_char bytes.now) }
    ensures last { result.1 ≡ unwrap_or (last_or None (even_ends quote_char eol_char bytes.now)) 0 }
{
    let mut counted = count_blocks(bytes, quote_char, eol_char);
    for i in bytes.len() / 64 * 64..bytes.len() {
        counted = count_byte(bytes, i, quote_char, eol_char, counted);
    }
    (counted.number, counted.last)
}

/// Counts line ends behind an even number of quotes.
#[derive(Clone, Copy, Debug, PartialEq, Eq)]
pub struct CountLines {
    quote_char: Option<u8>,
    eol_char: u8,
}

impl Model for CountLines {
    ghost Value = { LineMarks };

    ghost view = { λ it. record { quote = it.quote_char; line_end = it.eol_char } };

    ghost inverse = { λ it. record { quote_char = it.quote; eol_char = it.line_end } };
}

impl CountLines {
    /// Of this quote, if there is one, and this line end.
    pub fn new(quote_char: Option<u8>, eol_char: u8) -> Self
        ensures { result ≡ record { quote = quote_char; line_end = eol_char } }
    {
        CountLines {
            quote_char,
            eol_char,
        }
    }

    /// The number of such line ends, and the place of the last one, or 0.
    pub fn count(&self, bytes: &[u8]) -> (usize, usize)
        ensures number { result.0 ≡ length (even_ends self.now.quote self.now.line_end bytes.now) }
        ensures last { result.1 ≡ unwrap_or (last_or None (even_ends self.now.quote self.now.line_end bytes.now)) 0 }
        ensures unquoted { self.now.quote ≡ None → result.0 ≡ count_by (λ x. x == self.now.line_end) bytes.now }
    {
        count_even_ends(bytes, self.quote_char, self.eol_char)
    }

    /// Doubles the size until the prefix of that length has such a line end or is all of `bytes`, and counts those of
    /// the prefix.
    pub fn find_next(&self, bytes: &[u8], chunk_size: &mut usize) -> (usize, usize)
        requires { 0 < chunk_size.old }
        ensures size { chunk_size.new ≡ cut_size self.now.quote self.now.line_end bytes.now chunk_size.old }
        ensures number { result.0 ≡ length (even_ends self.now.quote self.now.line_end (take chunk_size.new bytes.now)) }
        ensures last { result.1 ≡ unwrap_or (last_or None (even_ends self.now.quote self.now.line_end (take chunk_size.new bytes.now))) 0 }
    {
        loop {
            if *chunk_size >= bytes.len() {
                return self.count(bytes);
            }
            let (number, last) = self.count(&bytes[..*chunk_size]);
            if number > 0 {
                return (number, last);
            }
            *chunk_size *= 2;
        }
    }
}
