//! Lines with their numbers, put into a block.
ghost use Rattle.std.specs.Prelude.{◌≡◌, ◌++◌, ◌+◌, ◌*◌, ◌≤◌, ◌<◌, ◌==◌, length, take, drop};
ghost use Rattle.pl_scan.specs.Bits.{xor};
ghost use Rattle.pl_row_numbers.specs.Parts.{is_end};
ghost use Rattle.pl_row_numbers.specs.declared.numbering.Stand.{Stand};
ghost use Rattle.pl_row_numbers.specs.Numbered.{IsFront, Stands, followed, inside, numbered, stand_behind};

use crate::fronts::{Front, FrontForm, advance, front_of, put_front};
use crate::line_ends::ends_in_block;
use pl_write::puts::{put_byte, put_bytes};
use std::simd::prelude::*;

/// Where a text stands: the number of the line that begins here or has begun, whether it has begun, and whether an odd number of its quotes
/// came.
#[derive(Clone, Copy)]
pub(crate) struct Stand {
    pub(crate) number: u64,
    pub(crate) begun: bool,
    pub(crate) odd: bool,
}

// Puts so many bytes of a text from a place on, by one copy of fixed size where there are 64.
#[inline(always)]
fn put_from(to: &mut [u8], at: usize, text: &[u8], from: usize, count: usize) -> usize
    requires room { at + 64 ≤ length to.old }
    requires few { count ≤ 64 }
    requires inside { from + count ≤ length text.now }
    ensures text { take result to.new ≡ take at to.old ++ take count (drop from text.now) }
    ensures end { result ≡ at + count }
{
    if text.len() - from >= 64 {
        let block = u8x64::from_slice(&text[from..from + 64]);
        block.copy_to_slice(&mut to[at..at + 64]);
        return at + count;
    }
    put_bytes(to, at, &text[from..from + count])
}

// Puts the first 64 bytes of a text, and behind each that ends a line the front of the next one, given whether an odd number of the line's
// quotes stands in front. Answers the place behind, and whether an odd number stands there.
#[inline(always)]
fn put_block(to: &mut [u8], at: usize, text: &[u8], odd: bool, front: &mut Front) -> (usize, bool)
    requires long { 64 ≤ length text.now }
    requires room { at + 1600 ≤ length to.old }
    requires front { IsFront front.old }
    ensures text { take result.0 to.new ≡ take at to.old ++ followed front.old.form (inside front.old odd) (take 64 text.now) }
    ensures end { result.0 ≤ at + 1536 }
    ensures stand { Stands front.old.form (stand_behind (inside front.old odd) (take 64 text.now)) front.new result.1 }
{
    let (ends, behind) = ends_in_block(text, odd);
    let mut now = at;
    let mut from = 0;
    let mut left = ends;
    while left != 0 {
        let end = left.trailing_zeros() as usize + 1;
        let ended = put_from(to, now, text, from, end - from);
        advance(front);
        now = put_front(to, ended, front);
        from = end;
        left &= left - 1;
    }
    (put_from(to, now, text, from, 64 - from), behind)
}

// Whether a byte ends a line.
fn is_line_end(byte: u8, odd: bool) -> bool
    ensures { result ≡ is_end odd byte }
{
    byte == b'\n' && !odd
}

// Whether an odd number of quotes stands behind a byte.
fn is_odd_behind(byte: u8, odd: bool) -> bool
    ensures { result ≡ xor (byte == 34) odd }
{
    if byte == b'"' { !odd } else { odd }
}

// Puts a few bytes in the same way, one by one.
fn put_short(to: &mut [u8], at: usize, text: &[u8], odd: bool, front: &mut Front) -> (usize, bool)
    requires room { at + 24 * length text.now + 32 ≤ length to.old }
    requires front { IsFront front.old }
    ensures text { take result.0 to.new ≡ take at to.old ++ followed front.old.form (inside front.old odd) text.now }
    ensures end { result.0 ≤ at + 24 * length text.now }
    ensures stand { Stands front.old.form (stand_behind (inside front.old odd) text.now) front.new result.1 }
{
    let mut now = at;
    let mut odd_now = odd;
    for byte in text.iter() {
        now = put_byte(to, now, *byte);
        if is_line_end(*byte, odd_now) {
            advance(front);
            now = put_front(to, now, front);
        }
        odd_now = is_odd_behind(*byte, odd_now);
    }
    (now, odd_now)
}

// Whether a line goes on behind a text, given whether an odd number of its quotes came.
fn goes_on(text: &[u8], odd: bool) -> bool
    requires { 0 < length text.now }
    ensures { (s : Stand) → (stand_behind s text.now).odd ≡ odd → result ≡ (stand_behind s text.now).begun }
{
    odd || text[text.len() - 1] != b'\n'
}

/// Puts a text with a number in front of each line that begins in it, and answers the place behind it and where it stands then.
pub(crate) fn put_numbered(
    to: &mut [u8],
    text: &[u8],
    stand: Stand,
    form: FrontForm,
) -> (usize, Stand)
    requires room { 24 * length text.now + 96 ≤ length to.old }
    requires some { 0 < length text.now }
    ensures text { take result.0 to.new ≡ numbered form stand text.now }
    ensures within { result.0 ≤ length to.new }
    ensures stand { result.1 ≡ stand_behind stand text.now }
{
    let mut front = front_of(stand.number, form);
    let mut at = if stand.begun {
        0
    } else {
        put_front(to, 0, &front)
    };
    let mut odd = stand.odd;
    let mut from = 0;
    while text.len() - from >= 64 {
        (at, odd) = put_block(to, at, &text[from..], odd, &mut front);
        from += 64;
    }
    (at, odd) = put_short(to, at, &text[from..], odd, &mut front);
    let begun = goes_on(text, odd);
    let number = front.number;

    // The front of a line that begins behind the text is taken back.
    let len = if begun { at } else { at - front.len };
    (len, Stand { number, begun, odd })
}
