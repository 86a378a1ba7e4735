//! Up to sixteen digits on both sides of a point, read side by side.
ghost use Rattle.std.specs.Prelude.{◌≡◌, ◌≤◌, ◌<◌, ◌-◌, ◌+◌, ◌++◌, ◌^◌, length, take, drop, map, replicate, true, IfSome};
ghost use Rattle.std.specs.Str.{all_ascii_digits};
ghost use Rattle.pl_cells.specs.Integers.{number_of};
ghost use Rattle.pl_cells.specs.Lanes.{digit_of};

use crate::lanes::{WIDTH, are_digits, last_digits, number_of_lanes};
use std::simd::prelude::*;

// From a place on, what lets the lanes in front be, and behind them so many zeros as digits behind the point don't count.
static CUT: [u8; 32] = [
    255, 255, 255, 255, 255, 255, 255, 255, 255, 255, 255, 255, 255, 255, 255, 255, 0, 0, 0, 0, 0,
    0, 0, 0, 0, 0, 0, 0, 0, 0, 0, 0,
];

// The lanes in front of the last so many, and behind them the last so many of others, which have zeros in front of these.
#[inline(always)]
fn joined(front: u8x16, back: u8x16, count: usize) -> u8x16
    requires few { count ≤ 16 }
    requires zeros { take (16 - count) back ≡ replicate (16 - count) 0 }
    ensures { result ≡ take (16 - count) front ++ drop (16 - count) back }
{
    let cut = u8x16::from_slice(&CUT[count..]);
    front.simd_min(cut) + back
}

// The bytes on both sides of a place as digits, with zeros in front of them.
#[inline(always)]
fn digits_around(upto: &[u8], from: usize, point: usize) -> u8x16
    requires long { 16 < length upto.now }
    requires inside { from ≤ point }
    requires point { point < length upto.now }
    requires few { length upto.now ≤ from + 17 }
    ensures { result ≡ replicate (16 - (length upto.now - 1 - from)) 0 ++ map digit_of (drop from (take point upto.now) ++ drop (point + 1) upto.now) }
{
    let last = upto.len() - 1;
    let front = last_digits(&upto[..last], from);
    let back = last_digits(upto, point + 1);
    joined(front, back, last - point)
}

/// The number of the bytes from a place of a text to another and of those behind that, which are up to sixteen digits. None
/// where they are others or more, or where the text is shorter than seventeen bytes.
#[inline(always)]
pub(crate) fn number_around(upto: &[u8], from: usize, point: usize) -> Option<u64>
    requires inside { from ≤ point }
    requires point { point < length upto.now }
    ensures digits { IfSome result (λ n. all_ascii_digits (drop from (take point upto.now) ++ drop (point + 1) upto.now) ≡ true) }
    ensures value { IfSome result (λ n. n ≡ number_of (drop from (take point upto.now) ++ drop (point + 1) upto.now)) }
    ensures small { IfSome result (λ n. n < 10 ^ 16) }
{
    if upto.len() <= WIDTH || upto.len() - from > WIDTH + 1 {
        return None;
    }
    let lanes = digits_around(upto, from, point);
    if are_digits(lanes) {
        Some(number_of_lanes(lanes))
    } else {
        None
    }
}
