//! Up to sixteen digits at the end of a text, read side by side.
ghost use Rattle.std.specs.Prelude.{◌≡◌, ◌≤◌, ◌<◌, ◌-◌, ◌+◌, ◌++◌, ◌^◌, length, drop, map, replicate, true, IfSome};
ghost use Rattle.std.specs.Bool.{OnTrue};
ghost use Rattle.pl_cells.specs.Integers.{is_digits, number_of};
ghost use Rattle.pl_cells.specs.Lanes.{AreDigits, digit_of, digits_number};

use std::simd::prelude::*;

/// How many bytes are read.
pub(crate) const WIDTH: usize = 16;

// From a place on, so many zeros as bytes in front of a field don't count, and behind them what lets each byte be.
static KEPT: [u8; 32] = [
    0, 0, 0, 0, 0, 0, 0, 0, 0, 0, 0, 0, 0, 0, 0, 0, 255, 255, 255, 255, 255, 255, 255, 255, 255,
    255, 255, 255, 255, 255, 255, 255,
];

/// The last bytes of a text as digits, with zeros in front of them.
#[inline(always)]
pub(crate) fn last_digits(upto: &[u8], start: usize) -> u8x16
    requires long { WIDTH ≤ length upto.now }
    requires inside { start ≤ length upto.now }
    requires few { length upto.now ≤ start + WIDTH }
    ensures { result ≡ replicate (WIDTH - (length upto.now - start)) 0 ++ map digit_of (drop start upto.now) }
{
    let len = upto.len() - start;
    let bytes = u8x16::from_slice(&upto[upto.len() - WIDTH..]);
    let kept = u8x16::from_slice(&KEPT[len..]);
    (bytes - u8x16::splat(b'0')).simd_min(kept)
}

/// True only where each lane is a digit.
#[inline(always)]
pub(crate) fn are_digits(lanes: u8x16) -> bool
    ensures { OnTrue result (AreDigits lanes) }
{
    lanes.simd_gt(u8x16::splat(9)).to_bitmask() == 0
}

/// The number of sixteen digits.
#[inline(always)]
pub(crate) fn number_of_lanes(lanes: u8x16) -> u64
    requires { AreDigits lanes }
    ensures value { result ≡ digits_number 0 lanes }
    ensures small { result < 10 ^ 16 }
{
    let tens = lanes.dot4(u8x16::from_array([10, 1, 0, 0, 10, 1, 0, 0, 10, 1, 0, 0, 10, 1, 0, 0]));
    let ones = lanes.dot4(u8x16::from_array([0, 0, 10, 1, 0, 0, 10, 1, 0, 0, 10, 1, 0, 0, 10, 1]));
    let fours = tens.strict_mul(u32x4::splat(100)).strict_add(ones);
    let [first, second, third, fourth] = fours.to_array();
    let front = u64::from(first) * 10_000 + u64::from(second);
    let back = u64::from(third) * 10_000 + u64::from(fourth);
    front * 100_000_000 + back
}

/// The number of the bytes from a place of a text to its end, which are one to sixteen digits. None where they are others or
/// more, or where the text is shorter than sixteen bytes.
#[inline(always)]
pub(crate) fn number_at(upto: &[u8], start: usize) -> Option<u64>
    requires { start ≤ length upto.now }
    ensures digits { IfSome result (λ n. is_digits (drop start upto.now) ≡ true) }
    ensures value { IfSome result (λ n. n ≡ number_of (drop start upto.now)) }
    ensures small { IfSome result (λ n. n < 10 ^ 16) }
{
    let count = upto.len() - start;
    if upto.len() < WIDTH || count == 0 || count > WIDTH {
        return None;
    }
    let lanes = last_digits(upto, start);
    if are_digits(lanes) {
        Some(number_of_lanes(lanes))
    } else {
        None
    }
}
