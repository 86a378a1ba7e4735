//! Digits from a place on.
ghost use Rattle.std.specs.Prelude.{◌≡◌, ◌≤◌, ◌+◌, drop, length};
ghost use Rattle.std.specs.Char.{is_ascii_digit};
ghost use Rattle.std.specs.List.{prefix_len};

use std::simd::prelude::*;

// How many of 16 bytes stand before the first that is no digit.
#[inline(always)]
fn count_digits(bytes: &[u8]) -> usize
    requires { length bytes.now ≡ 16 }
    ensures { result ≡ prefix_len is_ascii_digit bytes.now }
{
    let v = u8x16::from_slice(bytes);
    let others = (v - u8x16::splat(b'0'))
        .simd_gt(u8x16::splat(9))
        .to_bitmask();
    if others == 0 {
        16
    } else {
        others.trailing_zeros() as usize
    }
}

// The same of any number of bytes, byte by byte.
fn count_digits_slowly(bytes: &[u8]) -> usize
    ensures { result ≡ prefix_len is_ascii_digit bytes.now }
{
    let mut count = 0;
    while count < bytes.len() && bytes[count].is_ascii_digit() {
        count += 1;
    }
    count
}

/// The place behind the digits that stand from a place on.
#[inline(always)]
pub(crate) fn digits_end(text: &[u8], at: usize) -> usize
    requires { at ≤ length text.now }
    ensures { result ≡ at + prefix_len is_ascii_digit (drop at text.now) }
{
    if text.len() - at >= 16 {
        let count = count_digits(&text[at..at + 16]);
        if count < 16 {
            return at + count;
        }
    }
    at + count_digits_slowly(&text[at..])
}
