//! Decimal numbers, put into a block from a place on.
ghost use Rattle.std.specs.Prelude.{◌≡◌, ◌++◌, ◌∷◌, [], ◌<◌, ◌≤◌, ◌+◌, ◌-◌, length, take, drop, IfSome, IfNone};
ghost use Rattle.pl_text.specs.ValueText.{padded, point_text, decimal_text};

use crate::digit_counts::short_digit_count;
use crate::digit_words::{bytes_from, eight_digits};
use crate::put_wholes::put_short;
use crate::puts::{put_byte, put_byte_if, put_front};

// Puts the last digits of the eight that a number below 10^8 has, with a point before the last of them.
#[inline(always)]
fn put_last(to: &mut [u8], at: usize, n: u32, count: usize, scale: usize) -> usize
    requires room { at + 17 ≤ length to.old }
    requires small { n < 100000000 }
    requires some { 1 ≤ scale }
    requires whole { scale < count }
    requires few { count ≤ 8 }
    ensures text { take result to.new ≡ take at to.old ++ point_text scale (drop (8 - count) (padded 8 n)) }
    ensures end { result ≤ at + 9 }
{
    let word = eight_digits(n);
    let whole = put_front(to, at, bytes_from(word, 8 - count), count - scale);
    let point = put_byte(to, whole, b'.');
    put_front(to, point, bytes_from(word, 8 - scale), scale)
}

// Puts a number below 10^8 with a point before the last of its digits.
#[inline(always)]
fn put_short_scaled(to: &mut [u8], at: usize, n: u32, scale: usize) -> usize
    requires room { at + 17 ≤ length to.old }
    requires small { n < 100000000 }
    requires some { 1 ≤ scale }
    requires few { scale ≤ 7 }
    ensures text { take result to.new ≡ take at to.old ++ point_text scale (padded (scale + 1) n) }
    ensures end { result ≤ at + 17 }
{
    let count = short_digit_count(n).max(scale + 1);
    put_last(to, at, n, count, scale)
}

// Puts a number of 9 to 16 digits with a point before the last of them.
#[inline(always)]
fn put_middle_scaled(to: &mut [u8], at: usize, n: u64, scale: usize) -> usize
    requires room { at + 25 ≤ length to.old }
    requires low { 100000000 ≤ n }
    requires high { n < 10000000000000000 }
    requires some { 1 ≤ scale }
    requires few { scale ≤ 7 }
    ensures text { take result to.new ≡ take at to.old ++ point_text scale (padded (scale + 1) n) }
    ensures end { result ≤ at + 17 }
{
    let middle = put_short(to, at, (n / 100_000_000) as u32);
    put_last(to, middle, (n % 100_000_000) as u32, 8, scale)
}

// Puts a size of few digits with a point before the last of them.
#[inline(always)]
fn put_scaled(to: &mut [u8], at: usize, size: u64, scale: usize) -> usize
    requires room { at + 25 ≤ length to.old }
    requires high { size < 10000000000000000 }
    requires some { 1 ≤ scale }
    requires few { scale ≤ 7 }
    ensures text { take result to.new ≡ take at to.old ++ point_text scale (padded (scale + 1) size) }
    ensures end { result ≤ at + 17 }
{
    if size < 100_000_000 {
        put_short_scaled(to, at, size as u32, scale)
    } else {
        put_middle_scaled(to, at, size, scale)
    }
}

/// Puts a decimal number of 64 bits of which 10^scale make one: a minus below zero, and digits with a point before the last
/// `scale` of them. Nothing is put where it has more than sixteen digits.
#[inline(always)]
pub(crate) fn put_narrow_decimal(
    to: &mut [u8],
    at: usize,
    number: i64,
    scale: usize,
) -> Option<usize>
    requires room { at + 26 ≤ length to.old }
    requires some { 1 ≤ scale }
    requires few { scale ≤ 7 }
    ensures text { IfSome result (λ end. take end to.new ≡ take at to.old ++ decimal_text scale number) }
    ensures within { IfSome result (λ end. end ≤ at + 18) }
    ensures unchanged { IfNone result (to.new ≡ to.old) }
{
    let size = number.unsigned_abs();
    if size >= 10_000_000_000_000_000 {
        return None;
    }
    let behind = put_byte_if(to, at, b'-', number < 0);
    Some(put_scaled(to, behind, size, scale))
}

/// The same for a number of 128 bits.
#[inline(always)]
pub(crate) fn put_wide_decimal(
    to: &mut [u8],
    at: usize,
    number: i128,
    scale: usize,
) -> Option<usize>
    requires room { at + 26 ≤ length to.old }
    requires some { 1 ≤ scale }
    requires few { scale ≤ 7 }
    ensures text { IfSome result (λ end. take end to.new ≡ take at to.old ++ decimal_text scale number) }
    ensures within { IfSome result (λ end. end ≤ at + 18) }
    ensures unchanged { IfNone result (to.new ≡ to.old) }
{
    match i64::try_from(number) {
        Ok(number) => put_narrow_decimal(to, at, number, scale),
        Err(_) => None,
    }
}

/// Puts a decimal number of any width. Nothing is put where it has no places, more than seven, or more than sixteen digits.
#[inline(never)]
pub(crate) fn put_decimal(to: &mut [u8], at: usize, number: i128, scale: u32) -> Option<usize>
    requires room { at + 26 ≤ length to.old }
    ensures text { IfSome result (λ end. take end to.new ≡ take at to.old ++ decimal_text scale number) }
    ensures within { IfSome result (λ end. end ≤ at + 18) }
    ensures unchanged { IfNone result (to.new ≡ to.old) }
{
    if scale == 0 || scale > 7 {
        return None;
    }
    put_wide_decimal(to, at, number, scale as usize)
}
