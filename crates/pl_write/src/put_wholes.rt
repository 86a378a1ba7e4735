//! Whole numbers of 64 bits, put into a block from a place on.
ghost use Rattle.std.specs.Prelude.{◌≡◌, ◌++◌, ◌∷◌, [], ◌<◌, ◌+◌, ◌≤◌, length, take, decimal};
ghost use Rattle.std.specs.Fmt.{signed_decimal};
ghost use Rattle.pl_text.specs.ValueText.{padded};

use crate::digit_counts::{digit_count, short_digit_count};
use crate::digit_words::{bytes_from, eight_digits};
use crate::puts::{put_byte_if, put_bytes, put_front};
use itoa::{Buffer, write_digits};

// Puts the digits of a number below 10^8.
#[inline(always)]
pub(crate) fn put_short(to: &mut [u8], at: usize, n: u32) -> usize
    requires room { at + 8 ≤ length to.old }
    requires small { n < 100000000 }
    ensures text { take result to.new ≡ take at to.old ++ decimal n }
    ensures end { result ≤ at + 8 }
{
    let count = short_digit_count(n);
    put_front(to, at, bytes_from(eight_digits(n), 8 - count), count)
}

// Puts eight digits, zeros in front among them.
#[inline(always)]
fn put_eight(to: &mut [u8], at: usize, n: u32) -> usize
    requires room { at + 8 ≤ length to.old }
    requires small { n < 100000000 }
    ensures text { take result to.new ≡ take at to.old ++ padded 8 n }
    ensures end { result ≡ at + 8 }
{
    put_front(to, at, eight_digits(n).to_le_bytes(), 8)
}

// Puts the digits of a number of 9 to 16 digits.
#[inline(always)]
fn put_middle(to: &mut [u8], at: usize, n: u64) -> usize
    requires room { at + 16 ≤ length to.old }
    requires low { 100000000 ≤ n }
    requires high { n < 10000000000000000 }
    ensures text { take result to.new ≡ take at to.old ++ decimal n }
    ensures end { result ≤ at + 16 }
{
    let middle = put_short(to, at, (n / 100_000_000) as u32);
    put_eight(to, middle, (n % 100_000_000) as u32)
}

// Puts the digits of a number, from the last to the first.
#[inline(never)]
fn put_long(to: &mut [u8], at: usize, n: u64) -> usize
    requires room { at + 20 ≤ length to.old }
    ensures text { take result to.new ≡ take at to.old ++ decimal n }
    ensures end { result ≤ at + 20 }
{
    let end = at + digit_count(n);
    write_digits(n, to, end);
    end
}

// Puts the digits of a number.
#[inline(always)]
fn put_digits(to: &mut [u8], at: usize, n: u64) -> usize
    requires room { at + 20 ≤ length to.old }
    ensures text { take result to.new ≡ take at to.old ++ decimal n }
    ensures end { result ≤ at + 20 }
{
    if n < 100_000_000 {
        put_short(to, at, n as u32)
    } else if n < 10_000_000_000_000_000 {
        put_middle(to, at, n)
    } else {
        put_long(to, at, n)
    }
}

/// Puts a number of 64 bits, with a minus below zero.
#[inline(always)]
pub(crate) fn put_narrow(to: &mut [u8], at: usize, number: i64) -> usize
    requires room { at + 21 ≤ length to.old }
    ensures text { take result to.new ≡ take at to.old ++ signed_decimal number }
    ensures end { result ≤ at + 21 }
{
    let behind = put_byte_if(to, at, b'-', number < 0);
    put_digits(to, behind, number.unsigned_abs())
}

// Puts a number of any width.
#[cold]
fn put_wide(to: &mut [u8], at: usize, number: i128) -> usize
    requires room { at + 40 ≤ length to.old }
    ensures text { take result to.new ≡ take at to.old ++ signed_decimal number }
    ensures end { result ≤ at + 40 }
{
    let mut digits = Buffer::new();
    put_bytes(to, at, digits.format(number).as_bytes())
}

/// Puts a whole number of any width, with a minus below zero.
#[inline]
pub(crate) fn put_whole(to: &mut [u8], at: usize, number: i128) -> usize
    requires room { at + 40 ≤ length to.old }
    ensures text { take result to.new ≡ take at to.old ++ signed_decimal number }
    ensures end { result ≤ at + 40 }
{
    match i64::try_from(number) {
        Ok(number) => put_narrow(to, at, number),
        Err(_) => put_wide(to, at, number),
    }
}
