//! Dates and the numbers in them, put into a block from a place on.
ghost use Rattle.std.specs.Prelude.{◌≡◌, ◌++◌, ◌<◌, ◌+◌, ◌≤◌, true, length, take};
ghost use Rattle.pl_frame.specs.Types.{is_within, day_range};
ghost use Rattle.pl_frame.specs.Days.{civil};
ghost use Rattle.pl_text.specs.ValueText.{civil_text, date_text, padded};

use crate::digit_words::two_digits;
use crate::puts::{put_byte, put_front};
use jiff_core::civil::Date;

/// Puts a number in two digits.
#[inline(always)]
pub(crate) fn put_two(to: &mut [u8], at: usize, n: u32) -> usize
    requires room { at + 8 ≤ length to.old }
    requires small { n < 100 }
    ensures text { take result to.new ≡ take at to.old ++ padded 2 n }
    ensures end { result ≡ at + 2 }
{
    put_front(to, at, two_digits(n), 2)
}

// Puts a number in four digits.
#[inline(always)]
fn put_four(to: &mut [u8], at: usize, n: u32) -> usize
    requires room { at + 10 ≤ length to.old }
    requires small { n < 10000 }
    ensures text { take result to.new ≡ take at to.old ++ padded 4 n }
    ensures end { result ≡ at + 4 }
{
    let middle = put_two(to, at, n / 100);
    put_two(to, middle, n % 100)
}

// Puts a date as `YYYY-MM-DD`.
#[inline(always)]
fn put_civil(to: &mut [u8], at: usize, year: u32, month: u32, day: u32) -> usize
    requires room { at + 16 ≤ length to.old }
    requires year_in { year < 10000 }
    requires month_in { month < 100 }
    requires day_in { day < 100 }
    ensures text { take result to.new ≡ take at to.old ++ civil_text (civil year month day) }
    ensures end { result ≡ at + 10 }
{
    let year_end = put_four(to, at, year);
    let month_begin = put_byte(to, year_end, b'-');
    let month_end = put_two(to, month_begin, month);
    let day_begin = put_byte(to, month_end, b'-');
    put_two(to, day_begin, day)
}

/// Puts the date of a day number, as `YYYY-MM-DD`.
#[inline(always)]
pub(crate) fn put_date(to: &mut [u8], at: usize, day: i64) -> usize
    requires room { at + 16 ≤ length to.old }
    requires day { is_within day_range day ≡ true }
    ensures text { take result to.new ≡ take at to.old ++ date_text day }
    ensures end { result ≡ at + 10 }
{
    let date = Date::from_days_since_min((day + 4_371_587) as u32);
    put_civil(
        to,
        at,
        date.year as u32,
        u32::from(date.month),
        u32::from(date.day),
    )
}
