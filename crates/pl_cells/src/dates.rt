//! Days from text. No call takes memory.
ghost use Rattle.std.specs.Prelude.{◌≡◌, ◌+◌, ◌≤◌, ◌<◌, length, pos, IfSome, Some, true};
ghost use Rattle.pl_frame.specs.Types.{is_within, day_range};
ghost use Rattle.pl_cells.specs.Integers.{digits_value};
ghost use Rattle.pl_cells.specs.Dates.{part, date_value, number_of_day};

use jiff_core::civil::Date;

/// The number that two digits write.
#[inline(always)]
pub(crate) fn two_digits(text: &[u8], start: usize) -> Option<u8>
    requires { start + 2 ≤ length text.now }
    ensures value { result ≡ digits_value (part start 2 text.now) }
    ensures small { IfSome result (λ n. n < 100) }
{
    let (tens, ones) = (text[start], text[start + 1]);
    if tens.is_ascii_digit() && ones.is_ascii_digit() {
        Some((tens - b'0') * 10 + (ones - b'0'))
    } else {
        None
    }
}

// The number that four digits write.
#[inline(always)]
fn four_digits(text: &[u8]) -> Option<u16>
    requires { 4 ≤ length text.now }
    ensures value { result ≡ digits_value (part 0 4 text.now) }
    ensures small { IfSome result (λ n. n < 10000) }
{
    let century = two_digits(text, 0)?;
    let year = two_digits(text, 2)?;
    Some(u16::from(century) * 100 + u16::from(year))
}

/// The days from 1970-01-01 to the day, where the calendar has it.
#[inline]
pub(crate) fn day_of(year: u16, month: u8, day: u8) -> Option<i64>
    requires year_in { year < 10000 }
    requires month_in { month < 100 }
    requires day_in { day < 100 }
    ensures value { result ≡ number_of_day (Some year) (Some month) (Some day) }
    ensures within { IfSome result (λ n. is_within day_range n ≡ true) }
{
    match Date::new(year as i16, month as i8, day as i8) {
        Ok(date) => Some(i64::from(date.to_unix_epoch_day())),
        Err(_) => None,
    }
}

/// The days from 1970-01-01 to the date that a text writes as `YYYY-MM-DD`: a day of the calendar, of the years 0000 to
/// 9999.
#[inline(always)]
pub fn parse_date(text: &[u8]) -> Option<i64>
    ensures value { result ≡ date_value text.now }
    ensures within { IfSome result (λ n. is_within day_range n ≡ true) }
{
    if text.len() != 10 || text[4] != b'-' || text[7] != b'-' {
        return None;
    }
    let year = four_digits(text)?;
    let month = two_digits(text, 5)?;
    let day = two_digits(text, 8)?;
    day_of(year, month, day)
}
