//! Times of the day, and dates with times, as text.
ghost use Rattle.std.specs.Prelude.{◌≡◌, ◌++◌, ◌<◌, ◌*◌, ◌^◌, true, pos, unsigned_abs, OnOk};
ghost use Rattle.std.specs.Int.{int_div_euclid, int_rem_euclid};
ghost use Rattle.jiff_core.specs.Calendar.{IsBetween};
ghost use Rattle.pl_frame.specs.Types.{is_within, time_range, datetime_range, units_in_second};
ghost use Rattle.pl_text.specs.ValueText.{time_text, datetime_text};
ghost use Rattle.pl_write.specs.Writing.{StaysInFront};

use crate::put_times::{put_datetime, put_time};
use pl_frame::data_type::TimeUnit;
use std::alloc::AllocError;

// The second of the day at a count of seconds.
#[inline]
pub(crate) fn second_of_day(second: i64) -> u32
    ensures value { result ≡ unsigned_abs (int_rem_euclid second (pos 86400)) }
    ensures bound { result < 86400 }
{
    second.rem_euclid(86_400) as u32
}

// So many units make a second.
#[inline]
fn units_of(unit: TimeUnit) -> i64
    ensures value { result ≡ pos (units_in_second unit) }
    ensures bound { IsBetween (pos 1) (pos (10 ^ 9)) result }
{
    match unit {
        TimeUnit::Milliseconds => 1_000,
        TimeUnit::Microseconds => 1_000_000,
        TimeUnit::Nanoseconds => 1_000_000_000,
    }
}

// The second at or below a count of units. Each unit has an arm of its own, in which the divisor is known.
#[inline]
pub(crate) fn second_of(unit: TimeUnit, count: i64) -> i64
    ensures { result ≡ int_div_euclid count (pos (units_in_second unit)) }
{
    match unit {
        TimeUnit::Milliseconds => count.div_euclid(1_000),
        TimeUnit::Microseconds => count.div_euclid(1_000_000),
        TimeUnit::Nanoseconds => count.div_euclid(1_000_000_000),
    }
}

// The units of a count behind that second.
#[inline]
pub(crate) fn rest_of(unit: TimeUnit, count: i64) -> u32
    ensures value { result ≡ unsigned_abs (int_rem_euclid count (pos (units_in_second unit))) }
    ensures bound { result < units_in_second unit }
{
    match unit {
        TimeUnit::Milliseconds => count.rem_euclid(1_000) as u32,
        TimeUnit::Microseconds => count.rem_euclid(1_000_000) as u32,
        TimeUnit::Nanoseconds => count.rem_euclid(1_000_000_000) as u32,
    }
}

// The second at or below a count of units of any size.
#[inline]
pub(crate) fn wide_second_of(unit: TimeUnit, count: i128) -> i64
    requires { is_within (datetime_range (units_in_second unit)) count ≡ true }
    ensures { result ≡ int_div_euclid count (pos (units_in_second unit)) }
{
    count.div_euclid(i128::from(units_of(unit))) as i64
}

// The units of a count of any size behind that second.
#[inline]
pub(crate) fn wide_rest_of(unit: TimeUnit, count: i128) -> u32
    ensures value { result ≡ unsigned_abs (int_rem_euclid count (pos (units_in_second unit))) }
    ensures bound { result < units_in_second unit }
{
    count.rem_euclid(i128::from(units_of(unit))) as u32
}

/// Appends a time of the day, given in nanoseconds, as `HH:MM:SS.` and nine digits.
#[inline]
pub(crate) fn push_time(block: &mut Vec<u8>, nanoseconds: i64) -> Result<(), AllocError>
    requires { is_within time_range nanoseconds ≡ true }
    ensures text { OnOk result (block.new.items ≡ block.old.items ++ time_text (unsigned_abs nanoseconds)) }
    ensures kept { StaysInFront block.old.items block.new.items }
{
    let at = block.len();
    block.resize(at + 18, 0)?;
    let end = put_time(block, at, nanoseconds);
    block.truncate(end);
    Ok(())
}

/// Appends a date and a time of the day, given in units from 1970-01-01T00:00:00, as `YYYY-MM-DDTHH:MM:SS.` and three, six
/// or nine digits.
#[inline]
pub(crate) fn push_datetime(
    block: &mut Vec<u8>,
    unit: TimeUnit,
    count: i128,
) -> Result<(), AllocError>
    requires { is_within (datetime_range (units_in_second unit)) count ≡ true }
    ensures text { OnOk result (block.new.items ≡ block.old.items ++ datetime_text unit count) }
    ensures kept { StaysInFront block.old.items block.new.items }
{
    let at = block.len();
    block.resize(at + 29, 0)?;
    let end = put_datetime(block, at, unit, count);
    block.truncate(end);
    Ok(())
}
