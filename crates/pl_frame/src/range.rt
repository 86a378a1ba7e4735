//! The numbers that a type holds.
ghost use Rattle.std.specs.Prelude.{◌≡◌, true, Some, option_map, position, pos, ◌≤◌, ◌≤ℤ◌, ◌^◌};
ghost use Rattle.pl_frame.specs.Columns.{is_number};
ghost use Rattle.pl_frame.specs.Types.{from_to, is_readable, is_within, is_narrow, is_outside, range_of, datetime_range, units_in_second, decimal_range, HasFewDigits};

use crate::data_type::{DataType, TimeUnit};

/// The numbers from one to another, both included.
#[derive(Clone, Copy, Debug, PartialEq, Eq)]
pub struct NumberRange {
    pub low: i128,
    pub high: i128,
}

impl DataType {
    /// The numbers that a column of the type may hold, where it holds numbers. Takes no memory.
    pub fn range(&self) -> Option<NumberRange>
        requires { is_readable self.now ≡ true }
        ensures { option_map (λ range. from_to range.low range.high) result ≡ range_of self.now }
    {
        match self {
            DataType::Int8 => range(i128::from(i8::MIN), i128::from(i8::MAX)),
            DataType::Int16 => range(i128::from(i16::MIN), i128::from(i16::MAX)),
            DataType::Int32 => range(i128::from(i32::MIN), i128::from(i32::MAX)),
            DataType::Int64 => range(i128::from(i64::MIN), i128::from(i64::MAX)),
            DataType::Int128 => range(i128::MIN, i128::MAX),
            DataType::UInt8 => range(0, i128::from(u8::MAX)),
            DataType::UInt16 => range(0, i128::from(u16::MAX)),
            DataType::UInt32 => range(0, i128::from(u32::MAX)),
            DataType::UInt64 => range(0, i128::from(u64::MAX)),
            DataType::Date => range(-719_528, 2_932_896),
            DataType::Time => range(0, 86_399_999_999_999),
            DataType::Datetime(unit) => Some(datetime_range(*unit)),
            DataType::Decimal(digits, _) => Some(decimal_range(*digits)),
            _ => None,
        }
    }

    // The same of a type of numbers.
    pub(crate) fn number_range(&self) -> NumberRange
        requires kind { is_number self.now ≡ true }
        requires readable { is_readable self.now ≡ true }
        ensures { Some (from_to result.low result.high) ≡ range_of self.now }
    {
        match self.range() {
            Some(range) => range,
            None => unreachable!(),
        }
    }
}

#[inline]
fn range(low: i128, high: i128) -> Option<NumberRange>
    ensures { option_map (λ range. from_to range.low range.high) result ≡ Some (from_to low high) }
{
    Some(NumberRange { low, high })
}

// The units of the years 0000 to 9999.
fn datetime_range(unit: TimeUnit) -> NumberRange
    ensures { from_to result.low result.high ≡ datetime_range (units_in_second unit) }
{
    match unit {
        TimeUnit::Milliseconds => NumberRange {
            low: -62_167_219_200_000,
            high: 253_402_300_799_999,
        },
        TimeUnit::Microseconds => NumberRange {
            low: -62_167_219_200_000_000,
            high: 253_402_300_799_999_999,
        },
        TimeUnit::Nanoseconds => NumberRange {
            low: -62_167_219_200_000_000_000,
            high: 253_402_300_799_999_999_999,
        },
    }
}

// The numbers of so many digits.
fn decimal_range(digits: Option<u32>) -> NumberRange
    requires { HasFewDigits digits }
    ensures { from_to result.low result.high ≡ decimal_range digits }
{
    let digits = digits.unwrap_or(38);
    let high = power_of_ten(digits) - 1;
    NumberRange { low: -high, high }
}

fn power_of_ten(exponent: u32) -> i128
    requires { exponent ≤ 38 }
    ensures value { result ≡ pos (10 ^ exponent) }
    ensures positive { pos 1 ≤ℤ result }
    ensures bound { result ≤ℤ pos (10 ^ 38) }
{
    10i128.pow(exponent)
}

impl NumberRange {
    /// Whether each number of the range fits 64 bits with a sign.
    pub fn is_narrow(&self) -> bool
        ensures { result ≡ is_narrow (from_to self.now.low self.now.high) }
    {
        i128::from(i64::MIN) <= self.low && self.high <= i128::from(i64::MAX)
    }

    /// The first place of a number outside the range.
    pub fn first_outside(&self, values: &[Option<i128>]) -> Option<usize>
        ensures { result ≡ position (is_outside (from_to self.now.low self.now.high)) values.now }
    {
        values.iter().position(|value| is_outside(self, *value))
    }

    /// Whether a number lies in the range.
    #[inline]
    pub fn contains(&self, number: i128) -> bool
        ensures { result ≡ is_within (from_to self.now.low self.now.high) number }
    {
        self.low <= number && number <= self.high
    }
}

// Whether there is a number, and it lies outside the range.
#[inline]
fn is_outside(range: &NumberRange, value: Option<i128>) -> bool
    ensures { result ≡ is_outside (from_to range.now.low range.now.high) value }
{
    match value {
        Some(number) => !range.contains(number),
        None => false,
    }
}
