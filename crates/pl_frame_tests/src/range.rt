//! Tests of `pl_frame::range`.

use pl_frame::data_type::{DataType, TimeUnit};
use pl_frame::range::NumberRange;

// Whether a type holds the numbers from one to another.
fn has_range(dtype: &DataType, low: i128, high: i128) -> bool {
    dtype.readable() && dtype.range() == Some(NumberRange { low, high })
}

#[test]
fn numbers_lie_in_their_ranges(rt: HostRuntime) {
    let digits = 99_999_999_999_999_999_999_999_999_999_999_999_999;
    assert!(rt; has_range(&DataType::Int8, -128, 127));
    assert!(rt; has_range(&DataType::UInt64, 0, 18_446_744_073_709_551_615));
    let (low, high) = (-62_167_219_200_000_000_000, 253_402_300_799_999_999_999);
    let unit = DataType::Datetime(TimeUnit::Nanoseconds);
    assert!(rt; has_range(&unit, low, high));
    assert!(rt; has_range(&DataType::Decimal(None, Some(1)), -digits, digits));
}
