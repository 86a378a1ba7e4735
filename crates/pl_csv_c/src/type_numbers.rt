//! Types as numbers, as the header `c/pl_csv.h` lists them.
ghost use Rattle.std.specs.Prelude.{◌≡◌};
ghost use Rattle.pl_csv_c.specs.Views.{type_number, unit_number, precision_of, scale_of};

use pl_frame::data_type::{DataType, TimeUnit};

/// The number of a type.
pub fn type_number(dtype: &DataType) -> u32
    ensures { result ≡ type_number dtype.now }
{
    match dtype {
        DataType::Boolean => 0,
        DataType::Int8 => 1,
        DataType::Int16 => 2,
        DataType::Int32 => 3,
        DataType::Int64 => 4,
        DataType::Int128 => 5,
        DataType::UInt8 => 6,
        DataType::UInt16 => 7,
        DataType::UInt32 => 8,
        DataType::UInt64 => 9,
        DataType::String => 10,
        DataType::Categorical => 11,
        DataType::Enum(_) => 12,
        DataType::Date => 13,
        DataType::Time => 14,
        DataType::Datetime(_) => 15,
        DataType::Decimal(_, _) => 16,
        DataType::Null => 17,
    }
}

/// The number of a datetime's unit, 0 of any other type.
pub fn unit_number(dtype: &DataType) -> u32
    ensures { result ≡ unit_number dtype.now }
{
    match dtype {
        DataType::Datetime(TimeUnit::Microseconds) => 1,
        DataType::Datetime(TimeUnit::Nanoseconds) => 2,
        _ => 0,
    }
}

/// The precision of a decimal, 0 where it has none, and of any other type.
pub fn precision_of(dtype: &DataType) -> u32
    ensures { result ≡ precision_of dtype.now }
{
    match dtype {
        DataType::Decimal(Some(digits), _) => *digits,
        _ => 0,
    }
}

/// The scale of a decimal, 0 where it has none, and of any other type.
pub fn scale_of(dtype: &DataType) -> u32
    ensures { result ≡ scale_of dtype.now }
{
    match dtype {
        DataType::Decimal(_, Some(scale)) => *scale,
        _ => 0,
    }
}
