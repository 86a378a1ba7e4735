//! Which arrays a column's cells stand in, by its type.
ghost use Rattle.std.specs.Prelude.{◌≡◌};
ghost use Rattle.pl_csv_c.specs.Kinds.{kind_of};

use pl_frame::data_type::{DataType, TimeUnit};

/// Where the cells of a column stand, beside the flags that tell which of them are there.
#[derive(Clone, Copy, Debug, PartialEq, Eq)]
pub enum Kind {
    /// A number of 64 bits a row.
    Numbers,
    /// Two words a row, the low one first.
    Words,
    /// Bytes of all rows, and where each row's end.
    Texts,
    /// A place among the categories a row.
    Codes,
    /// Nowhere: each is a null.
    Nowhere,
}

/// Where the cells of a type stand.
pub fn kind_of(dtype: &DataType) -> Kind
    ensures { result ≡ kind_of dtype.now }
{
    match dtype {
        DataType::Boolean
        | DataType::Int8
        | DataType::Int16
        | DataType::Int32
        | DataType::Int64
        | DataType::UInt8
        | DataType::UInt16
        | DataType::UInt32
        | DataType::Date
        | DataType::Time
        | DataType::Datetime(TimeUnit::Milliseconds | TimeUnit::Microseconds) => Kind::Numbers,
        DataType::Int128
        | DataType::UInt64
        | DataType::Datetime(TimeUnit::Nanoseconds)
        | DataType::Decimal(_, _) => Kind::Words,
        DataType::String => Kind::Texts,
        DataType::Categorical | DataType::Enum(_) => Kind::Codes,
        DataType::Null => Kind::Nowhere,
    }
}
