//! How the types of columns are called.

use pl_frame::data_type::{DataType, TimeUnit};

/// The word for a type, and what its values are.
pub(crate) fn type_name(dtype: &DataType) -> &'static str {
    match dtype {
        DataType::Boolean => "`boolean`: true or false",
        DataType::Int8 => "`int8`: whole numbers from -128 to 127",
        DataType::Int16 => "`int16`: whole numbers from -32768 to 32767",
        DataType::Int32 => "`int32`: whole numbers of 32 bits",
        DataType::Int64 => "`int64`: whole numbers of 64 bits",
        DataType::Int128 => "`int128`: whole numbers of 128 bits",
        DataType::UInt8 => "`uint8`: whole numbers from 0 to 255",
        DataType::UInt16 => "`uint16`: whole numbers from 0 to 65535",
        DataType::UInt32 => "`uint32`: whole numbers of 32 bits without a sign",
        DataType::UInt64 => "`uint64`: whole numbers of 64 bits without a sign",
        DataType::String => "`string`",
        DataType::Categorical => "`category`",
        DataType::Enum(_) => "`enum`: one of its categories",
        DataType::Date => "`date`, such as 2024-02-29",
        DataType::Time => "`time`, such as 23:59:59",
        DataType::Datetime(TimeUnit::Milliseconds) => "`datetime/ms`, such as 2024-02-29T23:59:59",
        DataType::Datetime(TimeUnit::Microseconds) => "`datetime/us`, such as 2024-02-29T23:59:59",
        DataType::Datetime(TimeUnit::Nanoseconds) => "`datetime/ns`, such as 2024-02-29T23:59:59",
        DataType::Decimal(_, _) =>
            "`decimal`, with no more digits than its precision and its scale",
        DataType::Null => "`null`",
    }
}
