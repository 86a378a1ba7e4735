//! The texts of types.
ghost use Rattle.std.specs.Prelude.{◌≡◌, None, Some, IfOk, IsErrOf};
ghost use Rattle.std.specs.Option.{option_and_then};
ghost use Rattle.pl_words.specs.Splitting.{cut_at};
ghost use Rattle.pl_words.specs.TypeText.{plain_type, unit_named, small_number, precision_of, decimal_of, type_with, named_type};

use crate::from_text::{FromText, meant};
use crate::splitting::{cut_at, split_texts};
use crate::words::WordsFault;
use pl_cells::integers::number_of;
use pl_frame::data_type::{Categories, DataType, TimeUnit};
use std::alloc::Global;

// The type that a name means alone.
fn plain_type(text: &str) -> Option<DataType>
    ensures { result ≡ plain_type text.now }
{
    match text {
        "boolean" => Some(DataType::Boolean),
        "int8" => Some(DataType::Int8),
        "int16" => Some(DataType::Int16),
        "int32" => Some(DataType::Int32),
        "int64" => Some(DataType::Int64),
        "int128" => Some(DataType::Int128),
        "uint8" => Some(DataType::UInt8),
        "uint16" => Some(DataType::UInt16),
        "uint32" => Some(DataType::UInt32),
        "uint64" => Some(DataType::UInt64),
        "string" => Some(DataType::String),
        "category" => Some(DataType::Categorical),
        "enum" => Some(DataType::Enum(None)),
        "date" => Some(DataType::Date),
        "time" => Some(DataType::Time),
        "decimal" => Some(DataType::Decimal(None, None)),
        "null" => Some(DataType::Null),
        _ => None,
    }
}

// The unit of a datetime.
fn unit_named(text: &str) -> Option<TimeUnit>
    ensures { result ≡ unit_named text.now }
{
    match text {
        "ms" => Some(TimeUnit::Milliseconds),
        "us" => Some(TimeUnit::Microseconds),
        "ns" => Some(TimeUnit::Nanoseconds),
        _ => None,
    }
}

// The number that one or two digits write.
fn small_number(text: &str) -> Option<u32>
    ensures { result ≡ small_number text.now }
{
    if text.len() > 2 {
        return None;
    }
    match number_of(text.as_bytes()) {
        Some(number) => Some(number as u32),
        None => None,
    }
}

// The precision that a text writes, or none for a minus.
fn precision_of(text: &str) -> Option<Option<u32>>
    ensures { result ≡ precision_of text.now }
{
    if text == "-" {
        return Some(None);
    }
    match small_number(text) {
        Some(number) => Some(Some(number)),
        None => None,
    }
}

// A decimal of the precision and the scale that stand beside a slash.
fn decimal_of(parts: &str) -> Option<DataType>
    ensures { result ≡ option_and_then (λ cut. decimal_of cut.0 cut.1) (cut_at 47 parts.now) }
{
    let (precision, scale) = cut_at(parts, b'/')?;
    let precision = precision_of(precision)?;
    let scale = small_number(scale)?;
    Some(DataType::Decimal(precision, Some(scale)))
}

// The type of a name with parts. Refuses one that there is not, and want of memory.
fn type_with(alloc: Global, name: &str, parts: &str) -> Result<DataType, WordsFault>
    ensures known { IfOk result (λ dtype. type_with name.now parts.now ≡ Some dtype) }
    ensures refused { IsErrOf result WordsFault.Words → type_with name.now parts.now ≡ None }
{
    match name {
        "enum" => {
            let texts = split_texts(alloc, parts, b'/')?;
            Ok(DataType::Enum(Some(Categories::new(texts))))
        }
        "datetime" => match unit_named(parts) {
            Some(unit) => Ok(DataType::Datetime(unit)),
            None => Err(WordsFault::Words),
        },
        "decimal" => meant(decimal_of(parts)),
        _ => Err(WordsFault::Words),
    }
}

/// The type that a text names. Refuses a text that names none, and want of memory.
pub(crate) fn type_named(alloc: Global, text: &str) -> Result<DataType, WordsFault>
    ensures known { IfOk result (λ dtype. named_type text.now ≡ Some dtype) }
    ensures refused { IsErrOf result WordsFault.Words → named_type text.now ≡ None }
{
    match cut_at(text, b'/') {
        Some((name, parts)) => type_with(alloc, name, parts),
        None => meant(plain_type(text)),
    }
}

// TYPE.
impl FromText for DataType {
    ghost meaning = { named_type };

    fn from_text(alloc: Global, text: &str) -> Result<Self, WordsFault> {
        type_named(alloc, text)
    }
}
