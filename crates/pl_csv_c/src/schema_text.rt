//! The text of a schema, as `--schema` takes it.
ghost use Rattle.std.specs.Prelude.{◌≡◌, ◌++◌, ◌∷◌, ◌==◌, [], decimal, string_bytes, IfOk, OnOk, if◌then◌else◌};
ghost use Rattle.std.specs.List.{join_with_byte};
ghost use Rattle.pl_csv_c.specs.SchemaText.{type_name, unit_name, precision_text, type_text, schema_text};

use pl_frame::data_type::{DataType, TimeUnit};
use pl_frame::name::PlSmallStr;
use pl_frame::schema::Schema;
use std::alloc::{AllocError, Global};

// What a type is called, without its parts.
fn type_name(dtype: &DataType) -> &'static str
    ensures { result.now ≡ type_name dtype.now }
{
    match dtype {
        DataType::Boolean => "boolean",
        DataType::Int8 => "int8",
        DataType::Int16 => "int16",
        DataType::Int32 => "int32",
        DataType::Int64 => "int64",
        DataType::Int128 => "int128",
        DataType::UInt8 => "uint8",
        DataType::UInt16 => "uint16",
        DataType::UInt32 => "uint32",
        DataType::UInt64 => "uint64",
        DataType::String => "string",
        DataType::Categorical => "category",
        DataType::Enum(_) => "enum",
        DataType::Date => "date",
        DataType::Time => "time",
        DataType::Datetime(_) => "datetime",
        DataType::Decimal(_, _) => "decimal",
        DataType::Null => "null",
    }
}

// What a unit is called.
fn unit_name(unit: TimeUnit) -> &'static str
    ensures { result.now ≡ unit_name unit }
{
    match unit {
        TimeUnit::Milliseconds => "ms",
        TimeUnit::Microseconds => "us",
        TimeUnit::Nanoseconds => "ns",
    }
}

// Appends a number. Refuses only want of memory.
fn push_number(text: &mut String, number: u32) -> Result<(), AllocError>
    ensures { OnOk result (string_bytes text.new ≡ string_bytes text.old ++ decimal number) }
{
    let mut digits = itoa::Buffer::new();
    text.push_str(digits.format(number))
}

// Appends a precision, or a minus where there is none. Refuses only want of memory.
fn push_precision(text: &mut String, precision: Option<u32>) -> Result<(), AllocError>
    ensures { OnOk result (string_bytes text.new ≡ string_bytes text.old ++ precision_text precision) }
{
    match precision {
        Some(digits) => push_number(text, digits),
        None => text.push_str("-"),
    }
}

// Appends a mark, but in front of the first part. Refuses only want of memory.
fn push_mark(text: &mut String, mark: &str, place: usize) -> Result<(), AllocError>
    ensures { OnOk result (string_bytes text.new ≡ string_bytes text.old ++ (if place == 0 then [] else mark.now)) }
{
    if place == 0 {
        return Ok(());
    }
    text.push_str(mark)
}

// Appends texts with a slash between them. Refuses only want of memory.
fn push_texts(text: &mut String, texts: &[PlSmallStr]) -> Result<(), AllocError>
    ensures { OnOk result (string_bytes text.new ≡ string_bytes text.old ++ join_with_byte 47 texts.now) }
{
    for place in 0..texts.len() {
        push_mark(text, "/", place)?;
        text.push_str(texts[place].as_str())?;
    }
    Ok(())
}

// Appends a slash and texts with a slash between them. Refuses only want of memory.
fn push_categories(text: &mut String, texts: &[PlSmallStr]) -> Result<(), AllocError>
    ensures { OnOk result (string_bytes text.new ≡ string_bytes text.old ++ (47 ∷ join_with_byte 47 texts.now)) }
{
    text.push_str("/")?;
    push_texts(text, texts)
}

// Appends a slash and a unit. Refuses only want of memory.
fn push_unit(text: &mut String, unit: TimeUnit) -> Result<(), AllocError>
    ensures { OnOk result (string_bytes text.new ≡ string_bytes text.old ++ (47 ∷ unit_name unit)) }
{
    text.push_str("/")?;
    text.push_str(unit_name(unit))
}

// Appends a slash, a precision, a slash and a scale. Refuses only want of memory.
fn push_digits(text: &mut String, precision: Option<u32>, scale: u32) -> Result<(), AllocError>
    ensures { OnOk result (string_bytes text.new ≡ string_bytes text.old ++ (47 ∷ (precision_text precision ++ (47 ∷ decimal scale)))) }
{
    text.push_str("/")?;
    push_precision(text, precision)?;
    text.push_str("/")?;
    push_number(text, scale)
}

// Appends the text of a type. Refuses only want of memory.
fn push_type(text: &mut String, dtype: &DataType) -> Result<(), AllocError>
    ensures { OnOk result (string_bytes text.new ≡ string_bytes text.old ++ type_text dtype.now) }
{
    text.push_str(type_name(dtype))?;
    match dtype {
        DataType::Enum(Some(categories)) => push_categories(text, categories.texts()),
        DataType::Datetime(unit) => push_unit(text, *unit),
        DataType::Decimal(precision, Some(scale)) => push_digits(text, *precision, *scale),
        _ => Ok(()),
    }
}

// Appends a name, a colon and the text of a type. Refuses only want of memory.
fn push_entry(text: &mut String, name: &str, dtype: &DataType) -> Result<(), AllocError>
    ensures { OnOk result (string_bytes text.new ≡ string_bytes text.old ++ (name.now ++ (58 ∷ type_text dtype.now))) }
{
    text.push_str(name)?;
    text.push_str(":")?;
    push_type(text, dtype)
}

/// The text of a schema. Refuses only want of memory.
pub(crate) fn text_of_schema(alloc: Global, schema: &Schema) -> Result<String, AllocError>
    ensures { IfOk result (λ text. string_bytes text ≡ schema_text schema.now) }
{
    let mut text = String::new(alloc);
    for place in 0..schema.len() {
        let (name, dtype) = schema.entry(place);
        push_mark(&mut text, ",", place)?;
        push_entry(&mut text, name.as_str(), dtype)?;
    }
    Ok(text)
}
