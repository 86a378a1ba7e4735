//! The types of columns of the host's own.
ghost use Rattle.std.specs.Prelude.{◌≡◌, true, false, map, not, option_map, length, IfOk, OnOk};
ghost use Rattle.std.specs.List.{list_any};
ghost use Rattle.std.specs.Str.{is_utf8};
ghost use Rattle.pl_csv_c.specs.HostColumns.{all_texts, categories_in, numbered_unit, numbered_precision, numbered_type, host_type};

use crate::host_column::{HostColumn, checked_text};
use pl_cells::utf8::validate_utf8;
use pl_frame::data_type::{Categories, DataType, TimeUnit};
use pl_frame::name::PlSmallStr;
use pl_rows::push::push;
use std::alloc::{AllocError, Global};

// The unit of a number.
fn numbered_unit(number: u32) -> Option<TimeUnit>
    ensures { result ≡ numbered_unit number }
{
    match number {
        0 => Some(TimeUnit::Milliseconds),
        1 => Some(TimeUnit::Microseconds),
        2 => Some(TimeUnit::Nanoseconds),
        _ => None,
    }
}

// The precision of a number, of which 0 says that there is none.
fn numbered_precision(number: u32) -> Option<u32>
    ensures { result ≡ numbered_precision number }
{
    if number == 0 { None } else { Some(number) }
}

// The type of a number that needs nothing besides it.
fn numbered_type(number: u32) -> Option<DataType>
    ensures { result ≡ numbered_type number }
{
    match number {
        0 => Some(DataType::Boolean),
        1 => Some(DataType::Int8),
        2 => Some(DataType::Int16),
        3 => Some(DataType::Int32),
        4 => Some(DataType::Int64),
        5 => Some(DataType::Int128),
        6 => Some(DataType::UInt8),
        7 => Some(DataType::UInt16),
        8 => Some(DataType::UInt32),
        9 => Some(DataType::UInt64),
        10 => Some(DataType::String),
        11 => Some(DataType::Categorical),
        13 => Some(DataType::Date),
        14 => Some(DataType::Time),
        17 => Some(DataType::Null),
        _ => None,
    }
}

// A copy of a text that is known to be UTF-8. Refuses only want of memory.
fn copy_of(alloc: Global, text: &[u8]) -> Result<PlSmallStr, AllocError>
    requires { is_utf8 text.now ≡ true }
    ensures { IfOk result (λ copy. copy ≡ text.now) }
{
    let Some(text) = checked_text(text) else {
        unreachable!()
    };
    match PlSmallStr::from_str(alloc, text) {
        Ok(copy) => Ok(copy),
        Err(_) => Err(AllocError),
    }
}

// Copies of texts that are known to be UTF-8. Refuses only want of memory.
fn copies_of(alloc: Global, texts: &[&[u8]]) -> Result<Vec<PlSmallStr>, AllocError>
    requires { list_any (λ text. not (is_utf8 text.now)) texts.now ≡ false }
    ensures { IfOk result (λ copies. copies.items ≡ map (λ text. text.now) texts.now) }
{
    let mut copies = Vec::new(alloc);
    for text in texts {
        let copy = copy_of(alloc, text)?;
        push(&mut copies, copy)?;
    }
    Ok(copies)
}

// Whether one of these is not UTF-8.
fn is_one_broken(texts: &[&[u8]]) -> bool
    ensures { result ≡ list_any (λ text. not (is_utf8 text.now)) texts.now }
{
    texts.iter().any(|text| !validate_utf8(text))
}

// An enum of texts, where each of them is UTF-8. Refuses only want of memory.
fn enum_of(alloc: Global, texts: &[&[u8]]) -> Result<Option<DataType>, AllocError>
    ensures { IfOk result (λ dtype. dtype ≡ option_map (λ texts. DataType.Enum (Some texts)) (all_texts (map (λ text. text.now) texts.now))) }
{
    if is_one_broken(texts) {
        return Ok(None);
    }
    let copies = copies_of(alloc, texts)?;
    Ok(Some(DataType::Enum(Some(Categories::new(copies)))))
}

// A datetime of the unit of a number.
fn datetime_of(unit: u32) -> Option<DataType>
    ensures { result ≡ option_map (λ unit. DataType.Datetime unit) (numbered_unit unit) }
{
    match numbered_unit(unit) {
        Some(unit) => Some(DataType::Datetime(unit)),
        None => None,
    }
}

/// The type that the numbers of a column give, where they give one. Refuses only want of memory.
pub(crate) fn host_type(
    alloc: Global,
    column: &HostColumn<'_>,
) -> Result<Option<DataType>, AllocError>
    ensures { IfOk result (λ dtype. dtype ≡ host_type column.now) }
{
    match column.dtype {
        12 => enum_of(alloc, column.categories),
        15 => Ok(datetime_of(column.unit)),
        16 => {
            let precision = numbered_precision(column.precision);
            Ok(Some(DataType::Decimal(precision, Some(column.scale))))
        }
        _ => Ok(numbered_type(column.dtype)),
    }
}
