//! What an input has where its fault is: the line, the column and the text.

use crate::fault_line::Place;
use crate::records::{field_at, from_record, line_ends_before};
use crate::types::type_name;
use pl_options::read_options::CsvReadOptions;
use pl_read::checks::check_options;
use pl_read::preparing::{Prepared, prepare};
use pl_terminal::message::{MOST_SHOWN, Message};
use std::alloc::{AllocError, Global};

/// An input, and how it is read.
#[derive(Clone, Copy)]
pub struct Input<'a> {
    pub bytes: &'a [u8],
    pub read: &'a CsvReadOptions,
}

// What the rows of an input are read by, where that can be said.
fn prepared(alloc: Global, input: &Input<'_>) -> Option<Prepared> {
    if check_options(input.read).is_err() {
        return None;
    }
    prepare(alloc, input.bytes, input.read).ok()
}

// Tells a column: its number, from 1, and where the schema has it its name and its type.
fn add_column(message: &mut Message, prepared: &Prepared, column: usize) -> Result<(), AllocError> {
    message.add(" in column ")?;
    message.add_number(column.saturating_add(1))?;
    match prepared.schema.get_at_index(column) {
        Some((name, dtype)) => {
            message.add(", `")?;
            message.add_shown(name.as_str().as_bytes(), MOST_SHOWN)?;
            message.add("` (")?;
            message.add(type_name(dtype))?;
            message.add(")")
        }
        None => Ok(()),
    }
}

// Tells the text of a field.
fn add_text(message: &mut Message, field: &[u8]) -> Result<(), AllocError> {
    message.add("`")?;
    message.add_shown(without_return(field), MOST_SHOWN)?;
    message.add("`")
}

// A field without the carriage return at its end.
fn without_return(field: &[u8]) -> &[u8] {
    match field {
        [front @ .., b'\r'] => front,
        _ => field,
    }
}

/// Tells where an input has its fault, and what stands there; answers whether that could be found. Refuses only want of memory.
pub(crate) fn add_place(
    message: &mut Message,
    alloc: Global,
    input: &Input<'_>,
    place: &Place,
) -> Result<bool, AllocError> {
    let Some(prepared) = prepared(alloc, input) else {
        return Ok(false);
    };
    let told = add_prepared(message, input, &prepared, place);
    drop(prepared);
    told
}

// The same, by what its rows are read by.
fn add_prepared(
    message: &mut Message,
    input: &Input<'_>,
    prepared: &Prepared,
    place: &Place,
) -> Result<bool, AllocError> {
    let Some(records) = input.bytes.get(prepared.start..) else {
        return Ok(false);
    };
    let dialect = input.read.parse_options.dialect();
    if !dialect.is_valid() {
        return Ok(false);
    }
    let record = from_record(records, place.row, &dialect);
    if record.is_empty() {
        return Ok(false);
    }
    let Some(field) = field_at(record, place.column, &dialect) else {
        return Ok(false);
    };
    message.add(" (line ")?;
    let ends = line_ends_before(input.bytes, record.len(), dialect.eol_char);
    message.add_number(ends.saturating_add(1))?;
    message.add(") has ")?;
    add_text(message, field)?;
    add_column(message, prepared, place.column)?;
    Ok(true)
}
