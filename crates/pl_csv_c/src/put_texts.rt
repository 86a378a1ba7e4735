//! Texts of cells, put behind others.
ghost use Rattle.std.specs.Prelude.{◌≡◌, ◌<◌, ◌≤◌, ◌++◌, length, slice_get, slice_range, unwrap_or, None, OnOk};
ghost use Rattle.std.specs.List.{flat_map};
ghost use Rattle.pl_csv_c.specs.Arrays.{letters_in, ends_behind};
ghost use Rattle.pl_frame.specs.Columns.{scalar_of, text_cells};

use pl_frame::column::{Column, Value};
use pl_frame::texts::Texts;
use std::alloc::AllocError;

// So many bytes are copied in one go where a text has no more.
const SHORT: usize = 32;

// Puts a part of a buffer behind others: of a short one also what stands behind it, which goes again.
#[inline]
fn put_part(bytes: &mut Vec<u8>, buffer: &[u8], begin: usize, end: usize) -> Result<(), AllocError>
    requires { (begin ≤ end) × (end ≤ length buffer.now) }
    ensures { OnOk result (bytes.new.items ≡ bytes.old.items ++ slice_range buffer.now begin end) }
{
    if end - begin > SHORT || buffer.len() - begin < SHORT {
        return bytes.extend_from_slice(&buffer[begin..end]);
    }
    let behind = bytes.len() + (end - begin);
    bytes.extend_from_slice(&buffer[begin..begin + SHORT])?;
    bytes.truncate(behind);
    Ok(())
}

// Puts the text at a place behind others, which is none where there is a null.
#[inline]
fn put_kept(bytes: &mut Vec<u8>, texts: &Texts, row: usize) -> Result<(), AllocError>
    requires { row < length texts.now }
    ensures { OnOk result (bytes.new.items ≡ bytes.old.items ++ letters_in (unwrap_or (slice_get (text_cells texts.now) row) None)) }
{
    match texts.part(row) {
        Some(part) => put_part(bytes, part.buffer, part.begin, part.end),
        None => Ok(()),
    }
}

// Puts texts behind others, with their ends.
fn put_all_kept(ends: &mut Vec<usize>, bytes: &mut Vec<u8>, texts: &Texts) -> Result<(), AllocError>
    ensures bytes { OnOk result (bytes.new.items ≡ bytes.old.items ++ flat_map letters_in (text_cells texts.now)) }
    ensures ends { OnOk result (ends.new.items ≡ ends.old.items ++ ends_behind (length bytes.old.items) (text_cells texts.now)) }
{
    ends.reserve(texts.len())?;
    bytes.reserve(texts.byte_len().saturating_add(SHORT))?;
    for row in 0..texts.len() {
        put_kept(bytes, texts, row)?;
        ends.push_reserved(bytes.len());
    }
    Ok(())
}

// The text of a cell, which is empty where there is none.
#[inline]
fn letters_in(value: Value<'_>) -> &str
    ensures { result.now ≡ letters_in (scalar_of value.entry) }
{
    match value {
        Value::Text(text) => text,
        Value::Boolean(_) | Value::Whole(_) | Value::Null => "",
    }
}

// The texts of a column, cell by cell.
fn put_each(ends: &mut Vec<usize>, bytes: &mut Vec<u8>, column: &Column) -> Result<(), AllocError>
    ensures bytes { OnOk result (bytes.new.items ≡ bytes.old.items ++ flat_map letters_in column.now.values) }
    ensures ends { OnOk result (ends.new.items ≡ ends.old.items ++ ends_behind (length bytes.old.items) column.now.values) }
{
    for row in 0..column.len() {
        bytes.extend_from_slice(letters_in(column.get(row)).as_bytes())?;
        ends.push(bytes.len())?;
    }
    Ok(())
}

/// Puts the text of each cell of a column behind others, with their ends. Refuses only want of memory.
pub(crate) fn put_texts(
    ends: &mut Vec<usize>,
    bytes: &mut Vec<u8>,
    column: &Column,
) -> Result<(), AllocError>
    ensures bytes { OnOk result (bytes.new.items ≡ bytes.old.items ++ flat_map letters_in column.now.values) }
    ensures ends { OnOk result (ends.new.items ≡ ends.old.items ++ ends_behind (length bytes.old.items) column.now.values) }
{
    match column.kept_texts() {
        Some(texts) => put_all_kept(ends, bytes, texts),
        None => put_each(ends, bytes, column),
    }
}
