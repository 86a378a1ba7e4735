//! Cells, put into a block from a place on. A cell for which there is no room is not put.
ghost use Rattle.std.specs.Prelude.{◌≡◌, true, ◌<◌, ◌++◌, ◌+◌, ◌*◌, ◌≤◌, length, take, IfSome, IfNone};
ghost use Rattle.pl_frame.specs.Columns.{is_number_of};
ghost use Rattle.pl_frame.specs.Frame.{Truth, cell_at};
ghost use Rattle.pl_text.specs.ValueText.{number_text, printed};
ghost use Rattle.pl_text.specs.FrameText.{written_cell, written_value, written_text};
ghost use Rattle.pl_frame.specs.Types.{is_numeric};
ghost use Rattle.pl_write.specs.CellForms.{FitsForm};
ghost use Rattle.pl_write.specs.Options.{cell_options};
ghost use Rattle.pl_write.specs.declared.cell_form.CellForm.TheVariants as CellForm;

use crate::cell_form::CellForm;
use crate::options::{QuoteStyle, SerializeOptions};
use crate::put_dates::put_date;
use crate::put_decimals::put_decimal;
use crate::put_texts::{put_as_needed, put_null, put_quoted};
use crate::put_times::{put_datetime, put_time};
use crate::put_wholes::put_whole;
use crate::puts::put_bytes;
use crate::spare::Spare;
use crate::values::{is_quoted, push_number_cell};
use pl_frame::column::{Column, Value};
use pl_frame::data_type::DataType;

// Puts a text, quoted as the style asks.
fn put_text_by_style(to: &mut [u8], at: usize, text: &[u8], options: &SerializeOptions) -> usize
    requires room { at + (2 * length text.now + 2) ≤ length to.old }
    ensures text { take result to.new ≡ take at to.old ++ written_text (cell_options options.now) text.now }
    ensures end { result ≤ at + (2 * length text.now + 2) }
{
    match options.quote_style {
        QuoteStyle::Necessary => {
            put_as_needed(to, at, text, options.separator, options.quote_char)
        }
        QuoteStyle::Never => put_bytes(to, at, text),
        QuoteStyle::Always => put_quoted(to, at, text, options.quote_char),
        QuoteStyle::NonNumeric => put_quoted(to, at, text, options.quote_char),
    }
}

/// Puts a text, quoted as the style asks, where there is room.
#[inline(never)]
pub(crate) fn put_text_in(
    to: &mut [u8],
    at: usize,
    text: &[u8],
    form: CellForm,
    options: &SerializeOptions,
) -> Option<usize>
    requires room { at ≤ length to.old }
    requires form { form ≡ CellForm.AsNeeded → (cell_options options.now).style ≡ 0 }
    ensures text { IfSome result (λ end. take end to.new ≡ take at to.old ++ written_text (cell_options options.now) text.now) }
    ensures within { IfSome result (λ end. end ≤ length to.new) }
    ensures unchanged { IfNone result (to.new ≡ to.old) }
{
    if text.len() >= (to.len() - at) / 2 {
        return None;
    }
    match form {
        CellForm::AsNeeded => {
            Some(put_as_needed(to, at, text, options.separator, options.quote_char))
        }
        CellForm::Digits | CellForm::ByCell => Some(put_text_by_style(to, at, text, options)),
    }
}

// Puts a number, as its type is printed. A decimal of many digits is not put.
#[inline]
fn put_number(to: &mut [u8], at: usize, dtype: &DataType, number: i128) -> Option<usize>
    requires room { at + 48 ≤ length to.old }
    requires range { is_number_of dtype.now number ≡ true }
    ensures text { IfSome result (λ end. take end to.new ≡ take at to.old ++ number_text dtype.now number) }
    ensures within { IfSome result (λ end. end ≤ length to.new) }
    ensures unchanged { IfNone result (to.new ≡ to.old) }
{
    match dtype {
        DataType::Date => Some(put_date(to, at, number as i64)),
        DataType::Time => Some(put_time(to, at, number as i64)),
        DataType::Datetime(unit) => Some(put_datetime(to, at, *unit, number)),
        DataType::Decimal(_, scale) => put_decimal(to, at, number, scale.unwrap_or(0)),
        _ => Some(put_whole(to, at, number)),
    }
}

/// Puts a text that is ready, where there is room.
#[inline]
pub(crate) fn put_ready(to: &mut [u8], at: usize, text: &[u8]) -> Option<usize>
    requires room { at ≤ length to.old }
    ensures text { IfSome result (λ end. take end to.new ≡ take at to.old ++ text.now) }
    ensures within { IfSome result (λ end. end ≤ length to.new) }
    ensures unchanged { IfNone result (to.new ≡ to.old) }
{
    if text.len() > to.len() - at {
        return None;
    }
    Some(put_bytes(to, at, text))
}

// Puts the cell of a number of any kind, by way of a spare buffer. Nothing is put where memory is wanting.
#[cold]
fn put_rare_number(
    to: &mut [u8],
    at: usize,
    spare: &mut Spare,
    dtype: &DataType,
    number: i128,
    options: &SerializeOptions,
) -> Option<usize>
    requires room { at ≤ length to.old }
    requires range { is_number_of dtype.now number ≡ true }
    ensures text { IfSome result (λ end. take end to.new ≡ take at to.old ++ written_value (cell_options options.now) (is_numeric dtype.now) (number_text dtype.now number)) }
    ensures within { IfSome result (λ end. end ≤ length to.new) }
    ensures unchanged { IfNone result (to.new ≡ to.old) }
{
    spare.text.clear();
    match push_number_cell(&mut spare.text, &mut spare.scratch, dtype, number, options) {
        Ok(()) => put_ready(to, at, &spare.text),
        Err(_) => None,
    }
}

// Puts the cell of a number that is no whole one without quotes.
#[inline]
fn put_number_cell(
    to: &mut [u8],
    at: usize,
    spare: &mut Spare,
    dtype: &DataType,
    number: i128,
    options: &SerializeOptions,
) -> Option<usize>
    requires room { at + 48 ≤ length to.old }
    requires range { is_number_of dtype.now number ≡ true }
    ensures text { IfSome result (λ end. take end to.new ≡ take at to.old ++ written_value (cell_options options.now) (is_numeric dtype.now) (number_text dtype.now number)) }
    ensures within { IfSome result (λ end. end ≤ length to.new) }
    ensures unchanged { IfNone result (to.new ≡ to.old) }
{
    if is_quoted(dtype, options.quote_style) {
        return put_rare_number(to, at, spare, dtype, number, options);
    }
    match put_number(to, at, dtype, number) {
        Some(end) => Some(end),
        None => put_rare_number(to, at, spare, dtype, number, options),
    }
}

// Puts the cell of a number, in its form.
#[inline]
fn put_number_in(
    to: &mut [u8],
    at: usize,
    spare: &mut Spare,
    dtype: &DataType,
    form: CellForm,
    number: i128,
    options: &SerializeOptions,
) -> Option<usize>
    requires room { at + 48 ≤ length to.old }
    requires range { is_number_of dtype.now number ≡ true }
    requires form { FitsForm form (cell_options options.now) dtype.now }
    ensures text { IfSome result (λ end. take end to.new ≡ take at to.old ++ written_value (cell_options options.now) (is_numeric dtype.now) (number_text dtype.now number)) }
    ensures within { IfSome result (λ end. end ≤ length to.new) }
    ensures unchanged { IfNone result (to.new ≡ to.old) }
{
    match form {
        CellForm::Digits => Some(put_whole(to, at, number)),
        CellForm::AsNeeded | CellForm::ByCell => {
            put_number_cell(to, at, spare, dtype, number, options)
        }
    }
}

// The text of a truth value.
#[inline]
fn truth_text(dtype: &DataType, truth: bool) -> &'static [u8]
    ensures text { result.now ≡ printed dtype.now (Truth truth) }
    ensures short { length result.now ≤ 5 }
{
    if truth { b"true" } else { b"false" }
}

// Puts the cell of a truth value.
#[inline]
fn put_truth_cell(
    to: &mut [u8],
    at: usize,
    dtype: &DataType,
    truth: bool,
    options: &SerializeOptions,
) -> usize
    requires room { at + 48 ≤ length to.old }
    ensures text { take result to.new ≡ take at to.old ++ written_value (cell_options options.now) (is_numeric dtype.now) (printed dtype.now (Truth truth)) }
    ensures end { result ≤ at + 48 }
{
    let text = truth_text(dtype, truth);
    if is_quoted(dtype, options.quote_style) {
        put_quoted(to, at, text, options.quote_char)
    } else {
        put_bytes(to, at, text)
    }
}

/// Puts the cell of any column, in its form.
#[inline(never)]
pub(crate) fn put_value(
    to: &mut [u8],
    at: usize,
    spare: &mut Spare,
    column: &Column,
    form: CellForm,
    row: usize,
    options: &SerializeOptions,
) -> Option<usize>
    requires room { at + 48 ≤ length to.old }
    requires row { row < length column.now.values }
    requires form { FitsForm form (cell_options options.now) column.now.dtype }
    ensures text { IfSome result (λ end. take end to.new ≡ take at to.old ++ written_cell (cell_options options.now) column.now.dtype (cell_at column.now row)) }
    ensures within { IfSome result (λ end. end ≤ length to.new) }
    ensures unchanged { IfNone result (to.new ≡ to.old) }
{
    match column.get(row) {
        Value::Null => put_null(to, at, options),
        Value::Text(text) => put_text_in(to, at, text.as_bytes(), form, options),
        Value::Boolean(truth) => { Some(put_truth_cell(to, at, column.dtype(), truth, options)) }
        Value::Whole(number) => {
            put_number_in(to, at, spare, column.dtype(), form, number, options)
        }
    }
}
