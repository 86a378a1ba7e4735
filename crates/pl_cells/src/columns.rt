//! The cells of a column of the records of a table into a buffer.
ghost use Rattle.std.specs.Prelude.{◌≡◌, ◌≤◌, ◌<◌, suc, length, take, map, slice_index_or, [], OnOk, IfErr, OnErr, IfSome};
ghost use Rattle.std.specs.Option.{option_copied, unwrap_or, option_map};
ghost use Rattle.pl_table.specs.Tables.{AreWithin, fields_of, placed_text};
ghost use Rattle.pl_cells.specs.BufferValue.{Answers, cut_to, reading_of, with_more};
ghost use Rattle.pl_cells.specs.Cells.{cell, value_of};
ghost use Rattle.pl_cells.specs.Columns as spec;
ghost use Rattle.pl_cells.specs.Columns.{IsFaultOf, field_in, column_cells, AreSound, AddsCells};
ghost use Rattle.pl_cells.specs.InitBuffers.{state_of};
ghost use Rattle.pl_cells.specs.NullValues.{HaveTexts, means_null};

use crate::buffer::Buffer;
use crate::cell_buffer::{CellBuffer, put_field};
use crate::cell_fault::CellFault;
use crate::each_type::for_each_type;
use crate::null_test::is_null_field;
use crate::null_values::NullValuesCompiled;
use crate::quoting::quote_of;
use pl_table::table::{Placed, Table};

// The field of a record in a column, or the empty one where the record has fewer.
#[inline(always)]
fn placed_in<'a>(table: &Table, text: &'a [u8], row: usize, column: usize) -> Placed<'a>
    requires within { AreWithin (length text.now) table.now }
    requires row { row < length table.now }
    ensures field { placed_text result ≡ field_in (slice_index_or (fields_of text.now table.now) row []) column }
    ensures inside { result.start ≤ length result.upto.now }
{
    match table.front(text, row, column) {
        Some(placed) => placed,
        None => Placed {
            upto: &[],
            start: 0,
        },
    }
}

// The bytes of a field.
#[inline(always)]
fn bytes_of(field: Placed<'_>) -> &[u8]
    requires { field.start ≤ length field.upto.now }
    ensures { result.now ≡ placed_text field.entry }
{
    &field.upto[field.start..]
}

// Whether no number begins with the quote.
#[inline(always)]
fn is_apart_from_numbers(quote_char: Option<u8>) -> bool
    ensures { result ≡ spec.is_apart_from_numbers quote_char }
{
    match quote_char {
        None => true,
        Some(quote) => !(quote.is_ascii_digit() || quote == b'-'),
    }
}

// Puts the cell of a field of a column at the end, whatever it is. Refuses the cell's fault, and want of memory; the buffer is
// then as it was.
#[inline(always)]
fn put_any<B: CellBuffer>(
    buffer: &mut B,
    field: Placed<'_>,
    quote_char: Option<u8>,
    null_values: Option<&NullValuesCompiled>,
    column: usize,
    ignore_errors: bool,
    missing_is_null: bool,
) -> Result<(), CellFault>
    requires inside { field.start ≤ length field.upto.now }
    requires texts { HaveTexts null_values (suc column) }
    ensures { Answers (B.state buffer.old) (B.state buffer.new) (cell (reading_of (B.state buffer.old) missing_is_null ignore_errors) (means_null (option_copied null_values.entry) column) quote_char (B.state buffer.old).dtype (placed_text field.entry)) result }
{
    let bytes = bytes_of(field);
    if !is_null_field(null_values, bytes, column, quote_char) {
        let seen = buffer.put_between(field, quote_char)?;
        if seen {
            return Ok(());
        }
    }
    put_field(
        buffer,
        bytes,
        quote_char,
        null_values,
        column,
        ignore_errors,
        missing_is_null,
    )
}

// The same. It is not put where it is called, so that the loop that calls it stays short.
#[inline(never)]
fn put_other<B: CellBuffer>(
    buffer: &mut B,
    field: Placed<'_>,
    quote_char: Option<u8>,
    null_values: Option<&NullValuesCompiled>,
    column: usize,
    ignore_errors: bool,
    missing_is_null: bool,
) -> Result<(), CellFault>
    requires inside { field.start ≤ length field.upto.now }
    requires texts { HaveTexts null_values (suc column) }
    ensures { Answers (B.state buffer.old) (B.state buffer.new) (cell (reading_of (B.state buffer.old) missing_is_null ignore_errors) (means_null (option_copied null_values.entry) column) quote_char (B.state buffer.old).dtype (placed_text field.entry)) result }
{
    put_any(
        buffer,
        field,
        quote_char,
        null_values,
        column,
        ignore_errors,
        missing_is_null,
    )
}

// Puts the cell of a field of a column at the end. Refuses the cell's fault, and want of memory; the buffer is then as it was.
// `apart` says whether no number begins with the quote.
#[inline(always)]
fn put_placed<B: CellBuffer>(
    buffer: &mut B,
    field: Placed<'_>,
    apart: bool,
    quote_char: Option<u8>,
    null_values: Option<&NullValuesCompiled>,
    column: usize,
    ignore_errors: bool,
    missing_is_null: bool,
) -> Result<(), CellFault>
    requires inside { field.start ≤ length field.upto.now }
    requires apart { apart ≡ spec.is_apart_from_numbers quote_char }
    requires texts { HaveTexts null_values (suc column) }
    ensures { Answers (B.state buffer.old) (B.state buffer.new) (cell (reading_of (B.state buffer.old) missing_is_null ignore_errors) (means_null (option_copied null_values.entry) column) quote_char (B.state buffer.old).dtype (placed_text field.entry)) result }
{
    if apart && !is_null_field(null_values, bytes_of(field), column, quote_char) {
        let seen = buffer.put_seen(field, quote_char)?;
        if seen {
            return Ok(());
        }
    }
    put_other(
        buffer,
        field,
        quote_char,
        null_values,
        column,
        ignore_errors,
        missing_is_null,
    )
}

// Puts the cells of the first records in a column at the end, whose fields mostly begin with the quote. Refuses the fault of a cell,
// and want of memory; the buffer then holds some of the cells.
#[inline(never)]
fn put_quoted_column<B: CellBuffer>(
    buffer: &mut B,
    text: &[u8],
    table: &Table,
    rows: usize,
    quote_char: Option<u8>,
    null_values: Option<&NullValuesCompiled>,
    column: usize,
    ignore_errors: bool,
    missing_is_null: bool,
) -> Result<(), CellFault>
    requires within { AreWithin (length text.now) table.now }
    requires rows { rows ≤ length table.now }
    requires texts { HaveTexts null_values (suc column) }
    ensures added { OnOk result (AddsCells (column_cells (reading_of (B.state buffer.old) missing_is_null ignore_errors) (means_null (option_copied null_values.entry) column) quote_char (B.state buffer.old).dtype column (take rows (fields_of text.now table.now))) (B.state buffer.old) (B.state buffer.new)) }
    ensures refused { IfErr result (IsFaultOf (column_cells (reading_of (B.state buffer.old) missing_is_null ignore_errors) (means_null (option_copied null_values.entry) column) quote_char (B.state buffer.old).dtype column (take rows (fields_of text.now table.now)))) }
    ensures kept { OnErr result (cut_to (length (B.state buffer.old).values) (B.state buffer.new) ≡ B.state buffer.old) }
{
    for row in 0..rows {
        let placed = placed_in(table, text, row, column);
        let put = put_any(
            buffer,
            placed,
            quote_char,
            null_values,
            column,
            ignore_errors,
            missing_is_null,
        );
        match put {
            Ok(()) => {}
            Err(fault) => return Err(fault),
        }
    }
    Ok(())
}

// Whether the field of the first record in a column begins with the quote.
#[inline]
fn begins_quoted(
    text: &[u8],
    table: &Table,
    rows: usize,
    quote_char: Option<u8>,
    column: usize,
) -> bool
    requires within { AreWithin (length text.now) table.now }
    requires rows { rows ≤ length table.now }
{
    if rows == 0 {
        return false;
    }
    let first = placed_in(table, text, 0, column);
    quote_of(bytes_of(first), quote_char).is_some()
}

// Puts the cells of the first records in a column at the end. Refuses the fault of a cell, and want of memory; the buffer then
// holds some of the cells.
#[inline(always)]
fn put_column<B: CellBuffer>(
    buffer: &mut B,
    text: &[u8],
    table: &Table,
    rows: usize,
    quote_char: Option<u8>,
    null_values: Option<&NullValuesCompiled>,
    column: usize,
    ignore_errors: bool,
    missing_is_null: bool,
) -> Result<(), CellFault>
    requires within { AreWithin (length text.now) table.now }
    requires rows { rows ≤ length table.now }
    requires texts { HaveTexts null_values (suc column) }
    ensures added { OnOk result (AddsCells (column_cells (reading_of (B.state buffer.old) missing_is_null ignore_errors) (means_null (option_copied null_values.entry) column) quote_char (B.state buffer.old).dtype column (take rows (fields_of text.now table.now))) (B.state buffer.old) (B.state buffer.new)) }
    ensures refused { IfErr result (IsFaultOf (column_cells (reading_of (B.state buffer.old) missing_is_null ignore_errors) (means_null (option_copied null_values.entry) column) quote_char (B.state buffer.old).dtype column (take rows (fields_of text.now table.now)))) }
    ensures kept { OnErr result (cut_to (length (B.state buffer.old).values) (B.state buffer.new) ≡ B.state buffer.old) }
{
    buffer.make_room(rows)?;
    if buffer.reads_between() && begins_quoted(text, table, rows, quote_char, column) {
        return put_quoted_column(
            buffer,
            text,
            table,
            rows,
            quote_char,
            null_values,
            column,
            ignore_errors,
            missing_is_null,
        );
    }
    let apart = is_apart_from_numbers(quote_char);
    for row in 0..rows {
        let field = placed_in(table, text, row, column);
        let put = put_placed(
            buffer,
            field,
            apart,
            quote_char,
            null_values,
            column,
            ignore_errors,
            missing_is_null,
        );
        match put {
            Ok(()) => {}
            Err(fault) => return Err(fault),
        }
    }
    Ok(())
}

impl Buffer {
    /// Puts the cells of the first `rows` records of a table of a text in a column at the end; a record without a field there
    /// has the cell of the empty field. `quote_char` is the buffer's, and under `Columns` there must be texts for so many
    /// columns.
    ///
    /// Refuses the fault of one of these cells, and want of memory. The buffer then holds some of the cells, and is as it was once it is
    /// cut back to its length before.
    pub fn add_column(
        &mut self,
        text: &[u8],
        table: &Table,
        rows: usize,
        quote_char: Option<u8>,
        null_values: Option<&NullValuesCompiled>,
        column: usize,
        ignore_errors: bool,
        missing_is_null: bool,
    ) -> Result<(), CellFault>
        requires within { AreWithin (length text.now) table.now }
        requires rows { rows ≤ length table.now }
        requires quote { quote_char ≡ (state_of self.old).quote_char }
        requires texts { HaveTexts null_values (suc column) }
        ensures added { OnOk result (state_of self.new ≡ with_more (state_of self.old) (map value_of (column_cells (reading_of (state_of self.old) missing_is_null ignore_errors) (means_null (option_copied null_values.entry) column) quote_char (state_of self.old).dtype column (take rows (fields_of text.now table.now))))) }
        ensures sound { OnOk result (AreSound (column_cells (reading_of (state_of self.old) missing_is_null ignore_errors) (means_null (option_copied null_values.entry) column) quote_char (state_of self.old).dtype column (take rows (fields_of text.now table.now)))) }
        ensures refused { IfErr result (IsFaultOf (column_cells (reading_of (state_of self.old) missing_is_null ignore_errors) (means_null (option_copied null_values.entry) column) quote_char (state_of self.old).dtype column (take rows (fields_of text.now table.now)))) }
        ensures kept { OnErr result (cut_to (length (state_of self.old).values) (state_of self.new) ≡ state_of self.old) }
    {
        self.put_cells(
            text,
            table,
            rows,
            quote_char,
            null_values,
            column,
            ignore_errors,
            missing_is_null,
        )
    }

    // The same, with what was added as it is said of a column of any one type.
    #[inline(always)]
    fn put_cells(
        &mut self,
        text: &[u8],
        table: &Table,
        rows: usize,
        quote_char: Option<u8>,
        null_values: Option<&NullValuesCompiled>,
        column: usize,
        ignore_errors: bool,
        missing_is_null: bool,
    ) -> Result<(), CellFault>
        requires within { AreWithin (length text.now) table.now }
        requires rows { rows ≤ length table.now }
        requires texts { HaveTexts null_values (suc column) }
        ensures added { OnOk result (AddsCells (column_cells (reading_of (state_of self.old) missing_is_null ignore_errors) (means_null (option_copied null_values.entry) column) quote_char (state_of self.old).dtype column (take rows (fields_of text.now table.now))) (state_of self.old) (state_of self.new)) }
        ensures refused { IfErr result (IsFaultOf (column_cells (reading_of (state_of self.old) missing_is_null ignore_errors) (means_null (option_copied null_values.entry) column) quote_char (state_of self.old).dtype column (take rows (fields_of text.now table.now)))) }
        ensures kept { OnErr result (cut_to (length (state_of self.old).values) (state_of self.new) ≡ state_of self.old) }
    {
        for_each_type!(self, buffer => put_column(
            buffer, text, table, rows, quote_char, null_values, column, ignore_errors, missing_is_null,
        ))
    }
}
