//! Buffers of one type each, to which the cells of fields can be added.
ghost use Rattle.std.specs.Prelude.{◌≡◌, suc, true, OnOk, OnErr, IfOk};
ghost use Rattle.std.specs.Option.{option_copied};
ghost use Rattle.pl_table.specs.Tables.{placed_text};
ghost use Rattle.pl_cells.specs.BufferValue.{BufferValue, Answers, with_value, reading_of};
ghost use Rattle.pl_cells.specs.Cells.{missing_value, cell, stripped_cell, plain_cell, quoted_cell, softened};
ghost use Rattle.pl_cells.specs.Columns.{IsSeen, is_apart_from_numbers};
ghost use Rattle.pl_cells.specs.NullTest.{nothing_is_null};
ghost use Rattle.pl_cells.specs.NullValues.{HaveTexts, means_null};

use crate::cell_fault::CellFault;
use crate::null_test::is_null_cell;
use crate::null_values::NullValuesCompiled;
use crate::quoting::{between_quotes, quote_of, without_return};
use crate::text_buffer::TextBuffer;
use crate::text_types::TextType;
use crate::value_buffer::ValueBuffer;
use crate::value_types::ValueType;
use pl_table::table::Placed;
use std::alloc::AllocError;

/// A buffer that takes the cells of texts.
pub trait CellBuffer {
    ghost state: { Self → BufferValue };

    /// Makes room for so many more cells. Refuses only want of memory; the cells stay as they are.
    fn make_room(&mut self, additional: usize) -> Result<(), AllocError>
        ensures { state self.new ≡ state self.old };

    /// Puts the cell of a plain text at the end.
    fn put_plain(
        &mut self,
        text: &[u8],
        ignore_errors: bool,
        missing_is_null: bool,
    ) -> Result<(), CellFault>
        ensures { Answers (state self.old) (state self.new) (softened ignore_errors (plain_cell (reading_of (state self.old) missing_is_null ignore_errors) (state self.old).dtype text.now)) result };

    /// Puts the cell of what stands between quotes at the end.
    fn put_quoted(&mut self, text: &[u8], quote: u8, ignore_errors: bool) -> Result<(), CellFault>
        ensures { Answers (state self.old) (state self.new) (softened ignore_errors (quoted_cell (reading_of (state self.old) true ignore_errors) quote (state self.old).dtype text.now)) result };

    /// Puts the value of a missing text at the end. Refuses only want of memory, and is then as it was.
    fn put_missing(&mut self, is_null: bool) -> Result<(), AllocError>
        ensures ok { OnOk result (state self.new ≡ with_value (state self.old) (missing_value is_null (state self.old).dtype)) }
        ensures err { OnErr result (state self.new ≡ state self.old) };

    /// Puts the cell of a field at the end where it is soon seen which it is, and else leaves all as it was. No text means
    /// null, and no number begins with the quote. Refuses only want of memory, and is then as it was.
    fn put_seen(&mut self, field: Placed<'_>, quote_char: Option<u8>) -> Result<bool, AllocError>
        requires apart { is_apart_from_numbers quote_char ≡ true }
        ensures seen { IfOk result (λ seen. IsSeen quote_char (placed_text field.entry) (state self.old) (state self.new) seen) }
        ensures err { OnErr result (state self.new ≡ state self.old) };

    /// Whether `put_between` may see more than `put_seen`.
    fn reads_between(&self) -> bool;

    /// The same where `put_seen` did not see it, as of a number between quotes, whatever the quote.
    fn put_between(&mut self, field: Placed<'_>, quote_char: Option<u8>) -> Result<bool, AllocError>
        ensures seen { IfOk result (λ seen. IsSeen quote_char (placed_text field.entry) (state self.old) (state self.new) seen) }
        ensures err { OnErr result (state self.new ≡ state self.old) };
}

impl<K: ValueType> CellBuffer for ValueBuffer<K> {
    ghost state = { λ b. b };

    fn make_room(&mut self, additional: usize) -> Result<(), AllocError> {
        self.reserve(additional)
    }

    #[inline(always)]
    fn put_plain(
        &mut self,
        text: &[u8],
        ignore_errors: bool,
        missing_is_null: bool,
    ) -> Result<(), CellFault> {
        self.add_plain(text, ignore_errors, missing_is_null)
    }

    #[inline(always)]
    fn put_quoted(&mut self, text: &[u8], quote: u8, ignore_errors: bool) -> Result<(), CellFault> {
        self.add_quoted(text, quote, ignore_errors)
    }

    #[inline(always)]
    fn put_missing(&mut self, is_null: bool) -> Result<(), AllocError> {
        self.add_missing(is_null)
    }

    #[inline(always)]
    fn put_seen(&mut self, field: Placed<'_>, quote_char: Option<u8>) -> Result<bool, AllocError> {
        self.add_seen(field, quote_char)
    }

    #[inline(always)]
    fn reads_between(&self) -> bool {
        true
    }

    #[inline(always)]
    fn put_between(
        &mut self,
        field: Placed<'_>,
        quote_char: Option<u8>,
    ) -> Result<bool, AllocError> {
        self.add_between(field, quote_char)
    }
}

impl<L: TextType> CellBuffer for TextBuffer<L> {
    ghost state = { λ b. b };

    fn make_room(&mut self, additional: usize) -> Result<(), AllocError> {
        self.reserve(additional)
    }

    #[inline(always)]
    fn put_plain(
        &mut self,
        text: &[u8],
        ignore_errors: bool,
        missing_is_null: bool,
    ) -> Result<(), CellFault> {
        self.add_plain(text, ignore_errors, missing_is_null)
    }

    #[inline(always)]
    fn put_quoted(&mut self, text: &[u8], quote: u8, ignore_errors: bool) -> Result<(), CellFault> {
        self.add_quoted(text, quote, ignore_errors)
    }

    #[inline(always)]
    fn put_missing(&mut self, is_null: bool) -> Result<(), AllocError> {
        self.add_missing(is_null)
    }

    #[inline(always)]
    fn put_seen(&mut self, field: Placed<'_>, quote_char: Option<u8>) -> Result<bool, AllocError> {
        self.add_seen(field, quote_char)
    }

    #[inline(always)]
    fn reads_between(&self) -> bool {
        false
    }

    #[inline(always)]
    fn put_between(
        &mut self,
        _field: Placed<'_>,
        _quote_char: Option<u8>,
    ) -> Result<bool, AllocError> {
        Ok(false)
    }
}

// Puts the cell of a field at the end that begins with the quote, and is none of the null texts.
#[inline(always)]
fn put_quoted_field<B: CellBuffer>(
    buffer: &mut B,
    field: &[u8],
    quote: u8,
    ignore_errors: bool,
) -> Result<(), CellFault>
    ensures { Answers (B.state buffer.old) (B.state buffer.new) (stripped_cell (reading_of (B.state buffer.old) true ignore_errors) nothing_is_null (Some quote) (B.state buffer.old).dtype field.now) result }
{
    match between_quotes(field, quote) {
        Some(text) => buffer.put_quoted(text, quote, ignore_errors),
        None => Err(CellFault::Escape),
    }
}

// Puts the cell of a field at the end that has lost its carriage return and is none of the null texts, given the quote that
// it begins with.
#[inline(always)]
fn put_stripped<B: CellBuffer>(
    buffer: &mut B,
    text: &[u8],
    quote: Option<u8>,
    ignore_errors: bool,
    missing_is_null: bool,
) -> Result<(), CellFault>
    ensures { Answers (B.state buffer.old) (B.state buffer.new) (stripped_cell (reading_of (B.state buffer.old) missing_is_null ignore_errors) nothing_is_null quote (B.state buffer.old).dtype text.now) result }
{
    match quote {
        Some(quote) => put_quoted_field(buffer, text, quote, ignore_errors),
        None => buffer.put_plain(text, ignore_errors, missing_is_null),
    }
}

/// Puts the cell of a field of a column at the end. Under `Columns` there must be texts for so many columns. Refuses the
/// cell's fault, and want of memory; the buffer is then as it was.
#[inline]
pub(crate) fn put_field<B: CellBuffer>(
    buffer: &mut B,
    field: &[u8],
    quote_char: Option<u8>,
    null_values: Option<&NullValuesCompiled>,
    column: usize,
    ignore_errors: bool,
    missing_is_null: bool,
) -> Result<(), CellFault>
    requires { HaveTexts null_values (suc column) }
    ensures { Answers (B.state buffer.old) (B.state buffer.new) (cell (reading_of (B.state buffer.old) missing_is_null ignore_errors) (means_null (option_copied null_values.entry) column) quote_char (B.state buffer.old).dtype field.now) result }
{
    let quote = quote_of(field, quote_char);
    let text = without_return(field);
    if is_null_cell(null_values, text, column, quote) {
        buffer.put_missing(true)?;
        return Ok(());
    }
    put_stripped(buffer, text, quote, ignore_errors, missing_is_null)
}
