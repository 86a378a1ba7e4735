//! The rows at the front of a text that are written as they were read, by a test that is made for a reading and a way of writing.
ghost use Rattle.std.specs.Prelude.{◌≡◌, ◌<◌, ◌≤◌, true, List, None, Some, false, length, take, IfOk, IfSome};
ghost use Rattle.std.specs.Bool.{OnTrue};
ghost use Rattle.std.specs.List.{All, range_with_len};
ghost use Rattle.std.specs.Option.{option_map};
ghost use Rattle.pl_frame.specs.Schema.{Entry};
ghost use Rattle.pl_cells.specs.InitBuffers.{first_unreadable};
ghost use Rattle.pl_verbatim.specs.Nulls.{are_alike};
ghost use Rattle.pl_text.specs.FrameText.{WriteOptions};
ghost use Rattle.pl_rows.specs.declared.plan.RangePlan.{RangePlan};
ghost use Rattle.pl_round_trip.specs.RoundTrip.{is_printed_byte};
ghost use Rattle.pl_write.specs.Options.{cell_options};
ghost use Rattle.pl_verbatim.specs.Kinds.{AreKindsOf, is_passed, is_sound_kind, read_columns};
ghost use Rattle.pl_verbatim.specs.PrintedTexts.{CanPrint, IsFrontPrinted};
ghost use Rattle.pl_verbatim.specs.CellTexts.{as_read};
ghost use Rattle.pl_verbatim.specs.Changes.{IsAlike, IsFormOf};
ghost use Rattle.pl_verbatim.specs.Verbatim.{IsReadSo, IsVerbatimOf, AreRowsCopied};

use crate::changes::put_row;
use crate::form::Form;
use crate::kinds::{Kind, kind_of};
use crate::marks::Marks;
use crate::rows::{copy_row, row_end, same_row_end};
use crate::swapped::{has_few_quotes, is_swap};
use crate::verbatim::{Verbatim, VerbatimFront};
use pl_cells::null_values::NullValuesCompiled;
use pl_frame::schema::Schema;
use pl_round_trip::laws::rows_return;
use pl_rows::plan::RangePlan;
use pl_write::options::{QuoteStyle, SerializeOptions};
use std::alloc::{AllocError, Global};

// What is written of rows is put together in so many bytes, and is appended when it has so many.
pub(crate) const BLOCK: usize = 1 << 16;

pub(crate) const FULL: usize = 1 << 15;

// Whether these places are all of so many, in order.
fn are_all(places: &[usize], width: usize) -> bool
    ensures { OnTrue result (places.now ≡ range_with_len 0 width) }
{
    for index in 0..places.len() {
        if places[index] != index {
            return false;
        }
    }
    places.len() == width
}

// Whether a byte is neither a letter nor a digit, `-`, `.` or `:`.
fn is_apart(byte: u8) -> bool
    ensures { OnTrue result (is_printed_byte byte ≡ false) }
{
    !(byte.is_ascii_alphanumeric() || byte == b'-' || byte == b'.' || byte == b':')
}

// Whether rows are read by the quote by which they are written, and what is missing is null; some columns are read.
fn is_read_so(schema: &Schema, plan: &RangePlan<'_>, options: &SerializeOptions) -> bool
    requires { CanPrint plan.now schema.now }
    ensures { OnTrue result (IsReadSo plan.now schema.now (as_read plan.now.dialect.separator (cell_options options.now))) }
{
    let dialect = plan.dialect;
    dialect.quote_char == Some(options.quote_char)
        && dialect.eol_char == b'\n'
        && dialect.comment_prefix.is_none()
        && is_apart(dialect.separator)
        && is_apart(options.quote_char)
        && plan.options.missing_is_null
        && !plan.projection.places.is_empty()
}

// Whether the texts that mean null are the same in each column.
fn are_nulls_alike(nulls: Option<&NullValuesCompiled>) -> bool
    ensures { OnTrue result (are_alike (option_map (λ nulls. nulls.now) nulls.entry) ≡ true) }
{
    match nulls {
        None => true,
        Some(nulls) => !matches!(nulls, NullValuesCompiled::Columns(_)),
    }
}

// Whether cells are written by this separator, quoted where necessary, with nothing for a null and a line feed behind a line, and no text means null.
fn is_same(separator: u8, nulls: Option<&NullValuesCompiled>, options: &SerializeOptions) -> bool
    ensures same { OnTrue result (cell_options options.now ≡ as_read separator (cell_options options.now)) }
    ensures none { OnTrue result (nulls.entry ≡ None) }
{
    nulls.is_none()
        && separator == options.separator
        && matches!(options.line_terminator.as_str().as_bytes(), [b'\n'])
        && options.null.as_str().is_empty()
        && options.quote_style == QuoteStyle::Necessary
}

// How rows are written; none where all columns are read, and they are written as they were read. Refuses only want of memory.
fn form_of(
    alloc: Global,
    reads_all: bool,
    separator: u8,
    nulls: Option<&NullValuesCompiled>,
    options: &SerializeOptions,
) -> Result<Option<Form>, AllocError>
    requires style { (cell_options options.now).style < 3 }
    requires alike { are_alike (option_map (λ nulls. nulls.now) nulls) ≡ true }
    ensures all { IfOk result (λ form. form ≡ None → reads_all ≡ true) }
    ensures same { IfOk result (λ form. form ≡ None → cell_options options.now ≡ as_read separator (cell_options options.now)) }
    ensures none { IfOk result (λ form. form ≡ None → nulls.entry ≡ None) }
    ensures form { IfOk result (λ form. IfSome form (IsFormOf (cell_options options.now) options.now.quote_char)) }
    ensures nulls { IfOk result (λ form. IfSome form (λ form. form.nulls ≡ option_map (λ nulls. nulls.now) nulls.entry)) }
{
    if reads_all && is_same(separator, nulls, options) {
        return Ok(None);
    }
    Ok(Some(Form::of(alloc, options, nulls)?))
}

// The kinds of the columns of a schema, of which those at these places are read; none where one of them has none.
fn kinds_of(alloc: Global, schema: &Schema, places: &[usize]) -> Result<Vec<Kind>, AllocError>
    requires { first_unreadable schema.now places.now ≡ None }
    ensures kinds { IfOk result (λ kinds. 0 < length kinds.items → AreKindsOf (read_columns 0 schema.now places.now) kinds.items) }
    ensures sound { IfOk result (λ kinds. All (λ kind. is_sound_kind kind ≡ true) kinds.items) }
{
    let mut kinds = Vec::new(alloc);
    let mut next = 0;
    for index in 0..schema.len() {
        if next < places.len() && places[next] == index {
            let (_, dtype) = schema.entry(index);
            let Some(kind) = kind_of(dtype) else {
                return Ok(Vec::new(alloc));
            };
            kinds.push(kind)?;
            next += 1;
        } else {
            kinds.push(Kind::Passed)?;
        }
    }
    Ok(kinds)
}

impl Verbatim {
    /// How rows stand that are read by a plan into columns of a schema, and written by these options. Refuses only want of memory.
    pub fn of(
        alloc: Global,
        schema: &Schema,
        plan: &RangePlan<'_>,
        options: &SerializeOptions,
    ) -> Result<Verbatim, AllocError>
        requires { CanPrint plan.now schema.now }
        ensures { IfOk result (IsVerbatimOf plan.now schema.now (cell_options options.now)) }
    {
        let nulls = plan.options.null_values;
        if options.quote_style == QuoteStyle::Never
            || !is_read_so(schema, plan, options)
            || !are_nulls_alike(nulls)
        {
            return Ok(Verbatim::none(alloc));
        }
        let separator = plan.dialect.separator;
        let reads_all = are_all(plan.projection.places, schema.len());
        let form = form_of(alloc, reads_all, separator, nulls, options)?;
        Ok(Verbatim {
            kinds: kinds_of(alloc, schema, plan.projection.places)?,
            separator,
            quote_char: options.quote_char,
            form,
            reads_all,
        })
    }

    /// The rows at the front of a text that are written as they were read, as far as they are found. The text ends where the last of
    /// them does.
    pub fn front(&self, text: &[u8]) -> VerbatimFront
        ensures { (plan : RangePlan) (schema : List Entry) (o : WriteOptions) → CanPrint plan schema → IsVerbatimOf plan schema o self.now
            → IsFrontPrinted plan schema o text.now result.end result.rows (take result.end text.now) }
    {
        match &self.form {
            Some(form) => {
                if self.reads_all && form.is_alike(self.separator) {
                    self.front_alike(text, form)
                } else {
                    VerbatimFront { end: 0, rows: 0 }
                }
            }
            None => self.front_same(text),
        }
    }

    // What `front` does of rows that are read and written by the same marks.
    fn front_same(&self, text: &[u8]) -> VerbatimFront
        requires { self.now.form ≡ None }
        ensures { (plan : RangePlan) (schema : List Entry) (o : WriteOptions) → CanPrint plan schema → IsVerbatimOf plan schema o self.now
            → IsFrontPrinted plan schema o text.now result.end result.rows (take result.end text.now) }
    {
        // The law by which a line of such cells is a row; nothing is done.
        rows_return();
        let mut end = 0;
        let mut rows = 0;
        let mut marks = Marks::later(end);
        while end < text.len() {
            match row_end(
                text,
                end,
                &self.kinds,
                self.separator,
                self.quote_char,
                &mut marks,
            ) {
                Some(next) => end = next,
                None => break,
            }
            rows += 1;
        }
        VerbatimFront { end, rows }
    }

    // What `front` does of rows that are written by a form that is alike: those without a null that is written otherwise than it was read.
    fn front_alike(&self, text: &[u8], form: &Form) -> VerbatimFront
        requires form { self.now.form ≡ Some form.now }
        requires alike { IsAlike form.now self.now.separator }
        requires whole { self.now.reads_all ≡ true }
        ensures { (plan : RangePlan) (schema : List Entry) (o : WriteOptions) → CanPrint plan schema → IsVerbatimOf plan schema o self.now
            → IsFrontPrinted plan schema o text.now result.end result.rows (take result.end text.now) }
    {
        rows_return();
        let mut end = 0;
        let mut rows = 0;
        let mut marks = Marks::later(end);
        while end < text.len() {
            match same_row_end(
                text,
                end,
                &self.kinds,
                self.separator,
                self.quote_char,
                form,
                &mut marks,
            ) {
                Some(next) => end = next,
                None => break,
            }
            rows += 1;
        }
        VerbatimFront { end, rows }
    }

    // What `copy` does of rows that are read and written by the same marks: it copies what stands in a line in one go, as far as it is written as it
    // was read.
    fn copy_same(&self, text: &[u8], from: usize, lines: &mut Vec<u8>) -> VerbatimFront
        requires inside { from ≤ length text.now }
        requires same { self.now.form ≡ None }
        ensures { AreRowsCopied self.now text.now from result.end result.rows lines.old.items lines.new.items }
    {
        rows_return();
        let mut end = from;
        let mut rows = 0;
        let mut marks = Marks::later(end);
        while end < text.len() {
            let len = lines.len();
            match copy_row(
                text,
                end,
                &self.kinds,
                self.separator,
                self.quote_char,
                &mut marks,
                lines,
            ) {
                Some(next) => end = next,
                None => {
                    lines.truncate(len);
                    break;
                }
            }
            rows += 1;
        }
        VerbatimFront { end, rows }
    }

    // What `copy` does of rows that are written by a form.
    fn change(&self, text: &[u8], from: usize, form: &Form, lines: &mut Vec<u8>) -> VerbatimFront
        requires inside { from ≤ length text.now }
        requires form { self.now.form ≡ Some form.now }
        ensures { AreRowsCopied self.now text.now from result.end result.rows lines.old.items lines.new.items }
    {
        rows_return();
        let _ = lines.reserve(text.len() - from);
        if self.reads_all
            && is_swap(form, self.separator)
            && has_few_quotes(text, from, self.quote_char, self.kinds.len())
        {
            return self.swap_rows(text, from, form, lines);
        }
        let mut kept = VerbatimFront { end: from, rows: 0 };
        let mut block = [0u8; BLOCK];
        let mut place = 0;
        let mut end = from;
        let mut rows = 0;
        let mut marks = Marks::later(end);
        while end < text.len() {
            match put_row(
                text,
                end,
                &self.kinds,
                self.separator,
                self.quote_char,
                form,
                &mut marks,
                &mut block,
                place,
                self.reads_all,
            ) {
                Some((next, behind)) => {
                    end = next;
                    place = behind;
                }
                None => break,
            }
            rows += 1;
            if place >= FULL {
                if lines.extend_from_slice(&block[..place]).is_err() {
                    return kept;
                }
                place = 0;
                kept = VerbatimFront { end, rows };
            }
        }
        if lines.extend_from_slice(&block[..place]).is_err() {
            return kept;
        }
        VerbatimFront { end, rows }
    }

    /// The rows of a text from a place on whose cells stand as they are printed, between quotes or without, or are datetimes without a fraction: appends
    /// what is written of them to lines, as far as they are found and memory suffices, and answers where they end, and how many they are.
    pub fn copy(&self, text: &[u8], from: usize, lines: &mut Vec<u8>) -> VerbatimFront
        requires { from ≤ length text.now }
        ensures { AreRowsCopied self.now text.now from result.end result.rows lines.old.items lines.new.items }
    {
        match &self.form {
            Some(form) => self.change(text, from, form, lines),
            None => self.copy_same(text, from, lines),
        }
    }
}
