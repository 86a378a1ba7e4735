//! Whether a frame that is written comes back as it is.
ghost use Rattle.std.specs.Prelude.{◌≡◌, ◌≢◌, ◌≤◌, ◌↔◌, ◌^◌, IsTrue, IfOk, IfSome, IsOkUnless, length, false, true, Some};
ghost use Rattle.std.specs.List.{AllByRecursion};
ghost use Rattle.pl_frame.specs.declared.data_type.DataType.TheVariants as dtype;
ghost use Rattle.pl_frame.specs.declared.error.PolarsError.TheVariants as error;
ghost use Rattle.pl_frame.specs.Columns.{dictionary, misfits, scalar_of};
ghost use Rattle.pl_frame.specs.Compression.{is_compressed};
ghost use Rattle.pl_frame.specs.Frame.{HaveHeight, height_of, names_of};
ghost use Rattle.pl_text.specs.ValueText.{printed};
ghost use Rattle.pl_text.specs.FrameText.{needs_quotes, written_null, written_cell, text_of_frame};
ghost use Rattle.pl_frame.specs.Types.{is_text};
ghost use Rattle.pl_round_trip.specs.Fits.{has_special, IsLineEnding, FitsOptions, FitsValue, FitsCell, FitsColumn, FitsName, IsUnmarked, Fits};
ghost use Rattle.pl_round_trip.specs.RoundTrip.{fits_count, is_printed_byte};
ghost use Rattle.pl_write.specs.Options.{cell_options, frame_options};

use pl_frame::column::{Column, Value};
use pl_frame::compression::is_compressed;
use pl_frame::data_type::DataType;
use pl_frame::error::{PolarsError, PolarsResult};
use pl_frame::frame::DataFrame;
use pl_frame::sink::MemSink;
use pl_scan::dialect::dialect_ok;
use pl_write::options::{CsvWriterOptions, QuoteStyle, SerializeOptions};
use pl_write::serializer::Serializer;
use pl_write::writer::write_frame;
use std::alloc::Global;
use std::thread::Threads;

// Whether lines end with a line feed, or with a carriage return and a line feed.
fn is_line_ending(terminator: &[u8]) -> bool
    ensures { IsTrue result ↔ IsLineEnding terminator.now }
{
    match terminator {
        [b'\n'] => true,
        [b'\r', b'\n'] => true,
        _ => false,
    }
}

// Whether a byte is a letter, a digit, `-`, `.` or `:`.
fn is_printed_byte(byte: u8) -> bool
    ensures { result ≡ is_printed_byte byte }
{
    byte.is_ascii_alphanumeric() || byte == b'-' || byte == b'.' || byte == b':'
}

// Whether a text holds the separator, a line feed, a carriage return or the quote.
fn has_special(options: &CsvWriterOptions, text: &[u8]) -> bool
    ensures { result ≡ has_special (frame_options options.now) text.now }
{
    let separator = options.serialize_options.separator;
    let quote = options.serialize_options.quote_char;
    text.iter().any(|x| *x == separator || *x == b'\n' || *x == b'\r' || *x == quote)
}

// Whether the way of writing can be read again.
fn options_fit(options: &CsvWriterOptions) -> bool
    ensures { IsTrue result ↔ FitsOptions (frame_options options.now) }
{
    let cells = &options.serialize_options;
    is_line_ending(cells.line_terminator.as_str().as_bytes())
        && dialect_ok(cells.separator, Some(cells.quote_char), b'\n', None)
        && !is_printed_byte(cells.separator)
        && !is_printed_byte(cells.quote_char)
        && !has_special(options, cells.null.as_str().as_bytes())
}

// Whether the names come back, where they are written.
fn names_fit(options: &CsvWriterOptions, columns: &[Column]) -> bool
    ensures { IsTrue result ↔ ((frame_options options.now).include_header ≡ true → AllByRecursion (FitsName (frame_options options.now)) (names_of columns.now)) }
{
    if !options.include_header || options.serialize_options.quote_style != QuoteStyle::Never {
        return true;
    }
    are_bare(options, columns)
}

// Whether no name holds a byte that only a quoted text may hold, under Never.
fn are_bare(options: &CsvWriterOptions, columns: &[Column]) -> bool
    requires { (frame_options options.now).style ≡ 3 }
    ensures { IsTrue result ↔ AllByRecursion (FitsName (frame_options options.now)) (names_of columns.now) }
{
    let mut rest = columns;
    while let [first, behind @ ..] = rest {
        if has_special(options, first.name().as_bytes()) {
            return false;
        }
        rest = behind;
    }
    true
}

// Whether the count of a value fits 64 bits, where it is that of a datetime.
fn is_counted(dtype: &DataType, value: Value<'_>) -> bool
    ensures { IfSome (scalar_of value.entry) (λ v. result ≡ fits_count dtype.now v) }
{
    match (dtype, value) {
        (DataType::Datetime(_), Value::Whole(count)) => count >= -(1 << 63) && count < 1 << 63,
        _ => true,
    }
}

// Whether what is written of a value is told apart from what is written of a null.
fn is_apart(written: &[u8], null: &[u8]) -> bool
    ensures { IsTrue result ↔ (written.now ≢ null.now) }
{
    written != null
}

// Whether the printed text of a value of a type needs no quotes, where texts get none.
fn is_bare(options: &CsvWriterOptions, dtype: &DataType, text: &[u8]) -> bool
    ensures { IsTrue result ↔ ((frame_options options.now).style ≡ 3 → is_text dtype.now ≡ true → needs_quotes (frame_options options.now).separator (frame_options options.now).quote text.now ≡ false) }
{
    options.serialize_options.quote_style != QuoteStyle::Never
        || !dtype.is_text()
        || !(text.is_empty() || has_special(options, text))
}

// Whether a value of a type comes back, given its printed text, what is written of it and what is written of a null.
fn value_fits(
    options: &CsvWriterOptions,
    dtype: &DataType,
    value: Value<'_>,
    text: &[u8],
    written: &[u8],
    null: &[u8],
) -> bool
    requires held { misfits dtype.now (scalar_of value) ≡ false }
    requires printed { IfSome (scalar_of value) (λ v. text.now ≡ printed dtype.now v) }
    requires written { IfSome (scalar_of value) (λ v. written.now ≡ written_cell (frame_options options.now) dtype.now (Some v)) }
    requires null { null.now ≡ written_null (frame_options options.now) }
    ensures { IfSome (scalar_of value.entry) (λ v. IsTrue result ↔ FitsValue (frame_options options.now) dtype.now v) }
{
    is_counted(dtype, value) && is_apart(written, null) && is_bare(options, dtype, text)
}

// Whether a cell of a type comes back, given its printed text and what is written of it, if it is no null, and what is written of a null.
fn cell_fits(
    options: &CsvWriterOptions,
    dtype: &DataType,
    value: Value<'_>,
    text: &[u8],
    written: &[u8],
    null: &[u8],
) -> bool
    requires held { misfits dtype.now (scalar_of value) ≡ false }
    requires printed { IfSome (scalar_of value) (λ v. text.now ≡ printed dtype.now v) }
    requires written { IfSome (scalar_of value) (λ v. written.now ≡ written_cell (frame_options options.now) dtype.now (Some v)) }
    requires null { null.now ≡ written_null (frame_options options.now) }
    ensures { IsTrue result ↔ FitsCell (frame_options options.now) dtype.now (scalar_of value.entry) }
{
    match value {
        Value::Null => true,
        Value::Boolean(_) => value_fits(options, dtype, value, text, written, null),
        Value::Whole(_) => value_fits(options, dtype, value, text, written, null),
        Value::Text(_) => value_fits(options, dtype, value, text, written, null),
    }
}

// What is written of a null. Refuses only want of memory.
fn written_null(alloc: Global, cells: &SerializeOptions) -> PolarsResult<Vec<u8>>
    ensures null { IfOk result (λ null. null.items ≡ written_null (cell_options cells.now)) }
    ensures refused { IsOkUnless result error.OutOfMemory }
{
    let null = cells.null.as_str().as_bytes();
    let mut written = Vec::new(alloc);
    if cells.quote_style == QuoteStyle::Always {
        written.push(cells.quote_char)?;
        written.extend_from_slice(null)?;
        written.push(cells.quote_char)?;
    } else {
        written.extend_from_slice(null)?;
    }
    Ok(written)
}

// Whether the categories of a column have codes of 32 bits.
fn has_few_codes(column: &Column) -> bool
    ensures { IsTrue result ↔ (column.now.dtype ≡ dtype.Categorical → length (dictionary column.now.dtype column.now.values) ≤ 2 ^ 32) }
{
    match column.dtype() {
        DataType::Categorical => column.categories().len() <= 1 << 32,
        _ => true,
    }
}

// Whether each cell of a column comes back, given options under which texts are printed as they are, without quotes.
fn cells_fit(
    alloc: Global,
    options: &CsvWriterOptions,
    bare: &SerializeOptions,
    column: &Column,
) -> PolarsResult<bool>
    requires { (cell_options bare.now).style ≡ 3 }
    ensures fits { IfOk result (λ fits. IsTrue fits ↔ AllByRecursion (FitsCell (frame_options options.now) column.now.dtype) column.now.values) }
    ensures refused { IsOkUnless result error.OutOfMemory }
{
    let cells = &options.serialize_options;
    let dtype = column.dtype();
    let null = written_null(alloc, cells)?;
    let mut left = Serializer::new(column);
    let mut unwritten = Serializer::new(column);
    let mut text = Vec::new(alloc);
    let mut written = Vec::new(alloc);
    for row in 0..column.len() {
        text.clear();
        left.serialize(&mut text, bare)?;
        written.clear();
        unwritten.serialize(&mut written, cells)?;
        if !cell_fits(options, dtype, column.get(row), &text, &written, &null) {
            return Ok(false);
        }
    }
    Ok(true)
}

// Whether a column comes back.
fn column_fits(
    alloc: Global,
    options: &CsvWriterOptions,
    bare: &SerializeOptions,
    column: &Column,
) -> PolarsResult<bool>
    requires { (cell_options bare.now).style ≡ 3 }
    ensures fits { IfOk result (λ fits. IsTrue fits ↔ FitsColumn (frame_options options.now) column.now) }
    ensures refused { IsOkUnless result error.OutOfMemory }
{
    if column.dtype().readable() && has_few_codes(column) {
        cells_fit(alloc, options, bare, column)
    } else {
        Ok(false)
    }
}

// Whether each column comes back.
fn columns_fit(alloc: Global, options: &CsvWriterOptions, columns: &[Column]) -> PolarsResult<bool>
    ensures fits { IfOk result (λ fits. IsTrue fits ↔ AllByRecursion (FitsColumn (frame_options options.now)) columns.now) }
    ensures refused { IsOkUnless result error.OutOfMemory }
{
    let mut bare = options.serialize_options.try_clone()?;
    bare.quote_style = QuoteStyle::Never;
    let mut rest = columns;
    while let [first, behind @ ..] = rest {
        if !column_fits(alloc, options, &bare, first)? {
            return Ok(false);
        }
        rest = behind;
    }
    Ok(true)
}

// Whether a text begins neither with the mark of a compressed stream nor, unless one was asked, with a byte order mark.
fn is_unmarked(options: &CsvWriterOptions, text: &[u8]) -> bool
    ensures { IsTrue result ↔ IsUnmarked (frame_options options.now) text.now }
{
    !is_compressed(text) && (options.include_bom || !text.starts_with(&[0xEF, 0xBB, 0xBF]))
}

// The same of the text of a frame.
fn text_fits<W: Threads + Sync>(
    rt: &W,
    alloc: Global,
    options: &CsvWriterOptions,
    columns: &[Column],
) -> PolarsResult<bool>
    requires { HaveHeight (height_of columns.now) columns.now }
    ensures fits { IfOk result (λ fits. IsTrue fits ↔ IsUnmarked (frame_options options.now) (text_of_frame (frame_options options.now) columns.now)) }
    ensures refused { IsOkUnless result error.OutOfMemory }
{
    let mut sink = MemSink::new(alloc);
    match write_frame(rt, alloc, 1, columns, options, &mut sink) {
        Ok(()) => Ok(is_unmarked(options, sink.received())),
        Err(_) => Err(PolarsError::OutOfMemory),
    }
}

/// Whether a frame comes back as it is from the text that it has under these options, read by options that match
/// (docs/quoting.md, "What comes back"). It prints the frame once, to see how its text begins. Refuses only want of memory.
pub fn fits<W: Threads + Sync>(
    rt: &W,
    alloc: Global,
    frame: &DataFrame,
    options: &CsvWriterOptions,
) -> PolarsResult<bool>
    ensures exact { IfOk result (λ fits. IsTrue fits ↔ Fits (frame_options options.now) frame.now) }
    ensures refused { IsOkUnless result error.OutOfMemory }
{
    let columns = frame.columns();
    if options_fit(options)
        && names_fit(options, columns)
        && columns_fit(alloc, options, columns)?
    {
        text_fits(rt, alloc, options, columns)
    } else {
        Ok(false)
    }
}
