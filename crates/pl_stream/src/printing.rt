//! The lines of records of a stream.
ghost use Rattle.std.specs.Prelude.{◌≡◌, ◌≤◌, ◌<◌, ◌+◌, ◌^◌, ◌++◌, ℕ, List, length, map, take, None, Some, IfOk, OnOk, IfErr, IfSome};
ghost use Rattle.std.specs.Bool.{OnTrue};
ghost use Rattle.std.specs.Cow.{cow_slice_items};
ghost use Rattle.std.specs.List.{concat};
ghost use Rattle.pl_read.specs.Refusals.{numbers_past};
ghost use Rattle.pl_rows.specs.Pieces.{left_limit};
ghost use Rattle.pl_verbatim.specs.PrintedTexts.{CanPrint};
ghost use Rattle.pl_verbatim.specs.Verbatim.{IsVerbatimOf};
ghost use Rattle.pl_write.specs.Options.{cell_options};
ghost use Rattle.pl_stream.specs.Printing.{CanStream, IsRowsFault, IsPrintedOn, AreRowsPrinted, IsPrintFault, first_rows, rows_cause, lines_behind};
ghost use Rattle.pl_stream.specs.Whole.{IsWholeEnd};

use crate::cuts::{guess_end, last_end};
use crate::fault::StreamFault;
use crate::reading::{frame_behind, plan_in};
use crate::whole::{Whole, whole_records};
use pl_frame::schema::Schema;
use pl_options::read_options::CsvReadOptions;
use pl_read::settle_given::Settled;
use pl_read::workers::piece_size_for;
use pl_regions::front::print_text;
use pl_rows::plan::RangePlan;
use pl_verbatim::verbatim::Verbatim;
use pl_write::options::{CsvWriterOptions, SerializeOptions};
use pl_write::row_printer::RowPrinter;
use std::alloc::{AllocError, Global};
use std::borrow::CowSlice;

/// A limit of rows, less so many.
pub(crate) fn left_limit(limit: Option<usize>, rows: usize) -> Option<usize>
    ensures { result ≡ left_limit limit rows }
{
    match limit {
        Some(limit) => Some(limit.saturating_sub(rows)),
        None => None,
    }
}

/// Appends the lines of the first records of others, so many at most, behind so many. Refuses the first cause against them, and want of memory.
pub(crate) fn push_lines(
    alloc: Global,
    records: &[u8],
    printer: &mut RowPrinter,
    read: &CsvReadOptions,
    settled: &Settled,
    write: &CsvWriterOptions,
    before: usize,
    count: usize,
    text: &mut Vec<u8>,
) -> Result<(), StreamFault>
    requires can { CanStream read.now settled.now }
    requires fits { before + length (first_rows read.now count records.now) < 2 ^ 64 }
    ensures lines { OnOk result (text.new.items ≡ text.old.items ++ lines_behind read.now write.now before (first_rows read.now count records.now)) }
    ensures sound { OnOk result (rows_cause read.now before (first_rows read.now count records.now) ≡ None) }
    ensures refused { IfErr result (IsRowsFault (rows_cause read.now before (first_rows read.now count records.now))) }
{
    let frame = match frame_behind(alloc, records, read, settled, before, count) {
        Ok(frame) => frame,
        Err(fault) => return Err(fault),
    };
    if printer
        .print(alloc, frame.columns(), &write.serialize_options)
        .is_err()
    {
        return Err(StreamFault::OutOfMemory);
    }
    if text.extend_from_slice(printer.as_slice()).is_err() {
        return Err(StreamFault::OutOfMemory);
    }
    Ok(())
}

// Appends texts, one behind the other. Refuses only want of memory.
fn append_all(lines: &[CowSlice<'_, u8, Global>], text: &mut Vec<u8>) -> Result<(), AllocError>
    ensures { OnOk result (text.new.items ≡ text.old.items ++ concat (map cow_slice_items lines.now)) }
{
    for part in lines {
        text.extend_from_slice(part)?;
    }
    Ok(())
}

// Appends the lines of the front of records up to a place, behind another front. Refuses only want of memory.
fn print_on(
    alloc: Global,
    records: &[u8],
    printer: &mut RowPrinter,
    schema: &Schema,
    plan: &RangePlan<'_>,
    options: &SerializeOptions,
    verbatim: &Verbatim,
    piece_size: usize,
    front: Whole,
    to: usize,
    text: &mut Vec<u8>,
) -> Result<Whole, AllocError>
    requires can { CanPrint plan.now schema.now }
    requires verbatim { IsVerbatimOf plan.now schema.now (cell_options options.now) verbatim.now }
    requires size { 0 < piece_size }
    requires after { front.end ≤ to }
    requires within { to ≤ length records.now }
    requires few { front.rows ≤ front.end }
    ensures printed { (before : List ℕ) → IsPrintedOn plan.now schema.now (cell_options options.now) records.now before text.old.items front
        → IfOk result (λ whole. IsPrintedOn plan.now schema.now (cell_options options.now) records.now before text.new.items whole) }
    ensures few { IfOk result (λ whole. whole.rows ≤ whole.end) }
    ensures within { IfOk result (λ whole. whole.end ≤ to) }
{
    let more = print_text(
        alloc,
        &records[front.end..to],
        printer,
        schema,
        plan,
        options,
        verbatim,
        piece_size,
    );
    append_all(&more.lines, text)?;
    Ok(Whole {
        end: front.end + more.end,
        rows: front.rows + more.rows,
    })
}

// Whether rows may be printed as they are read.
fn is_row_by_row(read: &CsvReadOptions) -> bool
    ensures { OnTrue result ((read.now.row_index ≡ None) × (read.now.n_rows ≡ None)) }
{
    read.row_index.is_none() && read.n_rows.is_none()
}

// Appends the lines of the front of records, as far as these are printed as they are read. Refuses only want of memory.
fn print_front(
    alloc: Global,
    records: &[u8],
    printer: &mut RowPrinter,
    read: &CsvReadOptions,
    settled: &Settled,
    write: &CsvWriterOptions,
    text: &mut Vec<u8>,
) -> Result<Whole, AllocError>
    requires can { CanStream read.now settled.now }
    requires pieces { 0 < read.now.chunk_size }
    ensures printed { (before : ℕ) → numbers_past read.now.row_index before ≡ None → IfOk result (AreRowsPrinted read.now write.now before records.now text.old.items text.new.items) }
    ensures unlimited { IfOk result (λ whole. IfSome read.now.n_rows (λ _. whole.rows ≡ 0)) }
{
    let none = Whole { end: 0, rows: 0 };
    if !is_row_by_row(read) {
        return Ok(none);
    }
    let options = &write.serialize_options;
    let plan = plan_in(read, settled, None);
    let size = piece_size_for(read.chunk_size, plan.projection.places.len());
    let schema = &settled.schema;
    let verbatim = Verbatim::of(alloc, schema, &plan, options)?;
    let guess = guess_end(records, &plan.dialect, schema.len());
    let front = print_on(
        alloc, records, printer, schema, &plan, options, &verbatim, size, none, guess, text,
    )?;
    if front.end == guess {
        return Ok(front);
    }
    let to = front.end + last_end(&records[front.end..], &plan.dialect);
    print_on(
        alloc, records, printer, schema, &plan, options, &verbatim, size, front, to, text,
    )
}

// Appends the lines of the whole records at the front of others, behind so many, up to a limit. Refuses the first cause against all of them, and
// want of memory.
fn print_rest(
    alloc: Global,
    records: &[u8],
    printer: &mut RowPrinter,
    read: &CsvReadOptions,
    settled: &Settled,
    write: &CsvWriterOptions,
    before: usize,
    limit: Option<usize>,
    text: &mut Vec<u8>,
) -> Result<Whole, StreamFault>
    requires can { CanStream read.now settled.now }
    requires fits { before + length records.now < 2 ^ 64 }
    requires numbered { numbers_past read.now.row_index before ≡ None }
    ensures printed { IfOk result (AreRowsPrinted read.now write.now before records.now text.old.items text.new.items) }
    ensures end { IfOk result (IsWholeEnd read.now.parse_options records.now limit) }
    ensures few { IfOk result (λ whole. IfSome limit (λ most. whole.rows ≤ most)) }
    ensures refused { IfErr result (IsPrintFault read.now before limit records.now) }
{
    let whole = whole_records(records, &read.parse_options, limit);
    if whole.rows == 0 {
        return Ok(whole);
    }
    match push_lines(
        alloc,
        &records[..whole.end],
        printer,
        read,
        settled,
        write,
        before,
        whole.rows,
        text,
    ) {
        Ok(()) => Ok(whole),
        Err(fault) => Err(fault),
    }
}

/// Appends the lines of the whole records at the front of others, behind so many, up to the limit. Refuses the first cause against all of them,
/// and want of memory.
pub(crate) fn print_records(
    alloc: Global,
    records: &[u8],
    printer: &mut RowPrinter,
    read: &CsvReadOptions,
    settled: &Settled,
    write: &CsvWriterOptions,
    before: usize,
    text: &mut Vec<u8>,
) -> Result<Whole, StreamFault>
    requires can { CanStream read.now settled.now }
    requires pieces { 0 < read.now.chunk_size }
    requires fits { before + length records.now < 2 ^ 64 }
    requires numbered { numbers_past read.now.row_index before ≡ None }
    ensures printed { IfOk result (AreRowsPrinted read.now write.now before records.now text.old.items text.new.items) }
    ensures end { IfOk result (IsWholeEnd read.now.parse_options records.now (left_limit read.now.n_rows before)) }
    ensures few { IfOk result (λ whole. IfSome (left_limit read.now.n_rows before) (λ most. whole.rows ≤ most)) }
    ensures refused { IfErr result (IsPrintFault read.now before (left_limit read.now.n_rows before) records.now) }
{
    let Ok(front) = print_front(alloc, records, printer, read, settled, write, text) else {
        return Err(StreamFault::OutOfMemory);
    };
    let rest = &records[front.end..];
    let behind = before + front.rows;
    let limit = left_limit(read.n_rows, before);
    match print_rest(
        alloc, rest, printer, read, settled, write, behind, limit, text,
    ) {
        Ok(whole) => Ok(Whole {
            end: front.end + whole.end,
            rows: front.rows + whole.rows,
        }),
        Err(fault) => Err(fault),
    }
}
