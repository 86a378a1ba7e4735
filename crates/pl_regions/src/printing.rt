//! All rows of data, read and printed by workers.
ghost use Rattle.std.specs.Prelude.{◌≡◌, ◌+◌, ◌++◌, ◌<◌, ◌^◌, ℕ, List, true, IfOk, OnOk, length, map};
ghost use Rattle.std.specs.Cow.{cow_slice_items};
ghost use Rattle.std.specs.List.{concat};
ghost use Rattle.pl_frame.specs.Dialect.{IsDialect};
ghost use Rattle.pl_frame.specs.Frame.{HaveHeight, height_of};
ghost use Rattle.pl_scan.specs.Dialect.{marks_of, comment_of};
ghost use Rattle.pl_scan.specs.LineCuts.{RiseTo};
ghost use Rattle.pl_write.specs.Batches.{all_lines};
ghost use Rattle.pl_write.specs.Options.{cell_options};
ghost use Rattle.pl_verbatim.specs.PrintedTexts.{CanPrint};
ghost use Rattle.pl_regions.specs.Printing.{IsLeftBehind, IsPrinted, IsPrintedFront};

use crate::cutting::{guess_regions, region_size};
use crate::front::{Front, make_room, print_texts};
use pl_board::ranges::cut_into_ranges;
use pl_frame::column::Column;
use pl_frame::schema::Schema;
use pl_rows::columns::read_columns;
use pl_rows::pieces::end_behind;
use pl_rows::plan::RangePlan;
use pl_rows::range::RangeEnd;
use pl_scan::dialect::Dialect;
use pl_write::options::SerializeOptions;
use pl_write::row_printer::RowPrinter;
use std::alloc::{AllocError, Global};
use std::borrow::CowSlice;
use std::sync::Wait;
use std::thread::Threads;

/// What came of data: where its reading ended, and where that is behind all rows, their lines, one text behind the other, and how many there are.
#[derive(Drop)]
pub struct PrintedRows<'a> {
    pub lines: Vec<CowSlice<'a, u8, Global>>,
    pub rows: usize,
    pub end: RangeEnd,
}

// The texts between these places.
fn texts_between<'a>(
    alloc: Global,
    bytes: &'a [u8],
    ends: &[usize],
) -> Result<Vec<&'a [u8]>, AllocError>
    requires { RiseTo (length bytes.now) 0 ends.now }
    ensures { IfOk result (λ texts. concat (map (λ text. text.now) texts.items) ≡ bytes.now) }
{
    let mut texts = Vec::new(alloc);
    let mut from = 0;
    for end in ends {
        texts.push(&bytes[from..*end])?;
        from = *end;
    }
    Ok(texts)
}

// The front of a text whose regions are cut by a guess: as far as each ends where an item does. Refuses only want of memory.
pub(crate) fn guess_front<'a, W: Threads + Sync>(
    rt: &W,
    alloc: Global,
    workers: usize,
    records: &'a [u8],
    schema: &Schema,
    plan: &RangePlan<'_>,
    options: &SerializeOptions,
    piece_size: usize,
) -> Result<Front<'a>, AllocError>
    requires workers { 0 < workers }
    requires can { CanPrint plan.now schema.now }
    requires size { 0 < piece_size }
    ensures { IfOk result (IsPrintedFront plan.now schema.now (cell_options options.now) records.now) }
{
    let dialect = &plan.dialect;
    let width = plan.projection.width;
    let size = region_size(records.len(), workers, piece_size);
    let Some(texts) = guess_regions(alloc, size, records, dialect, width)? else {
        return Ok(Front::new(alloc));
    };
    print_texts(rt, alloc, workers, &texts, schema, plan, options, size)
}

// The texts of regions of about this size that begin where items do; for one worker all is one, since it finds item ends as it comes to them.
// Refuses only want of memory.
fn range_texts<'a, W: Threads + Wait + Sync>(
    rt: &W,
    alloc: Global,
    workers: usize,
    records: &'a [u8],
    dialect: &Dialect<'_>,
    size: usize,
) -> Result<Vec<&'a [u8]>, AllocError>
    requires workers { 0 < workers }
    requires dialect { IsDialect (marks_of dialect.now) (comment_of dialect.now) }
    requires size { 0 < size }
    ensures { IfOk result (λ texts. concat (map (λ text. text.now) texts.items) ≡ records.now) }
{
    if workers == 1 {
        let mut texts = Vec::new(alloc);
        texts.push(records)?;
        return Ok(texts);
    }
    match cut_into_ranges(rt, alloc, records, dialect, size, workers) {
        Ok(ends) => texts_between(alloc, records, &ends),
        Err(_) => Err(AllocError),
    }
}

// The front of a text whose regions begin where items do. Refuses only want of memory.
pub(crate) fn range_front<'a, W: Threads + Wait + Sync>(
    rt: &W,
    alloc: Global,
    workers: usize,
    records: &'a [u8],
    schema: &Schema,
    plan: &RangePlan<'_>,
    options: &SerializeOptions,
    piece_size: usize,
) -> Result<Front<'a>, AllocError>
    requires workers { 0 < workers }
    requires can { CanPrint plan.now schema.now }
    requires size { 0 < piece_size }
    ensures { IfOk result (IsPrintedFront plan.now schema.now (cell_options options.now) records.now) }
{
    let size = region_size(records.len(), workers, piece_size);
    let texts = range_texts(rt, alloc, workers, records, &plan.dialect, size)?;
    print_texts(rt, alloc, workers, &texts, schema, plan, options, size)
}

// Two fronts, the second of what the first leaves. Refuses only want of memory.
pub(crate) fn join_fronts<'a>(first: Front<'a>, next: Front<'a>) -> Result<Front<'a>, AllocError>
    requires end { first.end + next.end < 2 ^ 64 }
    requires rows { first.rows + next.rows < 2 ^ 64 }
    ensures end { IfOk result (λ front. front.end ≡ first.entry.end + next.entry.end) }
    ensures rows { IfOk result (λ front. front.rows ≡ first.entry.rows + next.entry.rows) }
    ensures lines { IfOk result (λ front. front.lines.items ≡ first.entry.lines.items ++ next.entry.lines.items) }
{
    let Front {
        end,
        rows,
        mut lines,
    } = first;
    let mut more = next.lines;
    lines.append(&mut more)?;
    Ok(Front {
        end: end + next.end,
        rows: rows + next.rows,
        lines,
    })
}

// The lines of columns. Refuses only want of memory.
pub(crate) fn lines_of(
    alloc: Global,
    columns: &[Column],
    options: &SerializeOptions,
) -> Result<Vec<u8>, AllocError>
    requires { HaveHeight (height_of columns.now) columns.now }
    ensures { IfOk result (λ lines. lines.items ≡ all_lines (cell_options options.now) columns.now) }
{
    let mut lines = Vec::new(alloc);
    let mut printer = RowPrinter::new(alloc)?;
    printer.print(alloc, columns, options)?;
    lines.extend_from_slice(printer.as_slice())?;
    Ok(lines)
}

// So many rows and those of columns. Refuses more than numbers of 64 bits count, as want of memory.
pub(crate) fn rows_with(rows: usize, columns: &[Column]) -> Result<usize, AllocError>
    ensures { IfOk result (λ all. all ≡ rows + height_of columns.now) }
{
    let more = match columns {
        [] => 0,
        [first, ..] => first.len(),
    };
    match rows.checked_add(more) {
        Some(all) => Ok(all),
        None => Err(AllocError),
    }
}

// Appends a text to others, where it has bytes. Refuses only want of memory.
pub(crate) fn push_text<'a>(
    lines: &mut Vec<CowSlice<'a, u8, Global>>,
    text: Vec<u8>,
) -> Result<(), AllocError>
    ensures { OnOk result (concat (map cow_slice_items lines.new.items) ≡ concat (map cow_slice_items lines.old.items) ++ text.items) }
{
    if text.is_empty() {
        return Ok(());
    }
    lines.push(CowSlice::Owned(text))?;
    Ok(())
}

// Reads what is left behind a front as one range, and prints its rows where none has a fault. Refuses only want of memory.
fn print_last<'a>(
    alloc: Global,
    front: Front<'a>,
    left: &[u8],
    schema: &Schema,
    plan: &RangePlan<'_>,
    options: &SerializeOptions,
) -> Result<PrintedRows<'a>, AllocError>
    requires can { CanPrint plan.now schema.now }
    requires last { plan.now.last ≡ true }
    requires left { (records : List ℕ) × IsLeftBehind plan.now schema.now (cell_options options.now) records front left.now }
    ensures { (records : List ℕ) → IsLeftBehind plan.now schema.now (cell_options options.now) records front.entry left.now → IfOk result (IsPrinted plan.now schema.now (cell_options options.now) records) }
{
    let Front {
        end: _,
        rows,
        mut lines,
    } = front;
    if left.is_empty() {
        let end = RangeEnd::Closed;
        return Ok(PrintedRows { lines, rows, end });
    }
    let read = read_columns(alloc, schema, left, plan)?;
    let end = end_behind(rows, read.end);
    if let RangeEnd::Fault { .. } = end {
        return Ok(PrintedRows { lines, rows, end });
    }
    let rows = rows_with(rows, &read.columns)?;
    push_text(&mut lines, lines_of(alloc, &read.columns, options)?)?;
    Ok(PrintedRows { lines, rows, end })
}

/// Reads and prints what is left of data behind a front that was printed: by workers, as ranges that begin and end where items do, and from the
/// first row that has a fault on, or where the last record has no line end, as one range. Refuses only want of memory.
pub fn print_rest<'a, W: Threads + Wait + Sync>(
    rt: &W,
    alloc: Global,
    workers: usize,
    front: Front<'a>,
    left: &'a [u8],
    schema: &Schema,
    plan: &RangePlan<'_>,
    options: &SerializeOptions,
    piece_size: usize,
) -> Result<PrintedRows<'a>, AllocError>
    requires workers { 0 < workers }
    requires can { CanPrint plan.now schema.now }
    requires last { plan.now.last ≡ true }
    requires size { 0 < piece_size }
    requires left { (records : List ℕ) × IsLeftBehind plan.now schema.now (cell_options options.now) records front left.now }
    ensures { (records : List ℕ) → IsLeftBehind plan.now schema.now (cell_options options.now) records front.entry left.now → IfOk result (IsPrinted plan.now schema.now (cell_options options.now) records) }
{
    if left.len() < piece_size {
        return print_last(alloc, front, left, schema, plan, options);
    }
    let next = range_front(rt, alloc, workers, left, schema, plan, options, piece_size)?;
    let left = &left[next.end..];
    let front = join_fronts(front, next)?;
    print_last(alloc, front, left, schema, plan, options)
}

/// Reads and prints the rows of data by workers, which take regions of about a piece each as they come. The answer is the lines of all rows, or
/// the first row that has a fault. The last byte counts as the last of the input. Refuses only want of memory.
pub fn print_front<'a, W: Threads + Wait + Sync>(
    rt: &W,
    alloc: Global,
    workers: usize,
    records: &'a [u8],
    schema: &Schema,
    plan: &RangePlan<'_>,
    options: &SerializeOptions,
    piece_size: usize,
) -> Result<PrintedRows<'a>, AllocError>
    requires workers { 0 < workers }
    requires can { CanPrint plan.now schema.now }
    requires last { plan.now.last ≡ true }
    requires size { 0 < piece_size }
    ensures { IfOk result (IsPrinted plan.now schema.now (cell_options options.now) records.now) }
{
    make_room(alloc);
    let front = guess_front(
        rt, alloc, workers, records, schema, plan, options, piece_size,
    )?;
    let left = &records[front.end..];
    print_rest(
        rt, alloc, workers, front, left, schema, plan, options, piece_size,
    )
}
