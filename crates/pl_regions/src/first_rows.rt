//! The rows of data, or the first so many of them, read and printed by workers.
ghost use Rattle.std.specs.Prelude.{◌≡◌, ◌+◌, ◌<◌, ◌≤◌, ℕ, List, true, Some, IfOk, IfSome, length};
ghost use Rattle.pl_write.specs.Options.{cell_options};
ghost use Rattle.pl_verbatim.specs.PrintedTexts.{CanPrint};
ghost use Rattle.pl_regions.specs.Limits.{without_limit};
ghost use Rattle.pl_regions.specs.Printing.{IsLeftBehind, IsPrinted, IsPrintedFront};

use crate::front::{Front, make_room};
use crate::limits::without_limit;
use crate::printing::{
    PrintedRows, guess_front, join_fronts, lines_of, print_front, print_rest, push_text,
    range_front, rows_with,
};
use pl_frame::schema::Schema;
use pl_rows::columns::read_columns;
use pl_rows::pieces::{end_behind, plan_behind};
use pl_rows::plan::RangePlan;
use pl_rows::range::RangeEnd;
use pl_scan::masks::equal_to;
use pl_write::options::SerializeOptions;
use std::alloc::{AllocError, Global};
use std::simd::prelude::*;
use std::sync::Wait;
use std::thread::Threads;

// So often it is guessed at most how far the first rows go.
const GUESSES: usize = 64;

// The number of line ends in the 64 bytes from a place on.
#[inline(always)]
fn ends_in_block(bytes: &[u8], at: usize, eol_char: u8) -> usize
    requires { at + 64 ≤ length bytes.now }
{
    let block = u8x64::from_slice(&bytes[at..at + 64]);
    equal_to(block, eol_char).count_ones() as usize
}

// How many bytes are no more than so many lines, in whole blocks; all, where the last few bytes are too.
fn blocks_len(bytes: &[u8], eol_char: u8, lines: usize) -> usize
    ensures { result ≤ length bytes.now }
{
    let mut left = lines;
    for k in 0..bytes.len() / 64 {
        match left.checked_sub(ends_in_block(bytes, k * 64, eol_char)) {
            Some(fewer) => left = fewer,
            None => return k * 64,
        }
    }
    if bytes.len() % 64 <= left {
        return bytes.len();
    }
    bytes.len() / 64 * 64
}

// The length of a front that seems to have no more rows than so many: it has no more line ends, and ends with one, unless it is all.
fn guess_len(bytes: &[u8], eol_char: u8, rows: usize) -> usize
    ensures { result ≤ length bytes.now }
{
    let mut end = blocks_len(bytes, eol_char, rows);
    if end == bytes.len() {
        return end;
    }
    while end > 0 && bytes[end - 1] != eol_char {
        end -= 1;
    }
    end
}

// The front of a text: its regions begin by a guess, and behind the first that does not end where an item does, where items do. Refuses only
// want of memory.
fn print_text_front<'a, W: Threads + Wait + Sync>(
    rt: &W,
    alloc: Global,
    workers: usize,
    text: &'a [u8],
    schema: &Schema,
    plan: &RangePlan<'_>,
    options: &SerializeOptions,
    piece_size: usize,
) -> Result<Front<'a>, AllocError>
    requires workers { 0 < workers }
    requires can { CanPrint plan.now schema.now }
    requires size { 0 < piece_size }
    ensures { IfOk result (IsPrintedFront plan.now schema.now (cell_options options.now) text.now) }
{
    let front = guess_front(rt, alloc, workers, text, schema, plan, options, piece_size)?;
    let left = &text[front.end..];
    if left.len() < piece_size {
        return Ok(front);
    }
    let next = range_front(rt, alloc, workers, left, schema, plan, options, piece_size)?;
    join_fronts(front, next)
}

// The front of data with so many rows at most. How far it goes is guessed by line ends, of which there are no fewer than rows, again and again,
// since there may be line ends within fields and comments: a text with more rows is not trusted. Refuses only want of memory.
fn print_first<'a, W: Threads + Wait + Sync>(
    rt: &W,
    alloc: Global,
    workers: usize,
    records: &'a [u8],
    schema: &Schema,
    plan: &RangePlan<'_>,
    options: &SerializeOptions,
    piece_size: usize,
    limit: usize,
) -> Result<Front<'a>, AllocError>
    requires workers { 0 < workers }
    requires can { CanPrint plan.now schema.now }
    requires size { 0 < piece_size }
    ensures front { IfOk result (IsPrintedFront plan.now schema.now (cell_options options.now) records.now) }
    ensures few { IfOk result (λ front. front.rows ≤ limit) }
{
    let mut front = Front::new(alloc);
    for _ in 0..GUESSES {
        let left = &records[front.end..];
        let rows = limit - front.rows;
        let len = guess_len(left, plan.dialect.eol_char, rows);
        if len < piece_size {
            return Ok(front);
        }
        let text = &left[..len];
        let next = print_text_front(rt, alloc, workers, text, schema, plan, options, piece_size)?;
        if next.rows > rows {
            return Ok(front);
        }
        let is_short = next.end <= len / 2;
        front = join_fronts(front, next)?;
        if is_short {
            return Ok(front);
        }
    }
    Ok(front)
}

// Reads what is left of data behind a front as one range, up to the limit, and prints its rows where none has a fault. Refuses only want of memory.
fn print_behind<'a>(
    alloc: Global,
    front: Front<'a>,
    left: &[u8],
    schema: &Schema,
    plan: &RangePlan<'_>,
    options: &SerializeOptions,
) -> Result<PrintedRows<'a>, AllocError>
    requires can { CanPrint (without_limit plan.now) schema.now }
    requires last { plan.now.last ≡ true }
    requires few { IfSome plan.now.limit (λ limit. front.rows ≤ limit) }
    requires left { (records : List ℕ) × IsLeftBehind (without_limit plan.now) schema.now (cell_options options.now) records front left.now }
    ensures { (records : List ℕ) → IsLeftBehind (without_limit plan.now) schema.now (cell_options options.now) records front.entry left.now → IfOk result (IsPrinted plan.now schema.now (cell_options options.now) records) }
{
    let Front {
        end: _,
        rows,
        mut lines,
    } = front;
    let behind = plan_behind(plan, rows, true);
    let read = read_columns(alloc, schema, left, &behind)?;
    let end = end_behind(rows, read.end);
    if let RangeEnd::Fault { .. } = end {
        return Ok(PrintedRows { lines, rows, end });
    }
    let rows = rows_with(rows, &read.columns)?;
    push_text(&mut lines, lines_of(alloc, &read.columns, options)?)?;
    Ok(PrintedRows { lines, rows, end })
}

// Reads and prints what is left of data behind a front that was printed: by workers as far as rows before the limit seem to go, and from there on as
// one range, up to the limit. Refuses only want of memory.
fn print_limited_rest<'a, W: Threads + Wait + Sync>(
    rt: &W,
    alloc: Global,
    workers: usize,
    front: Front<'a>,
    left: &'a [u8],
    schema: &Schema,
    plan: &RangePlan<'_>,
    options: &SerializeOptions,
    piece_size: usize,
    limit: usize,
) -> Result<PrintedRows<'a>, AllocError>
    requires workers { 0 < workers }
    requires can { CanPrint (without_limit plan.now) schema.now }
    requires last { plan.now.last ≡ true }
    requires limit { plan.now.limit ≡ Some limit }
    requires size { 0 < piece_size }
    requires few { front.rows ≤ limit }
    requires left { (records : List ℕ) × IsLeftBehind (without_limit plan.now) schema.now (cell_options options.now) records front left.now }
    ensures { (records : List ℕ) → IsLeftBehind (without_limit plan.now) schema.now (cell_options options.now) records front.entry left.now → IfOk result (IsPrinted plan.now schema.now (cell_options options.now) records) }
{
    let all = without_limit(plan);
    let most = limit - front.rows;
    let next = print_first(
        rt, alloc, workers, left, schema, &all, options, piece_size, most,
    )?;
    let left = &left[next.end..];
    let front = join_fronts(front, next)?;
    print_behind(alloc, front, left, schema, plan, options)
}

/// Reads and prints what is left of data behind a front that was printed and has no more rows than the limit: as `print_rest` does, or where the
/// plan has a limit, up to that. Refuses only want of memory.
pub(crate) fn print_rows_left<'a, W: Threads + Wait + Sync>(
    rt: &W,
    alloc: Global,
    workers: usize,
    front: Front<'a>,
    left: &'a [u8],
    schema: &Schema,
    plan: &RangePlan<'_>,
    options: &SerializeOptions,
    piece_size: usize,
) -> Result<PrintedRows<'a>, AllocError>
    requires workers { 0 < workers }
    requires can { CanPrint (without_limit plan.now) schema.now }
    requires last { plan.now.last ≡ true }
    requires size { 0 < piece_size }
    requires few { IfSome plan.now.limit (λ limit. front.rows ≤ limit) }
    requires left { (records : List ℕ) × IsLeftBehind (without_limit plan.now) schema.now (cell_options options.now) records front left.now }
    ensures { (records : List ℕ) → IsLeftBehind (without_limit plan.now) schema.now (cell_options options.now) records front.entry left.now → IfOk result (IsPrinted plan.now schema.now (cell_options options.now) records) }
{
    match plan.limit {
        None => print_rest(
            rt, alloc, workers, front, left, schema, plan, options, piece_size,
        ),
        Some(limit) => print_limited_rest(
            rt, alloc, workers, front, left, schema, plan, options, piece_size, limit,
        ),
    }
}

// Reads and prints the rows of data by workers, where the plan has this limit. Refuses only want of memory.
fn print_limited<'a, W: Threads + Wait + Sync>(
    rt: &W,
    alloc: Global,
    workers: usize,
    records: &'a [u8],
    schema: &Schema,
    plan: &RangePlan<'_>,
    options: &SerializeOptions,
    piece_size: usize,
    limit: usize,
) -> Result<PrintedRows<'a>, AllocError>
    requires workers { 0 < workers }
    requires can { CanPrint (without_limit plan.now) schema.now }
    requires last { plan.now.last ≡ true }
    requires limit { plan.now.limit ≡ Some limit }
    requires size { 0 < piece_size }
    ensures { IfOk result (IsPrinted plan.now schema.now (cell_options options.now) records.now) }
{
    let all = without_limit(plan);
    if limit >= records.len() {
        return print_front(
            rt, alloc, workers, records, schema, &all, options, piece_size,
        );
    }
    make_room(alloc);
    print_limited_rest(
        rt,
        alloc,
        workers,
        Front::new(alloc),
        records,
        schema,
        plan,
        options,
        piece_size,
        limit,
    )
}

/// Reads and prints the rows of data by workers, as `print_front` does, or where the plan has a limit, the first so many of them. What stands behind
/// these is not judged. Refuses only want of memory.
pub fn print_rows<'a, W: Threads + Wait + Sync>(
    rt: &W,
    alloc: Global,
    workers: usize,
    records: &'a [u8],
    schema: &Schema,
    plan: &RangePlan<'_>,
    options: &SerializeOptions,
    piece_size: usize,
) -> Result<PrintedRows<'a>, AllocError>
    requires workers { 0 < workers }
    requires can { CanPrint (without_limit plan.now) schema.now }
    requires last { plan.now.last ≡ true }
    requires size { 0 < piece_size }
    ensures { IfOk result (IsPrinted plan.now schema.now (cell_options options.now) records.now) }
{
    match plan.limit {
        None => print_front(
            rt, alloc, workers, records, schema, plan, options, piece_size,
        ),
        Some(limit) => print_limited(
            rt, alloc, workers, records, schema, plan, options, piece_size, limit,
        ),
    }
}
