//! The lines of some rows, put together column by column.
ghost use Rattle.std.specs.Prelude.{◌≡◌, ◌+◌, ◌≤◌, ◌<◌, ◌++◌, [], length, IfOk, OnOk};
ghost use Rattle.std.specs.List.{All, flat_map};
ghost use Rattle.pl_write.specs.CellSources.{IsSourceOf};
ghost use Rattle.pl_write.specs.Lines.{cell_in_line, GrewBy, AreLines};
ghost use Rattle.pl_write.specs.Options.{cell_options};
ghost use Rattle.pl_write.specs.Strips.{HasRows, joined_strips, strip_lines};

use crate::block::Block;
use crate::cell_source::CellSource;
use crate::options::SerializeOptions;
use crate::put_cell::PutCell;
use crate::put_sources::{
    ColumnSource, DateSource, DatetimeSource, DecimalSource, DigitSource, TextSource,
    WideDecimalSource,
};
use crate::spare::Spare;
use crate::strips::Strip;
use pl_frame::column::Column;
use std::alloc::{AllocError, Global};

// So many lines are put together at a time.
const LINES: usize = 16;

// So many rows are copied at a time, or fewer.
const ROWS: usize = 1 << 10;

// The lines of the rows that are copied at a time have about so many bytes, or fewer.
const COPIED: usize = 1 << 22;

// Where a line is longer, the next is put together by itself.
const LONG: usize = 1 << 16;

/// Some lines, as many as are put together at a time. Refuses only want of memory.
pub(crate) fn new_lines(alloc: Global) -> Result<Vec<Block>, AllocError>
    ensures { IfOk result (λ lines. 0 < length lines.items) }
{
    let mut lines = Vec::new(alloc);
    lines.push(Block::new(alloc))?;
    for _ in 1..LINES {
        lines.push(Block::new(alloc))?;
    }
    Ok(lines)
}

/// How many of the lines are put together next, where so many rows are left.
pub(crate) fn line_count(lines: &[Block], left: usize) -> usize
    requires lines { 0 < length lines.now }
    requires left { 0 < left }
    ensures some { 0 < result }
    ensures lines { result ≤ length lines.now }
    ensures left { result ≤ left }
{
    if lines[0].len() > LONG {
        1
    } else {
        lines.len().min(left)
    }
}

/// How many rows are copied and printed next, where so many are left: all, where none need be copied, and else a number that
/// depends on how long a line was that was put together last.
pub(crate) fn rows_at_once(plain: bool, lines: &[Block], left: usize) -> usize
    requires lines { 0 < length lines.now }
    requires left { 0 < left }
    ensures some { 0 < result }
    ensures left { result ≤ left }
{
    if plain {
        return left;
    }
    let line = lines[0].len();
    if line == 0 {
        return LINES.min(left);
    }
    (COPIED / line).min(ROWS).max(1).min(left)
}

// Takes all bytes out of the lines.
fn clear_lines(lines: &mut [Block])
    ensures { AreLines (λ row. []) 0 lines.new }
{
    for line in lines.iter_mut() {
        line.clear();
    }
}

// Puts the cells of a column at the ends of the lines of the rows from one on. Refuses only want of memory.
#[inline(never)]
fn append_cells<C: PutCell>(
    lines: &mut [Block],
    spare: &mut Spare,
    column: &Column,
    source: &C,
    first: usize,
    place: usize,
    options: &SerializeOptions,
) -> Result<(), AllocError>
    requires rows { first + length lines.old ≤ length column.now.values }
    requires source { C.fits source.now (cell_options options.now) column.now }
    ensures { OnOk result (GrewBy (cell_in_line (cell_options options.now) column.now place) first lines.old lines.new) }
{
    // `len` is called for its clause: a row is no more than the number of rows.
    let _len = column.len();
    for (k, line) in lines.iter_mut().enumerate() {
        line.append_cell(spare, column, source, first + k, place, options)?;
    }
    Ok(())
}

// The same for a source of any kind.
fn append_column(
    lines: &mut [Block],
    spare: &mut Spare,
    column: &Column,
    source: CellSource<'_>,
    first: usize,
    place: usize,
    options: &SerializeOptions,
) -> Result<(), AllocError>
    requires rows { first + length lines.old ≤ length column.now.values }
    requires source { IsSourceOf source (cell_options options.now) column.now }
    ensures { OnOk result (GrewBy (cell_in_line (cell_options options.now) column.now place) first lines.old lines.new) }
{
    match source {
        CellSource::Digits(numbers) => {
            append_cells(
                lines,
                spare,
                column,
                &DigitSource(numbers),
                first,
                place,
                options,
            )
        }
        CellSource::Dates(days) => {
            append_cells(
                lines,
                spare,
                column,
                &DateSource(days),
                first,
                place,
                options,
            )
        }
        CellSource::Datetimes(unit, counts) => {
            append_cells(
                lines,
                spare,
                column,
                &DatetimeSource(unit, counts),
                first,
                place,
                options,
            )
        }
        CellSource::Decimals(scale, numbers) => {
            append_cells(
                lines,
                spare,
                column,
                &DecimalSource(scale, numbers),
                first,
                place,
                options,
            )
        }
        CellSource::WideDecimals(scale, numbers) => {
            append_cells(
                lines,
                spare,
                column,
                &WideDecimalSource(scale, numbers),
                first,
                place,
                options,
            )
        }
        CellSource::Texts(texts) => {
            append_cells(
                lines,
                spare,
                column,
                &TextSource(texts),
                first,
                place,
                options,
            )
        }
        CellSource::Cells(form) => {
            append_cells(
                lines,
                spare,
                column,
                &ColumnSource(form),
                first,
                place,
                options,
            )
        }
    }
}

// Puts together the lines of the rows from one on, without what ends them. Refuses only want of memory.
fn put_together(
    lines: &mut [Block],
    spare: &mut Spare,
    strips: &[Strip<'_>],
    first: usize,
    options: &SerializeOptions,
) -> Result<(), AllocError>
    requires { All (HasRows (cell_options options.now) first (first + length lines.old)) strips.now }
    ensures { OnOk result (AreLines (joined_strips (cell_options options.now) strips.now) first lines.new) }
{
    clear_lines(lines);
    for (place, strip) in strips.iter().enumerate() {
        let row = first - strip.before;
        append_column(
            lines,
            spare,
            strip.column,
            strip.source,
            row,
            place,
            options,
        )?;
    }
    Ok(())
}

// Puts lines at the end of a block, each with what ends it. Refuses only want of memory.
fn append_lines(
    block: &mut Block,
    lines: &[Block],
    options: &SerializeOptions,
) -> Result<(), AllocError>
    ensures { OnOk result (block.new ≡ block.old ++ flat_map (λ line. line ++ options.now.line_terminator) lines.now) }
{
    for line in lines {
        block.append_line(line, options)?;
    }
    Ok(())
}

/// Puts the lines of the rows from one on at the end of a block, as many as these lines, which are put together anew. Refuses
/// only want of memory.
pub(crate) fn append_rows(
    block: &mut Block,
    lines: &mut [Block],
    spare: &mut Spare,
    strips: &[Strip<'_>],
    first: usize,
    options: &SerializeOptions,
) -> Result<(), AllocError>
    requires { All (HasRows (cell_options options.now) first (first + length lines.old)) strips.now }
    ensures { OnOk result (block.new ≡ block.old ++ strip_lines (cell_options options.now) strips.now first (length lines.old)) }
{
    put_together(lines, spare, strips, first, options)?;
    append_lines(block, lines, options)
}
