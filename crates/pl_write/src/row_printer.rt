//! A printer of rows, whose memory is used again.
ghost use Rattle.std.specs.Prelude.{◌≡◌, ◌-◌, ◌<◌, ◌≤◌, ◌++◌, [], All, length, IfOk, OnOk};
ghost use Rattle.pl_frame.specs.Frame.{HaveHeight, height_of};
ghost use Rattle.pl_text.specs.FrameText.{row_lines};
ghost use Rattle.pl_write.specs.Lines.{HaveRows};
ghost use Rattle.pl_write.specs.Options.{cell_options};
ghost use Rattle.pl_write.specs.Strips.{HasRows, strip_lines};

use crate::block::Block;
use crate::copies::{are_plain, copies_of};
use crate::lines::{append_rows, line_count, new_lines, rows_at_once};
use crate::options::SerializeOptions;
use crate::spare::Spare;
use crate::strips::{Strip, strips_of};
use crate::writer::row_count;
use pl_frame::column::Column;
use std::alloc::{AllocError, Global};
use std::marker::Model;

/// Prints rows of columns, and holds the lines that it printed last. Their memory is used again.
#[derive(Drop)]
pub struct RowPrinter {
    block: Block,
    lines: Vec<Block>,
    spare: Spare,
}

impl Model for RowPrinter {
    ghost use Rattle.std.specs.Prelude.{ℕ, List, length, ◌<◌};

    ghost Value = { List ℕ };

    ghost view = { λ printer. printer.block };

    ghost invariant = { λ printer. 0 < length printer.lines.items };
}

// Puts the lines of the rows of strips from one on up to another at the end of a block. Refuses only want of memory.
fn append_strips(
    block: &mut Block,
    lines: &mut [Block],
    spare: &mut Spare,
    strips: &[Strip<'_>],
    first: usize,
    end: usize,
    options: &SerializeOptions,
) -> Result<(), AllocError>
    requires lines { 0 < length lines.old }
    requires rows { All (HasRows (cell_options options.now) first end) strips.now }
    ensures { OnOk result (block.new ≡ block.old ++ strip_lines (cell_options options.now) strips.now first (end - first)) }
{
    let mut row = first;
    while row < end {
        let count = line_count(lines, end - row);
        append_rows(block, &mut lines[..count], spare, strips, row, options)?;
        row += count;
    }
    Ok(())
}

// Puts the lines of the rows from one on up to another at the end of a block, by one copy. Refuses only want of memory.
fn append_copied(
    alloc: Global,
    block: &mut Block,
    lines: &mut [Block],
    spare: &mut Spare,
    columns: &[Column],
    first: usize,
    end: usize,
    options: &SerializeOptions,
) -> Result<(), AllocError>
    requires lines { 0 < length lines.old }
    requires rows { first ≤ end }
    requires columns { HaveRows end columns.now }
    ensures { OnOk result (block.new ≡ block.old ++ row_lines (cell_options options.now) columns.now first (end - first)) }
{
    let copies = copies_of(alloc, columns, first, end)?;
    let strips = strips_of(alloc, columns, &copies, options)?;
    append_strips(
        block,
        lines,
        spare,
        &strips,
        copies.first,
        copies.end,
        options,
    )
}

// Puts the lines of the rows from one on up to another at the end of a block. Refuses only want of memory.
fn append_between(
    alloc: Global,
    block: &mut Block,
    lines: &mut [Block],
    spare: &mut Spare,
    columns: &[Column],
    first: usize,
    end: usize,
    options: &SerializeOptions,
) -> Result<(), AllocError>
    requires lines { 0 < length lines.old }
    requires columns { HaveRows end columns.now }
    ensures { OnOk result (block.new ≡ block.old ++ row_lines (cell_options options.now) columns.now first (end - first)) }
{
    let plain = are_plain(columns);
    let mut row = first;
    while row < end {
        let count = rows_at_once(plain, lines, end - row);
        append_copied(
            alloc,
            block,
            lines,
            spare,
            columns,
            row,
            row + count,
            options,
        )?;
        row += count;
    }
    Ok(())
}

impl RowPrinter {
    /// A printer that has printed nothing. Refuses only want of memory.
    pub fn new(alloc: Global) -> Result<RowPrinter, AllocError>
        ensures { IfOk result (λ printer. printer ≡ []) }
    {
        Ok(RowPrinter {
            block: Block::new(alloc),
            lines: new_lines(alloc)?,
            spare: Spare::new(alloc),
        })
    }

    /// The lines that were printed last.
    pub fn as_slice(&self) -> &[u8]
        ensures { result.now ≡ self.now }
    {
        self.block.as_slice()
    }

    /// Prints the lines of all rows of columns, in place of what it had printed before. Refuses only want of memory.
    pub fn print(
        &mut self,
        alloc: Global,
        columns: &[Column],
        options: &SerializeOptions,
    ) -> Result<(), AllocError>
        requires columns { HaveHeight (height_of columns.now) columns.now }
        ensures { OnOk result (self.new ≡ row_lines (cell_options options.now) columns.now 0 (height_of columns.now)) }
    {
        self.print_between(alloc, columns, 0, row_count(columns), options)
    }

    /// Prints the lines of the rows from one on up to another, in place of what it had printed before. Refuses only want of
    /// memory.
    pub(crate) fn print_between(
        &mut self,
        alloc: Global,
        columns: &[Column],
        first: usize,
        end: usize,
        options: &SerializeOptions,
    ) -> Result<(), AllocError>
        requires { HaveRows end columns.now }
        ensures { OnOk result (self.new ≡ row_lines (cell_options options.now) columns.now first (end - first)) }
    {
        self.block.clear();
        append_between(
            alloc,
            &mut self.block,
            &mut self.lines,
            &mut self.spare,
            columns,
            first,
            end,
            options,
        )
    }
}
