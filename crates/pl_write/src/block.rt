//! The bytes that are to be written next.
ghost use Rattle.std.specs.Prelude.{◌≡◌, [], ◌++◌, ◌<◌, length, OnOk};
ghost use Rattle.std.specs.Bool.{OnTrue, OnFalse};
ghost use Rattle.pl_write.specs.Lines.{cell_in_line};
ghost use Rattle.pl_write.specs.Options.{cell_options};

use crate::options::SerializeOptions;
use crate::put_cell::PutCell;
use crate::put_lines::{put_cell_in_line, put_line};
use crate::spare::Spare;
use pl_frame::column::Column;
use std::alloc::{AllocError, Global};
use std::marker::Model;

// A block grows by this or more.
const GROWTH: usize = 1 << 8;

/// Bytes that are to be written next: those of a buffer up to a cursor.
#[derive(Drop)]
pub(crate) struct Block {
    buffer: Vec<u8>,
    cursor: usize,
}

impl Model for Block {
    ghost use Rattle.std.specs.Prelude.{ℕ, List, take, length, ◌≤◌};

    ghost Value = { List ℕ };

    ghost view = { λ b. take b.cursor b.buffer.items };

    ghost invariant = { λ b. b.cursor ≤ length b.buffer.items };
}

impl Block {
    /// No bytes, without taking memory.
    pub(crate) fn new(alloc: Global) -> Block
        ensures { result ≡ [] }
    {
        Block {
            buffer: Vec::new(alloc),
            cursor: 0,
        }
    }

    /// How many bytes there are.
    #[inline]
    pub(crate) fn len(&self) -> usize
        ensures { result ≡ length self.now }
    {
        self.cursor
    }

    /// The bytes.
    pub(crate) fn as_slice(&self) -> &[u8]
        ensures { result.now ≡ self.now }
    {
        &self.buffer[..self.cursor]
    }

    /// Takes all bytes out. The memory stays.
    pub(crate) fn clear(&mut self)
        ensures { self.new ≡ [] }
    {
        self.cursor = 0;
    }

    // Makes room for as many bytes as there are, and some. Refuses only want of memory; the bytes stay as they are.
    #[cold]
    fn grow(&mut self) -> Result<(), AllocError>
        ensures { OnOk result (self.new ≡ self.old) }
    {
        let len = self.buffer.len().saturating_mul(2).max(GROWTH);
        self.buffer.resize(len, 0)
    }

    /// Puts bytes at the end. Refuses only want of memory.
    pub(crate) fn append(&mut self, text: &[u8]) -> Result<(), AllocError>
        ensures { OnOk result (self.new ≡ self.old ++ text.now) }
    {
        self.buffer.truncate(self.cursor);
        self.buffer.extend_from_slice(text)?;
        self.cursor = self.buffer.len();
        Ok(())
    }

    /// Puts a cell at the end, with a separator in front unless it is the first of its line. Refuses only want of memory.
    #[inline(always)]
    pub(crate) fn append_cell<C: PutCell>(
        &mut self,
        spare: &mut Spare,
        column: &Column,
        source: &C,
        row: usize,
        place: usize,
        options: &SerializeOptions,
    ) -> Result<(), AllocError>
        requires row { row < length column.now.values }
        requires source { C.fits source.now (cell_options options.now) column.now }
        ensures { OnOk result (self.new ≡ self.old ++ cell_in_line (cell_options options.now) column.now place row) }
    {
        // Each time the block is twice as large, so memory is wanting long before the last.
        for _ in 0..64 {
            if self.try_cell(spare, column, source, row, place, options) {
                return Ok(());
            }
            self.grow()?;
        }
        Err(AllocError)
    }

    // Puts a cell at the end as `append_cell`, and answers whether there was room. Where there was not, the bytes are as they
    // were.
    #[inline(always)]
    fn try_cell<C: PutCell>(
        &mut self,
        spare: &mut Spare,
        column: &Column,
        source: &C,
        row: usize,
        place: usize,
        options: &SerializeOptions,
    ) -> bool
        requires row { row < length column.now.values }
        requires source { C.fits source.now (cell_options options.now) column.now }
        ensures put { OnTrue result (self.new ≡ self.old ++ cell_in_line (cell_options options.now) column.now place row) }
        ensures unchanged { OnFalse result (self.new ≡ self.old) }
    {
        match put_cell_in_line(
            &mut self.buffer,
            self.cursor,
            spare,
            column,
            source,
            row,
            place,
            options,
        ) {
            Some(end) => {
                self.cursor = end;
                true
            }
            None => false,
        }
    }

    /// Puts a line and what ends it at the end. Refuses only want of memory.
    #[inline]
    pub(crate) fn append_line(
        &mut self,
        line: &Block,
        options: &SerializeOptions,
    ) -> Result<(), AllocError>
        ensures { OnOk result (self.new ≡ self.old ++ (line.now ++ options.now.line_terminator)) }
    {
        for _ in 0..64 {
            if self.try_line(line, options) {
                return Ok(());
            }
            self.grow()?;
        }
        Err(AllocError)
    }

    // Puts a line and what ends it at the end, and answers whether there was room. Where there was not, the bytes are as they
    // were.
    #[inline(always)]
    fn try_line(&mut self, line: &Block, options: &SerializeOptions) -> bool
        ensures put { OnTrue result (self.new ≡ self.old ++ (line.now ++ options.now.line_terminator)) }
        ensures unchanged { OnFalse result (self.new ≡ self.old) }
    {
        match put_line(
            &mut self.buffer,
            self.cursor,
            &line.buffer,
            line.cursor,
            options,
        ) {
            Some(behind) => {
                self.cursor = behind;
                true
            }
            None => false,
        }
    }
}
