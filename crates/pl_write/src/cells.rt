//! The cells of a column from one row on.
ghost use Rattle.std.specs.Prelude.{◌≡◌, ◌++◌, ◌<◌, length, OnErr, OnOk};
ghost use Rattle.pl_frame.specs.Frame.{cell_at};
ghost use Rattle.pl_text.specs.FrameText.{written_cell};
ghost use Rattle.pl_write.specs.CellsLeft.{next_cell, without_next};
ghost use Rattle.pl_write.specs.Options.{cell_options};
ghost use Rattle.pl_write.specs.Writing.{StaysInFront};

use crate::options::SerializeOptions;
use crate::texts::{push_null, push_text};
use crate::values::{push_number_cell, push_truth_cell};
use pl_frame::column::{Column, Value};
use std::alloc::AllocError;
use std::marker::Model;

// Appends the text of a cell of a column. `scratch` is a buffer for its own use, of which nothing is expected.
#[tactic(auto, using(crate::proofs::KeptLaws::keeping))]
#[inline]
fn push_cell(
    block: &mut Vec<u8>,
    scratch: &mut Vec<u8>,
    column: &Column,
    row: usize,
    options: &SerializeOptions,
) -> Result<(), AllocError>
    requires { row < length column.now.values }
    ensures text { OnOk result (block.new.items ≡ block.old.items ++ written_cell (cell_options options.now) column.now.dtype (cell_at column.now row)) }
    ensures kept { StaysInFront block.old.items block.new.items }
{
    match column.get(row) {
        Value::Null => push_null(block, options),
        Value::Text(text) => push_text(block, text.as_bytes(), options),
        Value::Boolean(truth) => push_truth_cell(block, scratch, column.dtype(), truth, options),
        Value::Whole(number) => push_number_cell(block, scratch, column.dtype(), number, options),
    }
}

/// The cells of a column that are left to write, and their type.
#[derive(Debug, Drop)]
pub struct Cells<'a> {
    column: &'a Column,
    next: usize,
}

impl<'a> Model for Cells<'a> {
    ghost use Rattle.std.specs.Prelude.{drop};
    ghost use Rattle.pl_write.specs.CellsLeft.{CellsLeft};

    ghost Value = { CellsLeft };

    ghost view = { λ c. record { dtype = c.column.now.dtype; cells = drop c.next c.column.now.values } };
}

impl<'a> Cells<'a> {
    // All cells of a column.
    #[inline]
    pub(crate) fn new(column: &'a Column) -> Cells<'a>
        ensures { result ≡ record { dtype = column.now.dtype; cells = column.now.values } }
    {
        Cells { column, next: 0 }
    }

    /// How many cells are left, without taking memory.
    #[inline]
    pub fn len(&self) -> usize
        ensures { result ≡ length self.now.cells }
    {
        self.column.len().saturating_sub(self.next)
    }

    // Appends the next cell, and takes it off.
    #[inline]
    pub(crate) fn push_next(
        &mut self,
        buf: &mut Vec<u8>,
        options: &SerializeOptions,
    ) -> Result<(), AllocError>
        requires { 0 < length self.old.cells }
        ensures cell { OnOk result (buf.new.items ≡ buf.old.items ++ written_cell (cell_options options.now) self.old.dtype (next_cell self.old)) }
        ensures next { OnOk result (self.new ≡ without_next self.old) }
        ensures unchanged { OnErr result (self.new ≡ self.old) }
        ensures kept { StaysInFront buf.old.items buf.new.items }
    {
        // `len` is called for its clause: a row is no more than the number of rows.
        let _len = self.column.len();
        let mut scratch = Vec::new(*buf.allocator());
        push_cell(buf, &mut scratch, self.column, self.next, options)?;
        self.next += 1;
        Ok(())
    }
}
