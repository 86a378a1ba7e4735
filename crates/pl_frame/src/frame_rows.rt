//! Rows of frames: cut out, chosen by flags, and put behind others.
ghost use Rattle.std.specs.Prelude.{◌≡◌, length, IfOk, OnOk, OnErr, IsOkUnless};
ghost use Rattle.std.specs.Bool.{Decides};
ghost use Rattle.std.specs.Cmp.Lexicographic.{pointwise};
ghost use Rattle.pl_frame.specs.declared.error.PolarsError.TheVariants as error;
ghost use Rattle.pl_frame.specs.Equal.{entries_equal};
ghost use Rattle.pl_frame.specs.Frame.{HaveHeight, height_of};
ghost use Rattle.pl_frame.specs.FrameParts.{filtered, schema_of, sliced, stacked, HaveSameColumns};

use crate::column::Column;
use crate::error::PolarsResult;
use crate::frame::{DataFrame, push_column};
use std::alloc::Global;

impl DataFrame {
    /// The rows from `offset` on, at most `length`, and none past the end. Refuses only want of memory.
    pub fn slice(&self, offset: usize, length: usize) -> PolarsResult<DataFrame>
        ensures rows { IfOk result (λ frame. frame ≡ sliced offset length self.now) }
        ensures refused { IsOkUnless result error.OutOfMemory }
    {
        let columns = slice_columns(self.allocator(), self.columns(), offset, length)?;
        Ok(DataFrame::of_distinct(columns))
    }

    /// The rows whose flag is set. Refuses only want of memory.
    pub fn filter_rows(&self, keep: &[bool]) -> PolarsResult<DataFrame>
        requires height { length keep.now ≡ height_of self.now }
        ensures rows { IfOk result (λ frame. frame ≡ filtered keep.now self.now) }
        ensures refused { IsOkUnless result error.OutOfMemory }
    {
        let columns = filter_columns(self.allocator(), self.columns(), keep)?;
        Ok(DataFrame::of_distinct(columns))
    }

    /// Whether another frame has the same names and types in order, without taking memory.
    pub fn has_same_columns(&self, other: &DataFrame) -> bool
        ensures { Decides result (HaveSameColumns self.now other.now) }
    {
        have_same_schema(self.columns(), other.columns())
    }

    /// Puts the rows of a frame behind that has the same names and types in order: `has_same_columns` tells. Refuses only
    /// want of memory, and is then as it was.
    pub fn vstack(&mut self, other: &DataFrame) -> PolarsResult<()>
        requires same { HaveSameColumns self.old other.now }
        ensures rows { OnOk result (self.new ≡ stacked self.old other.now) }
        ensures unchanged { OnErr result (self.new ≡ self.old) }
        ensures refused { IsOkUnless result error.OutOfMemory }
    {
        let columns = join_columns(self.allocator(), self.columns(), other.columns())?;
        *self = DataFrame::of_distinct(columns);
        Ok(())
    }
}

// The rows from one on, at most so many.
fn slice_columns(
    alloc: Global,
    columns: &[Column],
    offset: usize,
    count: usize,
) -> PolarsResult<Vec<Column>>
    ensures rows { IfOk result (λ parts. parts.items ≡ sliced offset count columns.now) }
    ensures refused { IsOkUnless result error.OutOfMemory }
{
    let mut parts = Vec::new(alloc);
    for column in columns {
        let part = column.slice(alloc, offset, count)?;
        push_column(&mut parts, part)?;
    }
    Ok(parts)
}

// The rows whose flag is set.
fn filter_columns(alloc: Global, columns: &[Column], keep: &[bool]) -> PolarsResult<Vec<Column>>
    requires { HaveHeight (length keep.now) columns.now }
    ensures rows { IfOk result (λ parts. parts.items ≡ filtered keep.now columns.now) }
    ensures refused { IsOkUnless result error.OutOfMemory }
{
    let mut parts = Vec::new(alloc);
    for column in columns {
        let part = column.filter(alloc, keep)?;
        push_column(&mut parts, part)?;
    }
    Ok(parts)
}

// The rows of both.
fn join_columns(alloc: Global, columns: &[Column], others: &[Column]) -> PolarsResult<Vec<Column>>
    requires { HaveSameColumns columns.now others.now }
    ensures rows { IfOk result (λ joined. joined.items ≡ stacked columns.now others.now) }
    ensures refused { IsOkUnless result error.OutOfMemory }
{
    let mut joined = Vec::new(alloc);
    for i in 0..columns.len() {
        let column = columns[i].joined(alloc, &others[i])?;
        push_column(&mut joined, column)?;
    }
    Ok(joined)
}

// Whether columns have the same names and types in order.
fn have_same_schema(columns: &[Column], others: &[Column]) -> bool
    ensures { result ≡ pointwise entries_equal (schema_of columns.now) (schema_of others.now) }
{
    if columns.len() != others.len() {
        return false;
    }
    for i in 0..columns.len() {
        if !have_same_entry(&columns[i], &others[i]) {
            return false;
        }
    }
    true
}

// Whether two columns have the same name and the same type.
fn have_same_entry(column: &Column, other: &Column) -> bool
    ensures { result ≡ entries_equal (column.now.name, column.now.dtype) (other.now.name, other.now.dtype) }
{
    column.name() == other.name() && column.dtype() == other.dtype()
}
