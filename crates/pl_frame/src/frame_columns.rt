//! Columns of frames: without rows, in front, and chosen by their places.
ghost use Rattle.std.specs.Prelude.{◌≡◌, ◌↔◌, ◌<◌, ◌≤◌, ◌+◌, ◌^◌, ◌∷◌, false, length, IsTrue, IfOk, IfErr, OnOk, OnErr, IsOkUnless};
ghost use Rattle.std.specs.List.{AllByRecursion};
ghost use Rattle.pl_frame.specs.declared.error.PolarsError.TheVariants as error;
ghost use Rattle.pl_frame.specs.Frame.{height_of};
ghost use Rattle.pl_frame.specs.FrameParts.{columns_at, empty_columns, has_name, AreDistinctPlaces, AreWithin, IsRowIndexFault};
ghost use Rattle.pl_frame.specs.RowIndex.{row_index_column};

use crate::column::Column;
use crate::error::{ComputeFault, NamePlace, PolarsError, PolarsResult};
use crate::frame::{DataFrame, push_column};
use crate::name::{PlSmallStr, has_name};
use crate::schema::Schema;
use std::alloc::Global;

impl DataFrame {
    /// A frame of the names and types of a schema, without rows. Refuses only want of memory.
    pub fn empty_with_schema(alloc: Global, schema: &Schema) -> PolarsResult<DataFrame>
        ensures columns { IfOk result (λ frame. frame ≡ empty_columns schema.now) }
        ensures refused { IsOkUnless result error.OutOfMemory }
    {
        let columns = columns_without_rows(alloc, schema)?;
        // `len` is called for its clause that the names are distinct.
        let _len = schema.len();
        Ok(DataFrame::of_distinct(columns))
    }

    /// Puts a column of type `UInt64` in front, in which row r has the number offset + r. Refuses `Duplicate` at a projection
    /// where a column has the name, then `Index` where the last number passes 2^64 - 1, and want of memory. It is then as
    /// it was.
    pub fn with_row_index(&mut self, name: PlSmallStr, offset: u64) -> PolarsResult<()>
        requires columns { 0 < length self.old }
        ensures numbered { OnOk result (self.new ≡ row_index_column name offset (height_of self.old) ∷ self.old) }
        ensures distinct { OnOk result (has_name self.old name ≡ false) }
        ensures fits { OnOk result (offset + height_of self.old ≤ 2 ^ 64) }
        ensures refused { IfErr result (IsRowIndexFault name offset self.old) }
        ensures unchanged { OnErr result (self.new ≡ self.old) }
    {
        if has_name(self.columns(), name.as_str()) {
            return Err(PolarsError::Duplicate {
                name,
                at: NamePlace::Projection,
            });
        }
        let rows = self.height();
        if u128::from(offset) + rows as u128 > 1 << 64 {
            return Err(PolarsError::ComputeError(ComputeFault::Index {
                offset,
                rows: rows as u64,
            }));
        }
        let column = Column::row_numbers(self.allocator(), name, offset, rows)?;
        self.put_in_front(column)
    }

    /// Whether `select` takes these places: there is a column at each, and no place stands twice. Takes no memory.
    pub fn selects(&self, which: &[usize]) -> bool
        ensures { IsTrue result ↔ (AreWithin which.now self.now × AreDistinctPlaces which.now) }
    {
        let width = self.width();
        are_within(which, width) && are_distinct(which)
    }

    /// The columns at these places, in this order. The places are distinct, which `selects` tells. Refuses only want of
    /// memory.
    pub fn select(&self, which: &[usize]) -> PolarsResult<DataFrame>
        requires within { AreWithin which.now self.now }
        requires distinct { AreDistinctPlaces which.now }
        ensures columns { IfOk result (λ frame. frame ≡ columns_at which.now self.now) }
        ensures refused { IsOkUnless result error.OutOfMemory }
    {
        let columns = copy_columns_at(self.allocator(), self.columns(), which)?;
        Ok(DataFrame::of_distinct(columns))
    }
}

// Whether each of the places is below the width.
fn are_within(places: &[usize], width: usize) -> bool
    ensures { IsTrue result ↔ AllByRecursion (λ place. place < width) places.now }
{
    places.iter().all(|place| *place < width)
}

// Whether no place stands twice.
fn are_distinct(places: &[usize]) -> bool
    ensures { IsTrue result ↔ AreDistinctPlaces places.now }
{
    let mut left = places;
    while let Some((place, rest)) = left.split_first() {
        if rest.contains(place) {
            return false;
        }
        left = rest;
    }
    true
}

// Columns of the names and types of a schema, without rows.
fn columns_without_rows(alloc: Global, schema: &Schema) -> PolarsResult<Vec<Column>>
    ensures columns { IfOk result (λ columns. columns.items ≡ empty_columns schema.now) }
    ensures refused { IsOkUnless result error.OutOfMemory }
{
    let mut columns = Vec::new(alloc);
    for i in 0..schema.len() {
        let column = match schema.get_at_index(i) {
            Some((name, dtype)) => Column::empty(alloc, name.as_str(), dtype)?,
            None => unreachable!(),
        };
        push_column(&mut columns, column)?;
    }
    Ok(columns)
}

// Equal columns to those at these places.
fn copy_columns_at(alloc: Global, columns: &[Column], which: &[usize]) -> PolarsResult<Vec<Column>>
    requires { AreWithin which.now columns.now }
    ensures columns { IfOk result (λ copies. copies.items ≡ columns_at which.now columns.now) }
    ensures refused { IsOkUnless result error.OutOfMemory }
{
    let mut copies = Vec::new(alloc);
    for place in which {
        let copy = columns[*place].try_clone()?;
        push_column(&mut copies, copy)?;
    }
    Ok(copies)
}
