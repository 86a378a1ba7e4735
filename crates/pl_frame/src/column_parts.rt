//! Parts of columns, and columns that are put together.
ghost use Rattle.std.specs.Prelude.{◌≡◌, ◌++◌, [], length, take, drop, IfOk, IsOkUnless};
ghost use Rattle.pl_frame.specs.declared.error.PolarsError.TheVariants as error;
ghost use Rattle.pl_frame.specs.FrameParts.{kept_of, with_values};
ghost use Rattle.pl_frame.specs.GatheredCells.{cells_so_far, SuitsType};

use crate::column::Column;
use crate::data_type::DataType;
use crate::error::{PolarsError, PolarsResult};
use crate::gathered::Gathered;
use crate::name::PlSmallStr;
use std::alloc::Global;

impl Column {
    // A column without rows. Refuses only want of memory.
    pub(crate) fn empty(alloc: Global, name: &str, dtype: &DataType) -> PolarsResult<Column>
        ensures column { IfOk result (λ column. column ≡ record { name = name.now; dtype = dtype.now; values = [] }) }
        ensures refused { IsOkUnless result error.OutOfMemory }
    {
        let name = PlSmallStr::from_str(alloc, name)?;
        let gathered = Gathered::new(alloc, dtype);
        Ok(gathered.into_column(name, dtype.try_clone()?))
    }

    // The rows from one on, at most so many. Refuses only want of memory.
    pub(crate) fn slice(&self, alloc: Global, offset: usize, count: usize) -> PolarsResult<Column>
        ensures rows { IfOk result (λ column. column ≡ with_values self.now (take count (drop offset self.now.values))) }
        ensures refused { IsOkUnless result error.OutOfMemory }
    {
        let from = offset.min(self.len());
        let to = from + count.min(self.len() - from);
        let mut gathered = Gathered::new(alloc, self.dtype());
        match gathered.push_rows(self, from, to) {
            Ok(()) => with_cells(alloc, self, gathered),
            Err(_) => Err(PolarsError::OutOfMemory),
        }
    }

    // The rows whose flag is set. Refuses only want of memory.
    pub(crate) fn filter(&self, alloc: Global, keep: &[bool]) -> PolarsResult<Column>
        requires { length keep.now ≡ length self.now.values }
        ensures rows { IfOk result (λ column. column ≡ with_values self.now (kept_of keep.now self.now.values)) }
        ensures refused { IsOkUnless result error.OutOfMemory }
    {
        if self.is_plain() {
            return keep_rows(alloc, self, keep);
        }
        let plain = self.all_plain(alloc)?;
        keep_rows(alloc, &plain, keep)
    }

    // The rows and behind them those of another column of the type. Refuses only want of memory.
    pub(crate) fn joined(&self, alloc: Global, other: &Column) -> PolarsResult<Column>
        requires { other.now.dtype ≡ self.now.dtype }
        ensures rows { IfOk result (λ column. column ≡ with_values self.now (self.now.values ++ other.now.values)) }
        ensures refused { IsOkUnless result error.OutOfMemory }
    {
        let mut gathered = Gathered::new(alloc, self.dtype());
        let Ok(()) = gathered.push_rows(self, 0, self.len()) else {
            return Err(PolarsError::OutOfMemory);
        };
        match gathered.push_rows(other, 0, other.len()) {
            Ok(()) => with_cells(alloc, self, gathered),
            Err(_) => Err(PolarsError::OutOfMemory),
        }
    }
}

// The rows whose flag is set.
fn keep_rows(alloc: Global, column: &Column, keep: &[bool]) -> PolarsResult<Column>
    requires { length keep.now ≡ length column.now.values }
    ensures rows { IfOk result (λ kept. kept ≡ with_values column.now (kept_of keep.now column.now.values)) }
    ensures refused { IsOkUnless result error.OutOfMemory }
{
    let mut gathered = Gathered::new(alloc, column.dtype());
    match gathered.push_kept(column, keep) {
        Ok(()) => with_cells(alloc, column, gathered),
        Err(_) => Err(PolarsError::OutOfMemory),
    }
}

// A column of the same name and type that has the gathered cells.
pub(crate) fn with_cells(alloc: Global, column: &Column, gathered: Gathered) -> PolarsResult<Column>
    requires { SuitsType column.now.dtype gathered }
    ensures column { IfOk result (λ made. made ≡ with_values column.now (cells_so_far column.now.dtype gathered)) }
    ensures refused { IsOkUnless result error.OutOfMemory }
{
    let name = PlSmallStr::from_str(alloc, column.name())?;
    let dtype = column.dtype().try_clone()?;
    Ok(gathered.into_column(name, dtype))
}
