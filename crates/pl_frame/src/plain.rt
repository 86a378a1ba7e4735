//! Columns whose rows are found at once and given as they are kept.
ghost use Rattle.std.specs.Prelude.{◌≡◌, ◌≤◌, ◌-◌, length, take, drop, IfOk, IsOkUnless};
ghost use Rattle.pl_frame.specs.declared.error.PolarsError.TheVariants as error;
ghost use Rattle.pl_frame.specs.FrameParts.{with_values};

use crate::column::Column;
use crate::column_parts::with_cells;
use crate::error::{PolarsError, PolarsResult};
use crate::gathered::Gathered;
use std::alloc::{AllocError, Global};

impl Column {
    /// Whether the values are kept in one piece, and whole numbers and texts so that `narrow_numbers`, `wide_numbers` or
    /// `kept_texts` lend them, without taking memory. It says only how fast rows are read: `get` gives the same of any
    /// column.
    #[inline]
    pub fn is_plain(&self) -> bool {
        match self.single() {
            Some(part) => part.is_plain(),
            None => self.parts().is_none(),
        }
    }

    /// The rows from one up to another, as a column that is plain. Refuses only want of memory.
    pub fn plain(&self, alloc: Global, from: usize, to: usize) -> Result<Column, AllocError>
        requires { (from ≤ to) × (to ≤ length self.now.values) }
        ensures { IfOk result (λ column. column ≡ with_values self.now (take (to - from) (drop from self.now.values))) }
    {
        let mut gathered = Gathered::new(alloc, self.dtype());
        gathered.push_rows(self, from, to)?;
        match with_cells(alloc, self, gathered) {
            Ok(column) => Ok(column),
            Err(_) => Err(AllocError),
        }
    }

    // All rows, as a column that is plain. Refuses only want of memory.
    pub(crate) fn all_plain(&self, alloc: Global) -> PolarsResult<Column>
        ensures same { IfOk result (λ column. column ≡ self.now) }
        ensures refused { IsOkUnless result error.OutOfMemory }
    {
        match self.plain(alloc, 0, self.len()) {
            Ok(column) => Ok(column),
            Err(_) => Err(PolarsError::OutOfMemory),
        }
    }
}
