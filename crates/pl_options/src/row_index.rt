//! A column of row numbers.
ghost use Rattle.std.specs.Prelude.{◌≡◌, IfOk, IsOkUnless};
ghost use Rattle.pl_frame.specs.declared.error.PolarsError.TheVariants as error;

use crate::try_clone::TryClone;
use pl_frame::error::PolarsResult;
use pl_frame::name::PlSmallStr;

/// A column of row numbers, which stands before the others (docs/options.md).
#[derive(Debug, Drop, PartialEq, Eq)]
pub struct RowIndex {
    /// The name of the column.
    pub name: PlSmallStr,
    /// The number of the first row.
    pub offset: u64,
}

impl RowIndex {
    /// An equal index. Refuses only want of memory.
    pub fn try_clone(&self) -> PolarsResult<RowIndex>
        ensures equal { IfOk result (λ index. index ≡ self.now) }
        ensures refused { IsOkUnless result error.OutOfMemory }
    {
        Ok(RowIndex {
            name: self.name.try_clone()?,
            offset: self.offset,
        })
    }
}

impl TryClone for RowIndex {
    fn try_clone(&self) -> PolarsResult<RowIndex> {
        RowIndex::try_clone(self)
    }
}
