//! What is wrong with a cell.
ghost use Rattle.std.specs.Prelude.{◌≡◌};
ghost use Rattle.pl_cells.specs.BufferValue.{is_ignored};

use std::alloc::AllocError;
use thiserror::Error;

/// Why a cell was refused.
#[derive(Clone, Copy, Debug, PartialEq, Eq, Error)]
pub enum CellFault {
    /// A quoted field that does not end with its quote.
    #[error("a quoted field does not end with its quote")]
    Escape,
    /// A text that is not UTF-8.
    #[error("a text is not UTF-8")]
    Utf8,
    /// A text that has no value of the type.
    #[error("a text has no value of the column's type")]
    Value,
    #[error("out of memory")]
    OutOfMemory,
}

impl From<AllocError> for CellFault {
    ghost use Rattle.std.specs.Prelude.{◌≡◌};
    ghost use Rattle.pl_cells.specs.declared.cell_fault.CellFault.TheVariants.{OutOfMemory};

    ghost from_gives = { λ _ fault. fault ≡ OutOfMemory };

    fn from(_e: AllocError) -> CellFault {
        CellFault::OutOfMemory
    }
}

impl CellFault {
    /// Whether the cell is null instead, which is so for some faults where errors are ignored.
    #[inline]
    pub(crate) fn is_ignored(self, ignore_errors: bool) -> bool
        ensures { result ≡ is_ignored ignore_errors self }
    {
        ignore_errors && matches!(self, CellFault::Utf8 | CellFault::Value)
    }
}
