//! The error type of every call that reads, writes or builds.

use crate::name::PlSmallStr;
use std::alloc::{AllocError, AllocFailed};
use thiserror::Error;

/// Which condition on the options failed.
#[derive(Clone, Copy, Debug, PartialEq, Eq)]
pub enum OpFault {
    /// Separator, quote, line end and comment prefix make no dialect.
    Dialect,
    /// An option has a value that it may not have, or two options exclude each other.
    Option,
    /// There are more overriding types than columns.
    Overrides { given: usize, columns: usize },
}

/// What is wrong with a record.
#[derive(Clone, Copy, Debug, PartialEq, Eq)]
pub enum FaultKind {
    /// A quoted field that does not end with its quote.
    Escape,
    /// A text that is not UTF-8.
    Utf8,
    /// A text that has no value of the column's type.
    Value,
    /// More fields than columns.
    Fields,
}

/// Which condition on the data failed.
#[derive(Clone, Copy, Debug, PartialEq, Eq)]
pub enum ComputeFault {
    /// The quote to write with is not ASCII.
    Quote,
    /// The input begins with the mark of a compressed stream.
    Compressed,
    /// A column's type can't be read.
    Dtype {
        column: usize,
    },
    /// A record has a fault: its number from 0, its column, and what is wrong.
    Record {
        row: usize,
        column: usize,
        kind: FaultKind,
    },
    /// The last number of a row does not fit 64 bits, or the last code of a category 32.
    Index {
        offset: u64,
        rows: u64,
    },
}

/// Where data is wanting.
#[derive(Clone, Copy, Debug, PartialEq, Eq)]
pub enum NoDataFault {
    /// No first record remains.
    Empty,
    /// Fewer items than are to be skipped.
    Skip,
}

/// Where a name stands twice.
#[derive(Clone, Copy, Debug, PartialEq, Eq)]
pub enum NamePlace {
    Schema,
    Projection,
}

/// Why a call was refused.
#[derive(Debug, Drop, Error)]
pub enum PolarsError {
    #[error("invalid operation: {0:?}")]
    InvalidOperation(OpFault),
    #[error("cannot compute: {0:?}")]
    ComputeError(ComputeFault),
    #[error("no data: {0:?}")]
    NoData(NoDataFault),
    #[error("column not found: {0}")]
    ColumnNotFound(PlSmallStr),
    #[error("index {index} is out of bounds for length {length}")]
    OutOfBounds { index: usize, length: usize },
    #[error("the name {name} stands twice: {at:?}")]
    Duplicate { name: PlSmallStr, at: NamePlace },
    #[error("the projection is empty")]
    EmptyProjection,
    #[error("input or output failed")]
    IO,
    #[error("out of memory")]
    OutOfMemory,
}

/// What a call answers that may be refused.
pub type PolarsResult<T> = Result<T, PolarsError>;

impl From<AllocError> for PolarsError {
    ghost use Rattle.std.specs.Prelude.{◌≡◌};
    ghost use Rattle.pl_frame.specs.declared.error.PolarsError.TheVariants.{OutOfMemory};

    ghost from_gives = { λ _ fault. fault ≡ OutOfMemory };

    fn from(_fault: AllocError) -> PolarsError {
        PolarsError::OutOfMemory
    }
}

impl<T: Drop> From<AllocFailed<T>> for PolarsError {
    ghost use Rattle.std.specs.Prelude.{◌≡◌};
    ghost use Rattle.pl_frame.specs.declared.error.PolarsError.TheVariants.{OutOfMemory};

    ghost from_gives = { λ _ fault. fault ≡ OutOfMemory };

    fn from(_fault: AllocFailed<T>) -> PolarsError {
        PolarsError::OutOfMemory
    }
}
