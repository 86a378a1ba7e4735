//! Why a call upon an index was refused.

use pl_frame::error::PolarsError;
use std::alloc::{AllocError, AllocFailed};
use thiserror::Error;

/// Why a call upon an index was refused.
#[derive(Debug, Drop, Error)]
pub enum SeekFault {
    /// No schema is given, or a limit of rows is, or no column is asked for.
    #[error("options that an index can't have")]
    Options,
    /// The first cause against the input.
    #[error("{0}")]
    Polars(PolarsError),
    /// The bytes are no index.
    #[error("no index of record places")]
    Format,
    /// The index is that of another input.
    #[error("the index of another input")]
    Input,
    /// The index was built by other options.
    #[error("the index of other options")]
    Settings,
    /// The index has a place that the input does not have; the least such place. Where only the number of records differs, this is
    /// the number of places.
    #[error("place {number} is not that of the input")]
    Places { number: usize },
    #[error("out of memory")]
    OutOfMemory,
}

impl From<AllocError> for SeekFault {
    ghost use Rattle.std.specs.Prelude.{◌≡◌};
    ghost use Rattle.pl_seek.specs.declared.fault.SeekFault.TheVariants.{OutOfMemory};

    ghost from_gives = { λ _ fault. fault ≡ OutOfMemory };

    fn from(_fault: AllocError) -> SeekFault {
        SeekFault::OutOfMemory
    }
}

impl<T: Drop> From<AllocFailed<T>> for SeekFault {
    ghost use Rattle.std.specs.Prelude.{◌≡◌};
    ghost use Rattle.pl_seek.specs.declared.fault.SeekFault.TheVariants.{OutOfMemory};

    ghost from_gives = { λ _ fault. fault ≡ OutOfMemory };

    fn from(_fault: AllocFailed<T>) -> SeekFault {
        SeekFault::OutOfMemory
    }
}
