//! Why a stream is refused.

use pl_frame::error::PolarsError;
use thiserror::Error;

/// Why there is no stream, or why it ends (docs/stream.md).
#[derive(Debug, Drop, Error)]
pub enum StreamFault {
    /// No schema is given: a stream infers none.
    #[error("no schema is given")]
    NoSchema,
    /// A column that is read has categories, whose codes all texts before would have to be kept for; the least such column of the schema.
    #[error("column {column} has categories")]
    Category { column: usize },
    /// No column is read.
    #[error("no column is read")]
    NoColumn,
    /// A cause against the options or against the input. It never is `IO` or `OutOfMemory`.
    #[error("{0}")]
    Polars(PolarsError),
    /// The source failed.
    #[error("the source failed")]
    Source,
    /// The sink failed.
    #[error("the sink failed")]
    Sink,
    /// The source gave more than the largest input.
    #[error("the source gave more than the largest input")]
    TooLong,
    #[error("out of memory")]
    OutOfMemory,
}
