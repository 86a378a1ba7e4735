//! A source read to its end, and the limit of the program.

pub use pl_frame::read_all::{ReadAllFault, read_all};

/// The most bytes that are read of an input.
pub const LIMIT: usize = 1 << 36;
