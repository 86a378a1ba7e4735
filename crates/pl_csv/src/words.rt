//! The words of the command line, and what they mean.

pub use pl_words::job::Job;
pub use pl_words::words::{WordsFault, parse_words};
