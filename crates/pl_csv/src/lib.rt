//! CSV from bytes to bytes: `run` reads CSV from a source into typed columns and writes them to a sink as CSV.
#![tactic(auto)]

pub mod adapters;
pub mod arguments;
mod conversion;
pub mod convert;
pub mod convert_source;
pub mod counting;
pub mod fits;
pub mod laws;
pub mod make_input;
mod making;
pub mod matching;
pub mod read_all;
pub mod run;
pub mod telling;
pub mod transcode;
pub mod words;
mod worker_space;
