//! The schema of an input for which none is given: names of columns, and their types by a sample.
#![tactic(auto)]

mod columns;
pub mod evidence;
pub mod field_types;
pub mod header;
pub mod inference;
pub mod inference_options;
pub mod inference_result;
pub mod options;
pub mod sample;
pub mod schemas;
