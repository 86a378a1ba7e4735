//! Rows that are written as they were read: they are found by their bytes, and their cells are neither read nor printed.
#![tactic(auto)]

mod booleans;
mod cells;
mod changes;
mod copies;
mod dates;
mod decimals;
mod digits;
mod form;
mod form_options;
mod found;
mod front;
pub mod kinds;
mod marks;
mod moments;
mod nulls;
mod passed;
mod rows;
mod same;
mod swapped;
mod texts;
pub mod verbatim;
mod wholes;
