//! A range of records into buffers: rows, their cells and faults, and the columns that they make.
#![tactic(auto)]

pub mod apart;
mod blocks;
pub mod columns;
mod cut_back;
mod field;
pub mod laws;
pub mod linking;
pub mod pieces;
pub mod plan;
pub mod push;
pub mod range;
mod row;
mod row_rest;
pub mod stack;
pub mod whole_pieces;
