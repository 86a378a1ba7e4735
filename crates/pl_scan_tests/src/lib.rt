//! Tests of `pl_scan`, in a crate of their own: what no clause of it says.
#![tactic(auto)]

#[cfg(test)]
mod comment;
#[cfg(test)]
mod fields;
#[cfg(test)]
mod items;
#[cfg(test)]
mod line_ends;
#[cfg(test)]
mod lines;
#[cfg(test)]
mod row_counter;
#[cfg(test)]
mod rows;
#[cfg(test)]
mod start;
#[cfg(test)]
mod summary;
