//! Tests of `pl_row_numbers`, in a crate of their own: what no clause of it says.
#![tactic(auto)]

#[cfg(test)]
mod writing;
