//! Tests of `pl_tell`, in a crate of their own: what no clause of it says.
#![tactic(auto)]

#[cfg(test)]
mod records;
#[cfg(test)]
mod rows;
#[cfg(test)]
mod words;
