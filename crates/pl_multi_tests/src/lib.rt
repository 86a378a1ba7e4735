//! Tests of `pl_multi`, in a crate of their own: what no clause of it says.
#![tactic(auto)]

#[cfg(test)]
mod run;
#[cfg(test)]
mod scan;
