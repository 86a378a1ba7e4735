//! Tests of `pl_terminal`, in a crate of their own: what no clause of it says.
#![tactic(auto)]

#[cfg(test)]
mod terminal;
