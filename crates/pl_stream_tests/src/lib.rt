//! Tests of `pl_stream`, in a crate of their own: what no clause of it says.
#![tactic(auto)]

#[cfg(test)]
mod feeding;
#[cfg(test)]
mod run;
#[cfg(test)]
mod state;
#[cfg(test)]
mod words;
