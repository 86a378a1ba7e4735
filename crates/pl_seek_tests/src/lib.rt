//! Tests of `pl_seek`, in a crate of their own: what no clause of it says.
#![tactic(auto)]

#[cfg(test)]
mod bind;
#[cfg(test)]
mod frames;
#[cfg(test)]
mod index;
#[cfg(test)]
mod part;
#[cfg(test)]
mod run;
#[cfg(test)]
mod slice;
