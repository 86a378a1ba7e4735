//! Tests of `pl_write`, in a crate of their own: what no clause of it says.
#![tactic(auto)]

#[cfg(test)]
mod batched_writer;
#[cfg(test)]
mod csv_writer;
#[cfg(test)]
mod given;
#[cfg(test)]
mod options;
#[cfg(test)]
mod serializer;
