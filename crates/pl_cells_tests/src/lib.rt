//! Tests of `pl_cells`, in a crate of their own: what no clause of it says.
#![tactic(auto)]

#[cfg(test)]
mod casts;
#[cfg(test)]
mod given;
#[cfg(test)]
mod init_buffers;
#[cfg(test)]
mod null_values;
