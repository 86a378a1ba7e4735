//! Tests of `pl_options`, in a crate of their own: what no clause of it says.
#![tactic(auto)]

#[cfg(test)]
mod column_lists;
#[cfg(test)]
mod given;
#[cfg(test)]
mod hive_options;
#[cfg(test)]
mod parse_options;
#[cfg(test)]
mod read_options;
