//! Tests of `pl_read`, in a crate of their own: what no clause of it says.
#![tactic(auto)]

#[cfg(test)]
mod batches;
#[cfg(test)]
mod bytes_reader;
#[cfg(test)]
mod chunk;
#[cfg(test)]
mod csv_reader;
#[cfg(test)]
mod given;
#[cfg(test)]
mod named_columns;
#[cfg(test)]
mod reader_makers;
#[cfg(test)]
mod row_test;
#[cfg(test)]
mod slices;
#[cfg(test)]
mod workers;
