//! Tests of `pl_csv`, in a crate of their own: what no clause of it says.
#![tactic(auto)]

#[cfg(test)]
mod adapters;
#[cfg(test)]
mod counting;
#[cfg(test)]
mod file_readers;
#[cfg(test)]
mod make_input;
#[cfg(test)]
mod round_trip;
#[cfg(test)]
mod transcode;
