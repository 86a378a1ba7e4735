//! Tests of `pl_board`, in a crate of their own: what no clause of it says.
#![tactic(auto)]

#[cfg(test)]
mod board;
#[cfg(test)]
mod line_states;
#[cfg(test)]
mod rows;
#[cfg(test)]
mod state;
#[cfg(test)]
mod threads;
