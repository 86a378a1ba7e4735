//! Tests of `pl_frame`, in a crate of their own: what no clause of it says.
#![tactic(auto)]

#[cfg(test)]
mod codes;
#[cfg(test)]
mod column;
#[cfg(test)]
mod constructors;
#[cfg(test)]
mod error;
#[cfg(test)]
mod frame;
#[cfg(test)]
mod given;
#[cfg(test)]
mod numbers;
#[cfg(test)]
mod opener;
#[cfg(test)]
mod parts;
#[cfg(test)]
mod range;
#[cfg(test)]
mod schema;
#[cfg(test)]
mod sink;
#[cfg(test)]
mod source;
#[cfg(test)]
mod texts;
