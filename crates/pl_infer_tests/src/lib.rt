//! Tests of `pl_infer`, in a crate of their own: what no clause of it says.
#![tactic(auto)]

#[cfg(test)]
mod field_types;
#[cfg(test)]
mod given;
#[cfg(test)]
mod inference;
#[cfg(test)]
mod inference_result;
#[cfg(test)]
mod schemas;
