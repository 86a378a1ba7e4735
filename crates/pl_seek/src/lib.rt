//! Places of records, kept beside the digest of their input, and the bytes of such an index; and the top call over both.
#![tactic(auto)]

pub mod bind;
pub mod build;
mod checking;
pub mod fault;
mod files;
pub mod index;
pub mod job;
pub mod laws;
mod numbering;
pub mod part;
mod places;
mod reading;
mod record_ends;
pub mod run;
mod seek_words;
pub mod settings;
mod telling;
mod writing;
