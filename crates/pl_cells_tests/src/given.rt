//! What several tests are given: names.

use pl_frame::name::PlSmallStr;
use std::alloc::Global;
use std::process::Abort;

// The name of a text.
pub fn name(rt: &impl Abort, alloc: Global, text: &str) -> PlSmallStr {
    PlSmallStr::from_str(alloc, text).expect(rt, "a name")
}
