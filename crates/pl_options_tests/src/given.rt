//! What several tests are given: names, lists of one name, and schemas of one column.

use pl_frame::data_type::DataType;
use pl_frame::name::PlSmallStr;
use pl_frame::schema::Schema;
use std::alloc::Global;
use std::process::Abort;

// The name of a text.
pub fn name(rt: &impl Abort, alloc: Global, text: &str) -> PlSmallStr {
    PlSmallStr::from_str(alloc, text).expect(rt, "a name")
}

// One value.
pub fn one<T: Drop>(rt: &impl Abort, alloc: Global, value: T) -> Vec<T> {
    let mut values = Vec::new(alloc);
    values.push(value).expect(rt, "a value");
    values
}

// A schema of one column `a`.
pub fn one_column(rt: &impl Abort, alloc: Global) -> Schema {
    let mut schema = Schema::new(alloc);
    let added = schema.with_column(name(rt, alloc, "a"), DataType::Int64);
    drop(added.expect(rt, "a column"));
    schema
}
