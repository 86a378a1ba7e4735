//! What several tests are given: names and schemas.

use pl_frame::data_type::DataType;
use pl_frame::name::PlSmallStr;
use pl_frame::schema::Schema;
use std::alloc::Global;
use std::process::Abort;

// The name of a text.
pub fn name(rt: &impl Abort, alloc: Global, text: &str) -> PlSmallStr {
    PlSmallStr::from_str(alloc, text).expect(rt, "a name")
}

// Puts a column at the end of a schema.
pub fn add(rt: &impl Abort, alloc: Global, schema: &mut Schema, text: &str, dtype: DataType) {
    let added = schema.with_column(name(rt, alloc, text), dtype);
    drop(added.expect(rt, "a column"));
}

// The schema of one column.
pub fn one_column(rt: &impl Abort, alloc: Global, text: &str, dtype: DataType) -> Schema {
    let mut schema = Schema::new(alloc);
    add(rt, alloc, &mut schema, text, dtype);
    schema
}
