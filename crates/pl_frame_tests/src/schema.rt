//! Tests of `pl_frame::schema`.

use crate::given::name;
use pl_frame::data_type::DataType;
use pl_frame::schema::{Field, Schema};
use std::alloc::Global;
use std::process::Abort;

// Sets the type under a name.
fn set(rt: &impl Abort, alloc: Global, schema: &mut Schema, text: &str, dtype: DataType) {
    let added = schema.with_column(name(rt, alloc, text), dtype);
    drop(added.expect(rt, "a column"));
}

#[test]
fn a_clone_is_equal_until_it_changes(rt: HostRuntime) {
    let mut schema = Schema::new(rt.alloc());
    set(&rt, rt.alloc(), &mut schema, "a", DataType::Int64);
    set(&rt, rt.alloc(), &mut schema, "b", DataType::String);
    let mut copy = schema.try_clone().expect(&rt, "a clone");
    assert!(rt; schema == copy && matches!(copy.try_index_of("b"), Ok(1)));
    copy.set_dtype_at_index(0, DataType::Time);
    assert!(rt; schema != copy);
}

#[test]
fn a_field_equals_its_clone(rt: HostRuntime) {
    let field = Field {
        name: name(&rt, rt.alloc(), "a"),
        dtype: DataType::Null,
    };
    assert!(rt; field.try_clone().expect(&rt, "a clone") == field);
}
