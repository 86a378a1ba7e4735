//! Tests of `pl_read::named_columns`.

use crate::given::{add, name};
use pl_frame::data_type::DataType;
use pl_frame::name::PlSmallStr;
use pl_frame::schema::Schema;
use pl_read::named_columns::{have_places, materialize_projection};
use std::alloc::Global;
use std::process::Abort;

// A schema of strings under these names.
fn schema_of(rt: &impl Abort, alloc: Global, names: &[&str]) -> Schema {
    let mut schema = Schema::new(alloc);
    for text in names {
        add(rt, alloc, &mut schema, text, DataType::String);
    }
    schema
}

// The names of texts, in order.
fn names_of(rt: &impl Abort, alloc: Global, texts: &[&str]) -> Vec<PlSmallStr> {
    let mut names = Vec::new(alloc);
    for text in texts {
        names.push(name(rt, alloc, text)).expect(rt, "a name");
    }
    names
}

#[test]
fn names_have_places_in_the_file(rt: HostRuntime) {
    let alloc = rt.alloc();
    let names = names_of(&rt, alloc, &["c", "a"]);
    let schema = schema_of(&rt, alloc, &["n", "a", "b", "c"]);
    assert!(rt; have_places(&names, &schema, None, true));
    let told = materialize_projection(alloc, Some(&names), &schema, None, true);
    let told = told.expect(&rt, "places");
    assert!(rt; told.is_some_and(|told| told.as_slice() == [2, 0].as_slice()));
}
