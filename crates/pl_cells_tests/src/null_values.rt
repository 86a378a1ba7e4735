//! Tests of `pl_cells::null_values`. They go to `drop`, as buffers do in `init_buffers.rt`.

use crate::given::name;
use pl_cells::null_values::{NamedTexts, NullValues, NullValuesCompiled};
use pl_frame::data_type::DataType;
use pl_frame::schema::Schema;
use std::alloc::Global;
use std::process::Abort;

// The null values of two entries for the name `a`.
fn named(rt: &impl Abort, alloc: Global) -> NullValues {
    let mut entries = Vec::new(alloc);
    for text in ["-", "NA"] {
        let entry = (name(rt, alloc, "a"), name(rt, alloc, text));
        entries.push(entry).expect(rt, "an entry");
    }
    NullValues::Named(NamedTexts::new(entries))
}

// What they mean in the columns `a` and `b`.
fn compiled(rt: &impl Abort, alloc: Global) -> NullValuesCompiled {
    let mut schema = Schema::new(alloc);
    for text in ["a", "b"] {
        let added = schema.with_column(name(rt, alloc, text), DataType::String);
        drop(added.expect(rt, "a column"));
    }
    let compiled = named(rt, alloc).compile(alloc, &schema);
    compiled.expect(rt, "texts of columns")
}

// Whether a text means null in a column, where the columns have texts of their own and the column is one of them.
fn is_null_in(values: &NullValuesCompiled, text: &[u8], column: usize) -> Option<bool> {
    match values {
        NullValuesCompiled::Columns(texts) if column < texts.texts().len() => {
            Some(values.is_null(text, column))
        }
        _ => None,
    }
}

#[test]
fn named_texts_mean_null_in_their_columns(rt: HostRuntime) {
    let compiled = compiled(&rt, rt.alloc());
    let copy = compiled.try_clone().expect(&rt, "a copy");
    drop(compiled);
    assert!(rt; is_null_in(&copy, b"NA", 0) == Some(true));
    assert!(rt; is_null_in(&copy, b"NA", 1) == Some(false));
    drop(copy);
}

#[test]
fn null_values_are_copied(rt: HostRuntime) {
    let values = named(&rt, rt.alloc());
    let copy = values.try_clone().expect(&rt, "a copy");
    assert!(rt; copy == values);
    drop(copy);
    drop(values);
}
