//! Tests of `pl_infer::inference`.

use crate::given::{add, one_column};
use pl_frame::data_type::DataType;
use pl_infer::inference::infer_file_schema;
use pl_options::parse_options::CsvParseOptions;
use pl_options::reader_bytes::ReaderBytes;

#[test]
fn names_and_types_are_inferred_and_overwritten(rt: HostRuntime) {
    let alloc = rt.alloc();
    let text = ReaderBytes::Borrowed(b"a,b,c\n1,2,x\n");
    let options = CsvParseOptions::new();
    let other = one_column(&rt, alloc, "b", DataType::Int8);
    let mut n_threads = Some(3);
    let found = infer_file_schema(
        alloc,
        &text,
        &options,
        None,
        true,
        Some(&other),
        0,
        0,
        0,
        true,
        &mut n_threads,
    );
    drop(options);
    let (schema, items, bytes) = found.expect(&rt, "a schema");
    let mut wanted = one_column(&rt, alloc, "a", DataType::Int64);
    add(&rt, alloc, &mut wanted, "b", DataType::Int8);
    add(&rt, alloc, &mut wanted, "c", DataType::String);
    assert!(rt; schema == wanted);
    assert!(rt; items == 1 && bytes == 11 && n_threads == Some(3));
}
