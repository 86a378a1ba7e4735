//! Tests of `pl_infer::inference_result`.

use crate::given::one_column;
use pl_frame::data_type::DataType;
use pl_infer::inference_result::{SchemaInferenceResult, UpdateWithInferenceResult};
use pl_options::read_options::CsvReadOptions;
use pl_options::reader_bytes::ReaderBytes;
use std::alloc::Global;
use std::process::Abort;

// What is inferred of a text by default.
fn inferred(rt: &impl Abort, alloc: Global) -> SchemaInferenceResult {
    let text = ReaderBytes::Borrowed(b"a,b\n1,x\n");
    let options = CsvReadOptions::new(alloc);
    let read = SchemaInferenceResult::try_from_reader_bytes_and_options(alloc, &text, &options);
    drop(options);
    read.expect(rt, "a result")
}

// What was read is told, and a copy has the same schema.
fn assert_read(rt: &impl Abort, read: &SchemaInferenceResult) {
    assert!(rt; read.rows_read == 1 && read.bytes_read == 7 && read.bytes_total == 8);
    let copy = read.try_clone().expect(rt, "a copy");
    assert!(rt; *copy.get_inferred_schema() == *read.get_inferred_schema());
    assert!(rt; copy.get_estimated_n_rows() == 1);
}

#[test]
fn a_result_is_inferred(rt: HostRuntime) {
    assert_read(&rt, &inferred(&rt, rt.alloc()));
}

#[test]
fn a_new_result_has_no_rows_and_sets_workers(rt: HostRuntime) {
    let schema = one_column(&rt, rt.alloc(), "a", DataType::Int64);
    let mut result = SchemaInferenceResult::new(rt.alloc()).with_inferred_schema(schema);
    assert!(rt; result.get_estimated_n_rows() == 0 && result.get_inferred_schema().len() == 1);
    result.n_threads = Some(1);
    let mut options = CsvReadOptions::new(rt.alloc());
    options.update_with_inference_result(&result);
    assert!(rt; options.n_threads == Some(1));
    drop(options);
}
