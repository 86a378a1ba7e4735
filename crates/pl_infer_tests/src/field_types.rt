//! Tests of `pl_infer::field_types`. Which texts are taken for which type, `pl_csv_replay` tries.

use pl_frame::data_type::DataType;
use pl_infer::field_types::{finish_infer_field_schema, infer_field_schema};

#[test]
fn texts_give_types(rt: HostRuntime) {
    assert!(rt; infer_field_schema("2024-02-29", true) == DataType::Date);
    assert!(rt; finish_infer_field_schema(&[DataType::Int64]) == DataType::Int64);
}
