//! Tests of `pl_frame::error`: what errors print.

use crate::given::name;
use pl_frame::error::{ComputeFault, FaultKind, NamePlace, NoDataFault, OpFault, PolarsError};
use std::alloc::Global;
use std::process::Abort;

// An error prints this text.
fn shows(rt: &impl Abort, alloc: Global, error: PolarsError, text: &str) {
    let shown = format!(in alloc; "{error}").expect(rt, "a text");
    assert!(rt; shown.as_str() == text, "{text}");
}

#[test]
fn faults_tell_their_numbers(rt: HostRuntime) {
    let fault = OpFault::Overrides {
        given: 3,
        columns: 2,
    };
    let text = "invalid operation: Overrides { given: 3, columns: 2 }";
    shows(&rt, rt.alloc(), PolarsError::InvalidOperation(fault), text);
    let fault = ComputeFault::Record {
        row: 4,
        column: 1,
        kind: FaultKind::Escape,
    };
    let text = "cannot compute: Record { row: 4, column: 1, kind: Escape }";
    shows(&rt, rt.alloc(), PolarsError::ComputeError(fault), text);
    let (index, length) = (7, 2);
    let text = "index 7 is out of bounds for length 2";
    shows(
        &rt,
        rt.alloc(),
        PolarsError::OutOfBounds { index, length },
        text,
    );
}

#[test]
fn faults_tell_their_names(rt: HostRuntime) {
    let absent = name(&rt, rt.alloc(), "é");
    let text = "column not found: é";
    shows(&rt, rt.alloc(), PolarsError::ColumnNotFound(absent), text);
    let name = name(&rt, rt.alloc(), "c");
    let at = NamePlace::Schema;
    let text = "the name c stands twice: Schema";
    shows(&rt, rt.alloc(), PolarsError::Duplicate { name, at }, text);
}

#[test]
fn faults_without_more_have_a_text(rt: HostRuntime) {
    let alloc = rt.alloc();
    shows(
        &rt,
        alloc,
        PolarsError::NoData(NoDataFault::Skip),
        "no data: Skip",
    );
    shows(&rt, alloc, PolarsError::IO, "input or output failed");
    shows(&rt, alloc, PolarsError::OutOfMemory, "out of memory");
    shows(
        &rt,
        alloc,
        PolarsError::EmptyProjection,
        "the projection is empty",
    );
}
