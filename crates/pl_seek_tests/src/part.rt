//! Tests of `pl_seek::part`.

use crate::frames::{frame, name};
use pl_frame::data_type::DataType;
use pl_frame::error::{ComputeFault, FaultKind, PolarsError};
use pl_frame::frame::DataFrame;
use pl_frame::schema::Schema;
use pl_options::read_options::CsvReadOptions;
use pl_read::settle_given::settle_given;
use pl_seek::fault::SeekFault;
use pl_seek::part::read_part;
use std::alloc::Global;
use std::process::Abort;

// Records of which the first is no number.
const PART: &[u8; 6] = b"x\n2\n3\n";

// At most so many records of a part from one on, as numbers.
pub(crate) fn read(
    rt: &impl Abort,
    alloc: Global,
    part: &[u8],
    skip: usize,
    length: usize,
) -> Result<DataFrame, SeekFault> {
    let mut schema = Schema::new(alloc);
    let added = schema.with_column(name(rt, alloc, "a"), DataType::Int64);
    drop(added.expect(rt, "a column"));
    let options = CsvReadOptions::new(alloc).with_schema(Some(schema));
    assert!(rt; options.schema.is_some());
    let settled = settle_given(alloc, &options).expect(rt, "what the read goes by");
    assert!(rt; !settled.projection.is_empty());
    drop(settled);
    let frame = read_part(alloc, part, &options, skip, length, true);
    drop(options);
    frame
}

#[test]
fn records_of_a_part_are_judged_alone(rt: HostRuntime) {
    let found = read(&rt, rt.alloc(), PART, 1, 2).expect(&rt, "a frame");
    let wanted = frame(&rt, rt.alloc(), &[2, 3]);
    assert!(rt; found == wanted);
    let fault = read(&rt, rt.alloc(), PART, 0, 1);
    assert!(rt;
        matches!(
            fault,
            Err(SeekFault::Polars(PolarsError::ComputeError(ComputeFault::Record {
                row: 0,
                column: 0,
                kind: FaultKind::Value
            })))
        )
    );
}
