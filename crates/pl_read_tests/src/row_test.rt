//! Tests of `pl_read::row_test`.

use crate::given::one_column;
use pl_frame::column::Value;
use pl_frame::frame::DataFrame;
use pl_frame::source::MemSource;
use pl_read::csv_reader::{CsvReader, RowTest};

// Wants rows whose first cell is no null.
struct HasFirst;

impl RowTest for HasFirst {
    ghost use Rattle.std.specs.Prelude.{false, is_some, slice_get};
    ghost use Rattle.std.specs.Option.{option_map_or};

    ghost wants = { λ _ row. option_map_or (λ cell. is_some cell.1) (slice_get row 0) false };

    fn test(&self, df: &DataFrame, row: usize) -> bool {
        match df.columns() {
            [first, ..] => first.get(row) != Value::Null,
            [] => false,
        }
    }
}

#[test]
fn rows_come_that_the_test_wants(rt: HostRuntime) {
    let alloc = rt.alloc();
    let options = one_column(&rt, alloc).with_n_rows(Some(4));
    let source = MemSource::new(b"a\n1\n\n3\n\n5\n");
    let mut reader = CsvReader::with_options(alloc, source, options);
    let frame = reader.finish_with(&rt, &HasFirst).expect(&rt, "a frame");
    drop(reader);
    let [column] = frame.columns() else {
        panic!(rt; "one column is read");
    };
    assert!(rt; frame.height() == 2);
    assert!(rt; column.get(0) == Value::Whole(1) && column.get(1) == Value::Whole(3));
}
