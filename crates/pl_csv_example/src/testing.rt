//! Rows that a test wants.
ghost use Rattle.std.specs.Prelude.{◌≡◌};

use crate::reading::orders;
use pl_frame::column::Value;
use pl_frame::error::PolarsResult;
use pl_frame::frame::DataFrame;
use pl_frame::source::MemSource;
use pl_read::reader_makers::ReaderMakers;
use pl_read::row_test::RowTest;
use std::alloc::Global;
use std::sync::Wait;
use std::thread::Threads;

/// Wants the rows whose third cell is no null.
struct HasAmount;

impl RowTest for HasAmount {
    ghost use Rattle.std.specs.Prelude.{false, is_some, slice_get};
    ghost use Rattle.std.specs.Option.{option_map_or};

    ghost wants = { λ _ row. option_map_or (λ cell. is_some cell.1) (slice_get row 2) false };

    fn test(&self, df: &DataFrame, row: usize) -> bool {
        match df.columns() {
            [_, _, amount, ..] => amount.get(row) != Value::Null,
            _ => false,
        }
    }
}

/// The orders of a text that have an amount.
pub fn read_rows_with_amount<W: Threads + Wait + Sync>(
    rt: &W,
    alloc: Global,
    text: &[u8],
) -> PolarsResult<DataFrame> {
    let mut reader = orders(alloc)?.into_reader_with_file_handle(alloc, MemSource::new(text));
    let frame = reader.finish_with(rt, &HasAmount);
    drop(reader);
    frame
}
