//! Where a slice of rows lies in one of several files.
ghost use Rattle.std.specs.Prelude.{◌≡◌, ◌+◌, ◌^◌, ◌<◌, ◌≤◌};
ghost use Rattle.pl_read.specs.Slices.{slice_position, rows_in_file};

use std::ops::Range;

/// Where a slice of the rows of all files lies, as seen from one file.
#[derive(Clone, Copy, Debug, PartialEq, Eq)]
pub enum SplitSlicePosition {
    /// The file ends before the slice begins.
    Before,
    /// So many rows of the file stand before the slice, and then so many in it.
    Overlapping(usize, usize),
    /// The file begins where the slice has ended, or behind that.
    After,
}

impl SplitSlicePosition {
    /// Where a slice of the rows of all files lies, as seen from the file of `n_rows_this_file` rows that begins at the row
    /// `current_row_offset`. The slice must not end before it begins, and the number of rows must fit.
    pub fn split_slice_at_file(
        current_row_offset: usize,
        n_rows_this_file: usize,
        global_slice: Range<usize>,
    ) -> Self
        requires ordered { global_slice.start ≤ global_slice.end }
        requires fits { current_row_offset + n_rows_this_file < 2 ^ 64 }
        ensures { result ≡ slice_position current_row_offset n_rows_this_file global_slice.start global_slice.end }
    {
        let next_row_offset = current_row_offset + n_rows_this_file;
        if next_row_offset <= global_slice.start {
            return SplitSlicePosition::Before;
        }
        if current_row_offset >= global_slice.end {
            return SplitSlicePosition::After;
        }
        let first = current_row_offset.max(global_slice.start);
        let last = next_row_offset.min(global_slice.end);
        SplitSlicePosition::Overlapping(first - current_row_offset, last - first)
    }
}

/// How many rows of the next file stand before a slice of the rows of all files, and how many in it: none and none where
/// the slice has no part in the file. Passes over the rows of the file. The slice must not end before it begins, and the
/// number of rows must fit.
pub fn split_slice_at_file(
    current_row_offset_ref: &mut usize,
    n_rows_this_file: usize,
    global_slice_start: usize,
    global_slice_end: usize,
) -> (usize, usize)
    requires ordered { global_slice_start ≤ global_slice_end }
    requires fits { current_row_offset_ref.old + n_rows_this_file < 2 ^ 64 }
    ensures rows { result ≡ rows_in_file current_row_offset_ref.old n_rows_this_file global_slice_start global_slice_end }
    ensures passed { current_row_offset_ref.new ≡ current_row_offset_ref.old + n_rows_this_file }
{
    let current_row_offset = *current_row_offset_ref;
    *current_row_offset_ref = current_row_offset + n_rows_this_file;
    let global_slice = global_slice_start..global_slice_end;
    match SplitSlicePosition::split_slice_at_file(
        current_row_offset,
        n_rows_this_file,
        global_slice,
    ) {
        SplitSlicePosition::Overlapping(offset, len) => (offset, len),
        SplitSlicePosition::Before | SplitSlicePosition::After => (0, 0),
    }
}
