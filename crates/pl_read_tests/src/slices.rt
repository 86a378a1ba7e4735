//! Tests of `pl_read::slices`.

use pl_read::slices::{SplitSlicePosition, split_slice_at_file};

#[test]
fn one_row_of_three_files_is_in_the_slice(rt: HostRuntime) {
    let mut offset = 0;
    assert!(rt; split_slice_at_file(&mut offset, 1, 1, 2) == (0, 0));
    assert!(rt; split_slice_at_file(&mut offset, 1, 1, 2) == (0, 1));
    assert!(rt; split_slice_at_file(&mut offset, 1, 1, 2) == (0, 0));
    assert!(rt; offset == 3);
    let place = SplitSlicePosition::split_slice_at_file(4, 10, 6..9);
    assert!(rt; place == SplitSlicePosition::Overlapping(2, 3));
}
