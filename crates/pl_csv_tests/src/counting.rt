//! Tests of `pl_csv::counting`.

use pl_csv::counting::count_rows;
use pl_frame::error::{PolarsError, PolarsResult};
use pl_frame::opener::{MemOpener, Opener, PipeOpener};
use pl_scan::comment::CommentPrefix;
use std::alloc::Global;

// The answer for the path `f` under commas, double quotes and hashes, with a header.
fn count<O: Opener>(alloc: Global, opener: &mut O) -> PolarsResult<usize> {
    let prefix = CommentPrefix::new_single(b'#');
    count_rows(
        alloc,
        opener,
        "f",
        b',',
        Some(b'"'),
        Some(&prefix),
        b'\n',
        true,
    )
}

// Whether so many rows were counted.
fn is_count(answer: PolarsResult<usize>, rows: usize) -> bool {
    let is_count = matches!(&answer, Ok(found) if *found == rows);
    drop(answer);
    is_count
}

// Whether a device failed.
fn has_failed(answer: PolarsResult<usize>) -> bool {
    let has_failed = matches!(&answer, Err(PolarsError::IO));
    drop(answer);
    has_failed
}

#[test]
fn rows_of_held_paths(rt: HostRuntime) {
    let entries: [(&str, &[u8]); 1] = [("f", b"#c\na\n\"1\n\"\"2\"\n#d\nx\"y\n")];
    let mut opener = MemOpener::new(&entries);
    assert!(rt; is_count(count(rt.alloc(), &mut opener), 2));
    let mut opener = PipeOpener::new(&entries, 3, &[]);
    assert!(rt; is_count(count(rt.alloc(), &mut opener), 2));
}

#[test]
fn a_source_is_read_to_its_end_without_a_dialect(rt: HostRuntime) {
    let entries: [(&str, &[u8]); 1] = [("f", b"a\n1\n")];
    let mut opener = PipeOpener::new(&entries, 1, &[4]);
    let alloc = rt.alloc();
    let failed = count_rows(alloc, &mut opener, "f", b',', Some(b','), None, b'\n', true);
    assert!(rt; has_failed(failed));
}

#[test]
fn sources_that_fail_and_paths_that_are_not_held(rt: HostRuntime) {
    let held: [(&str, &[u8]); 1] = [("f", b"a\n1\n")];
    let mut opener = PipeOpener::new(&held, 1, &[1]);
    assert!(rt; has_failed(count(rt.alloc(), &mut opener)));
    assert!(rt; has_failed(count(rt.alloc(), &mut opener)));
    let other: [(&str, &[u8]); 1] = [("g", b"a\n1\n")];
    let mut opener = PipeOpener::new(&other, 1, &[]);
    assert!(rt; has_failed(count(rt.alloc(), &mut opener)));
}
