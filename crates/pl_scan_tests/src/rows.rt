//! Tests of `pl_scan::rows`.

use pl_scan::comment::CommentPrefix;
use pl_scan::rows::count_rows_from_slice;

#[test]
fn counts_lines_and_what_quotes_join(rt: HostRuntime) {
    let prefix = CommentPrefix::new_single(b'#');
    for (text, header, rows, with_prefix) in [
        (b"".as_slice(), false, 0, 0),
        (b"a,b\n1,2\n\n", true, 2, 1),
        (b"\n\na\n\n\nb\n", false, 4, 2),
        (b"a\n\"1\n2\"\n#3\n", true, 2, 1),
        (b"a,\"\"\"\n\"\"\"\n,\n", false, 2, 2),
        (b"x\"y\nz\n", false, 2, 2),
        (b"\n\"a\nb\n", false, 1, 1),
    ] {
        let plain = count_rows_from_slice(text, b',', Some(b'"'), None, b'\n', header);
        assert!(rt; matches!(plain, Ok(found) if found == rows), "of {text:?}");
        let quote = Some(b'"');
        let commented = count_rows_from_slice(text, b',', quote, Some(&prefix), b'\n', header);
        assert!(rt;
            matches!(commented, Ok(found) if found == with_prefix),
            "of {text:?}"
        );
    }
}
