//! A record of an input, its line and its fields.

use pl_scan::comment::CommentPrefix;
use pl_scan::dialect::Dialect;
use pl_tell::records::{field_at, from_record, line_ends_before};

// A comment, a record of two lines, and one more.
const RECORDS: &[u8; 22] = b"# x\n1,\"a\nb\"\n# y\n2,c,d\n";

#[test]
fn a_record_is_found_with_its_line_and_fields(rt: HostRuntime) {
    let comment = CommentPrefix::new_single(b'#');
    let dialect = Dialect {
        separator: b',',
        quote_char: Some(b'"'),
        eol_char: b'\n',
        comment_prefix: Some(&comment),
    };
    let first = from_record(RECORDS, 0, &dialect);
    assert!(rt; line_ends_before(RECORDS, first.len(), b'\n') == 1);
    assert!(rt; field_at(first, 1, &dialect) == Some(b"\"a\nb\"".as_slice()));
    let second = from_record(RECORDS, 1, &dialect);
    assert!(rt; line_ends_before(RECORDS, second.len(), b'\n') == 4);
    assert!(rt; field_at(second, 2, &dialect) == Some(b"d".as_slice()));
    assert!(rt; field_at(second, 3, &dialect) == None);
    assert!(rt; from_record(RECORDS, 2, &dialect).is_empty());
}
