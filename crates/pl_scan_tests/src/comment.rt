//! Tests of `pl_scan::comment`.

use pl_scan::comment::{CommentPrefix, is_comment_line};
use std::test::Fail;

#[test]
fn comments_begin_with_their_prefix(rt: HostRuntime) -> Result<(), Fail> {
    let single = CommentPrefix::new_from_str(rt.alloc(), "#")?;
    assert!(rt; matches!(&single, CommentPrefix::Single(b'#')));
    let multi = CommentPrefix::new_from_str(rt.alloc(), "//")?;
    assert!(rt; multi.try_clone()? == multi);
    assert!(rt; is_comment_line(b"//a", Some(&multi)));
    assert!(rt; !is_comment_line(b"/", Some(&multi)));
    Ok(())
}
