//! Tests of `pl_frame::texts`.

use pl_frame::texts::Texts;
use std::alloc::Global;
use std::process::Abort;

// Two texts with a null and an empty text between them.
fn made(rt: &impl Abort, alloc: Global) -> Texts {
    let mut texts = Texts::new(alloc);
    assert!(rt; texts.is_empty());
    texts.reserve(4, 7).expect(rt, "room");
    texts.push("é1").expect(rt, "a text");
    texts.push_null().expect(rt, "a null");
    texts.push("").expect(rt, "a text");
    texts.push("last").expect(rt, "a text");
    texts
}

#[test]
fn appends_texts_and_nulls(rt: HostRuntime) {
    let mut texts = made(&rt, rt.alloc());
    texts.append(&made(&rt, rt.alloc())).expect(&rt, "room");
    assert!(rt; texts.len() == 8 && texts.byte_len() == 14 && texts.null_count() == 2);
    texts.truncate(6);
    assert!(rt; texts.get(4) == Some("é1"));
    assert!(rt; texts.get(5) == None);
}
