//! Tests of `pl_frame::codes`.

use pl_frame::codes::{Codes, CodesBuilder};
use std::alloc::Global;
use std::process::Abort;

// These texts, with a null for each that is empty.
fn made(rt: &impl Abort, alloc: Global, texts: &[&str]) -> CodesBuilder {
    let mut codes = CodesBuilder::new(alloc);
    codes.reserve(texts.len()).expect(rt, "room");
    for text in texts {
        let pushed = match text.is_empty() {
            true => codes.push_null(),
            false => codes.push(text),
        };
        pushed.expect(rt, "a text");
    }
    codes
}

// Whether the dictionary has these three texts.
fn has_dictionary(codes: &Codes, first: &str, second: &str, third: &str) -> bool {
    match codes.dictionary() {
        [a, b, c] => a.as_str() == first && b.as_str() == second && c.as_str() == third,
        _ => false,
    }
}

#[test]
fn appended_texts_get_the_codes_that_they_have_here(rt: HostRuntime) {
    let mut texts = made(&rt, rt.alloc(), &["b", "a", ""]);
    texts
        .append(&made(&rt, rt.alloc(), &["c", "a", "c"]))
        .expect(&rt, "room");
    let codes = texts.into_codes();
    assert!(rt; has_dictionary(&codes, "b", "a", "c"));
    assert!(rt; codes.len() == 6);
    assert!(rt; codes.code(2) == None);
    assert!(rt; codes.code(3) == Some(2));
}
