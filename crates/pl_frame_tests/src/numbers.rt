//! Tests of `pl_frame::numbers`.

use pl_frame::numbers::Numbers;
use std::alloc::Global;
use std::process::Abort;

// Two numbers with a null between them.
fn made(rt: &impl Abort, alloc: Global) -> Numbers<i64> {
    let mut numbers = Numbers::<i64>::new(alloc);
    assert!(rt; numbers.is_empty());
    numbers.reserve(3).expect(rt, "room");
    numbers.push(-7).expect(rt, "a number");
    numbers.push_null().expect(rt, "a null");
    numbers.push(i64::MAX).expect(rt, "a number");
    numbers
}

#[test]
fn appends_numbers_and_nulls(rt: HostRuntime) {
    let mut numbers = Numbers::<i64>::new(rt.alloc());
    numbers.push(1).expect(&rt, "a number");
    let others = made(&rt, rt.alloc());
    numbers.append(&others).expect(&rt, "room");
    assert!(rt; numbers.len() == 4);
    assert!(rt; numbers.get(2) == None);
    assert!(rt; numbers.get(3) == Some(i64::MAX));
    assert!(rt; numbers.null_count() == 1);
}
