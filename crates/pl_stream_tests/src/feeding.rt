//! Tests of `pl_stream::feeding`.
ghost use Rattle.std.specs.Prelude.{◌≡◌, false, IfOk};

use crate::words::words_of;
use pl_frame::error::{ComputeFault, FaultKind, PolarsError};
use pl_stream::fault::StreamFault;
use pl_stream::state::StreamState;
use pl_words::job::Job;
use pl_words::words::parse_words;
use std::alloc::Global;
use std::process::Abort;

const WORDS: &str = "--schema a:int64,b:string --no-header";

// A state under the words that each test here has.
fn made_state(rt: &impl Abort, alloc: Global) -> Result<StreamState, StreamFault>
    ensures { IfOk result (λ state. state.is_finished ≡ false) }
{
    let words = words_of(rt, alloc, WORDS);
    match parse_words(alloc, &words) {
        Ok(Job::Convert(read, write)) => {
            let made = StreamState::new(alloc, &read, &write);
            drop(read);
            drop(write);
            made
        }
        _ => Err(StreamFault::NoSchema),
    }
}

// Whether a feed appends exactly this text.
fn appends(alloc: Global, state: &mut StreamState, piece: &[u8], text: &[u8]) -> bool
    requires open { state.old.is_finished ≡ false }
    ensures open { state.new.is_finished ≡ false }
{
    let mut gained = Vec::new(alloc);
    state.feed(piece, &mut gained).is_ok() && gained.as_slice() == text
}

// Whether a feed is refused for the value of the first column of record 1, and appends nothing.
fn is_refused(alloc: Global, state: &mut StreamState, piece: &[u8]) -> bool
    requires open { state.old.is_finished ≡ false }
    ensures open { state.new.is_finished ≡ false }
{
    let mut gained = Vec::new(alloc);
    let is_value = match state.feed(piece, &mut gained) {
        Err(
            StreamFault::Polars(
                PolarsError::ComputeError(
                    ComputeFault::Record {
                        row: 1,
                        column: 0,
                        kind: FaultKind::Value,
                    },
                ),
            ),
        ) => true,
        _ => false,
    };
    is_value && gained.is_empty()
}

#[test]
fn a_record_is_appended_when_its_line_end_came(rt: HostRuntime) {
    let mut state = made_state(&rt, rt.alloc()).expect(&rt, "a state");
    assert!(rt; appends(rt.alloc(), &mut state, b"1,\"x", b""));
    assert!(rt; appends(rt.alloc(), &mut state, b"\ny\"\n2,", b"a,b\n1,\"x\ny\"\n"));
    assert!(rt; state.held() == 2);
    let mut end = Vec::new(rt.alloc());
    assert!(rt; state.finish(&mut end).is_ok());
    assert!(rt; end.as_slice() == b"2,\n".as_slice());
    assert!(rt; state.finished());
    drop(end);
    drop(state);
}

// Feeds a record again and again, and answers whether each was taken and the state never kept more than 8 bytes.
fn takes_each(rt: &impl Abort, alloc: Global, state: &mut StreamState) -> bool
    requires open { state.old.is_finished ≡ false }
{
    let mut text = Vec::new(alloc);
    for number in 0..1000 {
        if state.feed(b"1,x\n", &mut text).is_err() || state.held() > 8 {
            return false;
        }
    }
    text.len() == 4004
}

#[test]
fn a_state_keeps_little_of_many_records(rt: HostRuntime) {
    let mut state = made_state(&rt, rt.alloc()).expect(&rt, "a state");
    assert!(rt; takes_each(&rt, rt.alloc(), &mut state));
    drop(state);
}

#[test]
fn a_fault_is_answered_by_each_later_call(rt: HostRuntime) {
    let mut state = made_state(&rt, rt.alloc()).expect(&rt, "a state");
    assert!(rt; appends(rt.alloc(), &mut state, b"1,2\nz,", b"a,b\n1,2\n"));
    assert!(rt; is_refused(rt.alloc(), &mut state, b"3\n4,5\n"));
    assert!(rt; is_refused(rt.alloc(), &mut state, b"6,7\n"));
    assert!(rt; is_refused(rt.alloc(), &mut state, b""));
    let mut end = Vec::new(rt.alloc());
    assert!(rt; state.finish(&mut end).is_err());
    assert!(rt; end.is_empty() && !state.finished());
    drop(end);
    drop(state);
}
