//! Tests of messages, of the nearest word and of a watch that tells nothing.

use pl_frame::source::{MemSource, Source};
use pl_terminal::adapters::WatchedSource;
use pl_terminal::message::Message;
use pl_terminal::nearest::nearest;
use pl_terminal::progress::{Progress, progress_line};
use pl_terminal::watch::Watch;
use std::alloc::Global;
use std::process::Abort;

// What a terminal may show of bytes, up to so many characters.
fn shown(rt: &impl Abort, alloc: Global, bytes: &[u8], most: usize) -> Message {
    let mut message = Message::new(alloc);
    message.add_shown(bytes, most).expect(rt, "room");
    message
}

#[test]
fn what_steers_is_escaped(rt: HostRuntime) {
    let text = shown(
        &rt,
        rt.alloc(),
        b"a\x1b[2J\xC3\xBC\xFF\xC2\x85\xE2\x80\xAE",
        60,
    );
    assert!(rt; text.as_str() == "a\\x1b[2J\u{fc}\\xff\\xc2\\x85\\xe2\\x80\\xae");
}

#[test]
fn more_than_are_shown_is_three_points(rt: HostRuntime) {
    assert!(rt; shown(&rt, rt.alloc(), b"abc", 3).as_str() == "abc");
    assert!(rt; shown(&rt, rt.alloc(), b"abcd", 3).as_str() == "abc...");
}

#[test]
fn numbers_and_texts_are_put_together(rt: HostRuntime) {
    let mut message = Message::new(rt.alloc());
    message.add("record ").expect(&rt, "room");
    message.add_number(41).expect(&rt, "room");
    assert!(rt; message.as_str() == "record 41");
}

#[test]
fn the_nearest_word_is_found(rt: HostRuntime) {
    let words = ["--sep", "--schema", "--quote"];
    let near = nearest(rt.alloc(), "--shema", words.as_slice(), 3).expect(&rt, "room");
    assert!(rt; near == Some(1));
    let far = nearest(rt.alloc(), "numbers.csv", words.as_slice(), 4).expect(&rt, "room");
    assert!(rt; far == None);
}

#[test]
fn progress_is_one_line(rt: HostRuntime) {
    let progress = Progress {
        bytes: 128_000_000,
        lines: 4_250_000,
        milliseconds: 2000,
    };
    let line = progress_line(rt.alloc(), &progress, Some("a\nb")).expect(&rt, "room");
    assert!(rt; line.as_str() == "128 MB, 4250000 lines, 64 MB/s, a\\x0ab");
}

#[test]
fn a_watched_source_gives_its_bytes(rt: HostRuntime) {
    let watch = Watch::new(&rt, rt.alloc(), false);
    let mut source = WatchedSource {
        source: MemSource::new(b"abc"),
        path: None,
        watch: &watch,
    };
    let mut block = [0u8; 8];
    let count = source
        .read(&mut block)
        .expect(&rt, "a source that never fails");
    assert!(rt; count == 3);
    assert!(rt; block[0] == b'a');
    assert!(rt; watch.bytes() == 0);
}
