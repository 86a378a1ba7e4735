//! Texts and what is written of them with numbers: lines that are cut between two texts, numbers that get longer, and the ways of writing whose
//! lines can be numbered. That of printed lines each gets its number, is proved.

use pl_frame::name::PlSmallStr;
use pl_frame::sink::MemSink;
use pl_row_numbers::{can_number, write_numbered};
use pl_write::options::{QuoteStyle, SerializeOptions};
use std::alloc::Global;
use std::borrow::CowSlice;
use std::process::Abort;

// The default options with a style.
fn options(rt: &impl Abort, alloc: Global, style: QuoteStyle) -> SerializeOptions {
    let mut options = SerializeOptions::new(alloc).expect(rt, "options");
    options.quote_style = style;
    options
}

// What a sink receives of texts whose lines are numbered from one number on.
fn numbered(
    rt: &impl Abort,
    alloc: Global,
    texts: &[&[u8]],
    offset: u64,
    style: QuoteStyle,
) -> MemSink {
    let mut lines = Vec::new(alloc);
    for text in texts {
        lines.push(CowSlice::Borrowed(*text)).expect(rt, "a text");
    }
    let mut sink = MemSink::new(alloc);
    let options = options(rt, alloc, style);
    write_numbered(alloc, &lines, offset, &options, &mut sink).expect(rt, "numbers");
    sink
}

// Two lines of 40 bytes, the second with a line feed and a quote between quotes, which ends in the second 64 bytes.
const LONG: &[u8] =
    b"abcdefghijklmnopqrstuvwxyz,0123456789ab\nabcdefghijklmnopqrstuvwxyz,\"\n\"\"56789\"b\n";

#[test]
fn lines_are_told_by_their_quotes(rt: HostRuntime) {
    let necessary = QuoteStyle::Necessary;
    let cases: [(&[&[u8]], u64, &[u8]); 8] = [
        (&[], 0, b""),
        (&[b"a,b\n"], 0, b"0,a,b\n"),
        (&[b"a\nb\n", b"", b"c\n"], 8, b"8,a\n9,b\n10,c\n"),
        (
            &[b"a,\"x\ny\"\n\"\n\"\"\n\"\n\n"],
            0,
            b"0,a,\"x\ny\"\n1,\"\n\"\"\n\"\n2,\n",
        ),
        (
            &[b"a,\"x", b"", b"\ny\"", b"\nb\n"],
            5,
            b"5,a,\"x\ny\"\n6,b\n",
        ),
        (
            &[b"\"a\"", b"\"\n\"\n", b"b\n"],
            99,
            b"99,\"a\"\"\n\"\n100,b\n",
        ),
        (
            &[b"a\nb\n"],
            18446744073709551614,
            b"18446744073709551614,a\n18446744073709551615,b\n",
        ),
        (
            &[LONG],
            9,
            b"9,abcdefghijklmnopqrstuvwxyz,0123456789ab\n10,abcdefghijklmnopqrstuvwxyz,\"\n\"\"56789\"b\n",
        ),
    ];
    for (texts, offset, text) in cases {
        let sink = numbered(&rt, rt.alloc(), texts, offset, necessary);
        assert!(rt; sink.received() == text);
    }
}

#[test]
fn numbers_are_quoted_where_each_cell_is(rt: HostRuntime) {
    let texts: [&[u8]; 1] = [b"\"a\"\n\"\"\n"];
    let always = numbered(&rt, rt.alloc(), &texts, 9, QuoteStyle::Always);
    assert!(rt; always.received() == b"\"9\",\"a\"\n\"10\",\"\"\n".as_slice());
    let numeric = numbered(&rt, rt.alloc(), &texts, 9, QuoteStyle::NonNumeric);
    assert!(rt; numeric.received() == b"9,\"a\"\n10,\"\"\n".as_slice());
}

// The default options with a text of a null and what ends a line.
fn can_number_by(rt: &impl Abort, alloc: Global, separator: u8, null: &str, end: &str) -> bool {
    let mut options = options(rt, alloc, QuoteStyle::Necessary);
    options.separator = separator;
    options.null = PlSmallStr::from_str(alloc, null).expect(rt, "a text");
    options.line_terminator = PlSmallStr::from_str(alloc, end).expect(rt, "a text");
    can_number(&options)
}

#[test]
fn most_ways_of_writing_can_be_numbered(rt: HostRuntime) {
    let cases = [
        (b',', "", "\n", true),
        (b'0', "NA", "\n", true),
        (b',', "", "\r\n", false),
        (b',', "\"", "\n", false),
        (b',', "a\nb", "\n", false),
        (b'"', "", "\n", false),
        (b'\n', "", "\n", false),
    ];
    for (separator, null, end, can) in cases {
        assert!(rt; can_number_by(&rt, rt.alloc(), separator, null, end) == can);
    }
    assert!(rt; can_number(&options(&rt, rt.alloc(), QuoteStyle::Always)));
    assert!(rt; !can_number(&options(&rt, rt.alloc(), QuoteStyle::Never)));
}
