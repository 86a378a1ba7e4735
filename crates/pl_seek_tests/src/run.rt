//! Tests of `pl_seek::run`.

use pl_frame::opener::MemOpener;
use pl_frame::sink::MemSink;
use pl_seek::run::run_seek;
use std::alloc::Global;
use std::process::Abort;
use std::thread::Threads;

// The index of the input at `in`, whose groups are of two records.
const INDEX: &[u8] =
    b"PLSEEK1\n\x9d\xdf\xd5\xaad\x12i\x9c\xec3:4\xae.\x97\x02\x01BxYw\xb7\xfb$\xaa\xf8\xcd\x92\xf1\x07\xb7\xc4,\x01\x22\n\x01\x01\x00\x00\x00\x00\x00\x00\x00\x00\x00\x00\x00\x00\x00\x00\x00\x00\x00\x00\x00\x00\x00\x00\x00\x00\x00\x00\x00\x00\x00\x00\x00\x00\x00\x00\x00\x00\x00\x00\x00\x02\x00\x00\x00\x00\x00\x00\x00\x03\x00\x00\x00\x00\x00\x00\x00\x02\x00\x00\x00\x00\x00\x00\x00\x06";

const FILES: [(&str, &[u8]); 5] = [
    ("in", b"a\n1\n2\n3\n"),
    ("other", b"a\nx\n2\n3\n"),
    ("index", INDEX),
    // The same, but for the last byte.
    (
        "changed_index",
        b"PLSEEK1\n\x9d\xdf\xd5\xaad\x12i\x9c\xec3:4\xae.\x97\x02\x01BxYw\xb7\xfb$\xaa\xf8\xcd\x92\xf1\x07\xb7\xc4,\x01\x22\n\x01\x01\x00\x00\x00\x00\x00\x00\x00\x00\x00\x00\x00\x00\x00\x00\x00\x00\x00\x00\x00\x00\x00\x00\x00\x00\x00\x00\x00\x00\x00\x00\x00\x00\x00\x00\x00\x00\x00\x00\x00\x02\x00\x00\x00\x00\x00\x00\x00\x03\x00\x00\x00\x00\x00\x00\x00\x02\x00\x00\x00\x00\x00\x00\x00\x07",
    ),
    (
        "other_index",
        b"PLSEEK1\n\x1d\xe3l\xc6q\xda\xdaW\x00\x8d\xcf\xe0-\xdb\xeb\x98\x8c\xb9]\xf4\x13\xad\x8b\x002\n\xdejA\xb4b0,\x01\x22\n\x01\x01\x00\x00\x00\x00\x00\x00\x00\x00\x00\x00\x00\x00\x00\x00\x00\x00\x00\x00\x00\x00\x00\x00\x00\x00\x00\x00\x00\x00\x00\x00\x00\x00\x00\x00\x00\x00\x00\x00\x00\x02\x00\x00\x00\x00\x00\x00\x00\x03\x00\x00\x00\x00\x00\x00\x00\x02\x00\x00\x00\x00\x00\x00\x00\x06",
    ),
];

// Words, with blanks between them, and what a run over the files has to answer.
struct Row {
    words: &'static str,
    status: u8,
    out: &'static [u8],
    err: &'static [u8],
}

const ROWS: [Row; 19] = [
    // The bytes of an index.
    Row {
        words: "build 2 in --schema a:int64",
        status: 0,
        out: INDEX,
        err: b"",
    },
    // A slice of the records, which an index is bound to.
    Row {
        words: "slice 2 1 in index --schema a:int64",
        status: 0,
        out: b"a\n3\n",
        err: b"",
    },
    // Behind the last record there are no rows.
    Row {
        words: "slice 9 1 in index --schema a:int64",
        status: 0,
        out: b"a\n",
        err: b"",
    },
    // Records are numbered as in the whole input.
    Row {
        words: "slice 1 9 in index --schema a:int64 --row-index n",
        status: 0,
        out: b"n,a\n1,2\n2,3\n",
        err: b"",
    },
    // A record outside of the slice is not judged.
    Row {
        words: "slice 1 2 other other_index --schema a:int64",
        status: 0,
        out: b"a\n2\n3\n",
        err: b"",
    },
    Row {
        words: "slice 0 1 other other_index --schema a:int64",
        status: 24,
        out: b"",
        err: b"refusal 14 record 0 column 0 value\n",
    },
    // Indices that are none, or that are not those of the input.
    Row {
        words: "slice 2 1 in in --schema a:int64",
        status: 30,
        out: b"",
        err: b"format\n",
    },
    Row {
        words: "slice 2 1 other index --schema a:int64",
        status: 31,
        out: b"",
        err: b"input\n",
    },
    Row {
        words: "slice 2 1 in index --schema a:int64 --no-header",
        status: 32,
        out: b"",
        err: b"settings\n",
    },
    Row {
        words: "slice 2 1 in changed_index --schema a:int64",
        status: 33,
        out: b"",
        err: b"places 1\n",
    },
    // Words without a meaning: a group of no records, no schema, a limit, no columns, no path.
    Row {
        words: "build 0 in --schema a:int64",
        status: 2,
        out: b"",
        err: b"words\n",
    },
    Row {
        words: "build 2 in",
        status: 2,
        out: b"",
        err: b"words\n",
    },
    Row {
        words: "slice 0 1 in index --schema a:int64 --limit 1",
        status: 2,
        out: b"",
        err: b"words\n",
    },
    Row {
        words: "slice 0 1 in index --schema a:int64 --make 1",
        status: 2,
        out: b"",
        err: b"words\n",
    },
    Row {
        words: "slice 2 1 in",
        status: 2,
        out: b"",
        err: b"words\n",
    },
    // The quote of the output is judged before all that is read, and only where a text is asked for.
    Row {
        words: "slice 2 1 no-file no-file --schema a:int64 --out-quote xFF",
        status: 13,
        out: b"",
        err: b"refusal 3 quote\n",
    },
    Row {
        words: "build 2 in --schema a:int64 --out-quote xFF",
        status: 0,
        out: INDEX,
        err: b"",
    },
    // The input is opened first, then its index.
    Row {
        words: "slice 2 1 in no-file --schema a:int64",
        status: 3,
        out: b"",
        err: b"source\n",
    },
    // A cause against the input.
    Row {
        words: "build 2 in --schema a:int64 --skip-rows 9",
        status: 20,
        out: b"",
        err: b"refusal 10 skip\n",
    },
];

// The words between blanks.
fn words_of(rt: &impl Abort, alloc: Global, text: &str) -> Vec<String> {
    let mut words = Vec::new(alloc);
    for word in text.split(' ') {
        let word = String::from_str(alloc, word).expect(rt, "a word");
        words.push(word).expect(rt, "a word");
    }
    words
}

// Whether a run over the files answers so.
fn is_answered<W: Threads + Sync + Abort>(rt: &W, alloc: Global, row: &Row) -> bool {
    let words = words_of(rt, alloc, row.words);
    let mut opener = MemOpener::new(&FILES);
    let mut out = MemSink::new(alloc);
    let mut err = MemSink::new(alloc);
    let status = run_seek(rt, alloc, &words, &mut opener, &mut out, &mut err);
    status == row.status && out.received() == row.out && err.received() == row.err
}

#[test]
fn each_run_over_an_index_is_answered(rt: HostRuntime) {
    for row in &ROWS {
        assert!(rt; is_answered(&rt, rt.alloc(), row));
    }
}
