//! Tests of `pl_multi::run`.
ghost use Rattle.pl_frame.specs.Opening.{held};

use pl_frame::opener::{MemOpener, Opener};
use pl_frame::sink::MemSink;
use pl_frame::source::{Failed, MemSource};
use pl_multi::run::run_multi;
use std::alloc::Global;
use std::process::Abort;
use std::sync::Wait;
use std::thread::Threads;

const FILES: [(&str, &[u8]); 5] = [
    ("f0", b"a\n1\n"),
    ("f1", b"a\n2\n"),
    ("f2", b"a\n3\n"),
    ("bad", b"a\nx\n"),
    ("y=2024/m=1/f0", b"a\n1\n"),
];

// An opener that counts what it is asked to open.
#[derive(Drop)]
struct CountingOpener<'a> {
    files: MemOpener<'a>,
    opened: u64,
}

impl<'a> Opener for CountingOpener<'a> {
    type Opened = MemSource<'a>;

    ghost holds = { λ opener path. held opener.files.entries path };

    ghost faults = { λ opener. opener.files.faults };

    fn open_path(&mut self, path: &str) -> Result<MemSource<'a>, Failed> {
        self.opened = self.opened.saturating_add(1);
        self.files.open_path(path)
    }

    fn close(&mut self, opened: MemSource<'a>) {
        self.files.close(opened);
    }
}

// Words, with blanks between them, and what a run over the files has to answer.
struct Row {
    words: &'static str,
    status: u8,
    out: &'static [u8],
    err: &'static [u8],
    opened: u64,
}

const ROWS: [Row; 15] = [
    // Rows are numbered over all files, and cut to the slice.
    Row {
        words: "--slice=1-2 --schema a:int64 --row-index n -- f0 f1 f2",
        status: 0,
        out: b"n,a\n1,2\n",
        err: b"",
        opened: 2,
    },
    // A file behind the slice is neither opened nor judged.
    Row {
        words: "--slice=0-1 --schema a:int64 -- f0 bad no-file",
        status: 0,
        out: b"a\n1\n",
        err: b"",
        opened: 1,
    },
    Row {
        words: "--slice=1-2 --schema a:int64 -- f0 bad",
        status: 24,
        out: b"",
        err: b"part 1 refusal 14 record 0 column 0 value\n",
        opened: 2,
    },
    Row {
        words: "--schema a:int64 --row-index a -- f0",
        status: 22,
        out: b"",
        err: b"refusal 12 duplicate a\n",
        opened: 0,
    },
    // The values of a path stand behind each row.
    Row {
        words: "--schema a:int64 -- y=2024/m=1/f0",
        status: 0,
        out: b"a,y,m\n1,2024,1\n",
        err: b"",
        opened: 1,
    },
    // Without paths there are no rows.
    Row {
        words: "--schema a:int64 --",
        status: 0,
        out: b"a\n",
        err: b"",
        opened: 0,
    },
    // Words without a meaning: no schema, a limit, a slice that ends before it starts, no `--`.
    Row {
        words: "-- f0",
        status: 2,
        out: b"",
        err: b"words\n",
        opened: 0,
    },
    Row {
        words: "--schema a:int64 --limit 1 -- f0",
        status: 2,
        out: b"",
        err: b"words\n",
        opened: 0,
    },
    Row {
        words: "--slice=2-1 --schema a:int64 -- f0",
        status: 2,
        out: b"",
        err: b"words\n",
        opened: 0,
    },
    Row {
        words: "--schema a:int64",
        status: 2,
        out: b"",
        err: b"words\n",
        opened: 0,
    },
    // The quote of the output is judged before all that is read.
    Row {
        words: "--schema a:int64 --workers 0 --out-quote xFF -- no-file",
        status: 13,
        out: b"",
        err: b"refusal 3 quote\n",
        opened: 0,
    },
    Row {
        words: "--schema a:int64 -- f0 no-file",
        status: 3,
        out: b"",
        err: b"part 1 source\n",
        opened: 2,
    },
    Row {
        words: "--schema a:int64 -- f0 y=2024/m=1/f0",
        status: 30,
        out: b"",
        err: b"partitions part 1\n",
        opened: 0,
    },
    Row {
        words: "--schema m:int64 -- y=2024/m=1/f0",
        status: 31,
        out: b"",
        err: b"duplicate m\n",
        opened: 0,
    },
    Row {
        words: "--schema a:int64 --row-index n --row-offset 18446744073709551615 -- f0 f1",
        status: 32,
        out: b"",
        err: b"index\n",
        opened: 2,
    },
];

// The words between blanks.
fn words_of(rt: &impl Abort, alloc: Global, text: &str) -> Vec<String> {
    let mut words = Vec::new(alloc);
    for word in text.split(' ') {
        let word = String::from_str(alloc, word).expect(rt, "a word");
        words.push(word).expect(rt, "a word");
    }
    words
}

// Whether a run over the files answers so.
fn is_answered<W: Threads + Wait + Sync + Abort>(rt: &W, alloc: Global, row: &Row) -> bool {
    let words = words_of(rt, alloc, row.words);
    let mut opener = CountingOpener {
        files: MemOpener::new(&FILES),
        opened: 0,
    };
    let mut out = MemSink::new(alloc);
    let mut err = MemSink::new(alloc);
    let status = run_multi(rt, alloc, &words, &mut opener, &mut out, &mut err);
    status == row.status
        && out.received() == row.out
        && err.received() == row.err
        && opener.opened == row.opened
}

#[test]
fn each_row_is_answered(rt: HostRuntime) {
    for row in &ROWS {
        assert!(rt; is_answered(&rt, rt.alloc(), row));
    }
}
