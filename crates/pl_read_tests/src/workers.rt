//! Tests of `pl_read` over workers: each piece is read once, and side by side.

use crate::given::one_column;
use pl_frame::column::Value;
use pl_frame::frame::DataFrame;
use pl_frame::source::MemSource;
use pl_read::csv_reader::{CsvReader, Gate};
use std::alloc::Global;
use std::process::Abort;
use std::sync::Wait;
use std::sync::atomic::{AtomicU64, Ordering};
use std::thread;
use std::thread::Threads;

// So many turns at most does a worker wait for another.
const TURNS: u32 = 20_000_000;

// The column `a` of a text, read by so many workers in pieces of one byte, each of which is thus a line.
fn read<W: Abort + Threads + Wait + Sync, G: Gate + Sync>(
    rt: &W,
    alloc: Global,
    gate: &G,
    workers: usize,
    text: &[u8],
) -> DataFrame {
    let options = one_column(rt, alloc)
        .with_has_header(false)
        .with_n_threads(Some(workers))
        .with_chunk_size(1);
    let mut reader = CsvReader::with_options(alloc, MemSource::new(text), options);
    let frame = reader.finish_gated(rt, gate).expect(rt, "a frame");
    drop(reader);
    frame
}

// Whether a frame is one column of these numbers.
fn holds(frame: &DataFrame, numbers: &[i128]) -> bool {
    let [column] = frame.columns() else {
        return false;
    };
    if column.len() != numbers.len() {
        return false;
    }
    for (row, number) in numbers.iter().enumerate() {
        if column.get(row) != Value::Whole(*number) {
            return false;
        }
    }
    true
}

// A gate that holds piece 0 back until piece 1 was posted.
#[derive(Drop)]
struct Holding {
    posted: AtomicU64,
    gave_up: AtomicU64,
}

impl Gate for Holding {
    fn before(&self, piece: usize) {
        if piece != 0 {
            return;
        }
        for _ in 0..TURNS {
            if self.posted.load(Ordering::SeqCst) == 1 {
                return;
            }
            thread::yield_now();
        }
        self.gave_up.store(1, Ordering::SeqCst);
    }

    fn after(&self, piece: usize) {
        if piece == 1 {
            self.posted.store(1, Ordering::SeqCst);
        }
    }
}

#[test]
fn two_workers_read_side_by_side(rt: HostRuntime) {
    let gate = Holding {
        posted: AtomicU64::new(0),
        gave_up: AtomicU64::new(0),
    };
    let frame = read(&rt, rt.alloc(), &gate, 2, b"1\n2\n");
    assert!(rt;
        gate.gave_up.load(Ordering::SeqCst) == 0,
        "no other worker posted"
    );
    assert!(rt; holds(&frame, &[1, 2]));
}

// A gate that counts the calls for each of four pieces, and those for others.
#[derive(Drop)]
struct Counting {
    before: [AtomicU64; 5],
    after: [AtomicU64; 5],
}

fn zeros() -> [AtomicU64; 5] {
    [
        AtomicU64::new(0),
        AtomicU64::new(0),
        AtomicU64::new(0),
        AtomicU64::new(0),
        AtomicU64::new(0),
    ]
}

impl Gate for Counting {
    fn before(&self, piece: usize) {
        self.before[piece.min(4)].fetch_add(1, Ordering::SeqCst);
    }

    fn after(&self, piece: usize) {
        self.after[piece.min(4)].fetch_add(1, Ordering::SeqCst);
    }
}

// Whether each of the four pieces was counted once, and no other.
fn are_once(counts: &[AtomicU64; 5]) -> bool {
    for piece in 0..4 {
        if counts[piece].load(Ordering::SeqCst) != 1 {
            return false;
        }
    }
    counts[4].load(Ordering::SeqCst) == 0
}

#[test]
fn each_piece_is_read_once(rt: HostRuntime) {
    for workers in [1, 2, 64] {
        let gate = Counting {
            before: zeros(),
            after: zeros(),
        };
        let frame = read(&rt, rt.alloc(), &gate, workers, b"1\n2\n3\n4\n");
        assert!(rt; holds(&frame, &[1, 2, 3, 4]));
        assert!(rt;
            are_once(&gate.before) && are_once(&gate.after),
            "by {workers} workers"
        );
    }
}
