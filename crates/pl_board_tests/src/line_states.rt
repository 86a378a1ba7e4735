//! Tests of `line_states`: worked rows, and pieces that are summarised side by side.
ghost use Rattle.std.specs.Prelude.{◌<◌};

use pl_board::gate::{Gate, OpenGate};
use pl_board::line_states::line_states;
use pl_scan::laws::piece_ends_cut_the_text;
use pl_scan::line_cuts::line_cuts;
use pl_scan::summary::LineState::{self, Open, Start};
use std::alloc::Global;
use std::process::Abort;
use std::sync::Wait;
use std::sync::atomic::{AtomicU64, Ordering};
use std::thread;
use std::thread::Threads;

// So many turns at most does a worker wait for another.
const TURNS: u32 = 20_000_000;

// The ends of the pieces of a text, and the states in front of them, by so many workers.
fn cut<W: Abort + Threads + Wait + Sync, G: Gate + Sync>(
    rt: &W,
    alloc: Global,
    bytes: &[u8],
    piece_size: usize,
    workers: usize,
    gate: &G,
) -> (Vec<usize>, Vec<LineState>)
    requires size { 0 < piece_size }
    requires workers { 0 < workers }
{
    let ends = line_cuts(alloc, bytes, piece_size, b'\n').expect(rt, "ends");
    piece_ends_cut_the_text();
    let states = line_states(
        rt,
        alloc,
        bytes,
        &ends,
        b',',
        Some(b'"'),
        b'\n',
        None,
        workers,
        gate,
    )
    .expect(rt, "states");
    (ends, states)
}

#[test]
fn states_stand_in_front_of_pieces(rt: HostRuntime) {
    let text = b"x\"y\n\"c\nd\"\n";
    for workers in [1, 2] {
        let (ends, states) = cut(&rt, rt.alloc(), text, 1, workers, &OpenGate);
        assert!(rt; ends.as_slice() == [4, 7, 10].as_slice());
        assert!(rt; states.as_slice() == [Start, Start, Open].as_slice());
        let (ends, states) = cut(&rt, rt.alloc(), text, 4, workers, &OpenGate);
        assert!(rt; ends.as_slice() == [4, 10].as_slice());
        assert!(rt; states.as_slice() == [Start, Start].as_slice());
        let (ends, states) = cut(&rt, rt.alloc(), text, 7, workers, &OpenGate);
        assert!(rt; ends.as_slice() == [7, 10].as_slice());
        assert!(rt; states.as_slice() == [Start, Open].as_slice());
    }
}

// A gate that holds piece 0 back until piece 1 was posted.
#[derive(Drop)]
struct Holding {
    posted: AtomicU64,
    gave_up: AtomicU64,
}

impl Gate for Holding {
    fn before(&self, piece: usize) {
        if piece != 0 {
            return;
        }
        for _ in 0..TURNS {
            if self.posted.load(Ordering::SeqCst) == 1 {
                return;
            }
            thread::yield_now();
        }
        self.gave_up.store(1, Ordering::SeqCst);
    }

    fn after(&self, piece: usize) {
        if piece == 1 {
            self.posted.store(1, Ordering::SeqCst);
        }
    }
}

#[test]
fn two_workers_summarise_side_by_side(rt: HostRuntime) {
    let gate = Holding {
        posted: AtomicU64::new(0),
        gave_up: AtomicU64::new(0),
    };
    let (ends, states) = cut(&rt, rt.alloc(), b"1\n2\n3\n", 1, 2, &gate);
    assert!(rt;
        gate.gave_up.load(Ordering::SeqCst) == 0,
        "no other worker posted"
    );
    assert!(rt; ends.as_slice() == [2, 4, 6].as_slice());
    assert!(rt; states.as_slice() == [Start, Start, Start].as_slice());
}
