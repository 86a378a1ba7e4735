//! A board that threads share, as a reader of pieces uses it.
ghost use Rattle.std.specs.Prelude.{◌≡◌, IfOk};
ghost use Rattle.pl_board.specs.Seats.{IsBlankOf};
ghost use Rattle.pl_board.specs.States.{fresh};

use crate::rows::{Counts, Rows, board_of, counts_of};
use pl_board::board::Board;
use pl_board::books::Blanks;
use pl_board::gate::Gate;
use pl_board::piece::{Done, Piece, Posted};
use pl_board::seat::Seat;
use pl_board::state::BoardState;
use pl_board::task::Task;
use pl_frame::error::{PolarsError, PolarsResult};
use std::alloc::Global;
use std::marker::Brand;
use std::sync::Wait;
use std::sync::atomic::{AtomicU64, Ordering};
use std::sync::ledger::Ledger;
use std::test::Fail;
use std::thread;
use std::thread::Threads;

// Reads a piece.
pub trait Reads<D: Done> {
    fn read(&self, piece: &Piece<'_>) -> D
        ensures { D.holds_for result piece.now.text };
}

// Finds one row in each piece.
struct OneRow;

impl Reads<Rows> for OneRow {
    fn read(&self, _piece: &Piece<'_>) -> Rows {
        Rows(1)
    }
}

// Takes, reads and posts, until there are no more pieces or memory runs out.
fn work<
    'a,
    D: Done,
    T: Task,
    P: Ledger,
    S: Ledger,
    R: Ledger,
    C: Ledger,
    F: Reads<D>,
    G: Gate,
    W: Wait,
>(
    rt: &W,
    board: &Board<'a, D, T, P, S, R, C>,
    mut seat: Seat<T, P, S, R, C>,
    reader: &F,
    gate: &G,
) -> Seat<T, P, S, R, C> {
    for _ in rt.forever() {
        let Ok(Some(piece)) = board.take(rt, &mut seat) else {
            return seat;
        };
        let number = piece.number();
        gate.before(number);
        let done = reader.read(&piece);
        board.post(rt, &mut seat, Posted::new(piece, done));
        gate.after(number);
    }
    unreachable!()
}

// Two threads read the pieces.
fn read_in_threads<
    'a,
    D: Done + Send,
    T: Task + Send + Sync,
    P: Ledger + Send + Sync,
    S: Ledger + Send + Sync,
    R: Ledger + Send + Sync,
    C: Ledger + Send + Sync,
    F: Reads<D> + Sync,
    G: Gate + Sync,
    W: Threads + Wait + Sync,
>(
    rt: &W,
    alloc: Global,
    state: BoardState<'a, D>,
    blanks: Blanks,
    reader: &F,
    gate: &G,
) -> PolarsResult<BoardState<'a, D>>
    requires fresh { state ≡ fresh state.setup }
    requires task { state.setup ≡ T.setup }
    requires handed_out { IsBlankOf blanks.handed_out T.name T.parts 2 }
    requires posts { IsBlankOf blanks.posts P.name P.parts 2 }
    requires seats { IsBlankOf blanks.seats S.name S.parts 2 }
    requires running { IsBlankOf blanks.running R.name R.parts 2 }
    requires clean { IsBlankOf blanks.clean C.name C.parts 2 }
    ensures setup { IfOk result (λ board. board.setup ≡ T.setup) }
{
    let (board, seats) = Board::<D, T, P, S, R, C>::new(alloc, state, 2, blanks)?;
    let shared = &board;
    let Ok(seats) = thread::map_vec(rt, seats, &|seat| work(rt, shared, seat, reader, gate)) else {
        return Err(PolarsError::OutOfMemory);
    };
    Ok(board.finish(seats))
}

// The state that comes back is the given one's, whatever the threads did.
fn read_by_two<'a, D: Done + Send, F: Reads<D> + Sync, G: Gate + Sync, W: Threads + Wait + Sync>(
    rt: &W,
    alloc: Global,
    state: BoardState<'a, D>,
    reader: &F,
    gate: &G,
) -> PolarsResult<BoardState<'a, D>>
    requires { state ≡ fresh state.setup }
    ensures { IfOk result (λ board. board.setup ≡ state.entry.setup) }
{
    read_in_threads::<D, Brand, Brand, Brand, Brand, Brand, F, G, W>(
        rt,
        alloc,
        state,
        Blanks::new(2),
        reader,
        gate,
    )
}

fn counts_by_two<G: Gate + Sync, W: Threads + Wait + Sync>(
    rt: &W,
    alloc: Global,
    bytes: &[u8],
    gate: &G,
) -> PolarsResult<Counts> {
    let state = board_of(alloc, bytes, None)?;
    let read = read_by_two(rt, alloc, state, &OneRow, gate)?;
    Ok(counts_of(&read))
}

// Counts what it is called for.
#[derive(Drop)]
struct CountingGate {
    before: [AtomicU64; 4],
    after: [AtomicU64; 4],
}

impl Gate for CountingGate {
    fn before(&self, piece: usize) {
        if piece < 4 {
            self.before[piece].fetch_add(1, Ordering::SeqCst);
        }
    }

    fn after(&self, piece: usize) {
        if piece < 4 {
            self.after[piece].fetch_add(1, Ordering::SeqCst);
        }
    }
}

fn zeros() -> [AtomicU64; 4] {
    [
        AtomicU64::new(0),
        AtomicU64::new(0),
        AtomicU64::new(0),
        AtomicU64::new(0),
    ]
}

#[test]
fn two_threads_read_each_piece_once(rt: HostRuntime) -> Result<(), Fail> {
    let gate = CountingGate {
        before: zeros(),
        after: zeros(),
    };
    let counts = counts_by_two(&rt, rt.alloc(), b"1\n2\n3\n4\n", &gate)?;
    assert!(rt; counts == (4, 4, 2, 0, 2, None));
    for piece in 0..4usize {
        assert!(rt; gate.before[piece].load(Ordering::SeqCst) == 1);
        assert!(rt; gate.after[piece].load(Ordering::SeqCst) == 1);
    }
    Ok(())
}
