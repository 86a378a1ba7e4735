//! Workers that read the pieces of a range side by side, and the columns that come of it.
ghost use Rattle.std.specs.Prelude.{◌≡◌, ◌<◌, ◌+◌, ◌*◌, ◌/◌, ◌^◌, ◌-◌, min, ℕ, List, None, IfOk, length, vec_len};
ghost use Rattle.pl_frame.specs.Dialect.{IsDialect};
ghost use Rattle.pl_scan.specs.Dialect.{marks_of, comment_of};
ghost use Rattle.pl_scan.specs.LineCuts.{RiseTo};
ghost use Rattle.pl_board.specs.Seats.{IsBlankOf};
ghost use Rattle.pl_cells.specs.InitBuffers.{first_unreadable};
ghost use Rattle.pl_cells.specs.NullValues.{HaveTexts};
ghost use Rattle.pl_read.specs.Workers.{worker_count};
ghost use Rattle.pl_rows.specs.declared.whole_pieces.PieceFrame.{PieceFrame};
ghost use Rattle.pl_rows.specs.Plan.{AreRising};
ghost use Rattle.pl_rows.specs.Ranges.{IsRangeRead};
ghost use Rattle.pl_rows.specs.WholePieces.{IsPieceFrame};

use pl_board::board::Board;
use pl_board::books::Blanks;
use pl_board::gate::Gate;
use pl_board::piece::Posted;
use pl_board::ranges::cut_into_ranges;
use pl_board::seat::Seat;
use pl_board::state::BoardState;
use pl_board::task::Task;
use pl_frame::schema::Schema;
use pl_rows::apart::{PieceColumns, Reading, read_apart};
use pl_rows::columns::{RangeColumns, empty_buffers};
use pl_rows::linking::link_results;
use pl_rows::plan::RangePlan;
use std::alloc::{AllocError, Global};
use std::marker::Brand;
use std::sync::Wait;
use std::sync::ledger::Ledger;
use std::thread;
use std::thread::Threads;

// A seat that a worker hands back, and whether it was told that there are no more pieces. Else memory ran out.
#[derive(Drop)]
struct Returned<T: Task, P: Ledger, S: Ledger, R: Ledger, C: Ledger> {
    seat: Seat<T, P, S, R, C>,
    ended: bool,
}

// Takes pieces of the board, reads each and posts what was read, until there are no more or memory runs out.
fn work<'a, K: Reading, T: Task, P: Ledger, S: Ledger, R: Ledger, C: Ledger, G: Gate, W: Wait>(
    rt: &W,
    alloc: Global,
    board: &Board<'a, PieceColumns<K>, T, P, S, R, C>,
    mut seat: Seat<T, P, S, R, C>,
    schema: &Schema,
    plan: &RangePlan<'_>,
    gate: &G,
) -> Returned<T, P, S, R, C>
    requires dialect { IsDialect (marks_of plan.now.dialect) (comment_of plan.now.dialect) }
    requires width { plan.now.projection.width ≡ length schema.now }
    requires rising { AreRising 0 (length schema.now) plan.now.projection.places.now }
    requires readable { first_unreadable schema.now plan.now.projection.places.now ≡ None }
    requires texts { HaveTexts plan.now.options.null_values (length schema.now) }
    requires range { K.range ≡ T.setup.bytes }
    requires meant { (text : List ℕ) (read : PieceFrame) → IsPieceFrame plan.now schema.now text read → K.reads text read }
{
    let places = plan.projection.places;
    let quote_char = plan.dialect.quote_char;
    let Ok(mut buffers) = empty_buffers(alloc, schema, places, quote_char, plan.options.encoding)
    else {
        return Returned { seat, ended: false };
    };
    for _ in rt.forever() {
        let piece = match board.take(rt, &mut seat) {
            Ok(Some(piece)) => piece,
            Ok(None) => return Returned { seat, ended: true },
            Err(_) => return Returned { seat, ended: false },
        };
        let number = piece.number();
        gate.before(number);
        let Ok(done) = read_apart::<K>(alloc, &mut buffers, schema, &piece, plan) else {
            return Returned { seat, ended: false };
        };
        board.post(rt, &mut seat, Posted::new(piece, done));
        gate.after(number);
    }
    unreachable!()
}

// The seats, and whether each worker was told that there are no more pieces.
fn gather<T: Task, P: Ledger, S: Ledger, R: Ledger, C: Ledger>(
    alloc: Global,
    all: Vec<Returned<T, P, S, R, C>>,
) -> Result<(Vec<Seat<T, P, S, R, C>>, bool), AllocError>
    ensures { IfOk result (λ r. vec_len r.0 ≡ vec_len all) }
{
    let mut seats = Vec::new(alloc);
    let mut all_ended = true;
    for one in all {
        let Returned { seat, ended } = one;
        all_ended = all_ended && ended;
        seats.push(seat)?;
    }
    Ok((seats, all_ended))
}

/// How many workers read where so many are asked: four where none is said, one at least and 64 at most.
pub fn worker_count(n_threads: Option<usize>) -> usize
    ensures count { result ≡ worker_count n_threads }
    ensures some { 0 < result }
{
    match n_threads {
        None => 4,
        Some(0) => 1,
        Some(asked) if asked > 64 => 64,
        Some(asked) => asked,
    }
}

// Reads a range by workers that share a new board.
fn read_on_board<
    K: Reading + Send + Sync,
    T: Task + Send + Sync,
    P: Ledger + Send + Sync,
    S: Ledger + Send + Sync,
    R: Ledger + Send + Sync,
    C: Ledger + Send + Sync,
    W: Threads + Wait + Sync,
    G: Gate + Sync,
>(
    rt: &W,
    alloc: Global,
    gate: &G,
    workers: usize,
    blanks: Blanks,
    schema: &Schema,
    range: &[u8],
    plan: &RangePlan<'_>,
    ends: Vec<usize>,
) -> Result<RangeColumns, AllocError>
    requires workers { 0 < workers }
    requires rise { RiseTo (length range.now) 0 ends.items }
    requires task { T.setup ≡ record { bytes = range.now; ends = ends.items; limit = plan.now.limit } }
    requires handed_out { IsBlankOf blanks.handed_out T.name T.parts workers }
    requires posts { IsBlankOf blanks.posts P.name P.parts workers }
    requires seats { IsBlankOf blanks.seats S.name S.parts workers }
    requires running { IsBlankOf blanks.running R.name R.parts workers }
    requires clean { IsBlankOf blanks.clean C.name C.parts workers }
    requires dialect { IsDialect (marks_of plan.now.dialect) (comment_of plan.now.dialect) }
    requires width { plan.now.projection.width ≡ length schema.now }
    requires rising { AreRising 0 (length schema.now) plan.now.projection.places.now }
    requires readable { first_unreadable schema.now plan.now.projection.places.now ≡ None }
    requires texts { HaveTexts plan.now.options.null_values (length schema.now) }
    requires range { K.range ≡ range.now }
    requires read { (text : List ℕ) (read : PieceFrame) → IsPieceFrame plan.now schema.now text read → K.reads text read }
    requires meant { (text : List ℕ) (read : PieceFrame) → K.reads text read → IsPieceFrame plan.now schema.now text read }
    ensures { IfOk result (IsRangeRead plan.now schema.now range.now) }
{
    let state = BoardState::new(range, ends, plan.limit);
    let Ok((board, seats)) = Board::<PieceColumns<K>, T, P, S, R, C>::new(
        alloc, state, workers, blanks,
    ) else {
        return Err(AllocError);
    };
    let shared = &board;
    let all = thread::map_vec(
        rt,
        seats,
        &|seat| { work(rt, alloc, shared, seat, schema, plan, gate) },
    )?;
    let (seats, all_ended) = gather(alloc, all)?;
    let board = board.finish(seats);
    if !all_ended {
        return Err(AllocError);
    }
    link_results(alloc, schema, board.into_results(), range, plan)
}

// From this number of columns on pieces are longer.
const COLUMNS: usize = 256;

/// How long pieces are, in bytes, where this number of columns is read: once `piece_size` for each 256 columns begun, since each piece
/// has a buffer of its own for each column; no longer than a number of 64 bits.
pub fn piece_size_for(piece_size: usize, columns: usize) -> usize
    requires { 0 < piece_size }
    ensures size { result ≡ min (piece_size * (columns / COLUMNS + 1)) (2 ^ 64 - 1) }
    ensures some { 0 < result }
    ensures few { columns < 256 → result ≡ piece_size }
{
    piece_size.saturating_mul(columns / COLUMNS + 1)
}

/// Reads the records of a text by so many workers into columns of a schema: what one pass over it gives, however many there are and
/// wherever it is cut. It is cut into ranges that begin and end where items do (docs/pieces.md, "States"). Refuses only want of
/// memory, of a worker too.
pub fn read_by_workers<W: Threads + Wait + Sync, G: Gate + Sync>(
    rt: &W,
    alloc: Global,
    gate: &G,
    workers: usize,
    schema: &Schema,
    range: &[u8],
    plan: &RangePlan<'_>,
    piece_size: usize,
) -> Result<RangeColumns, AllocError>
    requires workers { 0 < workers }
    requires size { 0 < piece_size }
    requires dialect { IsDialect (marks_of plan.now.dialect) (comment_of plan.now.dialect) }
    requires width { plan.now.projection.width ≡ length schema.now }
    requires rising { AreRising 0 (length schema.now) plan.now.projection.places.now }
    requires readable { first_unreadable schema.now plan.now.projection.places.now ≡ None }
    requires texts { HaveTexts plan.now.options.null_values (length schema.now) }
    ensures { IfOk result (IsRangeRead plan.now schema.now range.now) }
{
    let piece_size = piece_size_for(piece_size, plan.projection.places.len());
    let workers = workers.min((range.len() / piece_size).saturating_add(1));
    let Ok(ends) = cut_into_ranges(rt, alloc, range, &plan.dialect, piece_size, workers) else {
        return Err(AllocError);
    };
    read_on_board::<Brand, Brand, Brand, Brand, Brand, Brand, W, G>(
        rt,
        alloc,
        gate,
        workers,
        Blanks::new(workers),
        schema,
        range,
        plan,
        ends,
    )
}
