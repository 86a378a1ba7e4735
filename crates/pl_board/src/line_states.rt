//! The state of a scan in front of each piece of a text, found by workers that summarise pieces in any order.
ghost use Rattle.std.specs.Prelude.{◌≡◌, ◌<◌, ◌≤◌, ◌++◌, ◌∷◌, [], None, Some, IfOk, IfSome, IsOkUnless, OnOk, length, take, slice_range};
ghost use Rattle.std.specs.List.{last_or, AllByRecursion};
ghost use Rattle.pl_frame.specs.Dialect.{marks, IsDialect};
ghost use Rattle.pl_frame.specs.declared.error.PolarsError.TheVariants as error;
ghost use Rattle.pl_scan.specs.Comment.{prefix_of};
ghost use Rattle.pl_scan.specs.Dialect.{marks_of, comment_of};
ghost use Rattle.pl_scan.specs.LineCuts.{RiseTo, IsPieceEnd};
ghost use Rattle.pl_scan.specs.LineStates.{summary_of};
ghost use Rattle.pl_board.specs.Seats.{IsBlankOf};
ghost use Rattle.pl_board.specs.LineStates.{states_before, front_setup, IsBehindLineEnd, IsSummarised};

use crate::board::Board;
use crate::books::Blanks;
use crate::gate::Gate;
use crate::piece::{Done, Piece, Posted};
use crate::seat::Seat;
use crate::state::BoardState;
use crate::task::Task;
use pl_frame::error::{PolarsError, PolarsResult};
use pl_scan::comment::CommentPrefix;
use pl_scan::dialect::Dialect;
use pl_scan::summary::{LineState, PieceSummary, summary};
use std::alloc::Global;
use std::marker::{Brand, PhantomData};
use std::sync::Wait;
use std::sync::ledger::Ledger;
use std::thread;
use std::thread::Threads;

// What all summaries of one text have in common. It is known where code is proved; no value of it is made.
trait Scanning {
    ghost use Rattle.std.specs.Prelude.{ℕ, List, Option};
    ghost use Rattle.pl_frame.specs.Dialect.{Marks};

    // The text whose pieces are summarised.
    ghost text: { List ℕ };

    // The marks.
    ghost marks: { Marks };

    // The comment prefix, where there are comments.
    ghost comment: { Option (List ℕ) };
}

// A call at `Brand` picks its own.
impl Scanning for Brand {
    ghost use Rattle.std.specs.Prelude.{[], None};

    ghost text = { [] };

    ghost marks = { record { separator = 0; quote = None; line_end = 0 } };

    ghost comment = { None };
}

// The states behind a piece, and the places where it begins and ends.
#[derive(Drop)]
struct PieceStates<K: Scanning> {
    summary: PieceSummary,
    from: usize,
    to: usize,
    scanning: PhantomData<K>,
}

impl<K: Scanning> Done for PieceStates<K> {
    ghost use Rattle.std.specs.Prelude.{true, false};
    ghost use Rattle.pl_board.specs.declared.event.Mark.{Mark};
    ghost use Rattle.pl_board.specs.LineStates.{IsSummarised};

    ghost holds_for = { λ done text. IsSummarised K.text K.marks K.comment text done.from done.to done.summary };

    ghost mark = { λ _. record { rows = 0; closed = true; stops = false } };

    fn rows(&self) -> usize {
        0
    }

    fn closed(&self) -> bool {
        true
    }

    fn stops(&self) -> bool {
        false
    }
}

// The states behind a piece that ends with a line end.
fn summary_by(piece: &[u8], dialect: &Dialect<'_>) -> PieceSummary
    requires dialect { IsDialect (marks_of dialect.now) (comment_of dialect.now) }
    requires ended { last_or None piece.now ≡ Some dialect.now.eol_char }
    ensures { result ≡ summary_of (marks_of dialect.now) (comment_of dialect.now) piece.now }
{
    summary(
        piece,
        dialect.separator,
        dialect.quote_char,
        dialect.eol_char,
        dialect.comment_prefix,
    )
}

// What a worker makes of a piece.
fn summarised<K: Scanning>(piece: &Piece<'_>, dialect: &Dialect<'_>) -> PieceStates<K>
    requires dialect { IsDialect (marks_of dialect.now) (comment_of dialect.now) }
    requires marks { K.marks ≡ marks_of dialect.now }
    requires comment { K.comment ≡ comment_of dialect.now }
    requires text { piece.now.text ≡ slice_range K.text piece.now.from piece.now.to }
    requires ended { last_or None piece.now.text ≡ Some dialect.now.eol_char }
    ensures { IsSummarised K.text K.marks K.comment piece.now.text result.from result.to result.summary }
{
    PieceStates {
        summary: summary_by(piece.bytes(), dialect),
        from: piece.from(),
        to: piece.to(),
        scanning: PhantomData,
    }
}

// Takes pieces of the board, summarises each and posts what it made of it, until there are no more or memory runs out.
fn work<'a, K: Scanning, T: Task, P: Ledger, S: Ledger, R: Ledger, C: Ledger, G: Gate, W: Wait>(
    rt: &W,
    board: &Board<'a, PieceStates<K>, T, P, S, R, C>,
    mut seat: Seat<T, P, S, R, C>,
    dialect: &Dialect<'_>,
    gate: &G,
) -> Seat<T, P, S, R, C>
    requires dialect { IsDialect (marks_of dialect.now) (comment_of dialect.now) }
    requires marks { K.marks ≡ marks_of dialect.now }
    requires comment { K.comment ≡ comment_of dialect.now }
    requires text { T.setup.bytes ≡ take (length T.setup.bytes) K.text }
    requires behind { AllByRecursion (IsBehindLineEnd dialect.now.eol_char T.setup.bytes) T.setup.ends }
{
    for _ in rt.forever() {
        let piece = match board.take(rt, &mut seat) {
            Ok(Some(piece)) => piece,
            Ok(None) => return seat,
            Err(fault) => {
                drop(fault);
                return seat;
            }
        };
        let number = piece.number();
        gate.before(number);
        let done = summarised::<K>(&piece, dialect);
        board.post(rt, &mut seat, Posted::new(piece, done));
        gate.after(number);
    }
    unreachable!()
}

// The summaries of all these pieces that workers had the memory for, on a new board that they share. Refuses only want of memory.
fn summaries<
    'a,
    K: Scanning + Send + Sync,
    T: Task + Send + Sync,
    P: Ledger + Send + Sync,
    S: Ledger + Send + Sync,
    R: Ledger + Send + Sync,
    C: Ledger + Send + Sync,
    W: Threads + Wait + Sync,
    G: Gate + Sync,
>(
    rt: &W,
    alloc: Global,
    bytes: &'a [u8],
    ends: Vec<usize>,
    dialect: &Dialect<'_>,
    workers: usize,
    blanks: Blanks,
    gate: &G,
) -> PolarsResult<BoardState<'a, PieceStates<K>>>
    requires dialect { IsDialect (marks_of dialect.now) (comment_of dialect.now) }
    requires marks { K.marks ≡ marks_of dialect.now }
    requires comment { K.comment ≡ comment_of dialect.now }
    requires text { bytes.now ≡ take (length bytes.now) K.text }
    requires rise { RiseTo (length bytes.now) 0 ends.items }
    requires behind { AllByRecursion (IsBehindLineEnd dialect.now.eol_char bytes.now) ends.items }
    requires task { T.setup ≡ record { bytes = bytes.now; ends = ends.items; limit = None } }
    requires workers { 0 < workers }
    requires handed_out { IsBlankOf blanks.handed_out T.name T.parts workers }
    requires posts { IsBlankOf blanks.posts P.name P.parts workers }
    requires seats { IsBlankOf blanks.seats S.name S.parts workers }
    requires running { IsBlankOf blanks.running R.name R.parts workers }
    requires clean { IsBlankOf blanks.clean C.name C.parts workers }
    ensures { IsOkUnless result error.OutOfMemory }
{
    let state = BoardState::new(bytes, ends, None);
    let (board, seats) = Board::<PieceStates<K>, T, P, S, R, C>::new(
        alloc, state, workers, blanks,
    )?;
    let shared = &board;
    match thread::map_vec(rt, seats, &|seat| { work(rt, shared, seat, dialect, gate) }) {
        Ok(seats) => Ok(board.finish(seats)),
        Err(_) => {
            drop(board);
            Err(PolarsError::OutOfMemory)
        }
    }
}

// What was posted of the piece of this number and range, if it was.
fn posted_summary<K: Scanning>(
    board: &BoardState<'_, PieceStates<K>>,
    number: usize,
    from: usize,
    to: usize,
) -> Option<PieceSummary>
    ensures { IfSome result (λ summary. summary ≡ summary_of K.marks K.comment (slice_range K.text from to)) }
{
    let done = board.result(number)?.done();
    if done.from == from && done.to == to {
        Some(done.summary)
    } else {
        None
    }
}

// The states behind the piece of this number and range: as they were posted, or else as they are found here, between two calls of the
// gate.
fn summary_of_piece<K: Scanning, G: Gate>(
    board: &BoardState<'_, PieceStates<K>>,
    bytes: &[u8],
    number: usize,
    from: usize,
    to: usize,
    dialect: &Dialect<'_>,
    gate: &G,
) -> PieceSummary
    requires dialect { IsDialect (marks_of dialect.now) (comment_of dialect.now) }
    requires marks { K.marks ≡ marks_of dialect.now }
    requires comment { K.comment ≡ comment_of dialect.now }
    requires text { K.text ≡ bytes.now }
    requires begins { from ≤ to }
    requires within { to ≤ length bytes.now }
    requires ended { last_or None (slice_range bytes.now from to) ≡ Some dialect.now.eol_char }
    ensures { result ≡ summary_of (marks_of dialect.now) (comment_of dialect.now) (slice_range bytes.now from to) }
{
    if let Some(posted) = posted_summary(board, number, from, to) {
        return posted;
    }
    gate.before(number);
    let found = summary_by(&bytes[from..to], dialect);
    gate.after(number);
    found
}

// Puts an item at the end. Refuses only want of memory.
pub(crate) fn push<A: Drop>(items: &mut Vec<A>, item: A) -> PolarsResult<()>
    ensures pushed { OnOk result (items.new.items ≡ items.old.items ++ item ∷ []) }
    ensures refused { IsOkUnless result error.OutOfMemory }
{
    match items.push(item) {
        Ok(()) => Ok(()),
        Err(_) => Err(PolarsError::OutOfMemory),
    }
}

// The states in front of the pieces, from the first to the last, each by the summary of the piece before it. Refuses only want of
// memory.
fn states_in_order<K: Scanning, G: Gate>(
    alloc: Global,
    board: &BoardState<'_, PieceStates<K>>,
    bytes: &[u8],
    ends: &[usize],
    dialect: &Dialect<'_>,
    gate: &G,
) -> PolarsResult<Vec<LineState>>
    requires dialect { IsDialect (marks_of dialect.now) (comment_of dialect.now) }
    requires marks { K.marks ≡ marks_of dialect.now }
    requires comment { K.comment ≡ comment_of dialect.now }
    requires text { K.text ≡ bytes.now }
    requires rise { RiseTo (length bytes.now) 0 ends.now }
    requires behind { AllByRecursion (IsPieceEnd dialect.now.eol_char bytes.now) ends.now }
    ensures states { IfOk result (λ states. states.items ≡ states_before (marks_of dialect.now) (comment_of dialect.now) ends.now bytes.now) }
    ensures refused { IsOkUnless result error.OutOfMemory }
{
    let mut states = Vec::new(alloc);
    if ends.is_empty() {
        return Ok(states);
    }
    let mut state = LineState::Start;
    let mut from = 0;
    for number in 0..ends.len() - 1 {
        push(&mut states, state)?;
        let to = ends[number];
        let piece = summary_of_piece(board, bytes, number, from, to, dialect, gate);
        state = piece.behind(state);
        from = to;
    }
    push(&mut states, state)?;
    Ok(states)
}

// The states in front of the pieces, as the caller finds them alone, with a board that has no piece. Refuses only want of memory.
fn states_alone<K: Scanning, G: Gate>(
    alloc: Global,
    bytes: &[u8],
    ends: &[usize],
    dialect: &Dialect<'_>,
    gate: &G,
) -> PolarsResult<Vec<LineState>>
    requires dialect { IsDialect (marks_of dialect.now) (comment_of dialect.now) }
    requires marks { K.marks ≡ marks_of dialect.now }
    requires comment { K.comment ≡ comment_of dialect.now }
    requires text { K.text ≡ bytes.now }
    requires rise { RiseTo (length bytes.now) 0 ends.now }
    requires behind { AllByRecursion (IsPieceEnd dialect.now.eol_char bytes.now) ends.now }
    ensures states { IfOk result (λ states. states.items ≡ states_before (marks_of dialect.now) (comment_of dialect.now) ends.now bytes.now) }
    ensures refused { IsOkUnless result error.OutOfMemory }
{
    let none = BoardState::<PieceStates<K>>::new(&bytes[..0], Vec::new(alloc), None);
    let states = states_in_order(alloc, &none, bytes, ends, dialect, gate);
    drop(none);
    states
}

// The first so many numbers. Refuses only want of memory.
fn first_of(alloc: Global, numbers: &[usize], count: usize) -> PolarsResult<Vec<usize>>
    requires { count ≤ length numbers.now }
    ensures copied { IfOk result (λ copied. copied.items ≡ take count numbers.now) }
    ensures refused { IsOkUnless result error.OutOfMemory }
{
    match numbers[..count].to_vec(alloc) {
        Ok(copied) => Ok(copied),
        Err(_) => Err(PolarsError::OutOfMemory),
    }
}

// The states in front of the pieces, where workers summarise all pieces but the last. Refuses only want of memory.
fn states_by_workers<
    K: Scanning + Send + Sync,
    T: Task + Send + Sync,
    P: Ledger + Send + Sync,
    S: Ledger + Send + Sync,
    R: Ledger + Send + Sync,
    C: Ledger + Send + Sync,
    W: Threads + Wait + Sync,
    G: Gate + Sync,
>(
    rt: &W,
    alloc: Global,
    bytes: &[u8],
    ends: &[usize],
    dialect: &Dialect<'_>,
    workers: usize,
    blanks: Blanks,
    gate: &G,
) -> PolarsResult<Vec<LineState>>
    requires dialect { IsDialect (marks_of dialect.now) (comment_of dialect.now) }
    requires marks { K.marks ≡ marks_of dialect.now }
    requires comment { K.comment ≡ comment_of dialect.now }
    requires text { K.text ≡ bytes.now }
    requires rise { RiseTo (length bytes.now) 0 ends.now }
    requires behind { AllByRecursion (IsPieceEnd dialect.now.eol_char bytes.now) ends.now }
    requires some { 1 < length ends.now }
    requires task { T.setup ≡ front_setup ends.now bytes.now }
    requires workers { 0 < workers }
    requires handed_out { IsBlankOf blanks.handed_out T.name T.parts workers }
    requires posts { IsBlankOf blanks.posts P.name P.parts workers }
    requires seats { IsBlankOf blanks.seats S.name S.parts workers }
    requires running { IsBlankOf blanks.running R.name R.parts workers }
    requires clean { IsBlankOf blanks.clean C.name C.parts workers }
    ensures states { IfOk result (λ states. states.items ≡ states_before (marks_of dialect.now) (comment_of dialect.now) ends.now bytes.now) }
    ensures refused { IsOkUnless result error.OutOfMemory }
{
    let pieces = ends.len() - 1;
    let front = &bytes[..ends[pieces - 1]];
    let front_ends = first_of(alloc, ends, pieces)?;
    let board = summaries::<K, T, P, S, R, C, W, G>(
        rt, alloc, front, front_ends, dialect, workers, blanks, gate,
    )?;
    let states = states_in_order(alloc, &board, bytes, ends, dialect, gate);
    drop(board);
    states
}

/// The state of a scan in front of each piece of a text, where `ends` are the places at which the pieces end: each of them just
/// behind a line end, or at the end of the text. So many workers find what each piece makes of either state in front of it, in
/// whatever order they come to the pieces; one worker is the caller. The gate is called round each piece that is looked at, which
/// are all but the last. Refuses only want of memory.
pub fn line_states<W: Threads + Wait + Sync, G: Gate + Sync>(
    rt: &W,
    alloc: Global,
    bytes: &[u8],
    ends: &[usize],
    separator: u8,
    quote_char: Option<u8>,
    eol_char: u8,
    comment_prefix: Option<&CommentPrefix>,
    workers: usize,
    gate: &G,
) -> PolarsResult<Vec<LineState>>
    requires dialect { IsDialect (marks separator quote_char eol_char) (prefix_of comment_prefix) }
    requires workers { 0 < workers }
    requires rise { RiseTo (length bytes.now) 0 ends.now }
    requires behind { AllByRecursion (IsPieceEnd eol_char bytes.now) ends.now }
    ensures states { IfOk result (λ states. states.items ≡ states_before (marks separator quote_char eol_char) (prefix_of comment_prefix.entry) ends.now bytes.now) }
    ensures refused { IsOkUnless result error.OutOfMemory }
{
    let dialect = Dialect {
        separator,
        quote_char,
        eol_char,
        comment_prefix,
    };
    let workers = workers.min(ends.len().saturating_sub(1));
    if workers < 2 {
        return states_alone::<Brand, G>(alloc, bytes, ends, &dialect, gate);
    }
    states_by_workers::<Brand, Brand, Brand, Brand, Brand, Brand, W, G>(
        rt,
        alloc,
        bytes,
        ends,
        &dialect,
        workers,
        Blanks::new(workers),
        gate,
    )
}
