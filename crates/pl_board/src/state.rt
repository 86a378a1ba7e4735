//! The board as one thread sees it: what was handed out, what was posted, and in which order.
ghost use Rattle.std.specs.Prelude.{◌≡◌, ◌+◌, ◌<◌, ◌≤◌, ◌≢◌, None, Some, true, false, length, OnErr, IfOk, IfSome, IfNone, MatchOption, MatchBool, IsOkUnless, slice_get};
ghost use Rattle.std.specs.Bool.{OnTrue};
ghost use Rattle.pl_frame.specs.declared.error.PolarsError.TheVariants as error;
ghost use Rattle.pl_scan.specs.LineCuts.{RiseTo};
ghost use Rattle.pl_board.specs.Log.{hand_outs, post_of, count_hand_outs, count_posts, is_finished, is_open, is_range};
ghost use Rattle.pl_board.specs.Pieces.{piece_from};
ghost use Rattle.pl_board.specs.States.{fresh, next_piece, after_take, after_post, after_leave, after_turn_away, with_seats, SameSeats, IsAstray, IsSound};

use crate::event::Event;
use crate::front::follow_front;
use crate::piece::{Done, Piece, Posted};
use pl_frame::error::{PolarsError, PolarsResult};
use std::marker::Model;

// Whether the piece has this range.
fn has_range(piece: &Piece, range: (usize, usize)) -> bool
    ensures { result ≡ is_range piece.now.from piece.now.to (Some range) }
{
    range.0 == piece.from() && range.1 == piece.to()
}

// Where the piece of this number begins, by the ends of all pieces.
fn start_of(ends: &[usize], number: usize) -> usize
    requires { number ≤ length ends.now }
    ensures { result ≡ piece_from ends.now number }
{
    if number == 0 {
        return 0;
    }
    ends[number - 1]
}

/// Hands out the pieces of a text and stores the results that are posted of them.
#[derive(Drop)]
pub struct BoardState<'a, D: Done> {
    bytes: &'a [u8],
    ends: Vec<usize>,
    limit: Option<usize>,
    results: Vec<Option<Posted<'a, D>>>,
    log: Vec<Event>,
    posts: usize,
    front: usize,
    front_rows: usize,
    seats: usize,
    running: usize,
    clean: usize,
    stray: Option<(usize, Posted<'a, D>)>,
}

impl<'a, D: Done> Model for BoardState<'a, D> {
    ghost use Rattle.pl_board.specs.States.{Snapshot, snapshot, IsSound};
    ghost use Rattle.pl_board.specs.Log.{marks};
    ghost use Rattle.pl_board.specs.Fields.{IsIndexed, IsFront};
    ghost use Rattle.std.specs.Prelude.{vec_capacity};

    ghost Value = { Snapshot D };

    ghost view = { λ s. snapshot (record { bytes = s.bytes.now; ends = s.ends.items; limit = s.limit }) s.log.items s.results.items s.seats s.running s.clean s.stray };

    ghost invariant = { λ s.
        let view = snapshot (record { bytes = s.bytes.now; ends = s.ends.items; limit = s.limit }) s.log.items s.results.items s.seats s.running s.clean s.stray in
        IsSound D.mark view × IsIndexed view s.posts (vec_capacity s.log) × IsFront (marks s.log.items) s.front s.front_rows };
}

impl<'a, D: Done> BoardState<'a, D> {
    /// A board over these bytes, with nothing handed out, whose pieces end at these places.
    pub fn new(bytes: &'a [u8], ends: Vec<usize>, limit: Option<usize>) -> Self
        requires { RiseTo (length bytes.now) 0 ends.items }
        ensures { result ≡ fresh (record { bytes = bytes.entry.now; ends = ends.items; limit = limit }) }
    {
        let alloc = *ends.allocator();
        BoardState {
            bytes,
            ends,
            limit,
            results: Vec::new(alloc),
            log: Vec::new(alloc),
            posts: 0,
            front: 0,
            front_rows: 0,
            seats: 0,
            running: 0,
            clean: 0,
            stray: None,
        }
    }

    /// How many pieces were handed out.
    pub fn handed_out(&self) -> usize
        ensures count { result ≡ count_hand_outs self.now.log }
        ensures sound { IsSound D.mark self.now }
    {
        self.results.len()
    }

    /// How many results were posted.
    pub fn posts(&self) -> usize
        ensures count { result ≡ count_posts self.now.log }
        ensures sound { IsSound D.mark self.now }
    {
        self.posts
    }

    // Whether no further piece is handed out.
    fn is_finished(&self) -> bool
        ensures { result ≡ is_finished self.now.setup self.now.log }
    {
        if self.results.len() >= self.ends.len() {
            return true;
        }
        if let Some(limit) = self.limit {
            if self.front_rows >= limit {
                return true;
            }
        }
        self.front < self.results.len() && self.results[self.front].is_some()
    }

    // The range of the next piece.
    fn next_range(&self) -> (usize, usize)
        requires { is_finished self.now.setup self.now.log ≡ false }
        ensures from { result.0 ≡ (next_piece self.now.setup self.now.log).from }
        ensures to { result.1 ≡ (next_piece self.now.setup self.now.log).to }
        ensures some { result.0 < result.1 }
        ensures within { result.1 ≤ length self.now.setup.bytes }
    {
        let number = self.results.len();
        (start_of(&self.ends, number), self.ends[number])
    }

    // The next piece.
    fn cut_next(&self) -> Piece<'a>
        requires { is_finished self.now.setup self.now.log ≡ false }
        ensures piece { result ≡ next_piece self.now.setup self.now.log }
        ensures some { result.from < result.to }
        ensures within { result.to ≤ length self.now.setup.bytes }
    {
        let (from, to) = self.next_range();
        Piece::new(self.results.len(), from, to, &self.bytes[from..to])
    }

    /// Hands out the next piece, or `None` where the log is finished.
    pub fn take(&mut self) -> PolarsResult<Option<Piece<'a>>>
        ensures finished { IfOk result (λ r. MatchOption r (is_finished self.old.setup self.old.log ≡ true) (λ _. is_finished self.old.setup self.old.log ≡ false)) }
        ensures piece { IfOk result (λ r. IfSome r (λ piece. piece ≡ next_piece self.old.setup self.old.log)) }
        ensures some { IfOk result (λ r. IfSome r (λ piece. piece.from < piece.to)) }
        ensures within { IfOk result (λ r. IfSome r (λ piece. piece.to ≤ length self.old.setup.bytes)) }
        ensures taken { IfOk result (λ r. IfSome r (λ piece. self.new ≡ after_take self.old)) }
        ensures none { IfOk result (λ r. IfNone r (self.new ≡ self.old)) }
        ensures refused { IsOkUnless result error.OutOfMemory }
        ensures kept { OnErr result (self.new ≡ self.old) }

        // What of this the counts show.
        ensures handed_out { IfOk result (λ r. IfSome r (λ _. count_hand_outs self.new.log ≡ count_hand_outs self.old.log + 1)) }
        ensures posts { count_posts self.new.log ≡ count_posts self.old.log }
        ensures seats { SameSeats self.old self.new }
    {
        if self.is_finished() {
            return Ok(None);
        }
        let piece = self.cut_next();
        let open = self.results.len() - self.posts;
        if self.results.reserve(1).is_err() || self.log.reserve(open + 2).is_err() {
            return Err(PolarsError::OutOfMemory);
        }
        self.results.push_reserved(None);
        self.log.push_reserved(Event::Take {
            from: piece.from(),
            to: piece.to(),
        });
        Ok(Some(piece))
    }

    /// Whether the piece is one that was handed out and not yet posted.
    pub fn awaits(&self, piece: &Piece<'a>) -> bool
        ensures { result ≡ is_open self.now.log piece.now.number piece.now.from piece.now.to }
    {
        let number = piece.number();
        if number >= self.results.len() {
            return false;
        }
        let range = (start_of(&self.ends, number), self.ends[number]);
        if !has_range(piece, range) {
            return false;
        }
        self.results[number].is_none()
    }

    /// Stores the result of a piece that awaits it, and says whether it did.
    pub fn post(&mut self, posted: Posted<'a, D>) -> bool
        ensures answer { result ≡ is_open self.old.log posted.entry.0.number posted.entry.0.from posted.entry.0.to }
        ensures stored { MatchBool result (self.new ≡ after_post D.mark self.old posted.entry) (self.new ≡ self.old) }

        // A finished log stays finished.
        ensures lasting { is_finished self.old.setup self.old.log ≡ true → is_finished self.new.setup self.new.log ≡ true }

        // What of this the counts show.
        ensures posts { OnTrue result (count_posts self.new.log ≡ count_posts self.old.log + 1) }
        ensures handed_out { count_hand_outs self.new.log ≡ count_hand_outs self.old.log }
        ensures seats { SameSeats self.old self.new }
    {
        let piece = posted.piece();
        if !self.awaits(piece) {
            drop(posted);
            return false;
        }
        let number = piece.number();
        let mark = posted.mark();
        self.log.push_reserved(Event::Post { number, mark });
        self.results[number] = Some(posted);
        self.posts += 1;
        let (front, rows) = follow_front(self.results.as_slice(), self.front, self.front_rows);
        self.front = front;
        self.front_rows = rows;
        true
    }

    /// The result of the piece of this number, if it was posted.
    pub fn result(&self, number: usize) -> Option<&Posted<'a, D>>
        ensures posted { MatchOption result (post_of number self.now.log ≡ None) (λ posted. slice_get self.now.results number ≡ Some (Some posted.now)) }
        ensures mark { IfSome result (λ posted. post_of number self.now.log ≡ Some (D.mark posted.now.1)) }
        ensures number { IfSome result (λ posted. posted.now.0.number ≡ number) }
        ensures range { IfSome result (λ posted. slice_get (hand_outs self.now.log) number ≡ Some (posted.now.0.from, posted.now.0.to)) }
    {
        match self.results.get(number) {
            Some(posted) => posted.as_ref(),
            None => None,
        }
    }

    /// The results of the pieces that were handed out, in order, as `result` lends them: none where none was posted.
    pub fn into_results(self) -> Vec<Option<Posted<'a, D>>>
        ensures { result.items ≡ self.entry.results }
    {
        let BoardState {
            bytes: _,
            ends,
            limit: _,
            results,
            log,
            posts: _,
            front: _,
            front_rows: _,
            seats: _,
            running: _,
            clean: _,
            stray,
        } = self;
        drop(ends);
        drop(log);
        drop(stray);
        results
    }

    /// How many seats were made.
    pub fn seats(&self) -> usize
        ensures { result ≡ self.now.seats }
    {
        self.seats
    }

    /// How many seats still run.
    pub fn running(&self) -> usize
        ensures count { result ≡ self.now.running }
        ensures within { result ≤ self.now.seats }
        ensures finished { result < self.now.seats → is_finished self.now.setup self.now.log ≡ true }
    {
        self.running
    }

    /// How many seats are still clean.
    pub fn clean(&self) -> usize
        ensures count { result ≡ self.now.clean }
        ensures within { result ≤ self.now.seats }
    {
        self.clean
    }

    /// The first result that `turn_away` was given, with the length of the log at that time.
    pub fn stray(&self) -> Option<(usize, &Posted<'a, D>)>
        ensures stray { MatchOption result (self.now.stray ≡ None) (λ stray. self.now.stray ≡ Some (stray.0, stray.1.now)) }
        ensures astray { MatchOption result (self.now.clean ≡ self.now.seats) (λ stray. (self.now.clean < self.now.seats) × IsAstray self.now.log (stray.0, stray.1.now)) }
    {
        match &self.stray {
            Some((length, posted)) => Some((*length, posted)),
            None => None,
        }
    }

    /// Makes the seats of a new board: each runs and is clean.
    pub fn make_seats(&mut self, seats: usize)
        requires { self.old ≡ fresh self.old.setup }
        ensures seats { self.new ≡ with_seats self.old seats }
        ensures handed_out { count_hand_outs self.new.log ≡ 0 }
        ensures posts { count_posts self.new.log ≡ 0 }
    {
        self.seats = seats;
        self.running = seats;
        self.clean = seats;
    }

    /// Counts a seat that runs no more, which only a finished log allows: `take` answers `None` exactly there.
    pub fn leave(&mut self)
        requires finished { is_finished self.old.setup self.old.log ≡ true }
        requires running { 0 < self.old.running }
        ensures { self.new ≡ after_leave self.old }
    {
        self.running -= 1;
    }

    /// Turns away a result that no piece awaits, as `awaits` tells: the seat that brought it is counted as clean no more, and the first
    /// such result is kept, with the length of the log at that time.
    pub fn turn_away(&mut self, posted: Posted<'a, D>)
        requires astray { is_open self.old.log posted.0.number posted.0.from posted.0.to ≡ false }
        requires clean { 0 < self.old.clean }
        ensures { self.new ≡ after_turn_away self.old posted.entry }
    {
        self.clean -= 1;
        if self.stray.is_none() {
            drop(std::mem::replace(&mut self.stray, Some((self.log.len(), posted))));
        } else {
            drop(posted);
        }
    }
}
