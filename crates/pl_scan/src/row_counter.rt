//! A count of the rows of a text that comes block by block.
ghost use Rattle.std.specs.Prelude.{◌≡◌, ◌≢◌, ℕ, ◌+◌, ◌-◌, ◌^◌, ◌<◌, ◌≤◌, ◌==◌, true, false, if◌then◌else◌, List, [], ◌++◌, length, slice_index, take, Option, None, count_by};
ghost use Rattle.pl_frame.specs.Dialect.{marks, IsDialect};
ghost use Rattle.pl_scan.specs.Fields.{is_quote};
ghost use Rattle.pl_scan.specs.Items.{items};
ghost use Rattle.pl_scan.specs.RowCount.{cut_line_ends, is_row};
ghost use Rattle.pl_scan.specs.RowStates.{next_state, is_unquoted, is_run_state, state_behind, rows_behind, Count, rows_with};

use crate::fields::is_the_quote;
use memchr::memchr;
use std::marker::Model;

// How many bytes are searched for a quote before they are counted.
const PIECE_SIZE: usize = 16384;

// How many bytes are counted in one byte.
const LANE_SIZE: usize = 192;

// How far the bytes so far have brought a count.
#[derive(Clone, Copy, Debug, PartialEq, Eq)]
enum RowState {
    // Behind line ends at the front of the text, or before all.
    Front,
    // Behind a line end.
    Start,
    // Behind a separator.
    Field,
    // In a field that is not quoted.
    Plain,
    // In a field that begins with the quote, behind an even number of quotes.
    Even,
    // In a field that begins with the quote, behind an odd number of quotes.
    Odd,
}

// The state behind one more byte, and how many rows end at it.
#[inline]
fn step(
    state: RowState,
    byte: u8,
    separator: u8,
    quote_char: Option<u8>,
    eol_char: u8,
) -> (RowState, usize)
    ensures value { result ≡ next_state (marks separator quote_char eol_char) state byte }
    ensures few { result.1 ≤ 1 }
{
    match state {
        RowState::Odd if is_the_quote(quote_char, byte) => (RowState::Even, 0),
        RowState::Odd => (RowState::Odd, 0),
        RowState::Front if byte == eol_char => (RowState::Front, 0),
        _ if byte == separator => (RowState::Field, 0),
        _ if byte == eol_char => (RowState::Start, 1),
        RowState::Plain => (RowState::Plain, 0),
        _ if is_the_quote(quote_char, byte) => (RowState::Odd, 0),
        RowState::Even => (RowState::Even, 0),
        _ => (RowState::Plain, 0),
    }
}

// How often a byte stands in a few bytes.
#[inline]
fn count_in_lane(lane: &[u8], byte: u8) -> u8
    requires { length lane.now < 256 }
    ensures { result ≡ count_by (λ x. x == byte) lane.now }
{
    let mut number = 0;
    for &x in lane {
        if x == byte {
            number += 1;
        }
    }
    number
}

// How often a byte stands in a slice.
fn count_byte(bytes: &[u8], byte: u8) -> usize
    ensures { result ≡ count_by (λ x. x == byte) bytes.now }
{
    let mut number = 0;
    let mut rest = bytes;
    while !rest.is_empty() {
        let (lane, others) = rest.split_at(rest.len().min(LANE_SIZE));
        number += count_in_lane(lane, byte) as usize;
        rest = others;
    }
    number
}

// How many bytes come before the first quote, if there is one.
#[inline]
fn len_before_quote(bytes: &[u8], quote_char: Option<u8>) -> usize
    ensures fits { result ≤ length bytes.now }
    ensures none { (k : ℕ) → k < result → is_quote quote_char (slice_index bytes.now k) ≡ false }
{
    match quote_char {
        Some(quote) => match memchr(quote, bytes) {
            Some(at) => at,
            None => bytes.len(),
        },
        None => bytes.len(),
    }
}

// Whether a state is in no quoted field, and behind the front of the text.
#[inline]
fn is_unquoted(state: RowState) -> bool
    ensures { result ≡ is_unquoted state }
{
    matches!(state, RowState::Start | RowState::Field | RowState::Plain)
}

// The state behind a byte that is no quote and stands in no quoted field.
#[inline]
fn state_behind(byte: u8, separator: u8, eol_char: u8) -> RowState
    ensures { result ≡ state_behind separator eol_char byte }
{
    if byte == separator {
        RowState::Field
    } else if byte == eol_char {
        RowState::Start
    } else {
        RowState::Plain
    }
}

// Whether bytes without quotes can be counted at once from a state on.
#[inline]
fn is_run_state(state: RowState) -> bool
    ensures { result ≡ is_run_state state }
{
    !matches!(state, RowState::Front | RowState::Even)
}

// How many bytes can be counted at once.
#[inline]
fn run_len(left: &[u8], state: RowState, quote_char: Option<u8>) -> usize
    ensures fits { result ≤ length left.now }
    ensures none { (k : ℕ) → k < result → is_quote quote_char (slice_index left.now k) ≡ false }
    ensures state { 0 < result → is_run_state state ≡ true }
{
    if is_run_state(state) {
        len_before_quote(&left[..left.len().min(PIECE_SIZE)], quote_char)
    } else {
        0
    }
}

// The state behind bytes without quotes, and how many rows end in them.
#[inline]
fn count_run(run: &[u8], state: RowState, separator: u8, eol_char: u8) -> (RowState, usize)
    requires { (is_run_state state ≡ true) × (separator ≢ eol_char) × (0 < length run.now) }
    ensures rows { (quote : Option ℕ) → ((k : ℕ) → k < length run.now → is_quote quote (slice_index run.now k) ≡ false)
        → (rest : List ℕ) → result.1 + rows_behind (marks separator quote eol_char) result.0 rest
        ≡ rows_behind (marks separator quote eol_char) state (run.now ++ rest) }
    ensures few { result.1 ≤ length run.now }
{
    if is_unquoted(state) {
        let behind = state_behind(run[run.len() - 1], separator, eol_char);
        (behind, count_byte(run, eol_char))
    } else {
        (state, 0)
    }
}

// Some bytes at the front: the state behind them, how many rows end in them, and how many bytes they are.
#[inline]
fn count_front(
    left: &[u8],
    state: RowState,
    separator: u8,
    quote_char: Option<u8>,
    eol_char: u8,
) -> (RowState, usize, usize)
    requires { (separator ≢ eol_char) × (0 < length left.now) }
    ensures some { 0 < result.2 }
    ensures fits { result.2 ≤ length left.now }
    ensures rows { (rest : List ℕ) → result.1 + rows_behind (marks separator quote_char eol_char) result.0 rest
        ≡ rows_behind (marks separator quote_char eol_char) state (take result.2 left.now ++ rest) }
    ensures few { result.1 ≤ result.2 }
{
    let len = run_len(left, state, quote_char);
    if len > 0 {
        let (behind, rows) = count_run(&left[..len], state, separator, eol_char);
        (behind, rows, len)
    } else {
        let (behind, rows) = step(state, left[0], separator, quote_char, eol_char);
        (behind, rows, 1)
    }
}

// The state behind a block, and how many rows end in it.
fn count_block(
    block: &[u8],
    state: RowState,
    separator: u8,
    quote_char: Option<u8>,
    eol_char: u8,
) -> (RowState, usize)
    requires { separator ≢ eol_char }
    ensures rows { (rest : List ℕ) → result.1 + rows_behind (marks separator quote_char eol_char) result.0 rest
        ≡ rows_behind (marks separator quote_char eol_char) state (block.now ++ rest) }
    ensures few { result.1 ≤ length block.now }
{
    let mut behind = state;
    let mut rows = 0;
    let mut left = block;
    while !left.is_empty() {
        let (next, number, len) = count_front(left, behind, separator, quote_char, eol_char);
        behind = next;
        rows += number;
        let (_, others) = left.split_at(len);
        left = others;
    }
    (behind, rows)
}

/// A count of the rows of a text that comes block by block, under a dialect without comments. It takes no memory.
///
/// Contracts see by `rows_with` how many rows what came has together with what follows, whatever that is.
#[derive(Drop)]
pub struct RowCounter {
    separator: u8,
    quote_char: Option<u8>,
    eol_char: u8,
    rows: usize,
    state: RowState,
}

impl Model for RowCounter {
    ghost Value = { Count };

    ghost view = { λ it. record { marks = marks it.separator it.quote_char it.eol_char; rows = it.rows; state = it.state } };

    ghost invariant = { λ it. it.separator ≢ it.eol_char };
}

impl RowCounter {
    /// Before all bytes.
    pub fn new(separator: u8, quote_char: Option<u8>, eol_char: u8) -> Self
        requires { IsDialect (marks separator quote_char eol_char) None }
        ensures rows { (text : List ℕ) → rows_with result text
            ≡ count_by (is_row None) (items (marks separator quote_char eol_char) None (cut_line_ends eol_char text)) }
        ensures none { rows_with result [] ≡ 0 }
    {
        RowCounter {
            separator,
            quote_char,
            eol_char,
            rows: 0,
            state: RowState::Front,
        }
    }

    /// Adds the bytes that come next.
    pub fn add(&mut self, block: &[u8])
        requires { rows_with self.old [] + length block.now < 2 ^ 64 }
        ensures rows { (rest : List ℕ) → rows_with self.new rest ≡ rows_with self.old (block.now ++ rest) }
        ensures few { rows_with self.new [] ≤ rows_with self.old [] + length block.now }
    {
        let (state, number) = count_block(
            block,
            self.state,
            self.separator,
            self.quote_char,
            self.eol_char,
        );
        self.state = state;
        self.rows += number;
    }

    /// The number of rows of what came, less one for a header, never below zero.
    pub fn rows(&self, has_header: bool) -> usize
        requires { rows_with self.now [] < 2 ^ 64 }
        ensures { result ≡ rows_with self.now [] - (if has_header then 1 else 0) }
    {
        let last = match self.state {
            RowState::Front | RowState::Start => 0,
            RowState::Field | RowState::Plain | RowState::Even | RowState::Odd => 1,
        };
        let rows = self.rows + last;
        if has_header {
            rows.saturating_sub(1)
        } else {
            rows
        }
    }
}
