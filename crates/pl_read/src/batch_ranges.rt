//! The ranges of what is left, found from the front: no byte behind them is looked at.
ghost use Rattle.std.specs.Prelude.{◌≡◌, ◌<◌, ◌≤◌, ◌⊎◌, length, take, Some};
ghost use Rattle.std.specs.List.{last_or};
ghost use Rattle.pl_frame.specs.Dialect.{IsDialect};
ghost use Rattle.pl_options.specs.Text.{marks_of, comment_of};
ghost use Rattle.pl_scan.specs.LineStates.{after};
ghost use Rattle.pl_read.specs.Batches.{EndsAtItem, piece_length, range_length};

use memchr::memchr;
use pl_options::parse_options::CsvParseOptions;
use pl_options::read_options::CsvReadOptions;
use pl_scan::summary::{LineState, summary};

// The length of the first piece: up to and with the first line end that leaves no fewer bytes than the size of a piece, or all.
fn piece_len(left: &[u8], options: &CsvReadOptions) -> usize
    requires pieces { 0 < options.now.chunk_size }
    requires bytes { 0 < length left.now }
    ensures value { result ≡ piece_length options.now left.now }
    ensures some { 0 < result }
    ensures fits { result ≤ length left.now }
    ensures ended { (result ≡ length left.now) ⊎ (last_or None (take result left.now) ≡ Some options.now.parse_options.eol_char) }
{
    let size = options.chunk_size;
    if left.len() < size {
        return left.len();
    }
    match memchr(options.parse_options.eol_char, &left[size - 1..]) {
        Some(at) => size + at,
        None => left.len(),
    }
}

// The state behind a piece that ends with a line end, by the state in front of it.
fn state_behind(piece: &[u8], state: LineState, parse_options: &CsvParseOptions) -> LineState
    requires dialect { IsDialect (marks_of parse_options.now) (comment_of parse_options.now) }
    requires ended { last_or None piece.now ≡ Some parse_options.now.eol_char }
    ensures { result ≡ after (marks_of parse_options.now) (comment_of parse_options.now) state piece.now }
{
    let dialect = parse_options.dialect();
    let states = summary(
        piece,
        dialect.separator,
        dialect.quote_char,
        dialect.eol_char,
        dialect.comment_prefix,
    );
    states.behind(state)
}

/// The length of the first range of what is left: piece by piece, up to the first one behind which the state is Start, or all.
pub(crate) fn range_len(left: &[u8], options: &CsvReadOptions) -> usize
    requires dialect { IsDialect (marks_of options.now.parse_options) (comment_of options.now.parse_options) }
    requires pieces { 0 < options.now.chunk_size }
    ensures value { result ≡ range_length options.now left.now }
    ensures some { 0 < length left.now → 0 < result }
    ensures fits { result ≤ length left.now }
    ensures ends { (result ≡ length left.now) ⊎ EndsAtItem options.now (take result left.now) }
{
    let mut state = LineState::Start;
    let mut len = 0;
    while len < left.len() {
        let from = len;
        len += piece_len(&left[from..], options);
        if len == left.len() {
            return len;
        }
        state = state_behind(&left[from..len], state, &options.parse_options);
        match state {
            LineState::Start => return len,
            LineState::Open => {}
        }
    }
    len
}
