//! Where the first range of a text ends.
ghost use Rattle.std.specs.Prelude.{◌<◌, ◌≤◌, length};
ghost use Rattle.pl_frame.specs.Dialect.{IsDialect};
ghost use Rattle.pl_scan.specs.Dialect.{marks_of, comment_of};

use memchr::memchr;
use pl_intake::cuts::state_behind;
use pl_scan::dialect::Dialect;
use pl_scan::summary::LineState;

// The length of the first piece: up to and with the first line end that leaves no fewer bytes than this, or all.
fn piece_len(left: &[u8], size: usize, eol_char: u8) -> usize
    requires size { 0 < size }
    ensures fits { result ≤ length left.now }
    ensures some { 0 < length left.now → 0 < result }
{
    if left.len() < size {
        return left.len();
    }
    match memchr(eol_char, &left[size - 1..]) {
        Some(at) => size + at,
        None => left.len(),
    }
}

/// The length of the first range of a text: piece by piece, up to the first one behind which the state is Start, or all.
pub(crate) fn range_len(left: &[u8], size: usize, dialect: &Dialect<'_>) -> usize
    requires dialect { IsDialect (marks_of dialect.now) (comment_of dialect.now) }
    requires size { 0 < size }
    ensures some { 0 < length left.now → 0 < result }
    ensures fits { result ≤ length left.now }
{
    let mut state = LineState::Start;
    let mut len = 0;
    while len < left.len() {
        let from = len;
        len += piece_len(&left[from..], size, dialect.eol_char);
        match state_behind(&left[from..len], state, dialect) {
            Some(LineState::Open) => state = LineState::Open,
            Some(LineState::Start) | None => return len,
        }
    }
    len
}
