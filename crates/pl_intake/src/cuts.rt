//! Where a text may be cut: where rows seem to begin, and the state behind a piece.
ghost use Rattle.std.specs.Prelude.{◌<◌, ◌≤◌, IfSome, length};
ghost use Rattle.pl_frame.specs.Dialect.{IsDialect};
ghost use Rattle.pl_scan.specs.Dialect.{marks_of, comment_of};

use memchr::memchr;
use pl_scan::dialect::Dialect;
use pl_scan::summary::{LineState, ends_line, summary};

/// How far a line end is looked for at most.
pub const LOOK: usize = 1 << 20;

// Whether rows begin at a place is told by so many lines behind it.
const LINES: usize = 8;

// Fewer lines tell it where they have so many bytes.
const BYTES: usize = 1 << 12;

// Where a byte of a line stands.
#[derive(Clone, Copy, PartialEq, Eq)]
enum Place {
    // Where a field begins.
    Start,
    // Within a field without quotes.
    Bare,
    // Between quotes.
    Quoted,
    // Behind a quote that stands between quotes, or that ends them.
    Closed,
}

// The length of the line at the front of a text, its line end included, where it is found among the first of its bytes, is well quoted and
// has as many fields as the schema has columns.
fn row_length(text: &[u8], dialect: &Dialect<'_>, width: usize) -> Option<usize> {
    let mut place = Place::Start;
    let mut fields = 1;
    for at in 0..text.len().min(LOOK) {
        let byte = text[at];
        if dialect.quote_char == Some(byte) {
            place = match place {
                Place::Start | Place::Closed => Place::Quoted,
                Place::Quoted => Place::Closed,
                Place::Bare => return None,
            };
        } else if place == Place::Quoted {
            continue;
        } else if byte == dialect.eol_char {
            return if fields == width { Some(at + 1) } else { None };
        } else if byte == dialect.separator {
            if fields >= width {
                return None;
            }
            fields += 1;
            place = Place::Start;
        } else if place == Place::Closed && byte != b'\r' {
            return None;
        } else {
            place = Place::Bare;
        }
    }
    None
}

// Whether rows seem to begin at the front of a text: the next lines, one at least, have as many fields as the schema has columns.
fn begins_row(text: &[u8], dialect: &Dialect<'_>, width: usize) -> bool {
    let mut rest = text;
    for _ in 0..LINES {
        match row_length(rest, dialect, width) {
            Some(size) if size <= rest.len() => rest = &rest[size..],
            _ => return false,
        }
        if rest.is_empty() || text.len() - rest.len() >= BYTES {
            return true;
        }
    }
    true
}

/// The first place from one on where a row seems to begin: behind a line end that is among so many bytes.
pub fn find_row(
    records: &[u8],
    from: usize,
    look: usize,
    dialect: &Dialect<'_>,
    width: usize,
) -> Option<usize>
    requires { from < length records.now }
    ensures after { IfSome result (λ place. from < place) }
    ensures within { IfSome result (λ place. place ≤ length records.now) }
{
    let to = from + look.min(records.len() - from);
    let mut at = from;
    while at < to {
        let place = memchr(dialect.eol_char, &records[at..to])?;
        at = at + place + 1;
        if dialect.quote_char.is_none() || begins_row(&records[at..], dialect, width) {
            return Some(at);
        }
    }
    None
}

/// The state behind a piece, by the state in front of it; none where the piece does not end with a line end.
pub fn state_behind(piece: &[u8], state: LineState, dialect: &Dialect<'_>) -> Option<LineState>
    requires { IsDialect (marks_of dialect.now) (comment_of dialect.now) }
{
    if !ends_line(piece, dialect.eol_char) {
        return None;
    }
    let states = summary(
        piece,
        dialect.separator,
        dialect.quote_char,
        dialect.eol_char,
        dialect.comment_prefix,
    );
    Some(states.behind(state))
}
