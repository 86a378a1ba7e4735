//! Whether a text ends within a quoted field.
ghost use Rattle.std.specs.Prelude.{◌≡◌, not};
ghost use Rattle.pl_frame.specs.Dialect.{marks, AreDistinct};
ghost use Rattle.pl_scan.specs.Comment.{prefix_of};
ghost use Rattle.pl_scan.specs.Fields.{begins_quoted, fields};
ghost use Rattle.pl_scan.specs.Closing.{is_open, have_open_end, ends_open};

use crate::comment::CommentPrefix;
use crate::fields::SplitFields;
use crate::items::{Item, Items};

// Whether a field is open, given whether it begins with the quote.
fn is_open(field: &[u8], quoted: bool, quote_char: Option<u8>) -> bool
    requires { quoted ≡ begins_quoted quote_char field.now }
    ensures { result ≡ is_open (marks 0 quote_char 0) field.now }
{
    match quote_char {
        Some(quote) => quoted && field.iter().filter(|x| **x == quote).count() % 2 == 1,
        None => false,
    }
}

/// Whether the last field of the record at the front is quoted and has an odd number of quotes.
pub fn is_open_record(slice: &[u8], separator: u8, quote_char: Option<u8>, eol_char: u8) -> bool
    requires { AreDistinct (marks separator quote_char eol_char) }
    ensures { result ≡ have_open_end (marks separator quote_char eol_char) (fields (marks separator quote_char eol_char) slice.now) }
{
    let mut open = false;
    for (field, quoted) in SplitFields::new(slice, separator, quote_char, eol_char) {
        open = is_open(field, quoted, quote_char);
    }
    open
}

/// Whether the piece ends outside quotes: false exactly where its last item is a record whose last field is quoted and has an
/// odd number of quotes.
pub fn closes(
    piece: &[u8],
    separator: u8,
    quote_char: Option<u8>,
    eol_char: u8,
    comment_prefix: Option<&CommentPrefix>,
) -> bool
    requires { AreDistinct (marks separator quote_char eol_char) }
    ensures { result ≡ not (ends_open (marks separator quote_char eol_char) (prefix_of comment_prefix.entry) piece.now) }
{
    let mut last = None;
    for item in Items::new(piece, separator, quote_char, eol_char, comment_prefix) {
        last = Some(item);
    }
    match last {
        Some(item) => match item {
            Item::Record(record) => !is_open_record(record, separator, quote_char, eol_char),
            Item::Comment(_) => true,
        },
        None => true,
    }
}
