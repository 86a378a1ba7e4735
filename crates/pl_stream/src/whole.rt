//! The records at the front of a text whose line ends came.
ghost use Rattle.std.specs.Prelude.{◌≡◌, ◌+◌, ◌≤◌, ◌<◌, ◌^◌, IfSome};
ghost use Rattle.pl_frame.specs.Dialect.{IsDialect};
ghost use Rattle.pl_options.specs.Text.{marks_of, comment_of};
ghost use Rattle.pl_rows.specs.Steps.{is_below};
ghost use Rattle.pl_stream.specs.Whole.{count_of, IsWholeFront, IsWholeEnd};

use crate::head::whole_item;
use pl_options::parse_options::CsvParseOptions;
use pl_scan::comment::is_comment_line;

/// Items that stand at the front of a text, each with its line end: so many bytes, with so many records.
#[derive(Clone, Copy, Debug, PartialEq, Eq)]
pub(crate) struct Whole {
    pub(crate) end: usize,
    pub(crate) rows: usize,
}

/// Whether there are fewer records than a limit, where there is one.
pub(crate) fn is_below(limit: Option<usize>, rows: usize) -> bool
    ensures { result ≡ is_below limit rows }
{
    match limit {
        Some(limit) => rows < limit,
        None => true,
    }
}

// With one item more.
fn with_item(whole: Whole, len: usize, is_comment: bool) -> Whole
    requires end { whole.end + len < 2 ^ 64 }
    requires rows { whole.rows + 1 < 2 ^ 64 }
    ensures end { result.end ≡ whole.end + len }
    ensures rows { result.rows ≡ whole.rows + count_of is_comment }
{
    if is_comment {
        Whole {
            end: whole.end + len,
            rows: whole.rows,
        }
    } else {
        Whole {
            end: whole.end + len,
            rows: whole.rows + 1,
        }
    }
}

/// All items at the front of a text whose line ends came, or as many as have so many records.
pub(crate) fn whole_records(bytes: &[u8], options: &CsvParseOptions, limit: Option<usize>) -> Whole
    requires { IsDialect (marks_of options.now) (comment_of options.now) }
    ensures front { IsWholeFront options.now bytes.now result }
    ensures end { IsWholeEnd options.now bytes.now limit result }
    ensures few { IfSome limit (λ most. result.rows ≤ most) }
{
    let mut whole = Whole { end: 0, rows: 0 };
    while is_below(limit, whole.rows) {
        let rest = &bytes[whole.end..];
        let Some(len) = whole_item(rest, options) else {
            return whole;
        };
        let is_comment = is_comment_line(rest, options.comment_prefix.as_ref());
        whole = with_item(whole, len, is_comment);
    }
    whole
}
