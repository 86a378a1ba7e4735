//! The way to the records of a stream, gone on with as bytes come.
ghost use Rattle.std.specs.Prelude.{◌≡◌, ◌≤◌, ◌<◌, ◌+◌, ◌-◌, ◌==◌, not, false, ◌||◌, drop, length, IfSome, IfNone};
ghost use Rattle.std.specs.List.{prefix_len};
ghost use Rattle.pl_frame.specs.Dialect.{IsDialect};
ghost use Rattle.pl_options.specs.Text.{marks_of, comment_of};
ghost use Rattle.pl_read.specs.Options.{keeps_ends};
ghost use Rattle.pl_scan.specs.Items.{item, text_of};
ghost use Rattle.pl_scan.specs.Start.{cut_ends};
ghost use Rattle.pl_stream.specs.Head.{IsReached, IsNearer, HasNoStep, rank};
ghost use Rattle.pl_stream.specs.declared.place.Place.TheVariants as spot;

use crate::place::Place;
use memchr::memchr;
use pl_options::parse_options::CsvParseOptions;
use pl_options::read_options::CsvReadOptions;
use pl_read::preparing::keeps_ends;
use pl_scan::comment::is_comment_line;
use pl_scan::items::record_len;
use pl_scan::start::{skip_bom, without_ends};

/// Where bytes are read on, and from which of them on.
#[derive(Clone, Copy, Debug, PartialEq, Eq)]
pub(crate) struct Reached {
    pub(crate) place: Place,
    pub(crate) at: usize,
}

/// The number of bytes of the item at the front, without its line end.
pub(crate) fn item_len(bytes: &[u8], options: &CsvParseOptions) -> usize
    ensures fits { result ≤ length bytes.now }
    ensures len { result ≡ length (text_of (item (marks_of options.now) (comment_of options.now) bytes.now)) }
{
    if is_comment_line(bytes, options.comment_prefix.as_ref()) {
        return match memchr(options.eol_char, bytes) {
            Some(at) => at,
            None => bytes.len(),
        };
    }
    record_len(
        bytes,
        options.separator,
        options.quote_char,
        options.eol_char,
    )
}

/// The number of bytes of the item at the front and of its line end, where that came.
pub(crate) fn whole_item(bytes: &[u8], options: &CsvParseOptions) -> Option<usize>
    ensures some { IfSome result (λ len. len ≡ length (text_of (item (marks_of options.now) (comment_of options.now) bytes.now)) + 1) }
    ensures within { IfSome result (λ len. len ≤ length bytes.now) }
    ensures none { IfNone result (length (text_of (item (marks_of options.now) (comment_of options.now) bytes.now)) ≡ length bytes.now) }
{
    let len = item_len(bytes, options);
    if len < bytes.len() {
        Some(len + 1)
    } else {
        None
    }
}

// How many line ends and carriage returns stand at the front.
fn count_ends(bytes: &[u8], eol_char: u8) -> usize
    ensures count { result ≡ length bytes.now - length (cut_ends eol_char bytes.now) }
    ensures within { result ≤ length bytes.now }
{
    bytes.len() - without_ends(bytes, eol_char).len()
}

// The number of bytes of the line at the front, without its line end.
fn line_len(bytes: &[u8], eol_char: u8) -> usize
    ensures len { prefix_len (λ x. not (x == eol_char)) bytes.now ≡ result }
    ensures within { result ≤ length bytes.now }
{
    match memchr(eol_char, bytes) {
        Some(at) => at,
        None => bytes.len(),
    }
}

// How many carriage returns at the front are skipped whether the line is or not: those of a line whose end did not come, where leading ones are
// not kept.
fn count_returns(bytes: &[u8], options: &CsvReadOptions) -> usize
    ensures count { 0 < result → result ≡ length bytes.now - length (cut_ends 13 bytes.now) }
    ensures within { result ≤ length bytes.now }
    ensures dropped { 0 < result → keeps_ends options.now ≡ false }
    ensures other { 0 < result → (13 == options.now.parse_options.eol_char) ≡ false }
    ensures none { result ≡ 0 → keeps_ends options.now ≡ false → (13 == options.now.parse_options.eol_char) ≡ false → prefix_len (λ x. x == 13 || x == 13) bytes.now ≡ 0 }
{
    if keeps_ends(options) || options.parse_options.eol_char == b'\r' {
        return 0;
    }
    count_ends(bytes, b'\r')
}

// One step within a line that is skipped.
#[tactic(auto, using(crate::proofs::HeadLaws::reach_line, crate::proofs::HeadLaws::reach_returns))]
fn pass_line(bytes: &[u8], options: &CsvReadOptions, left: usize) -> Option<Reached>
    requires { 0 < left }
    ensures reached { IfSome result (IsReached options.now (spot.Lines left) bytes.now) }
    ensures nearer { IfSome result (IsNearer (spot.Lines left)) }
    ensures past { IfSome result (λ next. rank next.place < 6) }
    ensures none { IfNone result (HasNoStep options.now (spot.Lines left) bytes.now) }
{
    let len = line_len(bytes, options.parse_options.eol_char);
    if len + 1 < bytes.len() {
        return Some(Reached {
            place: Place::Lines(left - 1),
            at: len + 1,
        });
    }
    let at = count_returns(bytes, options);
    if at == 0 {
        return None;
    }
    Some(Reached {
        place: Place::Lines(left),
        at,
    })
}

// One step at the first byte.
#[tactic(auto, using(crate::proofs::HeadLaws::reach_lines, crate::proofs::HeadLaws::reach_mark))]
fn pass_start(bytes: &[u8], options: &CsvReadOptions) -> Option<Reached>
    ensures reached { IfSome result (IsReached options.now spot.Start bytes.now) }
    ensures nearer { IfSome result (IsNearer spot.Start) }
    ensures past { IfSome result (λ next. rank next.place < 6) }
    ensures none { IfNone result (HasNoStep options.now spot.Start bytes.now) }
{
    if bytes.len() < 4 {
        return None;
    }
    if options.skip_lines > 0 {
        return Some(Reached {
            place: Place::Lines(options.skip_lines),
            at: 0,
        });
    }
    Some(Reached {
        place: Place::Ends,
        at: bytes.len() - skip_bom(bytes).len(),
    })
}

// One step at leading line ends.
#[tactic(auto, using(crate::proofs::HeadLaws::reach_ends, crate::proofs::HeadLaws::reach_all, crate::proofs::HeadLaws::reach_kept))]
fn pass_ends(bytes: &[u8], options: &CsvReadOptions) -> Option<Reached>
    ensures reached { IfSome result (IsReached options.now spot.Ends bytes.now) }
    ensures nearer { IfSome result (IsNearer spot.Ends) }
    ensures past { IfSome result (λ next. rank next.place < 6) }
    ensures none { IfNone result (HasNoStep options.now spot.Ends bytes.now) }
{
    let rows = Place::Rows(options.skip_rows);
    if keeps_ends(options) {
        return Some(Reached { place: rows, at: 0 });
    }
    let at = count_ends(bytes, options.parse_options.eol_char);
    if at < bytes.len() {
        return Some(Reached { place: rows, at });
    }
    if at == 0 {
        return None;
    }
    Some(Reached {
        place: Place::Ends,
        at,
    })
}

// One step at the comments in front of the header, or at the header.
#[tactic(auto, using(crate::proofs::HeadLaws::reach_comment, crate::proofs::HeadLaws::reach_header))]
fn pass_header(bytes: &[u8], options: &CsvReadOptions) -> Option<Reached>
    requires { IsDialect (marks_of options.now.parse_options) (comment_of options.now.parse_options) }
    ensures reached { IfSome result (IsReached options.now spot.Header bytes.now) }
    ensures nearer { IfSome result (IsNearer spot.Header) }
    ensures past { IfSome result (λ next. rank next.place < 6) }
    ensures none { IfNone result (HasNoStep options.now spot.Header bytes.now) }
{
    let parse_options = &options.parse_options;
    let len = whole_item(bytes, parse_options)?;
    if is_comment_line(bytes, parse_options.comment_prefix.as_ref()) {
        return Some(Reached {
            place: Place::Header,
            at: len,
        });
    }
    Some(Reached {
        place: Place::Behind(options.skip_rows_after_header),
        at: if options.has_header { len } else { 0 },
    })
}

// One step from a place, where the bytes tell it.
#[tactic(auto, using(crate::proofs::HeadLaws::reach_turns))]
fn step(bytes: &[u8], options: &CsvReadOptions, place: Place) -> Option<Reached>
    requires { IsDialect (marks_of options.now.parse_options) (comment_of options.now.parse_options) }
    ensures reached { IfSome result (IsReached options.now place bytes.now) }
    ensures nearer { IfSome result (IsNearer place) }
    ensures past { IfSome result (λ next. rank next.place < 6) }
    ensures none { IfNone result (HasNoStep options.now place bytes.now) }
{
    match place {
        Place::Start => pass_start(bytes, options),
        Place::Lines(0) => Some(Reached {
            place: Place::Ends,
            at: 0,
        }),
        Place::Lines(left) => pass_line(bytes, options, left),
        Place::Ends => pass_ends(bytes, options),
        Place::Rows(0) => Some(Reached {
            place: Place::Header,
            at: 0,
        }),
        Place::Rows(left) => Some(Reached {
            place: Place::Rows(left - 1),
            at: whole_item(bytes, &options.parse_options)?,
        }),
        Place::Header => pass_header(bytes, options),
        Place::Behind(0) => Some(Reached {
            place: Place::Records,
            at: 0,
        }),
        Place::Behind(left) => Some(Reached {
            place: Place::Behind(left - 1),
            at: whole_item(bytes, &options.parse_options)?,
        }),
        Place::Records | Place::Full => None,
    }
}

/// How far bytes bring the way to the records, from a place on.
#[tactic(auto, using(crate::proofs::HeadLaws::reach_none))]
pub(crate) fn advance(bytes: &[u8], options: &CsvReadOptions, place: Place) -> Reached
    requires { IsDialect (marks_of options.now.parse_options) (comment_of options.now.parse_options) }
    ensures reached { IsReached options.now place bytes.now result }
    ensures stops { HasNoStep options.now result.place (drop result.at bytes.now) }
    ensures first { result.place ≡ spot.Start → (place ≡ spot.Start) × (result.at ≡ 0) }
{
    let mut reached = Reached { place, at: 0 };
    while let Some(next) = step(&bytes[reached.at..], options, reached.place) {
        reached = Reached {
            place: next.place,
            at: reached.at + next.at,
        };
    }
    reached
}
