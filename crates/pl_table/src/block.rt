//! The ends of fields in a block of 64 bytes and fewer.
ghost use Rattle.std.specs.Prelude.{◌≡◌, ◌≤◌, ◌<◌, ◌&&◌, ◌==◌, ℕ, not, length, get_or, IfSome};
ghost use Rattle.std.specs.Simd.Lanes.{mask_l};
ghost use Rattle.pl_frame.specs.Dialect.{AreDistinct};
ghost use Rattle.pl_scan.specs.Dialect.{marks_of};
ghost use Rattle.pl_scan.specs.Fields.{is_quote};
ghost use Rattle.pl_scan.specs.Bits.{test, odd_at};
ghost use Rattle.pl_table.specs.Ends.{is_stop, is_begin, is_odd, is_even, ends_field, next_spot, spot_behind, end_flags, line_flags, spot_from, begin_at, even_at, is_strange};

use pl_scan::dialect::Dialect;
use pl_scan::fields::is_the_quote;
use pl_scan::masks::{equal_to, odd_through, quote_bits};
use std::simd::prelude::*;

/// Where a scan stands: at the first byte of a field, in a plain field, or in a quoted field behind an odd or an even number
/// of quotes.
#[derive(Clone, Copy)]
pub enum Spot {
    Begin,
    Plain,
    Odd,
    Even,
}

/// The ends of fields in a block, a bit each, with the line ends, and where the scan stands behind the block.
#[derive(Clone, Copy)]
pub struct Ends {
    pub ends: u64,
    pub lines: u64,
    pub behind: Spot,
}

// Whether the byte is a separator or a line end.
#[inline(always)]
pub(crate) fn is_the_stop(byte: u8, dialect: &Dialect) -> bool
    ensures { result ≡ is_stop (marks_of dialect.now) byte }
{
    byte == dialect.separator || byte == dialect.eol_char
}

// Whether a field begins at the spot.
#[inline(always)]
fn is_begin(spot: Spot) -> bool
    ensures { result ≡ is_begin spot }
{
    matches!(spot, Spot::Begin)
}

// Whether the spot stands behind an odd number of quotes of a quoted field.
#[inline(always)]
fn is_odd(spot: Spot) -> bool
    ensures { result ≡ is_odd spot }
{
    matches!(spot, Spot::Odd)
}

// Whether the spot stands behind an even number of quotes of a quoted field.
#[inline(always)]
fn is_even(spot: Spot) -> bool
    ensures { result ≡ is_even spot }
{
    matches!(spot, Spot::Even)
}

// Whether the byte ends the field.
#[inline(always)]
fn ends_field(byte: u8, dialect: &Dialect, spot: Spot) -> bool
    ensures { result ≡ ends_field (marks_of dialect.now) spot byte }
{
    is_the_stop(byte, dialect) && !is_odd(spot)
}

// Where a scan stands behind one more byte.
#[inline(always)]
fn step(spot: Spot, byte: u8, dialect: &Dialect) -> Spot
    ensures { result ≡ next_spot (marks_of dialect.now) spot byte }
{
    let stop = is_the_stop(byte, dialect);
    let quote = is_the_quote(dialect.quote_char, byte);
    match spot {
        Spot::Odd if quote => Spot::Even,
        Spot::Odd => Spot::Odd,
        _ if stop => Spot::Begin,
        Spot::Plain => Spot::Plain,
        _ if quote => Spot::Odd,
        Spot::Begin => Spot::Plain,
        Spot::Even => Spot::Even,
    }
}

// The ends of fields, byte by byte.
fn ends_by_bytes(bytes: &[u8], dialect: &Dialect, spot: Spot) -> Ends
    requires { length bytes.now ≤ 64 }
    ensures ends { result.ends ≡ mask_l (end_flags (marks_of dialect.now) spot bytes.now) }
    ensures lines { result.lines ≡ mask_l (line_flags (marks_of dialect.now) bytes.now) }
    ensures behind { result.behind ≡ spot_behind (marks_of dialect.now) spot bytes.now }
{
    let mut ends = 0u64;
    let mut lines = 0u64;
    let mut at = spot;
    for (i, &x) in bytes.iter().enumerate() {
        ends |= (ends_field(x, dialect, at) as u64) << i;
        lines |= ((x == dialect.eol_char) as u64) << i;
        at = step(at, x, dialect);
    }
    Ends {
        ends,
        lines,
        behind: at,
    }
}

// A bit for each byte that is a separator or a line end, where the bits of line ends are known.
#[inline(always)]
pub(crate) fn stop_bits(block: u8x64, lines: u64, dialect: &Dialect) -> u64
    requires { (i : ℕ) → i < 64 → test lines i ≡ (get_or block i 0 == dialect.now.eol_char) }
    ensures { (i : ℕ) → i < 64 → test result i ≡ is_stop (marks_of dialect.now) (get_or block i 0) }
{
    equal_to(block, dialect.separator) | lines
}

// What the words of a block tell, unless it is strange.
#[derive(Clone, Copy)]
pub(crate) struct Words {
    pub(crate) ends: u64,
    pub(crate) strange: u64,
    pub(crate) odd_behind: bool,
    pub(crate) begin_behind: bool,
    pub(crate) even_behind: bool,
}

// What the words of stops and of quotes tell.
#[inline(always)]
pub(crate) fn words_of(stops: u64, quotes: u64, odd: bool, begin: bool, even: bool) -> Words
    ensures ends { (i : ℕ) → i < 64 → test result.ends i ≡ (test stops i && not (odd_at quotes odd i)) }
    ensures strange { (i : ℕ) → i < 64 → test result.strange i
        ≡ is_strange (test stops i) (test quotes i) (odd_at quotes odd i) (begin_at stops quotes odd begin i) (even_at quotes odd even i) }
    ensures odd_behind { result.odd_behind ≡ odd_at quotes odd 64 }
    ensures begin_behind { result.begin_behind ≡ begin_at stops quotes odd begin 64 }
    ensures even_behind { result.even_behind ≡ even_at quotes odd even 64 }
{
    let through = odd_through(quotes, odd);
    let inside = through ^ quotes;
    let ends = stops & !inside;
    let closing = quotes & inside;
    let begins = (ends << 1) | begin as u64;
    let evens = (closing << 1) | even as u64;
    let strange = (quotes & !inside & !(begins | evens)) | (evens & !(stops | quotes));
    Words {
        ends,
        strange,
        odd_behind: through >> 63 == 1,
        begin_behind: ends >> 63 == 1,
        even_behind: closing >> 63 == 1,
    }
}

// The spot that three tests tell.
#[inline(always)]
fn spot_of(odd: bool, begin: bool, even: bool) -> Spot
    ensures { result ≡ spot_from odd begin even }
{
    if odd {
        Spot::Odd
    } else if begin {
        Spot::Begin
    } else if even {
        Spot::Even
    } else {
        Spot::Plain
    }
}

// The words of a block of 64 bytes. A quote inside a plain field is not counted: the first strange place, if it holds a quote, is
// one, since all is known of what stands before it. None where something else is strange.
#[inline(always)]
fn find_words(bytes: &[u8], stops: u64, quotes: u64, dialect: &Dialect, spot: Spot) -> Option<Words>
    requires long { length bytes.now ≡ 64 }
    requires apart { AreDistinct (marks_of dialect.now) }
    requires stops { (i : ℕ) → i < 64 → test stops i ≡ is_stop (marks_of dialect.now) (get_or bytes.now i 0) }
    requires quotes { (i : ℕ) → i < 64 → test quotes i ≡ is_quote dialect.now.quote_char (get_or bytes.now i 0) }
    ensures ends { IfSome result (λ words. words.ends ≡ mask_l (end_flags (marks_of dialect.now) spot bytes.now)) }
    ensures behind { IfSome result (λ words. spot_from words.odd_behind words.begin_behind words.even_behind
        ≡ spot_behind (marks_of dialect.now) spot bytes.now) }
{
    let mut counted = quotes;
    for _ in 0..64 {
        let words = words_of(stops, counted, is_odd(spot), is_begin(spot), is_even(spot));
        if words.strange == 0 {
            return Some(words);
        }
        let place = words.strange.trailing_zeros();
        if (counted >> place) & 1 == 0 {
            return None;
        }
        counted &= !(1 << place);
    }
    None
}

/// The ends of fields in a block that a scan comes to at a spot.
#[inline(always)]
pub fn ends_of_block(bytes: &[u8], dialect: &Dialect, spot: Spot) -> Ends
    requires few { length bytes.now ≤ 64 }
    requires apart { AreDistinct (marks_of dialect.now) }
    ensures ends { result.ends ≡ mask_l (end_flags (marks_of dialect.now) spot bytes.now) }
    ensures lines { result.lines ≡ mask_l (line_flags (marks_of dialect.now) bytes.now) }
    ensures behind { result.behind ≡ spot_behind (marks_of dialect.now) spot bytes.now }
{
    if bytes.len() < 64 {
        return ends_by_bytes(bytes, dialect, spot);
    }
    let block = u8x64::from_slice(bytes);
    let lines = equal_to(block, dialect.eol_char);
    let stops = stop_bits(block, lines, dialect);
    let quotes = quote_bits(block, dialect.quote_char);
    match find_words(bytes, stops, quotes, dialect, spot) {
        Some(words) => Ends {
            ends: words.ends,
            lines,
            behind: spot_of(words.odd_behind, words.begin_behind, words.even_behind),
        },
        None => ends_by_bytes(bytes, dialect, spot),
    }
}
