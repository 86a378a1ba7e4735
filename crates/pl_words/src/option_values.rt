//! What the values of options write.
ghost use Rattle.std.specs.Prelude.{◌≡◌, ◌<◌, MatchOption};
ghost use Rattle.std.specs.Option.{option_map};
ghost use Rattle.pl_words.specs.OptionValues.{hexadecimal_digit, hexadecimal_pair, byte_of, quote_of, count_of, sample_of, offset_of, terminator_named, style_named};

use crate::from_text::{FromText, meant};
use crate::words::WordsFault;
use pl_cells::integers::number_of;
use pl_write::options::QuoteStyle;
use std::alloc::Global;

// What a hexadecimal digit counts.
fn parse_hexadecimal_digit(byte: u8) -> Option<u8>
    ensures value { result ≡ hexadecimal_digit byte }
    ensures small { MatchOption result (Unit {0}) (λ digit. digit < 16) }
{
    match byte {
        b'0'..=b'9' => Some(byte - b'0'),
        b'A'..=b'F' => Some(byte - b'A' + 10),
        b'a'..=b'f' => Some(byte - b'a' + 10),
        _ => None,
    }
}

// The byte that two hexadecimal digits write.
fn parse_hexadecimal_pair(high: u8, low: u8) -> Option<u8>
    ensures { result ≡ hexadecimal_pair high low }
{
    match (parse_hexadecimal_digit(high), parse_hexadecimal_digit(low)) {
        (Some(high), Some(low)) => Some(16 * high + low),
        _ => None,
    }
}

// The byte that a text writes: one ASCII character, or `x` and two hexadecimal digits.
fn parse_byte(text: &str) -> Option<u8>
    ensures { result ≡ byte_of text.now }
{
    match text.as_bytes() {
        [byte] if byte.is_ascii() => Some(*byte),
        [b'x', high, low] => parse_hexadecimal_pair(*high, *low),
        _ => None,
    }
}

/// The quote that a text writes: a byte, or `none`.
pub(crate) fn parse_quote(text: &str) -> Option<Option<u8>>
    ensures { result ≡ quote_of text.now }
{
    if text == "none" {
        return Some(None);
    }
    match parse_byte(text) {
        Some(byte) => Some(Some(byte)),
        None => None,
    }
}

/// The number that 1 to 18 digits write.
pub(crate) fn parse_count(text: &str) -> Option<usize>
    ensures { result ≡ count_of text.now }
{
    if text.len() > 18 {
        return None;
    }
    match number_of(text.as_bytes()) {
        Some(number) => Some(number as usize),
        None => None,
    }
}

/// From how many items types are inferred, as a text writes it: a number, or `all`.
pub(crate) fn parse_sample(text: &str) -> Option<Option<usize>>
    ensures { result ≡ sample_of text.now }
{
    if text == "all" {
        return Some(None);
    }
    match parse_count(text) {
        Some(number) => Some(Some(number)),
        None => None,
    }
}

/// The number up to 18446744073709551615 that 1 to 20 digits write.
pub(crate) fn parse_offset(text: &str) -> Option<u64>
    ensures { result ≡ offset_of text.now }
{
    if text.len() > 20 {
        return None;
    }
    number_of(text.as_bytes())
}

/// The line end that a text names.
pub(crate) fn parse_terminator(text: &str) -> Option<&'static str>
    ensures { option_map (λ end. end.now) result ≡ terminator_named text.now }
{
    match text {
        "lf" => Some("\n"),
        "crlf" => Some("\r\n"),
        _ => None,
    }
}

// The style that a text names.
fn parse_style(text: &str) -> Option<QuoteStyle>
    ensures { result ≡ style_named text.now }
{
    match text {
        "necessary" => Some(QuoteStyle::Necessary),
        "always" => Some(QuoteStyle::Always),
        "nonnumeric" => Some(QuoteStyle::NonNumeric),
        "never" => Some(QuoteStyle::Never),
        _ => None,
    }
}

// BYTE.
impl FromText for u8 {
    ghost meaning = { byte_of };

    fn from_text(_alloc: Global, text: &str) -> Result<Self, WordsFault> {
        meant(parse_byte(text))
    }
}

// NUM.
impl FromText for usize {
    ghost meaning = { count_of };

    fn from_text(_alloc: Global, text: &str) -> Result<Self, WordsFault> {
        meant(parse_count(text))
    }
}

// The name of a style.
impl FromText for QuoteStyle {
    ghost meaning = { style_named };

    fn from_text(_alloc: Global, text: &str) -> Result<Self, WordsFault> {
        meant(parse_style(text))
    }
}
