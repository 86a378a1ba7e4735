//! The bytes of an index, taken apart from the left.
ghost use Rattle.std.specs.Prelude.{◌≡◌, ◌↔◌, ◌/◌, length, IfOk, IsTrue};
ghost use Rattle.std.specs.Option.{option_map};
ghost use Rattle.pl_seek.specs.Viewing.{view};
ghost use Rattle.pl_seek.specs.Index.{AreRising};
ghost use Rattle.pl_seek.specs.Reading.{AreParts, HasForm, HasPlaces, byte_at, bytes_at, flag_at, number_at, numbers_in, parts_in, quote_at, settings_at, text_at};

use crate::settings::Settings;
use std::alloc::{AllocError, Global};

// What each index begins with.
pub(crate) const MAGIC: [u8; 8] = *b"PLSEEK1\n";

// The parts of an index where they lie in its bytes.
#[derive(Clone, Copy)]
pub(crate) struct Parts<'a> {
    pub(crate) magic: &'a [u8],
    pub(crate) digest: [u8; 32],
    pub(crate) settings: Settings,
    pub(crate) comment_prefix: &'a [u8],
    pub(crate) every: usize,
    pub(crate) records: usize,
    pub(crate) places: &'a [u8],
}

fn byte_at(bytes: &[u8]) -> Option<(u8, &[u8])>
    ensures { option_map (λ x. (x.0, x.1.now)) result ≡ byte_at bytes.now }
{
    match bytes {
        [] => None,
        [byte, rest @ ..] => Some((*byte, rest)),
    }
}

fn bytes_at(n: usize, bytes: &[u8]) -> Option<(&[u8], &[u8])>
    ensures { option_map (λ x. (x.0.now, x.1.now)) result ≡ bytes_at n bytes.now }
{
    if bytes.len() < n {
        return None;
    }
    Some(bytes.split_at(n))
}

fn digest_at(bytes: &[u8]) -> Option<([u8; 32], &[u8])>
    ensures { option_map (λ x. (x.0, x.1.now)) result ≡ bytes_at 32 bytes.now }
{
    let digest = bytes.first_chunk::<32>()?;
    Some((*digest, &bytes[32..]))
}

#[inline]
fn number_at(bytes: &[u8]) -> Option<(usize, &[u8])>
    ensures { option_map (λ x. (x.0, x.1.now)) result ≡ number_at bytes.now }
{
    let number = bytes.first_chunk::<8>()?;
    Some((usize::from_be_bytes(*number), &bytes[8..]))
}

#[tactic(auto, unfolding(crate::specs::Reading::flag_at))]
fn flag_at(bytes: &[u8]) -> Option<(bool, &[u8])>
    ensures { option_map (λ x. (x.0, x.1.now)) result ≡ flag_at bytes.now }
{
    match bytes {
        [0, rest @ ..] => Some((false, rest)),
        [1, rest @ ..] => Some((true, rest)),
        _ => None,
    }
}

#[tactic(auto, unfolding(crate::specs::Reading::quote_at))]
fn quote_at(bytes: &[u8]) -> Option<(Option<u8>, &[u8])>
    ensures { option_map (λ x. (x.0, x.1.now)) result ≡ quote_at bytes.now }
{
    match bytes {
        [0, 0, rest @ ..] => Some((None, rest)),
        [1, quote, rest @ ..] => Some((Some(*quote), rest)),
        _ => None,
    }
}

#[tactic(auto, unfolding(crate::specs::Reading::text_at))]
fn text_at(bytes: &[u8]) -> Option<(&[u8], &[u8])>
    ensures { option_map (λ x. (x.0.now, x.1.now)) result ≡ text_at bytes.now }
{
    let (length, rest) = number_at(bytes)?;
    bytes_at(length, rest)
}

#[tactic(auto, unfolding(crate::specs::Reading::settings_at))]
fn settings_at(bytes: &[u8]) -> Option<(Settings, &[u8])>
    ensures { option_map (λ x. (x.0, x.1.now)) result ≡ settings_at bytes.now }
{
    let (separator, rest) = byte_at(bytes)?;
    let (quote_char, rest) = quote_at(rest)?;
    let (eol_char, rest) = byte_at(rest)?;
    let (has_header, rest) = flag_at(rest)?;
    let (keep_ends, rest) = flag_at(rest)?;
    let (skip_rows, rest) = number_at(rest)?;
    let (skip_lines, rest) = number_at(rest)?;
    let (skip_rows_after_header, rest) = number_at(rest)?;
    let settings = Settings {
        separator,
        quote_char,
        eol_char,
        has_header,
        keep_ends,
        skip_rows,
        skip_lines,
        skip_rows_after_header,
    };
    Some((settings, rest))
}

// The parts of an index, if there are enough bytes.
#[tactic(auto, unfolding(crate::specs::Reading::parts_in, crate::specs::Reading::head_at))]
pub(crate) fn parts_in(bytes: &[u8]) -> Option<Parts<'_>>
    ensures { option_map view result ≡ parts_in bytes.now }
{
    let (magic, rest) = bytes_at(8, bytes)?;
    let (digest, rest) = digest_at(rest)?;
    let (settings, rest) = settings_at(rest)?;
    let (comment_prefix, rest) = text_at(rest)?;
    let (every, rest) = number_at(rest)?;
    let (records, places) = number_at(rest)?;
    Some(Parts {
        magic,
        digest,
        settings,
        comment_prefix,
        every,
        records,
        places,
    })
}

// Whether each of the numbers is greater than the one before it.
fn are_rising(bytes: &[u8]) -> bool
    ensures { IsTrue result ↔ AreRising (numbers_in (length bytes.now / 8) bytes.now) }
{
    let Some((mut last, mut rest)) = number_at(bytes) else {
        return true;
    };
    'numbers: while let Some((number, after)) = number_at(rest) {
        if number <= last {
            return false;
        }
        last = number;
        rest = after;
    }
    true
}

// Whether these parts begin as an index does, and have as many bytes of places as numbers have.
fn has_form(parts: &Parts<'_>) -> bool
    ensures { IsTrue result ↔ HasForm (view parts.now) }
{
    parts.magic == MAGIC.as_slice() && parts.places.len() % 8 == 0
}

// Whether there are as many places as groups of records, and they rise.
#[tactic(auto, using(crate::proofs::Numbers::length_numbers_in))]
fn has_places(parts: &Parts<'_>) -> bool
    ensures { IsTrue result ↔ HasPlaces (view parts.now) }
{
    parts.every != 0
        && parts.places.len() / 8 == parts.records.div_ceil(parts.every)
        && are_rising(parts.places)
}

// Whether these parts are those of an index.
pub(crate) fn are_parts(parts: &Parts<'_>) -> bool
    ensures { IsTrue result ↔ AreParts (view parts.now) }
{
    has_form(parts) && has_places(parts)
}

// The numbers of eight bytes each. Refuses only want of memory.
pub(crate) fn numbers_in(alloc: Global, bytes: &[u8]) -> Result<Vec<usize>, AllocError>
    ensures { IfOk result (λ numbers. numbers.items ≡ numbers_in (length bytes.now / 8) bytes.now) }
{
    let mut numbers = Vec::with_capacity(alloc, bytes.len() / 8)?;
    let mut rest = bytes;
    'numbers: while let Some((number, after)) = number_at(rest) {
        numbers.push_reserved(number);
        rest = after;
    }
    Ok(numbers)
}
