//! Where what is written of a cell stands in its field, where the cell is written otherwise than it was read.
ghost use Rattle.std.specs.Prelude.{◌≡◌, ◌<◌, ◌≤◌, true, length, slice_index, IfSome};
ghost use Rattle.pl_verbatim.specs.declared.kinds.Kind.TheVariants as variant;
ghost use Rattle.pl_verbatim.specs.Changes.{IsFound};
ghost use Rattle.pl_verbatim.specs.Kinds.{is_sound_kind};

use crate::cells::value_end;
use crate::form::Form;
use crate::kinds::Kind;
use crate::moments::{fraction_end, seconds_end};
use crate::texts::{bare_text_end, quoted_text_end};
use pl_write::texts::is_quoting_needed;

/// The end of a field, and what is written of its cell: what stands from one place to another, with so many zeros behind a point, where there
/// are such, and between quotes or not.
#[derive(Clone, Copy)]
pub(crate) struct Found {
    pub(crate) end: usize,
    pub(crate) start: usize,
    pub(crate) stop: usize,
    pub(crate) zeros: usize,
    pub(crate) is_quoted: bool,
}

// What is written of the cell of a text that stands without quotes, with a mark behind it.
#[inline(always)]
fn find_bare(
    text: &[u8],
    at: usize,
    kind: Kind,
    mark: u8,
    separator: u8,
    quote: u8,
    form: &Form,
) -> Option<Found>
    requires inside { at < length text.now }
    requires text { kind ≡ variant.Text }
    ensures { IfSome result (IsFound text.now at kind mark separator quote form.now) }
{
    let end = bare_text_end(text, at, separator, quote)?;
    if end >= text.len() || text[end] != mark {
        return None;
    }
    let is_quoted = form.quotes_values
        || (form.separator != separator
            && is_quoting_needed(&text[at..end], form.separator, quote));
    Some(Found {
        end,
        start: at,
        stop: end,
        zeros: 0,
        is_quoted,
    })
}

// What is written of the cell of a value that is no text, and stands as it is printed, with a mark behind it.
#[inline(always)]
fn find_value<const CALLER: usize>(
    text: &[u8],
    at: usize,
    kind: Kind,
    mark: u8,
    separator: u8,
    quote: u8,
    form: &Form,
) -> Option<Found>
    requires inside { at < length text.now }
    requires sound { is_sound_kind kind ≡ true }
    requires ascii { quote < 128 }
    requires other { kind ≡ variant.Text → ⊥ }
    ensures { IfSome result (IsFound text.now at kind mark separator quote form.now) }
{
    let end = value_end::<CALLER>(text, at, kind, separator, quote)?;
    if end >= text.len() || text[end] != mark {
        return None;
    }
    Some(Found {
        end,
        start: at,
        stop: end,
        zeros: 0,
        is_quoted: form.quotes(kind),
    })
}

// What is written of the cell of a datetime that stands as it is printed, or without a fraction, with a mark behind it.
#[inline(always)]
fn find_moment(
    text: &[u8],
    at: usize,
    places: usize,
    mark: u8,
    separator: u8,
    quote: u8,
    form: &Form,
) -> Option<Found>
    requires inside { at < length text.now }
    requires places { (0 < places) × (places ≤ 9) }
    ensures { IfSome result (IsFound text.now at (variant.Datetime places) mark separator quote form.now) }
{
    let seconds = seconds_end(text, at)?;
    if seconds < text.len() && text[seconds] == mark {
        return Some(Found {
            end: seconds,
            start: at,
            stop: seconds,
            zeros: places,
            is_quoted: form.quotes_values,
        });
    }
    let end = fraction_end(text, seconds, places)?;
    if end >= text.len() || text[end] != mark {
        return None;
    }
    Some(Found {
        end,
        start: at,
        stop: end,
        zeros: 0,
        is_quoted: form.quotes_values,
    })
}

// What is written of the cell of a text that stands between quotes which it does not need, with a mark behind it.
#[inline(always)]
fn find_bare_inside(
    text: &[u8],
    at: usize,
    kind: Kind,
    mark: u8,
    separator: u8,
    quote: u8,
    form: &Form,
) -> Option<Found>
    requires inside { at < length text.now }
    requires opens { slice_index text.now at ≡ quote }
    requires text { kind ≡ variant.Text }
    ensures { IfSome result (IsFound text.now at kind mark separator quote form.now) }
{
    if form.quotes_values || at + 1 >= text.len() {
        return None;
    }
    let to = bare_text_end(text, at + 1, form.separator, quote)?;
    if to + 1 >= text.len() || text[to] != quote || text[to + 1] != mark {
        return None;
    }
    Some(Found {
        end: to + 1,
        start: at + 1,
        stop: to,
        zeros: 0,
        is_quoted: false,
    })
}

// What is written of the cell of a text that stands between quotes, with a mark behind it.
#[inline(always)]
fn find_quoted_text(
    text: &[u8],
    at: usize,
    kind: Kind,
    mark: u8,
    separator: u8,
    quote: u8,
    form: &Form,
) -> Option<Found>
    requires inside { at < length text.now }
    requires opens { slice_index text.now at ≡ quote }
    requires ascii { quote < 128 }
    requires text { kind ≡ variant.Text }
    ensures { IfSome result (IsFound text.now at kind mark separator quote form.now) }
{
    if let Some(found) = find_bare_inside(text, at, kind, mark, separator, quote, form) {
        return Some(found);
    }
    let end = quoted_text_end(text, at, quote)?;
    if end >= text.len() || text[end] != mark {
        return None;
    }
    if form.quotes_values || is_quoting_needed(&text[at + 1..end - 1], form.separator, quote) {
        return Some(Found {
            end,
            start: at,
            stop: end,
            zeros: 0,
            is_quoted: false,
        });
    }
    Some(Found {
        end,
        start: at + 1,
        stop: end - 1,
        zeros: 0,
        is_quoted: false,
    })
}

// What is written of the cell of a value that is no text, and stands between quotes, with a mark behind them.
#[inline(always)]
fn find_quoted_value<const CALLER: usize>(
    text: &[u8],
    at: usize,
    kind: Kind,
    mark: u8,
    separator: u8,
    quote: u8,
    form: &Form,
) -> Option<Found>
    requires inside { at < length text.now }
    requires opens { slice_index text.now at ≡ quote }
    requires sound { is_sound_kind kind ≡ true }
    requires ascii { quote < 128 }
    requires other { kind ≡ variant.Text → ⊥ }
    ensures { IfSome result (IsFound text.now at kind mark separator quote form.now) }
{
    if at + 1 >= text.len() {
        return None;
    }
    let to = value_end::<CALLER>(text, at + 1, kind, separator, quote)?;
    if to + 1 >= text.len() || text[to] != quote || text[to + 1] != mark {
        return None;
    }
    Some(Found {
        end: to + 1,
        start: at + 1,
        stop: to,
        zeros: 0,
        is_quoted: form.quotes(kind),
    })
}

// What is written of the cell between quotes at a place, with a mark behind them.
#[inline(always)]
fn find_quoted(
    text: &[u8],
    at: usize,
    kind: Kind,
    mark: u8,
    separator: u8,
    quote: u8,
    form: &Form,
) -> Option<Found>
    requires inside { at < length text.now }
    requires opens { slice_index text.now at ≡ quote }
    requires sound { is_sound_kind kind ≡ true }
    requires ascii { quote < 128 }
    ensures { IfSome result (IsFound text.now at kind mark separator quote form.now) }
{
    match kind {
        Kind::Text => find_quoted_text(text, at, kind, mark, separator, quote, form),
        _ => find_quoted_value::<14>(text, at, kind, mark, separator, quote, form),
    }
}

/// What is written of the cell at a place, with a mark behind its field. `CALLER` is that of `cell_end`.
#[inline(always)]
pub(crate) fn find<const CALLER: usize>(
    text: &[u8],
    at: usize,
    kind: Kind,
    mark: u8,
    separator: u8,
    quote: u8,
    form: &Form,
) -> Option<Found>
    requires inside { at < length text.now }
    requires sound { is_sound_kind kind ≡ true }
    requires ascii { quote < 128 }
    ensures { IfSome result (IsFound text.now at kind mark separator quote form.now) }
{
    if text[at] == quote {
        return find_quoted(text, at, kind, mark, separator, quote, form);
    }
    match kind {
        Kind::Text => find_bare(text, at, kind, mark, separator, quote, form),
        Kind::Whole {
            digits: _,
            is_signed: _,
        } => find_value::<10>(text, at, kind, mark, separator, quote, form),
        Kind::Boolean => find_value::<11>(text, at, kind, mark, separator, quote, form),
        Kind::Date => find_value::<12>(text, at, kind, mark, separator, quote, form),
        Kind::Decimal {
            digits: _,
            scale: _,
        } => find_value::<13>(text, at, kind, mark, separator, quote, form),
        Kind::Datetime { places } => find_moment(text, at, places, mark, separator, quote, form),
        Kind::Passed => None,
    }
}
