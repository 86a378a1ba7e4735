//! Cells that stand otherwise than they are written, but whose written text stands in them.
ghost use Rattle.std.specs.Prelude.{◌≡◌, ◌+◌, ◌<◌, ◌≤◌, [], ◌∷◌, ◌++◌, true, length, slice_index, slice_range, IfSome};
ghost use Rattle.std.specs.Bool.{OnTrue};
ghost use Rattle.pl_frame.specs.declared.data_type.DataType.{DataType};
ghost use Rattle.pl_text.specs.FrameText.{WriteOptions};
ghost use Rattle.pl_frame.specs.Types.{is_readable};
ghost use Rattle.pl_round_trip.specs.Fits.{FitsOptions};
ghost use Rattle.pl_verbatim.specs.CellTexts.{IsCellOptions, IsSecondsText, IsCopyOf, zeros_text};
ghost use Rattle.pl_verbatim.specs.Kinds.{IsKindOf, is_sound_kind};
ghost use Rattle.pl_verbatim.specs.Verbatim.{HasGrown, IsCellCopied};

use crate::booleans::boolean_end;
use crate::cells::cell_end;
use crate::dates::date_end;
use crate::decimals::decimal_end;
use crate::kinds::Kind;
use crate::marks::Marks;
use crate::moments::{moment_end, seconds_end};
use crate::texts::bare_text_end;
use crate::wholes::whole_end;

// The place behind what stands between quotes from a place on, where it stands there as a value of a kind is printed and needs no quotes.
#[inline(always)]
fn inner_end<const CALLER: usize>(
    text: &[u8],
    at: usize,
    kind: Kind,
    separator: u8,
    quote: u8,
) -> Option<usize>
    requires inside { at < length text.now }
    requires sound { is_sound_kind kind ≡ true }
    ensures after { IfSome result (λ end. at < end) }
    ensures within { IfSome result (λ end. end ≤ length text.now) }
    ensures copy { IfSome result (λ end. (o : WriteOptions) (type : DataType) → FitsOptions o → IsCellOptions o separator quote → is_readable type ≡ true → IsKindOf type kind
        → IsCopyOf o type (quote ∷ (slice_range text.now at end ++ quote ∷ [])) (slice_range text.now at end)) }
{
    match kind {
        Kind::Text => bare_text_end(text, at, separator, quote),
        Kind::Whole { digits, is_signed } => whole_end(text, at, digits, is_signed),
        Kind::Boolean => boolean_end(text, at),
        Kind::Date => date_end(text, at),
        Kind::Decimal { digits, scale } => decimal_end(text, at, digits, scale),
        Kind::Datetime { places } => moment_end(text, at, places),
        Kind::Passed => None,
    }
}

// The place behind the datetime without a fraction that stands at a place, with a mark behind it.
#[inline(always)]
fn marked_seconds_end(text: &[u8], at: usize, mark: u8) -> Option<usize>
    requires inside { at ≤ length text.now }
    ensures after { IfSome result (λ end. at < end) }
    ensures within { IfSome result (λ end. end < length text.now) }
    ensures mark { IfSome result (λ end. slice_index text.now end ≡ mark) }
    ensures seconds { IfSome result (λ end. IsSecondsText (slice_range text.now at end)) }
{
    let end = seconds_end(text, at)?;
    if end < text.len() && text[end] == mark {
        Some(end)
    } else {
        None
    }
}

// The place of the quote behind what stands between quotes that it does not need, with a mark behind that quote.
#[inline(always)]
fn marked_inner_end<const CALLER: usize>(
    text: &[u8],
    at: usize,
    kind: Kind,
    mark: u8,
    separator: u8,
    quote: u8,
) -> Option<usize>
    requires inside { at ≤ length text.now }
    requires sound { is_sound_kind kind ≡ true }
    ensures after { IfSome result (λ to. at + 1 < to) }
    ensures within { IfSome result (λ to. to + 1 < length text.now) }
    ensures mark { IfSome result (λ to. slice_index text.now (to + 1) ≡ mark) }
    ensures copy { IfSome result (λ to. (o : WriteOptions) (type : DataType) → FitsOptions o → IsCellOptions o separator quote → is_readable type ≡ true → IsKindOf type kind
        → IsCopyOf o type (slice_range text.now at (to + 1)) (slice_range text.now (at + 1) to)) }
{
    if at + 2 >= text.len() || text[at] != quote {
        return None;
    }
    let to = inner_end::<CALLER>(text, at + 1, kind, separator, quote)?;
    if to + 1 < text.len() && text[to] == quote && text[to + 1] == mark {
        Some(to)
    } else {
        None
    }
}

// Appends what stands from one place to another, with so many zeros behind a point, where there are such, and a mark. Where memory is
// wanting, the lines may have a part of it.
#[inline(always)]
fn append(text: &[u8], from: usize, to: usize, zeros: usize, mark: u8, lines: &mut Vec<u8>) -> bool
    requires inside { (from ≤ to) × (to ≤ length text.now) }
    requires few { zeros ≤ 9 }
    ensures copied { OnTrue result (lines.new.items ≡ lines.old.items ++ (slice_range text.now from to ++ zeros_text zeros) ++ mark ∷ []) }
    ensures grown { HasGrown lines.old.items lines.new.items }
{
    if lines.extend_from_slice(&text[from..to]).is_err() {
        return false;
    }
    if zeros > 0
        && lines
            .extend_from_slice(&b".000000000"[..zeros + 1])
            .is_err()
    {
        return false;
    }
    lines.push(mark).is_ok()
}

// Copies what is written of the cell between quotes at a place, as `copy_cell` does.
#[inline(always)]
fn copy_quoted<const CALLER: usize>(
    text: &[u8],
    from: &mut usize,
    at: usize,
    kind: Kind,
    mark: u8,
    separator: u8,
    quote: u8,
    lines: &mut Vec<u8>,
) -> Option<usize>
    requires before { from.old ≤ at }
    requires inside { at ≤ length text.now }
    requires sound { is_sound_kind kind ≡ true }
    requires ascii { quote < 128 }
    ensures after { IfSome result (λ next. at < next) }
    ensures within { IfSome result (λ next. next ≤ length text.now) }
    ensures grown { HasGrown lines.old.items lines.new.items }
    ensures copied { IfSome result (IsCellCopied text.now from.old from.new at kind mark separator quote lines.old.items lines.new.items) }
{
    if let Some(to) = marked_inner_end::<CALLER>(text, at, kind, mark, separator, quote) {
        if *from < at && lines.extend_from_slice(&text[*from..at]).is_err() {
            return None;
        }
        if !append(text, at + 1, to, 0, mark, lines) {
            return None;
        }
        *from = to + 2;
        return Some(to + 2);
    }
    let end = cell_end::<0>(text, at, kind, mark, separator, quote)?;
    Some(end + 1)
}

/// Copies what is written of the cell at a place, and a mark, which stands behind its field, and answers the place behind that mark. The bytes
/// up to the cell from a place, `from`, are copied, but not appended yet: where the cell stands as it is written, it is left with them, so that
/// all is appended in one go; else they are appended, and what is written of the cell. Where no such cell is found, or memory is wanting, the
/// lines may have a part of it. `CALLER` is that of `cell_end`.
#[inline(always)]
pub(crate) fn copy_cell<const CALLER: usize>(
    text: &[u8],
    from: &mut usize,
    at: usize,
    kind: Kind,
    mark: u8,
    separator: u8,
    quote: u8,
    marks: &mut Marks,
    lines: &mut Vec<u8>,
) -> Option<usize>
    requires before { from.old ≤ at }
    requires inside { at ≤ length text.now }
    requires sound { is_sound_kind kind ≡ true }
    requires ascii { quote < 128 }
    ensures after { IfSome result (λ next. at < next) }
    ensures within { IfSome result (λ next. next ≤ length text.now) }
    ensures grown { HasGrown lines.old.items lines.new.items }
    ensures copied { IfSome result (IsCellCopied text.now from.old from.new at kind mark separator quote lines.old.items lines.new.items) }
{
    if at < text.len() && text[at] == quote {
        let next = copy_quoted::<CALLER>(text, from, at, kind, mark, separator, quote, lines)?;
        *marks = Marks::later(next);
        return Some(next);
    }
    let ahead = marks.next(text, separator);
    if let Kind::Datetime { places } = kind {
        if let Some(end) = marked_seconds_end(text, at, mark) {
            if !append(text, *from, end, places, mark, lines) {
                return None;
            }
            *from = end + 1;
            return Some(marks.pass(ahead, text, end, separator));
        }
    }
    let end = cell_end::<CALLER>(text, at, kind, mark, separator, quote)?;
    Some(marks.pass(ahead, text, end, separator))
}
