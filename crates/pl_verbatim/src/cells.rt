//! Cells that stand as they are written.
ghost use Rattle.std.specs.Prelude.{◌≡◌, ◌<◌, ◌≤◌, true, length, slice_index, slice_range, IfSome};
ghost use Rattle.pl_frame.specs.declared.data_type.DataType.{DataType};
ghost use Rattle.pl_text.specs.FrameText.{WriteOptions};
ghost use Rattle.pl_verbatim.specs.CellTexts.{IsCellOf, IsCellOptions};
ghost use Rattle.pl_verbatim.specs.Kinds.{IsKindOf, is_sound_kind};

use crate::booleans::boolean_end;
use crate::dates::date_end;
use crate::decimals::decimal_end;
use crate::kinds::Kind;
use crate::moments::moment_end;
use crate::texts::text_end;
use crate::wholes::whole_end;

/// The place behind the cell that stands at a place as a value of a kind. `CALLER` is that of `cell_end`.
#[inline(always)]
pub(crate) fn value_end<const CALLER: usize>(
    text: &[u8],
    at: usize,
    kind: Kind,
    separator: u8,
    quote: u8,
) -> Option<usize>
    requires inside { at < length text.now }
    requires sound { is_sound_kind kind ≡ true }
    requires ascii { quote < 128 }
    ensures after { IfSome result (λ end. at < end) }
    ensures within { IfSome result (λ end. end ≤ length text.now) }
    ensures cell { IfSome result (λ end. (o : WriteOptions) (type : DataType) → IsCellOptions o separator quote → IsKindOf type kind → IsCellOf o type (slice_range text.now at end)) }
{
    match kind {
        Kind::Text => text_end(text, at, separator, quote),
        Kind::Whole { digits, is_signed } => whole_end(text, at, digits, is_signed),
        Kind::Boolean => boolean_end(text, at),
        Kind::Date => date_end(text, at),
        Kind::Decimal { digits, scale } => decimal_end(text, at, digits, scale),
        Kind::Datetime { places } => moment_end(text, at, places),
        Kind::Passed => None,
    }
}

/// The place behind the cell that stands at a place as it is written, with a mark behind it. An empty one is a null. `CALLER` only keeps those
/// apart who call it, so that the compiler puts it in line for each of them.
#[inline(always)]
pub(crate) fn cell_end<const CALLER: usize>(
    text: &[u8],
    at: usize,
    kind: Kind,
    mark: u8,
    separator: u8,
    quote: u8,
) -> Option<usize>
    requires inside { at ≤ length text.now }
    requires sound { is_sound_kind kind ≡ true }
    requires ascii { quote < 128 }
    ensures after { IfSome result (λ end. at ≤ end) }
    ensures within { IfSome result (λ end. end < length text.now) }
    ensures mark { IfSome result (λ end. slice_index text.now end ≡ mark) }
    ensures cell { IfSome result (λ end. (o : WriteOptions) (type : DataType) → IsCellOptions o separator quote → IsKindOf type kind → IsCellOf o type (slice_range text.now at end)) }
{
    if at >= text.len() {
        return None;
    }
    if text[at] == mark {
        return Some(at);
    }
    let end = value_end::<CALLER>(text, at, kind, separator, quote)?;
    if end < text.len() && text[end] == mark {
        Some(end)
    } else {
        None
    }
}
