//! Truth values that stand as they are printed.
ghost use Rattle.std.specs.Prelude.{◌<◌, ◌≤◌, length, slice_range, IfSome};
ghost use Rattle.pl_verbatim.specs.CellTexts.{IsBooleanText};

/// The place behind the truth value that stands at a place as it is printed.
#[inline(always)]
pub(crate) fn boolean_end(text: &[u8], at: usize) -> Option<usize>
    requires { at ≤ length text.now }
    ensures after { IfSome result (λ end. at < end) }
    ensures within { IfSome result (λ end. end ≤ length text.now) }
    ensures boolean { IfSome result (λ end. IsBooleanText (slice_range text.now at end)) }
{
    match &text[at..] {
        [b't', b'r', b'u', b'e', ..] => Some(at + 4),
        [b'f', b'a', b'l', b's', b'e', ..] => Some(at + 5),
        _ => None,
    }
}
