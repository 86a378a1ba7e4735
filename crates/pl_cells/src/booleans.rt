//! Truth values from text. No call takes memory.
ghost use Rattle.std.specs.Prelude.{◌≡◌, is_some};
ghost use Rattle.pl_cells.specs.Booleans.{boolean_value};

/// The truth value that a text writes: `true` or `false`, in any case of the letters.
#[inline]
pub(crate) fn parse_boolean(text: &[u8]) -> Option<bool>
    ensures { result ≡ boolean_value text.now }
{
    if text.eq_ignore_ascii_case(b"true") {
        Some(true)
    } else if text.eq_ignore_ascii_case(b"false") {
        Some(false)
    } else {
        None
    }
}

/// Whether a text is `true` or `false`, in any case of the letters.
pub fn is_boolean_text(text: &[u8]) -> bool
    ensures { result ≡ is_some (boolean_value text.now) }
{
    parse_boolean(text).is_some()
}
