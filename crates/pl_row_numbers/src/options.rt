//! The ways of writing whose lines are told apart by their bytes.
ghost use Rattle.std.specs.Prelude.{◌≡◌};
ghost use Rattle.std.specs.Bool.{OnTrue};
ghost use Rattle.std.specs.List.{list_any};
ghost use Rattle.pl_row_numbers.specs.Numbers.{CanNumber, is_mark};
ghost use Rattle.pl_write.specs.Options.{cell_options};

use pl_write::options::{QuoteStyle, SerializeOptions};

// Whether a text holds a quote or a line feed.
fn has_mark(text: &[u8]) -> bool
    ensures { result ≡ list_any is_mark text.now }
{
    text.iter().any(|x| *x == b'"' || *x == b'\n')
}

/// Whether lines that are written so can be told apart by their bytes: what holds a quote or a line feed stands between quotes, which are `"`, the
/// quotes in it doubled, and a line ends with a line feed.
pub fn can_number(options: &SerializeOptions) -> bool
    ensures { OnTrue result (CanNumber (cell_options options.now)) }
{
    options.quote_char == b'"'
        && !matches!(options.quote_style, QuoteStyle::Never)
        && matches!(options.line_terminator.as_str().as_bytes(), b"\n")
        && !has_mark(&[options.separator])
        && !has_mark(options.null.as_str().as_bytes())
}
