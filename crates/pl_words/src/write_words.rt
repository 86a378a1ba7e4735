//! How a frame is written, as words give it.
ghost use Rattle.std.specs.Prelude.{◌≡◌, true, ◌≢◌, None, Some, Err, IfOk, IsErrOf};
ghost use Rattle.pl_words.specs.Arguments.{is_option};
ghost use Rattle.pl_words.specs.Defaults.{option_or, text_of};
ghost use Rattle.pl_words.specs.OptionValues.{terminator_named};
ghost use Rattle.pl_words.specs.WriteWords.{write_options_of};

use crate::arguments::Arguments;
use crate::from_text::set_or;
use crate::option_values::parse_terminator;
use crate::splitting::copy_text;
use crate::words::WordsFault;
use pl_frame::name::PlSmallStr;
use pl_write::options::{CsvWriterOptions, QuoteStyle, SerializeOptions};
use std::alloc::Global;

// The text under a name, or else the default. Refuses only want of memory.
fn text_or(
    alloc: Global,
    arguments: &Arguments<'_>,
    name: &str,
    default: &str,
) -> Result<PlSmallStr, WordsFault>
    requires { is_option name.now ≡ true }
    ensures known { IfOk result (λ text. option_or default.now text_of name.now arguments.now ≡ Some text) }
    ensures refused { result ≢ Err WordsFault.Words }
{
    match arguments.value_under(name) {
        Some(value) => copy_text(alloc, value),
        None => copy_text(alloc, default),
    }
}

// The line end under a name, or else the default. Refuses a text that names none, and want of memory.
fn terminator_or(
    alloc: Global,
    arguments: &Arguments<'_>,
    name: &str,
    default: &str,
) -> Result<PlSmallStr, WordsFault>
    requires { is_option name.now ≡ true }
    ensures known { IfOk result (λ text. option_or default.now terminator_named name.now arguments.now ≡ Some text) }
    ensures refused { IsErrOf result WordsFault.Words → option_or default.now terminator_named name.now arguments.now ≡ None }
{
    match arguments.value_under(name) {
        Some(value) => match parse_terminator(value) {
            Some(end) => copy_text(alloc, end),
            None => Err(WordsFault::Words),
        },
        None => copy_text(alloc, default),
    }
}

/// How the frame is written. Refuses values without a meaning, and want of memory.
#[tactic(auto, unfolding(crate::specs::Arguments::is_option, crate::specs::Arguments::is_flag))]
pub(crate) fn write_options_of(
    alloc: Global,
    arguments: &Arguments<'_>,
) -> Result<CsvWriterOptions, WordsFault>
    ensures options { IfOk result (λ options. write_options_of arguments.now ≡ Some options) }
    ensures refused { IsErrOf result WordsFault.Words → write_options_of arguments.now ≡ None }
{
    let separator = set_or(alloc, arguments, "--out-sep", b',')?;
    let quote_char = set_or(alloc, arguments, "--out-quote", b'"')?;
    let null = text_or(alloc, arguments, "--out-null", "")?;
    let line_terminator = terminator_or(alloc, arguments, "--out-eol", "\n")?;
    let quote_style = set_or(alloc, arguments, "--style", QuoteStyle::Necessary)?;
    let batch_size = set_or(alloc, arguments, "--batch", 1024)?;
    Ok(CsvWriterOptions {
        include_bom: arguments.has_flag("--out-bom"),
        include_header: !arguments.has_flag("--out-no-header"),
        batch_size,
        maintain_order: false,
        serialize_options: SerializeOptions {
            separator,
            quote_char,
            null,
            line_terminator,
            quote_style,
        },
    })
}
