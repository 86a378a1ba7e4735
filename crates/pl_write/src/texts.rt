//! Texts and nulls as they are written.
ghost use Rattle.std.specs.Prelude.{◌≡◌, ◌++◌, ◌∷◌, ◌==◌, ◌||◌, ◌≤◌, [], length, take, drop, OnOk, if◌then◌else◌};
ghost use Rattle.pl_text.specs.FrameText.{needs_quotes, doubled, quoted, quoted_null, written_text, written_null};
ghost use Rattle.pl_write.specs.Options.{cell_options};
ghost use Rattle.pl_write.specs.Writing.{StaysInFront};

use crate::options::{QuoteStyle, SerializeOptions};
use crate::special::holds_special;
use memchr::memchr;
use std::alloc::AllocError;

/// Whether a text is quoted where quotes are written only if necessary.
#[inline]
pub fn is_quoting_needed(text: &[u8], separator: u8, quote: u8) -> bool
    ensures { result ≡ needs_quotes separator quote text.now }
{
    text.is_empty() || holds_special(text, separator, quote)
}

// Appends the text with each quote doubled.
#[tactic(auto, using(crate::proofs::KeptLaws::keeping))]
fn push_doubled(block: &mut Vec<u8>, text: &[u8], quote: u8) -> Result<(), AllocError>
    ensures text { OnOk result (block.new.items ≡ block.old.items ++ doubled quote text.now) }
    ensures kept { StaysInFront block.old.items block.new.items }
{
    let mut rest = text;
    while let Some(at) = memchr(quote, rest) {
        let (front, behind) = rest.split_at(at);
        block.extend_from_slice(front)?;
        block.extend_from_slice(&[quote, quote])?;
        rest = &behind[1..];
    }
    block.extend_from_slice(rest)?;
    Ok(())
}

// Doubles each quote from a place of the block on, by way of a copy in `scratch`.
#[tactic(auto, using(crate::proofs::KeptLaws::keeping))]
#[cold]
fn double_by_copy(
    block: &mut Vec<u8>,
    scratch: &mut Vec<u8>,
    start: usize,
    quote: u8,
) -> Result<(), AllocError>
    requires { start ≤ length block.old.items }
    ensures text { OnOk result (block.new.items ≡ take start block.old.items ++ doubled quote (drop start block.old.items)) }
    ensures kept { StaysInFront (take start block.old.items) block.new.items }
{
    scratch.clear();
    scratch.extend_from_slice(&block[start..])?;
    block.truncate(start);
    push_doubled(block, scratch, quote)
}

// Doubles each quote from a place of the block on. Where there is none, which is nearly always, nothing is copied.
#[tactic(auto, using(crate::proofs::KeptLaws::keeping))]
#[inline]
fn double_from(
    block: &mut Vec<u8>,
    scratch: &mut Vec<u8>,
    start: usize,
    quote: u8,
) -> Result<(), AllocError>
    requires { start ≤ length block.old.items }
    ensures text { OnOk result (block.new.items ≡ take start block.old.items ++ doubled quote (drop start block.old.items)) }
    ensures kept { StaysInFront (take start block.old.items) block.new.items }
{
    match memchr(quote, &block[start..]) {
        None => Ok(()),
        Some(_) => double_by_copy(block, scratch, start, quote),
    }
}

/// Closes a quoted text, of which the quote before it and the text itself stand at the end of the block, the text from
/// `start` on. `scratch` is a buffer for its own use, of which nothing is expected.
#[tactic(auto, using(crate::proofs::KeptLaws::keeping))]
#[inline]
pub(crate) fn close_quoted(
    block: &mut Vec<u8>,
    scratch: &mut Vec<u8>,
    start: usize,
    quote: u8,
) -> Result<(), AllocError>
    requires { start ≤ length block.old.items }
    ensures text { OnOk result (block.new.items ≡ take start block.old.items ++ (doubled quote (drop start block.old.items) ++ quote ∷ [])) }
    ensures kept { StaysInFront (take start block.old.items) block.new.items }
{
    double_from(block, scratch, start, quote)?;
    block.push(quote)?;
    Ok(())
}

/// Appends a text between quotes, with each quote in it doubled.
#[tactic(auto, using(crate::proofs::KeptLaws::keeping))]
pub(crate) fn push_quoted(block: &mut Vec<u8>, text: &[u8], quote: u8) -> Result<(), AllocError>
    ensures text { OnOk result (block.new.items ≡ block.old.items ++ quoted quote text.now) }
    ensures kept { StaysInFront block.old.items block.new.items }
{
    block.push(quote)?;
    push_doubled(block, text, quote)?;
    block.push(quote)?;
    Ok(())
}

// Appends a text, quoted where it is empty or holds the separator, a line feed, a carriage return or the quote.
#[tactic(auto, using(crate::proofs::KeptLaws::keeping))]
#[inline]
pub(crate) fn push_as_needed(
    block: &mut Vec<u8>,
    text: &[u8],
    separator: u8,
    quote: u8,
) -> Result<(), AllocError>
    ensures text { OnOk result (block.new.items ≡ block.old.items ++ (if needs_quotes separator quote text.now then quoted quote text.now else text.now)) }
    ensures kept { StaysInFront block.old.items block.new.items }
{
    if is_quoting_needed(text, separator, quote) {
        push_quoted(block, text, quote)
    } else {
        block.extend_from_slice(text)
    }
}

/// Appends a text, quoted as the style asks.
#[tactic(auto, using(crate::proofs::KeptLaws::keeping))]
#[inline]
pub(crate) fn push_text(
    block: &mut Vec<u8>,
    text: &[u8],
    options: &SerializeOptions,
) -> Result<(), AllocError>
    ensures text { OnOk result (block.new.items ≡ block.old.items ++ written_text (cell_options options.now) text.now) }
    ensures kept { StaysInFront block.old.items block.new.items }
{
    match options.quote_style {
        QuoteStyle::Necessary => {
            push_as_needed(block, text, options.separator, options.quote_char)
        }
        QuoteStyle::Never => block.extend_from_slice(text),
        QuoteStyle::Always => push_quoted(block, text, options.quote_char),
        QuoteStyle::NonNumeric => push_quoted(block, text, options.quote_char),
    }
}

// Appends the null text between quotes, which is never doubled.
#[tactic(auto, using(crate::proofs::KeptLaws::keeping))]
fn push_quoted_null(block: &mut Vec<u8>, null: &[u8], quote: u8) -> Result<(), AllocError>
    ensures text { OnOk result (block.new.items ≡ block.old.items ++ quoted_null quote null.now) }
    ensures kept { StaysInFront block.old.items block.new.items }
{
    block.push(quote)?;
    block.extend_from_slice(null)?;
    block.push(quote)?;
    Ok(())
}

/// Appends what stands for a null.
#[tactic(auto, using(crate::proofs::KeptLaws::keeping))]
#[inline]
pub(crate) fn push_null(block: &mut Vec<u8>, options: &SerializeOptions) -> Result<(), AllocError>
    ensures text { OnOk result (block.new.items ≡ block.old.items ++ written_null (cell_options options.now)) }
    ensures kept { StaysInFront block.old.items block.new.items }
{
    let null = options.null.as_str().as_bytes();
    match options.quote_style {
        QuoteStyle::Always => push_quoted_null(block, null, options.quote_char),
        QuoteStyle::Necessary => block.extend_from_slice(null),
        QuoteStyle::NonNumeric => block.extend_from_slice(null),
        QuoteStyle::Never => block.extend_from_slice(null),
    }
}
