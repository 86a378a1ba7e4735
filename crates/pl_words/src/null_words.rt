//! The texts that mean null, as words give them.
ghost use Rattle.std.specs.Prelude.{◌≡◌, None, Some, IfOk, IsErrOf};
ghost use Rattle.std.specs.Option.{option_map};
ghost use Rattle.pl_words.specs.NullWords.{null_values_by, null_values_of};
ghost use Rattle.pl_words.specs.Splitting.{cut_at};

use crate::arguments::Arguments;
use crate::from_text::{FromText, read_list};
use crate::splitting::{copy_text, cut_at, split_texts};
use crate::words::WordsFault;
use pl_cells::null_values::{NamedTexts, NullTexts, NullValues};
use pl_frame::name::PlSmallStr;
use std::alloc::Global;

// NAME=TEXT.
impl FromText for (PlSmallStr, PlSmallStr) {
    ghost meaning = { cut_at 61 };

    fn from_text(alloc: Global, text: &str) -> Result<Self, WordsFault> {
        match cut_at(text, b'=') {
            Some((name, text)) => Ok((copy_text(alloc, name)?, copy_text(alloc, text)?)),
            None => Err(WordsFault::Words),
        }
    }
}

// Null values in one of three ways, or none. Refuses two ways together, names without a text, and want of memory.
fn read_null_values(
    alloc: Global,
    text: Option<&str>,
    texts: Option<&str>,
    entries: Option<&str>,
) -> Result<Option<NullValues>, WordsFault>
    ensures given { IfOk result (λ given. null_values_by (option_map (λ t. t.now) text.entry) (option_map (λ t. t.now) texts.entry) (option_map (λ t. t.now) entries.entry) ≡ Some given) }
    ensures refused { IsErrOf result WordsFault.Words → null_values_by (option_map (λ t. t.now) text.entry) (option_map (λ t. t.now) texts.entry) (option_map (λ t. t.now) entries.entry) ≡ None }
{
    match (text, texts, entries) {
        (None, None, None) => Ok(None),
        (Some(text), None, None) => {
            let text = copy_text(alloc, text)?;
            Ok(Some(NullValues::AllColumnsSingle(text)))
        }
        (None, Some(texts), None) => {
            let texts = split_texts(alloc, texts, b',')?;
            Ok(Some(NullValues::AllColumns(NullTexts::new(texts))))
        }
        (None, None, Some(entries)) => {
            let entries = read_list(alloc, entries)?;
            Ok(Some(NullValues::Named(NamedTexts::new(entries))))
        }
        _ => Err(WordsFault::Words),
    }
}

/// The texts that mean null, if some are given. Refuses texts without a meaning, and want of memory.
#[tactic(auto, unfolding(crate::specs::Arguments::is_option))]
pub(crate) fn null_values_of(
    alloc: Global,
    arguments: &Arguments<'_>,
) -> Result<Option<NullValues>, WordsFault>
    ensures given { IfOk result (λ given. null_values_of arguments.now ≡ Some given) }
    ensures refused { IsErrOf result WordsFault.Words → null_values_of arguments.now ≡ None }
{
    let text = arguments.value_under("--null");
    let texts = arguments.value_under("--nulls");
    let entries = arguments.value_under("--null-of");
    read_null_values(alloc, text, texts, entries)
}
