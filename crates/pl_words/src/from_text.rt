//! Values that texts write, alone, in lists and as options set them.
ghost use Rattle.std.specs.Prelude.{◌≡◌, true, ◌++◌, ◌∷◌, [], ℕ, List, Option, None, Some, IfOk, OnOk, IsErrOf};
ghost use Rattle.std.specs.Option.{option_map};
ghost use Rattle.pl_words.specs.Arguments.{is_option};
ghost use Rattle.pl_words.specs.Defaults.{option_or, set_to};
ghost use Rattle.pl_words.specs.Lists.{list_of};

use crate::arguments::Arguments;
use crate::splitting::cut_at;
use crate::words::WordsFault;
use std::alloc::Global;

/// What a text can write.
pub(crate) trait FromText: Drop {
    /// What a text means, where it has a meaning.
    ghost meaning: { List ℕ → Option Self };

    /// The value that a text writes. Refuses a text without a meaning, and want of memory.
    fn from_text(alloc: Global, text: &str) -> Result<Self, WordsFault>
        ensures meant { IfOk result (λ value. meaning text.now ≡ Some value) }
        ensures refused { IsErrOf result WordsFault.Words → meaning text.now ≡ None };
}

/// A value with a meaning. Refuses a value without one.
pub(crate) fn meant<T: Drop>(meaning: Option<T>) -> Result<T, WordsFault>
    ensures known { IfOk result (λ known. meaning ≡ Some known) }
    ensures refused { IsErrOf result WordsFault.Words → meaning ≡ None }
{
    match meaning {
        Some(known) => Ok(known),
        None => Err(WordsFault::Words),
    }
}

// Puts the value of a part at the end. Refuses a part without a meaning, and want of memory.
fn push_value<T: FromText>(alloc: Global, values: &mut Vec<T>, part: &str) -> Result<(), WordsFault>
    ensures pushed { OnOk result (option_map (λ value. values.old.items ++ value ∷ []) (T.meaning part.now) ≡ Some values.new.items) }
    ensures refused { IsErrOf result WordsFault.Words → T.meaning part.now ≡ None }
{
    let value = T::from_text(alloc, part)?;
    match values.push(value) {
        Ok(()) => Ok(()),
        Err(_) => Err(WordsFault::OutOfMemory),
    }
}

/// The values between the commas. Refuses a text with a part that has no meaning, and want of memory.
pub(crate) fn read_list<T: FromText>(alloc: Global, text: &str) -> Result<Vec<T>, WordsFault>
    ensures values { IfOk result (λ values. list_of T.meaning text.now ≡ Some values.items) }
    ensures refused { IsErrOf result WordsFault.Words → list_of T.meaning text.now ≡ None }
{
    let mut values = Vec::new(alloc);
    let mut rest = text;
    while let Some((part, behind)) = cut_at(rest, b',') {
        push_value(alloc, &mut values, part)?;
        rest = behind;
    }
    push_value(alloc, &mut values, rest)?;
    Ok(values)
}

/// What the value under a name means, if the name is there. Refuses a value without a meaning, and want of memory.
pub(crate) fn set_under<T: FromText>(
    alloc: Global,
    arguments: &Arguments<'_>,
    name: &str,
) -> Result<Option<T>, WordsFault>
    requires { is_option name.now ≡ true }
    ensures known { IfOk result (λ set. option_or None (set_to T.meaning) name.now arguments.now ≡ Some set) }
    ensures refused { IsErrOf result WordsFault.Words → option_or None (set_to T.meaning) name.now arguments.now ≡ None }
{
    match arguments.value_under(name) {
        Some(value) => Ok(Some(T::from_text(alloc, value)?)),
        None => Ok(None),
    }
}

/// What the value under a name means, or else the default. Refuses a value without a meaning, and want of memory.
pub(crate) fn set_or<T: FromText>(
    alloc: Global,
    arguments: &Arguments<'_>,
    name: &str,
    default: T,
) -> Result<T, WordsFault>
    requires { is_option name.now ≡ true }
    ensures known { IfOk result (λ set. option_or default T.meaning name.now arguments.now ≡ Some set) }
    ensures refused { IsErrOf result WordsFault.Words → option_or default T.meaning name.now arguments.now ≡ None }
{
    match arguments.value_under(name) {
        Some(value) => T::from_text(alloc, value),
        None => Ok(default),
    }
}
