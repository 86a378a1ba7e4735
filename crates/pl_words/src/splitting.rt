//! Texts cut at an ASCII byte.
ghost use Rattle.std.specs.Prelude.{◌≡◌, ◌++◌, ◌∷◌, ◌<◌, ◌≢◌, [], Err, IfOk, OnOk, MatchOption, length};
ghost use Rattle.std.specs.Option.{option_map};
ghost use Rattle.pl_words.specs.Splitting.{cut_at, parts_at};

use crate::words::WordsFault;
use pl_frame::name::PlSmallStr;
use std::alloc::Global;

/// What stands before and behind the first such byte, where there is one.
pub fn cut_at(text: &str, mark: u8) -> Option<(&str, &str)>
    requires { mark < 128 }
    ensures cut { option_map (λ cut. (cut.0.now, cut.1.now)) result ≡ cut_at mark text.now }
    ensures parts { MatchOption result (parts_at mark text.now ≡ text.now ∷ []) (λ cut. parts_at mark text.now ≡ cut.0.now ∷ parts_at mark cut.1.now) }
    ensures shorter { MatchOption result (Unit {0}) (λ cut. length cut.1.now < length text.now) }
{
    text.split_once(mark as char)
}

/// A text of its own. Refuses only want of memory.
pub(crate) fn copy_text(alloc: Global, text: &str) -> Result<PlSmallStr, WordsFault>
    ensures copied { IfOk result (λ copy. copy ≡ text.now) }
    ensures refused { result ≢ Err WordsFault.Words }
{
    match PlSmallStr::from_str(alloc, text) {
        Ok(copy) => Ok(copy),
        Err(_) => Err(WordsFault::OutOfMemory),
    }
}

// Puts a copy of a text at the end. Refuses only want of memory.
fn push_text(alloc: Global, texts: &mut Vec<PlSmallStr>, text: &str) -> Result<(), WordsFault>
    ensures pushed { OnOk result (texts.new.items ≡ texts.old.items ++ text.now ∷ []) }
    ensures refused { result ≢ Err WordsFault.Words }
{
    let copy = copy_text(alloc, text)?;
    match texts.push(copy) {
        Ok(()) => Ok(()),
        Err(_) => Err(WordsFault::OutOfMemory),
    }
}

/// The parts between such bytes. Refuses only want of memory.
pub fn split_texts(alloc: Global, text: &str, mark: u8) -> Result<Vec<PlSmallStr>, WordsFault>
    requires { mark < 128 }
    ensures texts { IfOk result (λ texts. texts.items ≡ parts_at mark text.now) }
    ensures refused { result ≢ Err WordsFault.Words }
{
    let mut texts = Vec::new(alloc);
    let mut rest = text;
    while let Some((part, behind)) = cut_at(rest, mark) {
        push_text(alloc, &mut texts, part)?;
        rest = behind;
    }
    push_text(alloc, &mut texts, rest)?;
    Ok(texts)
}
