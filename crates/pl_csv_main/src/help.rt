//! What the words of the program mean, for who asks.
use crate::help_words::{ALL, MEANINGS};
use std::io::Write;

// What a word means, if it is one.
fn meaning_of(word: &str) -> Option<&'static str> {
    for meaning in &MEANINGS {
        if meaning.word == word {
            return Some(meaning.text);
        }
    }
    None
}

// The text that is asked for by the words behind `help`: of all words, or of one.
fn text_for(words: &[String]) -> Option<&'static str> {
    match words {
        [] => Some(ALL),
        [word] => meaning_of(word.as_str()),
        _ => None,
    }
}

/// Prints what the word behind `help` means, or what all words mean where there is none, and answers the status: 0, 4 where a write to `out`
/// failed, and 2 where the word is none, or where there are several. A line on `err` tells 2 and 4.
pub(crate) fn help(words: &[String], out: &mut impl Write, err: &mut impl Write) -> u8 {
    let Some(text) = text_for(words) else {
        let _ = err.write_all(b"words\n");
        return 2;
    };
    print(text, out, err)
}

/// Prints a text, and answers the status: 0, and 4 where a write to `out` failed, which a line on `err` tells.
pub(crate) fn print(text: &str, out: &mut impl Write, err: &mut impl Write) -> u8 {
    if out.write_all(text.as_bytes()).is_err() {
        let _ = err.write_all(b"sink\n");
        return 4;
    }
    0
}
