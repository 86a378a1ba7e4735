//! Words of a command line, for the tests of this crate.

use std::alloc::Global;
use std::process::Abort;

// The words between blanks.
pub(crate) fn words_of(rt: &impl Abort, alloc: Global, text: &str) -> Vec<String> {
    let mut words = Vec::new(alloc);
    for word in text.split(' ') {
        let word = String::from_str(alloc, word).expect(rt, "a word");
        words.push(word).expect(rt, "a word");
    }
    words
}
