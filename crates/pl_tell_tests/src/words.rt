//! Words without a meaning, and the sentence of a run that ended.

use pl_tell::reason::Call;
use pl_tell::telling::{Ended, Usage, sentence};
use pl_tell::wording::{Unit, meaningless_unit};
use std::alloc::Global;
use std::process::Abort;

// These words, each of its own.
fn words(rt: &impl Abort, alloc: Global, texts: &[&str]) -> Vec<String> {
    let mut words = Vec::new(alloc);
    for text in texts {
        let word = String::from_str(alloc, text).expect(rt, "a word");
        words.push(word).expect(rt, "room");
    }
    words
}

#[test]
fn the_first_words_without_a_meaning_are_found(rt: HostRuntime) {
    let given = words(&rt, rt.alloc(), &["--sep", ";", "--lossi", "--quote=ab"]);
    let found = meaningless_unit(rt.alloc(), &given);
    assert!(rt; found == Some(Unit { start: 2, count: 1 }));
}

#[test]
fn the_nearest_word_is_told(rt: HostRuntime) {
    let given = words(&rt, rt.alloc(), &["--shema", "a:int64"]);
    let ended = Ended {
        call: Call::Convert,
        words: &given,
        status: 2,
        line: "words",
    };
    let usage = Usage {
        known: &["--sep", "--schema"],
        line: "pl_csv",
    };
    let told = sentence(rt.alloc(), &ended, &usage, None).expect(&rt, "room");
    assert!(rt;
        told.as_str()
            == "`--shema` has no meaning; the nearest word is `--schema`. `pl_csv help` has all words. Usage: pl_csv"
    );
}
