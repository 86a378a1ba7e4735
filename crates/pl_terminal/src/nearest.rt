//! The word that is nearest to another.
ghost use Rattle.std.specs.Prelude.{◌≡◌, length, map, IfOk};
ghost use Rattle.pl_terminal.specs.Nearest.{distance, IsNearestOrNone};

use std::alloc::{AllocError, Global};
use strsim::levenshtein;

// How far two words are apart.
fn distance(alloc: Global, from: &str, to: &str) -> Result<usize, AllocError>
    ensures { IfOk result (λ d. d ≡ distance from.now to.now) }
{
    levenshtein(alloc, from, to)
}

/// The place of the first of the words that are nearest to a word, if fewer than so many characters differ at one. Refuses only want of memory.
pub fn nearest(
    alloc: Global,
    word: &str,
    words: &[&str],
    few: usize,
) -> Result<Option<usize>, AllocError>
    ensures { IfOk result (IsNearestOrNone word.now (map (λ other. other.now) words.now) few (length words.now)) }
{
    let mut least = few;
    let mut found = None;
    for (place, other) in words.iter().enumerate() {
        let changes = distance(alloc, word, other)?;
        if changes < least {
            least = changes;
            found = Some(place);
        }
    }
    Ok(found)
}
