//! The places of the categories of an enum.
ghost use Rattle.std.specs.Prelude.{◌≡◌, IfOk, None, position};
ghost use Rattle.std.specs.Str.{bytes_eq};
ghost use Rattle.pl_frame.specs.Names.{first_repeat};

use crate::name::PlSmallStr;
use indexmap::IndexSet;
use std::alloc::{AllocError, Global};
use std::marker::Model;

/// Texts in order, of which none stands twice. The place of each is found by its hash.
#[derive(Debug, Drop)]
pub struct Places {
    keys: IndexSet<String>,
}

impl Model for Places {
    ghost use Rattle.std.specs.Prelude.{ℕ, List, map, string_bytes};

    ghost Value = { List (List ℕ) };

    ghost view = { λ places. map string_bytes places.keys.keys };
}

impl Places {
    /// The places of these texts. Refuses only want of memory.
    pub fn new(alloc: Global, texts: &[PlSmallStr]) -> Result<Places, AllocError>
        requires { first_repeat texts.now ≡ None }
        ensures { IfOk result (λ places. places ≡ texts.now) }
    {
        let mut keys = IndexSet::new(alloc);
        for text in texts {
            let Ok(key) = String::from_str(alloc, text.as_str()) else {
                return Err(AllocError);
            };
            let Ok(_) = keys.insert(key) else {
                return Err(AllocError);
            };
        }
        Ok(Places { keys })
    }

    /// The place of a text, without taking memory.
    #[inline]
    pub fn find(&self, text: &str) -> Option<usize>
        ensures { result ≡ position (bytes_eq text.now) self.now }
    {
        self.keys.get_index_of(text)
    }
}
