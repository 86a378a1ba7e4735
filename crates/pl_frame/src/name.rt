//! Names of columns.
ghost use Rattle.std.specs.Prelude.{◌≡◌, ◌<◌, ℕ, List, length, map, Some, IfOk, IfSome, IsOkUnless};
ghost use Rattle.std.specs.Cmp.{partial_equiv_from_equiv};
ghost use Rattle.std.specs.Cmp.Lexicographic.{nat_list_eq_equiv};
ghost use Rattle.std.specs.List.{list_any};
ghost use Rattle.std.specs.Str.{bytes_eq};
ghost use Rattle.pl_frame.specs.Names.{first_repeat};
ghost use Rattle.pl_frame.specs.declared.error.PolarsError.TheVariants as error;

use crate::error::{PolarsError, PolarsResult};
use std::alloc::Global;
use std::fmt;
use std::marker::Model;
use std::sync::ArcStr;

// How a text is held: by one owner, or by several that share it.
#[derive(Debug)]
enum Held {
    Alone(String),
    Shared(ArcStr),
}

// By one call, so that no proof about a function that drops a name has two cases.
impl Drop for Held {
    fn drop(self) {
        match self {
            Held::Alone(text) => drop(text),
            Held::Shared(text) => drop(text),
        }
    }
}

/// A short text, as the name of a column. Contracts see it as its bytes, which are UTF-8.
#[derive(Debug, Drop)]
pub struct PlSmallStr {
    held: Held,
}

impl Model for PlSmallStr {
    ghost use Rattle.std.specs.Prelude.{ℕ, List};
    ghost use Rattle.pl_frame.specs.SmallText.{held_bytes};

    ghost Value = { List ℕ };

    ghost view = { λ name. held_bytes name.held };
}

impl PlSmallStr {
    /// A copy of `text`. Refuses only want of memory.
    pub fn from_str(alloc: Global, text: &str) -> PolarsResult<PlSmallStr>
        ensures copied { IfOk result (λ name. name ≡ text.now) }
        ensures refused { IsOkUnless result error.OutOfMemory }
    {
        match String::from_str(alloc, text) {
            Ok(text) => Ok(PlSmallStr {
                held: Held::Alone(text),
            }),
            Err(_) => Err(PolarsError::OutOfMemory),
        }
    }

    /// An equal text, which is shared where this one is. Refuses only want of memory.
    pub fn try_clone(&self) -> PolarsResult<PlSmallStr>
        ensures equal { IfOk result (λ name. name ≡ self.now) }
        ensures refused { IsOkUnless result error.OutOfMemory }
    {
        match &self.held {
            Held::Alone(text) => PlSmallStr::from_str(*text.allocator(), text.as_str()),
            Held::Shared(text) => match text.clone() {
                Ok(text) => Ok(PlSmallStr {
                    held: Held::Shared(text),
                }),
                Err(_) => Err(PolarsError::OutOfMemory),
            },
        }
    }

    /// An equal text, whose copies share its bytes. Refuses only want of memory.
    pub fn shared(&self, alloc: Global) -> PolarsResult<PlSmallStr>
        ensures equal { IfOk result (λ name. name ≡ self.now) }
        ensures refused { IsOkUnless result error.OutOfMemory }
    {
        match ArcStr::from_str(alloc, self.as_str()) {
            Ok(text) => Ok(PlSmallStr {
                held: Held::Shared(text),
            }),
            Err(_) => Err(PolarsError::OutOfMemory),
        }
    }

    /// The text, without taking memory.
    pub fn as_str(&self) -> &str
        ensures { result.now ≡ self.now }
    {
        match &self.held {
            Held::Alone(text) => text.as_str(),
            Held::Shared(text) => text.as_str(),
        }
    }
}

// By its bytes.
impl PartialEq for PlSmallStr {
    ghost eq = { bytes_eq };

    ghost laws = { partial_equiv_from_equiv nat_list_eq_equiv };

    fn eq(&self, other: &PlSmallStr) -> bool {
        self.as_str() == other.as_str()
    }
}

impl Eq for PlSmallStr {
    ghost laws = { nat_list_eq_equiv };
}

/// What has a name.
pub trait Named {
    /// The bytes of the name.
    ghost name: { Self → List ℕ };

    /// The name, without taking memory.
    fn name_text(&self) -> &str
        ensures { result.now ≡ name self.now };
}

impl Named for PlSmallStr {
    ghost name = { λ text. text };

    #[inline]
    fn name_text(&self) -> &str {
        self.as_str()
    }
}

/// The first place whose name an earlier one has, without taking memory.
pub fn find_repeat<T: Named>(items: &[T]) -> Option<usize>
    ensures first { result ≡ first_repeat (map T.name items.now) }
    ensures within { IfSome result (λ place. place < length items.now) }
{
    for (place, item) in items.iter().enumerate() {
        if has_name(&items[..place], item.name_text()) {
            return Some(place);
        }
    }
    None
}

// Whether one of them has this name.
pub(crate) fn has_name<T: Named>(items: &[T], name: &str) -> bool
    ensures { result ≡ list_any (λ item. bytes_eq (T.name item) name.now) items.now }
{
    items.iter().any(|item| item.name_text() == name)
}

// The text itself.
impl fmt::Display for PlSmallStr {
    ghost output = { λ name. Some name };

    fn fmt<W: fmt::Write>(&self, f: &mut fmt::Formatter<W>) -> fmt::Result {
        let text = self.as_str();
        write!(f, "{text}")
    }
}
