//! A test of rows: whether they are written as they were read, or what is written of them stands in their fields.
ghost use Rattle.std.specs.Prelude.{◌≡◌, ◌<◌, [], true, false};
ghost use Rattle.std.specs.List.{All};
ghost use Rattle.pl_verbatim.specs.Kinds.{is_passed, is_sound_kind};

use crate::form::Form;
use crate::kinds::Kind;
use std::alloc::Global;

/// How rows stand that are written as they were read, or otherwise by a form, where such rows are looked for.
#[derive(Drop)]
pub struct Verbatim {
    // One for each column; none where no rows are looked for.
    pub(crate) kinds: Vec<Kind>,
    pub(crate) separator: u8,
    pub(crate) quote_char: u8,
    // How they are written, unless they are written as they were read.
    pub(crate) form: Option<Form>,
    // Whether all columns are read.
    pub(crate) reads_all: bool,
    ghost sound: { All (λ kind. is_sound_kind kind ≡ true) kinds.items },
    ghost ascii: { quote_char < 128 },
    ghost whole: { reads_all ≡ true → All (λ kind. is_passed kind ≡ false) kinds.items },
}

/// The rows at the front of a text that are written as they were read: so many of its bytes, and so many rows.
#[derive(Clone, Copy)]
pub struct VerbatimFront {
    pub end: usize,
    pub rows: usize,
}

impl Verbatim {
    // No rows are looked for.
    pub(crate) fn none(alloc: Global) -> Verbatim
        ensures { result.kinds.items ≡ [] }
    {
        Verbatim {
            kinds: Vec::new(alloc),
            separator: b',',
            quote_char: b'"',
            form: None,
            reads_all: true,
        }
    }
}
