//! Texts that are handed to workers: as they wait to be read, and as they were read.
ghost use Rattle.std.specs.Prelude.{◌≡◌, ◌<◌, ℕ, List, IfOk, IfErr, IfSome, length, map};
ghost use Rattle.std.specs.Arc.{arc_value};

use std::alloc::{AllocError, Global};
use std::marker::{Brand, Model, PhantomData};
use std::snapshot::Snapshot;
use std::sync::{Arc, OnceLock, OnceToken, Wait};

/// A cell that is written once, and then shows which bytes a text has. It does not keep them.
pub type Cell = OnceLock<Snapshot<Vec<u8>>>;

/// What shows the bytes of a text, also when its memory is used again.
pub type Shown<'a> = OnceToken<'a, Snapshot<Vec<u8>>>;

/// A text that several hold.
pub type Text = Arc<Vec<u8>, Global>;

/// What all texts of one reading have in common, where `R` is what a worker makes of a text. It is known where code is proved; no value of it is made.
pub trait Handing<R> {
    ghost use Rattle.std.specs.Prelude.{ℕ, List};

    // The names of the cells that show the texts, in order.
    ghost names: { List ℕ };

    // Of these bytes a worker makes this.
    ghost reads: { List ℕ → R → Type 0 };
}

impl<R> Handing<R> for Brand {
    ghost use Rattle.std.specs.Prelude.{[]};

    ghost names = { [] };

    ghost reads = { λ _ _. Unit {0} };
}

/// Cells that show texts. Refuses want of memory.
pub fn make_shown(alloc: Global, count: usize) -> Result<Vec<Cell>, AllocError>
    ensures { IfOk result (λ cells. length cells.items ≡ count) }
{
    let mut cells = Vec::new(alloc);
    for _ in 0..count {
        cells.push(OnceLock::new())?;
    }
    Ok(cells)
}

/// A text that waits to be read. Contracts see it as its bytes.
#[derive(Drop)]
pub struct HandedText<'a, R: Drop, K: Handing<R>> {
    place: usize,
    shown: Shown<'a>,
    text: Text,
    read: PhantomData<R>,
    handing: PhantomData<K>,
}

impl<'a, R: Drop, K: Handing<R>> Model for HandedText<'a, R, K> {
    ghost use Rattle.std.specs.Prelude.{◌≡◌, ℕ, List, Some, slice_get};
    ghost use Rattle.std.specs.Arc.{arc_value};

    ghost Value = { List ℕ };

    ghost view = { λ it. it.shown.value.value.items };

    ghost invariant = { λ it. (slice_get K.names it.place ≡ Some it.shown.of) × ((arc_value it.text).items ≡ it.shown.value.value.items) };
}

/// What was made of a text. Contracts see it as the bytes of the text.
#[derive(Drop)]
pub struct ReadText<'a, R: Drop, K: Handing<R>> {
    place: usize,
    shown: Shown<'a>,
    read: R,
    handing: PhantomData<K>,
}

impl<'a, R: Drop, K: Handing<R>> Model for ReadText<'a, R, K> {
    ghost use Rattle.std.specs.Prelude.{◌≡◌, ℕ, List, Some, slice_get};

    ghost Value = { List ℕ };

    ghost view = { λ it. it.shown.value.value.items };

    ghost invariant = { λ it. (slice_get K.names it.place ≡ Some it.shown.of) × K.reads it.shown.value.value.items it.read };
}

/// A text that was handed out, and what was made of it, if that is known. Contracts see it as its bytes.
#[derive(Drop)]
pub struct PendingText<'a, R: Drop, K: Handing<R>> {
    place: usize,
    shown: Shown<'a>,
    text: Text,
    read: Option<R>,
    handing: PhantomData<K>,
}

impl<'a, R: Drop, K: Handing<R>> Model for PendingText<'a, R, K> {
    ghost use Rattle.std.specs.Prelude.{◌≡◌, ℕ, List, Some, IfSome, slice_get};
    ghost use Rattle.std.specs.Arc.{arc_value};

    ghost Value = { List ℕ };

    ghost view = { λ it. it.shown.value.value.items };

    ghost invariant = { λ it. (slice_get K.names it.place ≡ Some it.shown.of) × ((arc_value it.text).items ≡ it.shown.value.value.items) × IfSome it.read (K.reads it.shown.value.value.items) };
}

impl<'a, R: Drop, K: Handing<R>> HandedText<'a, R, K> {
    /// The text of a place, which its cell shows. Gives the text back where the cell was written already, and where memory is wanting.
    pub fn show<W: Wait>(
        rt: &W,
        alloc: Global,
        cells: &'a [Cell],
        place: usize,
        text: Vec<u8>,
    ) -> Result<HandedText<'a, R, K>, Vec<u8>>
        requires names { map (λ cell. cell.id) cells.now ≡ K.names }
        requires inside { place < length cells.now }
        ensures shown { IfOk result (λ handed. handed ≡ text.items) }
        ensures back { IfErr result (λ back. back.items ≡ text.items) }
    {
        match cells[place].set(rt, Snapshot::of(&text)) {
            Ok(shown) => match Arc::new(alloc, text) {
                Ok(text) => Ok(HandedText {
                    place,
                    shown,
                    text,
                    read: PhantomData,
                    handing: PhantomData,
                }),
                Err(failed) => Err(failed.value),
            },
            Err(_) => Err(text),
        }
    }

    /// Its bytes.
    pub fn as_slice(&self) -> &[u8]
        ensures { result.now ≡ self.now }
    {
        self.text.as_slice()
    }

    /// The same text, of which this was made.
    pub fn read_as(self, read: R) -> ReadText<'a, R, K>
        requires { K.reads self read }
        ensures { result ≡ self.entry }
    {
        let HandedText {
            place,
            shown,
            text: _,
            read: _,
            handing: _,
        } = self;
        ReadText {
            place,
            shown,
            read,
            handing: PhantomData,
        }
    }
}

impl<'a, R: Drop, K: Handing<R>> ReadText<'a, R, K> {
    /// The place of the cell that shows the text.
    pub fn place(&self) -> usize {
        self.place
    }
}

impl<'a, R: Drop, K: Handing<R>> PendingText<'a, R, K> {
    /// A text that is handed out. Refuses only want of memory.
    pub fn of(handed: &HandedText<'a, R, K>) -> Result<PendingText<'a, R, K>, AllocError>
        ensures { IfOk result (λ pending. pending ≡ handed.now) }
    {
        let text = Arc::try_clone(&handed.text)?;
        Ok(PendingText {
            place: handed.place,
            shown: handed.shown.again(),
            text,
            read: None,
            handing: PhantomData,
        })
    }

    /// The place of the cell that shows it.
    pub fn place(&self) -> usize {
        self.place
    }

    /// Whether it is known what was made of it.
    pub fn is_read(&self) -> bool {
        self.read.is_some()
    }

    /// Keeps what was made of a text, where it is this one.
    pub fn keep(&mut self, other: ReadText<'a, R, K>)
        ensures { self.new ≡ self.old }
    {
        let ReadText {
            place,
            shown,
            read,
            handing: _,
        } = other;
        if place == self.place {
            self.shown.agrees(&shown);
            self.read = Some(read);
        }
    }

    /// Its bytes, and what was made of them.
    pub fn into_parts(self) -> (Text, Option<R>)
        ensures text { (arc_value result.0).items ≡ self.entry }
        ensures read { IfSome result.1 (K.reads self.entry) }
    {
        let PendingText {
            place: _,
            shown: _,
            text,
            read,
            handing: _,
        } = self;
        (text, read)
    }
}
