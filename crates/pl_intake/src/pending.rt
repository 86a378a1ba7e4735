//! Texts of a source that were handed out and are not taken yet, in their order.
ghost use Rattle.std.specs.Prelude.{◌≡◌, ◌++◌, ◌∷◌, [], ◌<◌, ◌≤◌, ℕ, List, Option, IfNone, IfOk, IfSome, OnOk, IsErrOf, length, map};
ghost use Rattle.std.specs.Arc.{arc_value};
ghost use Rattle.std.specs.List.{concat};
ghost use Rattle.pl_frame.specs.Came.{IsReadOn};
ghost use Rattle.pl_frame.specs.Causes.{Rose};
ghost use Rattle.pl_frame.specs.Dialect.{IsDialect};
ghost use Rattle.pl_scan.specs.Dialect.{marks_of, comment_of};
ghost use Rattle.pl_intake.specs.Intake.{HasStopped, IsPastLimit};
ghost use Rattle.pl_intake.specs.Handed.{HasHanded};

use crate::handed::{Cell, HandedText, Handing, PendingText, ReadText, Text};
use crate::intake::Intake;
use crate::queue::Queue;
use crate::texts::text_size;
use pl_frame::read_all::ReadAllFault;
use pl_frame::source::Source;
use pl_scan::dialect::Dialect;
use std::alloc::{AllocError, Global};
use std::collections::VecDeque;
use std::marker::Model;
use std::sync::{Arc, Wait};

/// Texts that follow one another, and memory of texts that were taken. Contracts see the bytes of each text.
#[derive(Drop)]
pub struct Pending<'a, R: Drop, K: Handing<R>> {
    texts: VecDeque<PendingText<'a, R, K>>,
    rooms: Vec<Vec<u8>>,
}

impl<'a, R: Drop, K: Handing<R>> Model for Pending<'a, R, K> {
    ghost use Rattle.std.specs.Prelude.{ℕ, List};

    ghost Value = { List (List ℕ) };

    ghost view = { λ it. it.texts.items };
}

// The bytes of a text: themselves where nobody else holds it, else a copy.
fn into_bytes(alloc: Global, text: Text) -> Result<Vec<u8>, AllocError>
    ensures { IfOk result (λ bytes. bytes.items ≡ (arc_value text).items) }
{
    match Arc::try_unwrap(text) {
        Ok(bytes) => Ok(bytes),
        Err(shared) => {
            let mut bytes = Vec::new(alloc);
            bytes.extend_from_slice(shared.as_slice())?;
            Ok(bytes)
        }
    }
}

impl<'a, R: Drop, K: Handing<R>> Pending<'a, R, K> {
    /// No text.
    pub fn new(alloc: Global) -> Pending<'a, R, K>
        ensures { result ≡ [] }
    {
        Pending {
            texts: VecDeque::new(alloc),
            rooms: Vec::new(alloc),
        }
    }

    /// Whether there is none.
    pub fn is_empty(&self) -> bool {
        self.texts.is_empty()
    }

    /// How many there are.
    pub fn len(&self) -> usize {
        self.texts.len()
    }

    /// Keeps what was made of these texts.
    pub fn keep(&mut self, all: Vec<ReadText<'a, R, K>>)
        ensures { self.new ≡ self.old }
    {
        let first = match self.texts.front() {
            Some(one) => one.place(),
            None => 0,
        };
        for read in all {
            let place = read.place().wrapping_sub(first);
            if let Some(one) = self.texts.get_mut(place) {
                one.keep(read);
            }
        }
    }

    /// Puts a text behind them. Refuses only want of memory.
    pub fn add(&mut self, one: PendingText<'a, R, K>) -> Result<(), AllocError>
        ensures { OnOk result (self.new ≡ self.old ++ one.entry ∷ []) }
    {
        match self.texts.push_back(one) {
            Ok(()) => Ok(()),
            Err(failed) => {
                drop(failed);
                Err(AllocError)
            }
        }
    }

    /// Whether it is known what was made of the first one.
    pub fn is_next_read(&self) -> bool {
        match self.texts.front() {
            Some(one) => one.is_read(),
            None => false,
        }
    }

    /// Takes the first one, and what was made of it.
    pub fn take_first(&mut self) -> Option<(Text, Option<R>)>
        ensures first { IfSome result (λ one. self.old ≡ (arc_value one.0).items ∷ self.new) }
        ensures read { IfSome result (λ one. IfSome one.1 (K.reads (arc_value one.0).items)) }
        ensures none { IfNone result (self.new ≡ self.old) }
    {
        match self.texts.pop_front() {
            Some(one) => Some(one.into_parts()),
            None => None,
        }
    }

    /// Keeps the memory of a text that was taken, where nobody else holds it.
    pub fn keep_room(&mut self, text: Text)
        ensures { self.new ≡ self.old }
    {
        if let Ok(room) = Arc::try_unwrap(text) {
            let _ = self.rooms.push(room);
        }
    }

    // Memory of a text that was taken, or none.
    fn room(&mut self, alloc: Global) -> Vec<u8>
        ensures { self.new ≡ self.old }
    {
        match self.rooms.pop() {
            Some(room) => room,
            None => Vec::new(alloc),
        }
    }

    /// Gives the texts back, in front of what the source gives next. Refuses only want of memory.
    pub fn put_back(self, alloc: Global, intake: &mut Intake) -> Result<(), AllocError>
        ensures rest { OnOk result (intake.new.rest.items ≡ concat self.entry ++ intake.old.rest.items) }
        ensures size { intake.new.size ≡ intake.old.size }
        ensures ended { intake.new.is_ended ≡ intake.old.is_ended }
    {
        let Pending {
            mut texts,
            rooms: _,
        } = self;
        while let Some(last) = texts.pop_back() {
            let (text, _) = last.into_parts();
            intake.put_back(into_bytes(alloc, text)?)?;
        }
        Ok(())
    }
}

/// Reads the next text of a source and hands it out, by the cell of a place; it is shorter where the place is one of the first. Where the cell was
/// written already, the text is taken back, and nobody takes more.
///
/// Refuses as `read_all` does, with those bytes that came before counted in.
pub fn hand_next<'a, R: Drop, K: Handing<R>, W: Wait, So: Source>(
    rt: &W,
    alloc: Global,
    cells: &'a [Cell],
    place: usize,
    queue: &Queue<'a, R, K>,
    pending: &mut Pending<'a, R, K>,
    intake: &mut Intake,
    source: &mut So,
    limit: usize,
    dialect: &Dialect<'_>,
    width: usize,
    piece_size: usize,
) -> Result<(), ReadAllFault>
    requires dialect { IsDialect (marks_of dialect.now) (comment_of dialect.now) }
    requires names { map (λ cell. cell.id) cells.now ≡ K.names }
    requires inside { place < length cells.now }
    requires within { intake.old.size ≤ limit }
    ensures handed { OnOk result (HasHanded (So.left source.old) (So.left source.new) limit intake.old intake.new pending.old pending.new) }
    ensures too_long { IsErrOf result ReadAllFault.TooLong → IsPastLimit (So.left source.old) (So.left source.new) limit intake.old.size }
    ensures failed { IsErrOf result ReadAllFault.Source → HasStopped (So.left source.old) (So.left source.new) limit intake.old.size }
    ensures cause { IsErrOf result ReadAllFault.Source → Rose (So.faults source.old) (So.faults source.new) }
    ensures read_on { IsReadOn (So.left source.old) (So.left source.new) }
    ensures later { So.faults source.old ≤ So.faults source.new }
{
    let size = text_size(piece_size, place);
    let room = pending.room(alloc);
    let text = intake.next_text(source, room, size, limit, dialect, width)?;
    match HandedText::<R, K>::show(rt, alloc, cells, place, text) {
        Ok(handed) => {
            let Ok(one) = PendingText::of(&handed) else {
                return Err(ReadAllFault::OutOfMemory);
            };
            if pending.add(one).is_err() || !queue.put(rt, handed) {
                return Err(ReadAllFault::OutOfMemory);
            }
            Ok(())
        }
        Err(text) => {
            queue.stop(rt);
            match intake.put_back(text) {
                Ok(()) => Ok(()),
                Err(_) => Err(ReadAllFault::OutOfMemory),
            }
        }
    }
}
