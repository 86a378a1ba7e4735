//! Texts on their way to workers, and what they read on its way back.
use crate::handed::{HandedText, Handing, ReadText};
use std::alloc::Global;
use std::collections::VecDeque;
use std::sync::{Condvar, Mutex, Wait};
use std::thread;

// Texts that nobody took, what was read of others and was not collected, and whether no more texts come.
#[derive(Drop)]
struct Texts<'a, R: Drop, K: Handing<R>> {
    waiting: VecDeque<HandedText<'a, R, K>>,
    read: Vec<ReadText<'a, R, K>>,
    is_closed: bool,
}

/// Texts that wait to be read, and what was read of texts.
#[derive(Drop)]
pub struct Queue<'a, R: Drop, K: Handing<R>> {
    texts: Mutex<Texts<'a, R, K>>,
    came: Condvar,
}

// So often a worker looks for a text before it sleeps until there is one.
const LOOKS: usize = 64;

// What a look for a text finds.
#[derive(Drop)]
enum Look<'a, R: Drop, K: Handing<R>> {
    Text(HandedText<'a, R, K>),
    None,
    Closed,
}

impl<'a, R: Drop, K: Handing<R>> Queue<'a, R, K> {
    /// No text.
    pub fn new(alloc: Global) -> Queue<'a, R, K> {
        Queue {
            texts: Mutex::new(Texts {
                waiting: VecDeque::new(alloc),
                read: Vec::new(alloc),
                is_closed: false,
            }),
            came: Condvar::new(),
        }
    }

    /// Puts a text behind those that wait. False where memory is wanting.
    pub fn put<W: Wait>(&self, rt: &W, text: HandedText<'a, R, K>) -> bool {
        let is_put = match self.texts.lock(rt).waiting.push_back(text) {
            Ok(()) => true,
            Err(failed) => {
                drop(failed);
                false
            }
        };
        self.came.notify_one();
        is_put
    }

    /// How many texts wait.
    pub fn len<W: Wait>(&self, rt: &W) -> usize {
        self.texts.lock(rt).waiting.len()
    }

    /// No more texts come. Those that wait are read.
    pub fn close<W: Wait>(&self, rt: &W) {
        self.texts.lock(rt).is_closed = true;
        self.came.notify_all();
    }

    /// No more texts come, and nobody takes those that wait.
    pub fn stop<W: Wait>(&self, rt: &W) {
        {
            let mut texts = self.texts.lock(rt);
            texts.is_closed = true;
            texts.waiting.clear();
        }
        self.came.notify_all();
    }

    /// Whether no more texts come.
    pub fn is_closed<W: Wait>(&self, rt: &W) -> bool {
        self.texts.lock(rt).is_closed
    }

    // The text that waits longest, if one does.
    fn look<W: Wait>(&self, rt: &W) -> Look<'a, R, K> {
        let mut texts = self.texts.lock(rt);
        match texts.waiting.pop_front() {
            Some(text) => Look::Text(text),
            None if texts.is_closed => Look::Closed,
            None => Look::None,
        }
    }

    /// The text that waits longest, if one does.
    pub fn take_now<W: Wait>(&self, rt: &W) -> Option<HandedText<'a, R, K>> {
        self.texts.lock(rt).waiting.pop_front()
    }

    /// The text that waits longest, as soon as one does; none where no more come.
    pub fn take<W: Wait>(&self, rt: &W) -> Option<HandedText<'a, R, K>> {
        for _ in 0..LOOKS {
            match self.look(rt) {
                Look::Text(text) => return Some(text),
                Look::Closed => return None,
                Look::None => thread::yield_now(),
            }
        }
        let mut texts = self.came.wait_while(rt, self.texts.lock(rt), |texts| {
            texts.waiting.is_empty() && !texts.is_closed
        });
        texts.waiting.pop_front()
    }

    /// Keeps what was read of a text until it is collected. False where memory is wanting.
    pub fn give_back<W: Wait>(&self, rt: &W, read: ReadText<'a, R, K>) -> bool {
        match self.texts.lock(rt).read.push(read) {
            Ok(()) => true,
            Err(failed) => {
                drop(failed);
                false
            }
        }
    }

    /// What was read since this was called before.
    pub fn collect<W: Wait>(&self, rt: &W, alloc: Global) -> Vec<ReadText<'a, R, K>> {
        std::mem::replace(&mut self.texts.lock(rt).read, Vec::new(alloc))
    }
}
