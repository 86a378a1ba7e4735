//! The arguments of a process.

use std::env::FillError;
use std::rt::Env;
use std::{env, io};

// The arguments of a process without its own name, which may be no text.
#[derive(Drop)]
struct WithoutName<'a, E: Env> {
    env: &'a E,
}

impl<'a, E: Env> Env for WithoutName<'a, E> {
    fn arg(&self, i: usize, buf: &mut [u8]) -> Result<usize, FillError> {
        self.env.arg(i.saturating_add(1), buf)
    }

    fn var(&self, name: &str, buf: &mut [u8]) -> Result<usize, FillError> {
        self.env.var(name, buf)
    }

    fn var_at(&self, i: usize, buf: &mut [u8]) -> Result<usize, FillError> {
        self.env.var_at(i, buf)
    }
}

/// The arguments behind the program's name. Refuses one that is not UTF-8, and want of memory.
pub fn words<R: Env + AllocGlobal>(rt: &R) -> io::Result<Vec<String>> {
    let arguments = (WithoutName { env: rt }, rt.alloc());
    let words: Vec<String> = env::args(&arguments)?.collect(rt.alloc())?;
    Ok(words)
}
