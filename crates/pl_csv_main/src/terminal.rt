//! What is told at a terminal: who sits there, and how it is written.
use std::io::IsTerminal;

/// Whether standard error is a terminal, and whether it is written in colours.
#[derive(Clone, Copy)]
pub(crate) struct Terminal {
    pub is_there: bool,
    pub has_colours: bool,
}

impl Terminal {
    /// What standard error is. It has colours unless NO_COLOR is set, or TERM is `dumb`.
    pub(crate) fn of<R: std::rt::Env + Alloc>(rt: &R, err: &impl IsTerminal) -> Self {
        let is_there = err.is_terminal();
        Terminal {
            is_there,
            has_colours: is_there && !is_set(rt, "NO_COLOR") && !is_dumb(rt),
        }
    }
}

// Whether a variable of the environment has a text that is not empty.
fn is_set<R: std::rt::Env + Alloc>(rt: &R, name: &str) -> bool
where
    R::A: Drop,
{
    match std::env::var(rt, name) {
        Ok(value) => !value.as_str().is_empty(),
        Err(_) => false,
    }
}

// Whether the terminal is known to know no colours.
fn is_dumb<R: std::rt::Env + Alloc>(rt: &R) -> bool
where
    R::A: Drop,
{
    match std::env::var(rt, "TERM") {
        Ok(value) => value.as_str() == "dumb",
        Err(_) => true,
    }
}
