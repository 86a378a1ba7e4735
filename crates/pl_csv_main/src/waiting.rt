//! What a person is told who starts the program without words.
use std::io::{IsTerminal, Write};

// What is told.
const WAITING: &str =
    "pl_csv waits for CSV on standard input, which Ctrl-D on an empty line ends; `pl_csv help` has its words\n";

/// Tells on `err` that the input is awaited, and how it ends, where both are terminals. A fault of `err` is passed over.
pub(crate) fn tell_waiting(input: &impl IsTerminal, err: &mut (impl Write + IsTerminal)) {
    if input.is_terminal() && err.is_terminal() {
        let _ = err.write_all(WAITING.as_bytes());
    }
}
