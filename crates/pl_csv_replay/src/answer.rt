//! What a run of the program answers.

use std::fmt;

/// A status with what the sinks received.
#[derive(Debug, Drop, PartialEq)]
pub struct Answer {
    pub status: u8,
    pub out: Vec<u8>,
    pub err: Vec<u8>,
}

impl fmt::Display for Answer {
    fn fmt<W: fmt::Write>(&self, f: &mut fmt::Formatter<W>) -> fmt::Result {
        let status = self.status;
        let out = self.out.escape_ascii();
        let err = self.err.escape_ascii();
        write!(f, "status {status}, out \"{out}\", err \"{err}\"")
    }
}
