//! How far a stream has come.

/// How far the bytes so far have brought the way to the records of an input (docs/grammar.md, "The starting point"). What is kept is read on
/// from there.
#[derive(Clone, Copy, Debug, PartialEq, Eq)]
pub enum Place {
    /// At the first byte: fewer than four came.
    Start,
    /// So many lines are still to be skipped.
    Lines(usize),
    /// At line ends that stand in front.
    Ends,
    /// So many items in front of the header are still to be skipped.
    Rows(usize),
    /// At the comments in front of the header, or at the header.
    Header,
    /// So many items behind the header are still to be skipped.
    Behind(usize),
    /// At the records.
    Records,
    /// Behind all records that are asked for.
    Full,
}
