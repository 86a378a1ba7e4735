//! A region whose text a worker took from a cell.
use crate::region::Region;
use std::sync::OnceToken;

/// A region, and what shows that the cell of its place holds its text.
#[derive(Drop)]
pub(crate) struct Taken<'a> {
    pub(crate) region: Region<'a>,
    pub(crate) token: OnceToken<'a, Vec<u8>>,
}
