//! Cells for the parts of a group: one worker reads them into the cells, and all take them from there.
ghost use Rattle.std.specs.Prelude.{◌≡◌, ◌<◌, ◌++◌, ◌∷◌, [], length, IfOk, IfSome, OnOk, OnErr, slice_index_or};
ghost use Rattle.std.specs.Sync.OnceLock.{Named};
ghost use Rattle.pl_multi.specs.Cells.{AreSetIn, held_bytes, token_bytes};

use crate::rooms::{Rooms, make_room};
use std::alloc::{AllocError, Global};
use std::sync::atomic::{AtomicUsize, Ordering};
use std::sync::{Arc, Mutex, OnceLock, OnceToken, Wait};
use std::thread;

// So often a worker looks for a part before it sleeps until it is there.
const LOOKS: usize = 64;

/// Parts that were read into the first cells: what shows that these hold them, and their bytes.
#[derive(Drop)]
pub(crate) struct ShownParts<'a> {
    pub(crate) tokens: Vec<OnceToken<'a, Option<Arc<Vec<u8>, Global>>>>,
    pub(crate) held: Vec<Arc<Vec<u8>, Global>>,
}

/// A cell that a worker took: its place, and what shows that it holds something.
#[derive(Drop)]
pub(crate) struct SeenCell<'a> {
    pub(crate) place: usize,
    pub(crate) token: OnceToken<'a, Option<Arc<Vec<u8>, Global>>>,
}

/// So many cells, each of which is written once: with the bytes of a part, or with none where no part comes. Refuses only want of memory.
pub(crate) fn make_cells(
    alloc: Global,
    count: usize,
) -> Result<Vec<OnceLock<Option<Arc<Vec<u8>, Global>>>>, AllocError>
    ensures { IfOk result (λ cells. length cells.items ≡ count) }
{
    let mut cells = Vec::new(alloc);
    for _ in 0..count {
        cells.push(OnceLock::new())?;
    }
    Ok(cells)
}

impl<'a> ShownParts<'a> {
    /// None.
    pub(crate) fn new(alloc: Global) -> ShownParts<'a>
        ensures tokens { result.tokens.items ≡ [] }
        ensures held { result.held.items ≡ [] }
    {
        ShownParts {
            tokens: Vec::new(alloc),
            held: Vec::new(alloc),
        }
    }

    /// Puts the bytes of a part into the next cell. Refuses want of memory, and so where the cell holds something.
    pub(crate) fn show<W: Wait>(
        &mut self,
        rt: &W,
        alloc: Global,
        cells: &'a [OnceLock<Option<Arc<Vec<u8>, Global>>>],
        place: usize,
        bytes: Vec<u8>,
    ) -> Result<(), AllocError>
        requires inside { place < length cells.now }
        requires next { place ≡ length self.old.tokens.items }
        requires set { AreSetIn cells.now self.old.tokens.items }
        ensures set { AreSetIn cells.now self.new.tokens.items }
        ensures tokens { OnOk result (token_bytes self.new.tokens.items ≡ token_bytes self.old.tokens.items ++ bytes.items ∷ []) }
        ensures held { OnOk result (held_bytes self.new.held.items ≡ held_bytes self.old.held.items ++ bytes.items ∷ []) }
        ensures same_tokens { OnErr result (self.new.tokens.items ≡ self.old.tokens.items) }
        ensures same_held { OnErr result (self.new.held.items ≡ self.old.held.items) }
    {
        self.tokens.reserve(1)?;
        self.held.reserve(1)?;
        let Ok(mine) = Arc::new(alloc, bytes) else {
            return Err(AllocError);
        };
        let theirs = Arc::try_clone(&mine)?;
        let Ok(token) = cells[place].set(rt, Some(theirs)) else {
            return Err(AllocError);
        };
        self.tokens.push_reserved(token);
        self.held.push_reserved(mine);
        Ok(())
    }
}

/// Writes no part into so many cells from a place on: who takes one of them takes no more.
pub(crate) fn close_cells<W: Wait>(
    rt: &W,
    cells: &[OnceLock<Option<Arc<Vec<u8>, Global>>>],
    from: usize,
    count: usize,
) {
    for place in from..from.saturating_add(count).min(cells.len()) {
        let _ = cells[place].set(rt, None);
    }
}

// What shows that a cell holds something, as soon as it does. While it does not, memory is made ready for parts to come.
fn wait_cell<'a, W: Wait>(
    rt: &W,
    alloc: Global,
    cell: &'a OnceLock<Option<Arc<Vec<u8>, Global>>>,
    rooms: &Mutex<Rooms>,
) -> Option<OnceToken<'a, Option<Arc<Vec<u8>, Global>>>>
    ensures { IfSome result (λ token. token.of ≡ cell.now.id) }
{
    for _ in 0..LOOKS {
        if let Some(token) = cell.witness() {
            return Some(token);
        }
        if !make_room(rt, alloc, rooms) {
            thread::yield_now();
        }
    }
    cell.wait(rt);
    cell.witness()
}

/// Takes the next cell, as soon as it holds something; none where there are no more.
pub(crate) fn take_cell<'a, W: Wait>(
    rt: &W,
    alloc: Global,
    cells: &'a [OnceLock<Option<Arc<Vec<u8>, Global>>>],
    rooms: &Mutex<Rooms>,
    next: &AtomicUsize,
) -> Option<SeenCell<'a>>
    ensures inside { IfSome result (λ seen. seen.place < length cells.now) }
    ensures of { IfSome result (λ seen. (d : Named) → seen.token.of ≡ (slice_index_or cells.now seen.place d).id) }
{
    let place = next.fetch_add(1, Ordering::SeqCst);
    if place >= cells.len() {
        return None;
    }
    let token = wait_cell(rt, alloc, &cells[place], rooms)?;
    Some(SeenCell { place, token })
}
