//! Texts of a source, each in a cell that is written once: one worker reads them, and all take them.
ghost use Rattle.std.specs.Prelude.{◌≡◌, ◌++◌, ◌<◌, ◌≤◌, ℕ, List, Option, true, IfOk, OnOk, IfSome, IsErrOf, drop, length, map, slice_index_or};
ghost use Rattle.std.specs.Sync.OnceLock.{Named};
ghost use Rattle.pl_intake.specs.declared.intake.Intake.{Intake};
ghost use Rattle.std.specs.Io.KnownBytes.{IsAtEnd};
ghost use Rattle.std.specs.List.{concat};
ghost use Rattle.pl_frame.specs.Came.{IsReadOn};
ghost use Rattle.pl_frame.specs.Causes.{Rose};
ghost use Rattle.pl_frame.specs.Dialect.{IsDialect};
ghost use Rattle.pl_scan.specs.Dialect.{marks_of, comment_of};
ghost use Rattle.pl_intake.specs.Texts.{AreSetIn};
ghost use Rattle.pl_intake.specs.Intake.{HasGiven, HasStopped, IsPastLimit};

use crate::intake::Intake;
use crate::rooms::{Rooms, make_ahead};
use pl_frame::read_all::ReadAllFault;
use pl_frame::source::Source;
use pl_scan::dialect::Dialect;
use std::alloc::{AllocError, Global};
use std::sync::atomic::{AtomicUsize, Ordering};
use std::sync::{Mutex, OnceLock, OnceToken, Wait};
use std::thread;

/// So many texts there are at most, where all are kept.
pub const CELLS: usize = 1 << 10;

// So many texts have one length, about; those behind them are twice as long.
const ALIKE: usize = 80;

/// So many texts are read before workers start. Where a source has no more, there are no other workers.
pub const FIRST: usize = 1;

// So many texts at the front are shorter,
const FEW: usize = 8;

// no longer than this, and so many texts behind them no longer than twice this, and so on: where pieces are long, little is read before workers
// start, and a text is short beside what came before it.
const SHORT: usize = 1 << 17;

// So often a worker looks for a text before it sleeps until it is there.
const LOOKS: usize = 64;

/// Cells for so many texts of a source, each of which is written once. Refuses want of memory.
pub fn make_cells(alloc: Global, count: usize) -> Result<Vec<OnceLock<Vec<u8>>>, AllocError> {
    let mut cells = Vec::new(alloc);
    for _ in 0..count {
        cells.push(OnceLock::new())?;
    }
    Ok(cells)
}

/// How long the text of a place is, about, in bytes: a piece, but for the first ones.
pub fn text_size(piece_size: usize, place: usize) -> usize {
    let size = if place < FEW {
        piece_size / 2 + 1
    } else {
        piece_size
    };
    size.min(SHORT << (place / FEW).min(30))
}

// How long the text of a place is, where all are kept. Those of all places have more bytes than the largest input, where a piece is as long as it
// is by default.
fn kept_size(piece_size: usize, place: usize) -> usize {
    text_size(
        piece_size.saturating_mul(1 << (place / ALIKE).min(30)),
        place,
    )
}

/// Reads texts of a source into cells behind those that hold one, one after another, until so many do or there are no more. Keeps what shows
/// them.
pub fn read_texts<'a, W: Wait, So: Source>(
    rt: &W,
    alloc: Global,
    cells: &'a [OnceLock<Vec<u8>>],
    rooms: &Mutex<Rooms>,
    tokens: &mut Vec<OnceToken<'a, Vec<u8>>>,
    count: usize,
    intake: &mut Intake,
    source: &mut So,
    limit: usize,
    dialect: &Dialect<'_>,
    width: usize,
    piece_size: usize,
) -> Result<(), ReadAllFault>
    requires dialect { IsDialect (marks_of dialect.now) (comment_of dialect.now) }
    requires within { intake.old.size ≤ limit }
    requires ended { intake.old.is_ended ≡ true → IsAtEnd (So.left source.old) }
    requires set { AreSetIn cells.now tokens.old.items }
    ensures set { OnOk result (AreSetIn cells.now tokens.new.items) }
    ensures given { (before : Option (List ℕ)) (first : Intake) → HasGiven before (So.left source.old) limit first intake.old (concat (map (λ token. token.value.items) tokens.old.items))
        → OnOk result (HasGiven before (So.left source.new) limit first intake.new (concat (map (λ token. token.value.items) tokens.new.items))) }
    ensures too_long { IsErrOf result ReadAllFault.TooLong → IsPastLimit (So.left source.old) (So.left source.new) limit intake.old.size }
    ensures failed { IsErrOf result ReadAllFault.Source → HasStopped (So.left source.old) (So.left source.new) limit intake.old.size }
    ensures cause { IsErrOf result ReadAllFault.Source → Rose (So.faults source.old) (So.faults source.new) }
    ensures read_on { IsReadOn (So.left source.old) (So.left source.new) }
    ensures later { So.faults source.old ≤ So.faults source.new }
{
    for place in tokens.len()..count.min(cells.len()) {
        if intake.is_ended() {
            return Ok(());
        }
        let room = rooms.lock(rt).take(alloc);
        let size = kept_size(piece_size, place);
        let text = intake.next_text(source, room, size, limit, dialect, width)?;
        rooms.lock(rt).keep_len(text.len());
        match cells[place].set(rt, text) {
            Ok(token) => {
                if tokens.push(token).is_err() {
                    return Err(ReadAllFault::OutOfMemory);
                }
            }
            Err(text) => {
                if intake.put_back(text).is_err() {
                    return Err(ReadAllFault::OutOfMemory);
                }
                return Ok(());
            }
        }
    }
    Ok(())
}

/// Writes no text into so many cells from a place on: who takes one of them takes no more. A cell that was written stays as it is.
pub fn close_cells<W: Wait>(
    rt: &W,
    alloc: Global,
    cells: &[OnceLock<Vec<u8>>],
    from: usize,
    count: usize,
) {
    for place in from..from.saturating_add(count).min(cells.len()) {
        let _ = cells[place].set(rt, Vec::new(alloc));
    }
}

// What shows the text of a cell, as soon as it is there.
fn wait_text<'a, W: Wait>(rt: &W, cell: &'a OnceLock<Vec<u8>>) -> Option<OnceToken<'a, Vec<u8>>>
    ensures { IfSome result (λ token. token.of ≡ cell.now.id) }
{
    for _ in 0..LOOKS {
        if let Some(token) = cell.witness() {
            return Some(token);
        }
        thread::yield_now();
    }
    cell.wait(rt);
    cell.witness()
}

/// A text that a worker took: the place of its cell, and what shows that the cell holds it.
#[derive(Drop)]
pub struct TakenText<'a> {
    pub place: usize,
    pub token: OnceToken<'a, Vec<u8>>,
}

/// Takes the next text, as soon as it is there; none where there are no more. While it is not there, memory is made for one that comes later.
pub fn take_text<'a, W: Wait>(
    rt: &W,
    alloc: Global,
    cells: &'a [OnceLock<Vec<u8>>],
    rooms: &Mutex<Rooms>,
    next: &AtomicUsize,
    piece_size: usize,
) -> Option<TakenText<'a>>
    ensures inside { IfSome result (λ taken. taken.place < length cells.now) }
    ensures of { IfSome result (λ taken. (d : Named) → taken.token.of ≡ (slice_index_or cells.now taken.place d).id) }
{
    let place = next.fetch_add(1, Ordering::SeqCst);
    if place >= cells.len() {
        return None;
    }
    if cells[place].witness().is_none() {
        make_ahead(rt, alloc, rooms, kept_size(piece_size, place));
    }
    let token = wait_text(rt, &cells[place])?;
    Some(TakenText { place, token })
}

/// The texts of the first cells, which these tokens show.
pub fn texts_of<'a>(
    alloc: Global,
    cells: &'a [OnceLock<Vec<u8>>],
    tokens: &Vec<OnceToken<'a, Vec<u8>>>,
) -> Result<Vec<&'a [u8]>, AllocError>
    requires { AreSetIn cells.now tokens.now.items }
    ensures { IfOk result (λ texts. map (λ text. text.now) texts.items ≡ map (λ token. token.value.items) tokens.now.items) }
{
    let mut texts = Vec::new(alloc);
    for place in 0..tokens.len().min(cells.len()) {
        texts.push(cells[place].value(&tokens[place]).as_slice())?;
    }
    Ok(texts)
}

/// What is left of texts, and of what stands behind them, from a place on.
pub fn left_behind(
    alloc: Global,
    texts: &[&[u8]],
    rest: &[u8],
    from: usize,
) -> Result<Vec<u8>, AllocError>
    requires { from ≤ length (concat (map (λ text. text.now) texts.now)) }
    ensures { IfOk result (λ left. left.items ≡ drop from (concat (map (λ text. text.now) texts.now) ++ rest.now)) }
{
    let mut left = Vec::new(alloc);
    let mut from = from;
    for text in texts {
        if from < text.len() {
            left.extend_from_slice(&text[from..])?;
            from = 0;
        } else {
            from -= text.len();
        }
    }
    left.extend_from_slice(rest)?;
    Ok(left)
}
