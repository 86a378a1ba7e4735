//! What came of cells that workers took, put to the parts that these hold.
ghost use Rattle.std.specs.Prelude.{◌≡◌, ◌<◌, List, All, Err, map, length, IfOk};
ghost use Rattle.std.specs.Sync.OnceLock.{Named};
ghost use Rattle.pl_frame.specs.declared.error.PolarsError.TheVariants as error;
ghost use Rattle.pl_options.specs.declared.read_options.CsvReadOptions.{CsvReadOptions};
ghost use Rattle.pl_write.specs.declared.options.CsvWriterOptions.{CsvWriterOptions};
ghost use Rattle.pl_multi.specs.Cells.{AreSetIn, IsTakenCell, held_bytes, token_bytes};
ghost use Rattle.pl_multi.specs.Groups.{IsTakenOf, ArePrintedOf};

use crate::groups::PartLines;
use crate::lines::FoundLines;
use pl_frame::error::{PolarsError, PolarsResult};
use pl_options::read_options::CsvReadOptions;
use pl_rows::push::push;
use pl_write::options::CsvWriterOptions;
use std::alloc::{AllocError, Global};
use std::sync::{Arc, OnceLock, OnceToken};

/// What came of the bytes in a cell that a worker took.
#[derive(Drop)]
pub(crate) struct TakenCell<'a> {
    pub(crate) place: usize,
    pub(crate) token: OnceToken<'a, Option<Arc<Vec<u8>, Global>>>,
    pub(crate) printed: PolarsResult<FoundLines>,
}

/// A part that a worker took: its place in the group, and what came of it.
#[derive(Drop)]
pub(crate) struct TakenPart {
    place: usize,
    printed: PolarsResult<FoundLines>,
}

/// What each worker took, with what came of who reads. Refuses only want of memory.
pub(crate) fn with_own<'a>(
    all: Result<Vec<Vec<TakenCell<'a>>>, AllocError>,
    own: Vec<TakenCell<'a>>,
) -> Result<Vec<Vec<TakenCell<'a>>>, AllocError>
    ensures { (read : CsvReadOptions) (write : CsvWriterOptions) (cells : List Named) → IfOk all.entry (λ all. All (λ taken. All (IsTakenCell read write cells) taken.items) all.items)
        → All (IsTakenCell read write cells) own.entry.items → IfOk result (λ all. All (λ taken. All (IsTakenCell read write cells) taken.items) all.items) }
{
    let mut all = all?;
    push(&mut all, own)?;
    Ok(all)
}

// What came of cells that a worker took, as what came of the parts that these tokens show.
fn settle<'a>(
    alloc: Global,
    cells: &'a [OnceLock<Option<Arc<Vec<u8>, Global>>>],
    tokens: &Vec<OnceToken<'a, Option<Arc<Vec<u8>, Global>>>>,
    taken: Vec<TakenCell<'a>>,
    read: &CsvReadOptions,
    write: &CsvWriterOptions,
) -> Result<Vec<TakenPart>, AllocError>
    requires set { AreSetIn cells.now tokens.now.items }
    requires taken { All (IsTakenCell read.now write.now cells.now) taken.items }
    ensures { IfOk result (λ parts. All (IsTakenOf read.now write.now (token_bytes tokens.now.items)) parts.items) }
{
    let mut parts = Vec::new(alloc);
    for one in taken {
        let TakenCell {
            place,
            token,
            printed,
        } = one;
        if place < tokens.len() {
            tokens[place].agrees(&token);
            push(&mut parts, TakenPart { place, printed })?;
        }
    }
    Ok(parts)
}

/// The same of what each worker took.
pub(crate) fn settle_each<'a>(
    alloc: Global,
    cells: &'a [OnceLock<Option<Arc<Vec<u8>, Global>>>],
    tokens: &Vec<OnceToken<'a, Option<Arc<Vec<u8>, Global>>>>,
    all: Result<Vec<Vec<TakenCell<'a>>>, AllocError>,
    read: &CsvReadOptions,
    write: &CsvWriterOptions,
) -> Result<Vec<Vec<TakenPart>>, AllocError>
    requires set { AreSetIn cells.now tokens.now.items }
    requires taken { IfOk all (λ all. All (λ taken. All (IsTakenCell read.now write.now cells.now) taken.items) all.items) }
    ensures { IfOk result (λ settled. All (λ parts. All (IsTakenOf read.now write.now (token_bytes tokens.now.items)) parts.items) settled.items) }
{
    let mut settled = Vec::new(alloc);
    for taken in all? {
        let parts = settle(alloc, cells, tokens, taken, read, write)?;
        push(&mut settled, parts)?;
    }
    Ok(settled)
}

/// Parts with these bytes, of which nobody else holds any; of none a row is printed. Where others hold some, and where memory is wanting, none.
pub(crate) fn own_parts(
    alloc: Global,
    held: Vec<Arc<Vec<u8>, Global>>,
) -> Result<Vec<PartLines>, AllocError>
    ensures bytes { IfOk result (λ group. map (λ one. one.bytes.items) group.items ≡ held_bytes held.items) }
    ensures unprinted { IfOk result (λ group. All (λ one. one.printed ≡ Err error.OutOfMemory) group.items) }
{
    let mut group = Vec::new(alloc);
    for one in held {
        let Some(bytes) = Arc::into_inner(one) else {
            return Err(AllocError);
        };
        let part = PartLines::new(bytes, Err(PolarsError::OutOfMemory));
        push(&mut group, part)?;
    }
    Ok(group)
}

// Puts what came of parts that a worker took.
fn put_parts(group: &mut [PartLines], taken: Vec<TakenPart>)
    requires { All (λ one. one.place < length group.old) taken.items }
    ensures same { map (λ one. one.bytes.items) group.new ≡ map (λ one. one.bytes.items) group.old }
    ensures printed { (read : CsvReadOptions) (write : CsvWriterOptions) → All (IsTakenOf read write (map (λ one. one.bytes.items) group.old)) taken.items
        → ArePrintedOf read write group.old → ArePrintedOf read write group.new }
{
    for one in taken {
        let TakenPart { place, printed } = one;
        group[place].put(printed);
    }
}

/// Puts what came of parts that workers took, where memory sufficed.
pub(crate) fn put_each(group: &mut [PartLines], all: Result<Vec<Vec<TakenPart>>, AllocError>)
    requires { IfOk all (λ all. All (λ taken. All (λ one. one.place < length group.old) taken.items) all.items) }
    ensures same { map (λ one. one.bytes.items) group.new ≡ map (λ one. one.bytes.items) group.old }
    ensures printed { (read : CsvReadOptions) (write : CsvWriterOptions) → IfOk all (λ all. All (λ taken. All (IsTakenOf read write (map (λ one. one.bytes.items) group.old)) taken.items) all.items)
        → ArePrintedOf read write group.old → ArePrintedOf read write group.new }
{
    let Ok(all) = all else {
        return;
    };
    for taken in all {
        put_parts(group, taken);
    }
}
