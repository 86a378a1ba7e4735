//! Texts of a source that workers take and print.
ghost use Rattle.std.specs.Prelude.{◌<◌, All};
ghost use Rattle.pl_write.specs.Options.{cell_options};
ghost use Rattle.pl_verbatim.specs.PrintedTexts.{CanPrint};
ghost use Rattle.pl_verbatim.specs.Verbatim.{IsVerbatimOf};
ghost use Rattle.pl_regions.specs.Arriving.{IsTaken};

use crate::limits::is_past;
use crate::region::Region;
use crate::taken::Taken;
use pl_frame::schema::Schema;
use pl_intake::rooms::Rooms;
use pl_intake::texts::{TakenText, take_text};
use pl_rows::plan::RangePlan;
use pl_rows::push::push;
use pl_verbatim::verbatim::Verbatim;
use pl_write::options::SerializeOptions;
use pl_write::row_printer::RowPrinter;
use std::alloc::Global;
use std::sync::atomic::{AtomicUsize, Ordering};
use std::sync::{Mutex, OnceLock, Wait};

/// The regions that one worker takes, one after another, until one has no text or memory is wanting. It prints each, as far as it goes, and
/// while a text is not there it makes room for one that comes later. After one that was not printed to its end nobody takes more, nor when all
/// workers together printed more rows than a number, where there is one.
pub(crate) fn take_texts<'a, W: Wait>(
    rt: &W,
    alloc: Global,
    cells: &'a [OnceLock<Vec<u8>>],
    rooms: &Mutex<Rooms>,
    next: &AtomicUsize,
    so_far: &AtomicUsize,
    most: Option<usize>,
    schema: &Schema,
    plan: &RangePlan<'_>,
    options: &SerializeOptions,
    verbatim: &Verbatim,
    piece_size: usize,
) -> Vec<Taken<'a>>
    requires can { CanPrint plan.now schema.now }
    requires verbatim { IsVerbatimOf plan.now schema.now (cell_options options.now) verbatim.now }
    requires size { 0 < piece_size }
    ensures { All (IsTaken plan.now schema.now (cell_options options.now) cells.now) result.items }
{
    let mut taken = Vec::new(alloc);
    let Ok(mut printer) = RowPrinter::new(alloc) else {
        return taken;
    };
    for _ in 0..cells.len() {
        let Some(TakenText { place, token }) = take_text(rt, alloc, cells, rooms, next, piece_size)
        else {
            return taken;
        };
        let text = cells[place].value(&token).as_slice();
        if text.is_empty() {
            return taken;
        }
        let region = Region::printed(
            alloc,
            place,
            text,
            &mut printer,
            schema,
            plan,
            options,
            verbatim,
            piece_size,
        );
        let before = so_far.fetch_add(region.rows, Ordering::SeqCst);
        let is_last = region.end < text.len() || is_past(most, before.saturating_add(region.rows));
        if push(&mut taken, Taken { region, token }).is_err() {
            return taken;
        }
        if is_last {
            next.store(cells.len(), Ordering::SeqCst);
        }
    }
    taken
}
