//! Regions that workers take as they come.
ghost use Rattle.std.specs.Prelude.{◌≡◌, ◌<◌, All, IfOk, length, map};
ghost use Rattle.pl_write.specs.Options.{cell_options};
ghost use Rattle.pl_verbatim.specs.PrintedTexts.{CanPrint};
ghost use Rattle.pl_verbatim.specs.Verbatim.{IsVerbatimOf};
ghost use Rattle.pl_regions.specs.Regions.{ArePlaced, ArePut, IsRegionOf};

use crate::region::Region;
use pl_frame::schema::Schema;
use pl_rows::plan::RangePlan;
use pl_rows::push::push;
use pl_verbatim::verbatim::Verbatim;
use pl_write::options::SerializeOptions;
use pl_write::row_printer::RowPrinter;
use std::alloc::{AllocError, Global};
use std::sync::atomic::{AtomicUsize, Ordering};
use std::thread;
use std::thread::Threads;

// The regions that one worker takes, one after another, until none is left or memory is wanting. It prints each, as far as it goes; after one
// that was not printed to its end nobody takes more, since the front ends there at the latest.
fn take_regions<'a>(
    alloc: Global,
    texts: &[&'a [u8]],
    next: &AtomicUsize,
    schema: &Schema,
    plan: &RangePlan<'_>,
    options: &SerializeOptions,
    verbatim: &Verbatim,
    piece_size: usize,
) -> Vec<Region<'a>>
    requires can { CanPrint plan.now schema.now }
    requires verbatim { IsVerbatimOf plan.now schema.now (cell_options options.now) verbatim.now }
    requires size { 0 < piece_size }
    ensures { All (IsRegionOf plan.now schema.now (cell_options options.now) (map (λ text. text.now) texts.now)) result.items }
{
    let mut taken = Vec::new(alloc);
    let Ok(mut printer) = RowPrinter::new(alloc) else {
        return taken;
    };
    for _ in 0..texts.len() {
        let place = next.fetch_add(1, Ordering::SeqCst);
        if place >= texts.len() {
            return taken;
        }
        let region = Region::printed(
            alloc,
            place,
            texts[place],
            &mut printer,
            schema,
            plan,
            options,
            verbatim,
            piece_size,
        );
        let is_whole = region.end == region.text.len();
        if push(&mut taken, region).is_err() {
            return taken;
        }
        if !is_whole {
            next.store(texts.len(), Ordering::SeqCst);
        }
    }
    taken
}

// Places for so many regions, with none of them there.
pub(crate) fn empty_places<'a>(
    alloc: Global,
    count: usize,
) -> Result<Vec<Option<Region<'a>>>, AllocError>
    ensures len { IfOk result (λ places. length places.items ≡ count) }
    ensures empty { IfOk result (λ places. All (λ region. region ≡ None) places.items) }
{
    let mut places = Vec::new(alloc);
    for _ in 0..count {
        push(&mut places, None)?;
    }
    Ok(places)
}

// Puts regions at their places.
pub(crate) fn put_regions<'a>(places: &mut [Option<Region<'a>>], taken: Vec<Region<'a>>)
    requires { All (λ region. region.place < length places.old) taken.items }
    ensures len { length places.new ≡ length places.old }
    ensures put { ArePut taken.entry.items places.old places.new }
{
    for region in taken {
        let place = region.place;
        places[place] = Some(region);
    }
}

/// Regions by their places, as they were printed by so many workers, each of which takes the next one as soon as it is done with one.
/// Where memory was wanting, some are not there. Refuses want of memory for the places.
pub(crate) fn print_regions<'a, W: Threads + Sync>(
    rt: &W,
    alloc: Global,
    workers: usize,
    texts: &[&'a [u8]],
    schema: &Schema,
    plan: &RangePlan<'_>,
    options: &SerializeOptions,
    verbatim: &Verbatim,
    piece_size: usize,
) -> Result<Vec<Option<Region<'a>>>, AllocError>
    requires can { CanPrint plan.now schema.now }
    requires verbatim { IsVerbatimOf plan.now schema.now (cell_options options.now) verbatim.now }
    requires size { 0 < piece_size }
    ensures { IfOk result (λ places. ArePlaced plan.now schema.now (cell_options options.now) (map (λ text. text.now) texts.now) places.items) }
{
    let next = AtomicUsize::new(0);
    let take = |_worker: usize| -> Vec<Region<'_>>
        requires can { CanPrint plan.now schema.now }
        requires verbatim { IsVerbatimOf plan.now schema.now (cell_options options.now) verbatim.now }
        requires size { 0 < piece_size }
        ensures { All (IsRegionOf plan.entry.now schema.entry.now (cell_options options.entry.now) (map (λ text. text.now) texts.entry.now)) result.items }
    {
        take_regions(
            alloc, texts, &next, schema, plan, options, verbatim, piece_size,
        )
    };
    let all = thread::map_indices(rt, alloc, workers.min(texts.len()), &take)?;
    let mut places = empty_places(alloc, texts.len())?;
    for taken in all {
        put_regions(&mut places, taken);
    }
    Ok(places)
}
