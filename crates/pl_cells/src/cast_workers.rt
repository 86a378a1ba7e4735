//! Casts of columns side by side.
ghost use Rattle.std.specs.Prelude.{◌≡◌, ◌<◌, ℕ, None, IfOk, IfErr, OnOk, length, map, slice_index_or};
ghost use Rattle.pl_cells.specs.CastPlaces.{IsMade, placed_cast};
ghost use Rattle.pl_cells.specs.Casts.{first_fault, IsCastFault};
ghost use Rattle.pl_cells.specs.declared.cast_workers.Making.{Making};

use crate::casts::{cast_field, push_cast};
use pl_frame::column::Column;
use pl_frame::error::{PolarsError, PolarsResult};
use pl_frame::schema::Field;
use std::alloc::{AllocError, Global};
use std::thread;
use std::thread::Threads;

// So many workers cast at most.
const WORKERS: usize = 4;

// A field, and the cast of the column that it names with its place. Until that is made, want of memory stands for it.
#[derive(Drop)]
struct Making<'f> {
    field: &'f Field,
    made: PolarsResult<Option<(usize, Column)>>,
}

impl<'f> Making<'f> {
    // Casts the column that the field names.
    fn make(&mut self, alloc: Global, columns: &[Column], ignore_errors: bool)
        ensures field { self.new.field ≡ self.old.field }
        ensures made { IsMade ignore_errors columns.now self.new.field.now self.new.made }
    {
        self.made = cast_field(alloc, columns, self.field, ignore_errors);
    }
}

// Each field of a list, with nothing made.
fn fields_to_cast<'f>(alloc: Global, to_cast: &'f [Field]) -> Result<Vec<Making<'f>>, AllocError>
    ensures { IfOk result (λ all. map (λ one. one.field.now) all.items ≡ to_cast.entry.now) }
{
    let mut all = Vec::new(alloc);
    for field in to_cast {
        all.push(Making {
            field,
            made: Err(PolarsError::OutOfMemory),
        })?;
    }
    Ok(all)
}

// Makes the cast of each field, side by side.
fn make_each<W: Threads + Sync>(
    rt: &W,
    alloc: Global,
    columns: &[Column],
    all: &mut [Making<'_>],
    ignore_errors: bool,
)
    ensures fields { (i : ℕ) (d : Making) → i < length all.old → (slice_index_or all.new i d).field ≡ (slice_index_or all.old i d).field }
    ensures made { (i : ℕ) (d : Making) → i < length all.old → IsMade ignore_errors columns.now (slice_index_or all.new i d).field.now (slice_index_or all.new i d).made }
{
    let make = |_place: usize, one: &mut Making<'_>|
        ensures field { one.new.field ≡ one.old.field }
        ensures made { IsMade ignore_errors columns.entry.now one.new.field.now one.new.made }
    { one.make(alloc, columns, ignore_errors) };
    thread::for_each_mut(rt, all, WORKERS, &make);
}

/// The cast column of each field with its place, where there is one of its name, made by workers side by side. Refuses what
/// is wrong with the first field of which something is, and want of memory.
pub(crate) fn casts_by_workers<W: Threads + Sync>(
    rt: &W,
    alloc: Global,
    columns: &[Column],
    to_cast: &[Field],
    ignore_errors: bool,
) -> PolarsResult<Vec<Option<(usize, Column)>>>
    ensures made { IfOk result (λ casts. casts.items ≡ map (placed_cast columns.now) to_cast.now) }
    ensures faultless { OnOk result (first_fault ignore_errors columns.now to_cast.now ≡ None) }
    ensures refused { IfErr result (IsCastFault (first_fault ignore_errors columns.now to_cast.now)) }
{
    let Ok(mut all) = fields_to_cast(alloc, to_cast) else {
        return Err(PolarsError::OutOfMemory);
    };
    make_each(rt, alloc, columns, &mut all, ignore_errors);
    let mut casts = Vec::new(alloc);
    for one in all {
        match one.made {
            Ok(cast) => push_cast(&mut casts, cast)?,
            Err(fault) => return Err(fault),
        }
    }
    Ok(casts)
}
