//! Columns whose cells go into arrays while they are read, piece by piece.
ghost use Rattle.std.specs.Prelude.{◌≡◌, ◌≢◌, ◌++◌, ◌∷◌, ◌<◌, ℕ, [], List, length, map, slice_index, IfOk, OnOk};
ghost use Rattle.pl_cells.specs.InitBuffers.{entry_at};
ghost use Rattle.pl_csv_c.specs.Arrays.{HavePlain};
ghost use Rattle.pl_csv_c.specs.Growing.{IsGrown, AreGrown, ArePlain};
ghost use Rattle.pl_csv_c.specs.Kinds.{kind_of};
ghost use Rattle.pl_csv_c.specs.declared.kinds.Kind.TheVariants as kind;
ghost use Rattle.pl_csv_c.specs.Views.{AreKept, IsFrameKept, IsKeptOf};
ghost use Rattle.pl_frame.specs.Frame.{ColumnValue, height_of};
ghost use Rattle.pl_frame.specs.FrameParts.{empty_columns, stacked, with_values};

use crate::arrays::{Arrays, make_room, no_cells, put_rows};
use crate::kept::{KeptColumn, KeptFrame, view_of};
use crate::kinds::kind_of;
use pl_frame::column::Column;
use pl_frame::data_type::DataType;
use pl_frame::schema::Schema;
use pl_rows::push::push;
use std::alloc::{AllocError, Global};

/// A column of which the first cells stand in arrays. They are no codes.
#[derive(Drop)]
pub struct Growing {
    pub name: Vec<u8>,
    pub dtype: DataType,
    pub arrays: Arrays,
    pub nulls: usize,
}

// One without cells, for a column of a schema. Refuses only want of memory.
fn empty_one(alloc: Global, schema: &Schema, place: usize) -> Result<Growing, AllocError>
    requires { place < length schema.now }
    ensures { IfOk result (IsGrown (record { name = (entry_at schema.now place).0; dtype = (entry_at schema.now place).1; values = [] })) }
{
    let (name, dtype) = schema.entry(place);
    let Ok(dtype) = dtype.try_clone() else {
        return Err(AllocError);
    };
    let name = Vec::from_slice(alloc, name.as_str().as_bytes())?;
    let arrays = no_cells(alloc, kind_of(&dtype))?;
    Ok(Growing {
        name,
        dtype,
        arrays,
        nulls: 0,
    })
}

/// One without cells for each of these columns of a schema. Refuses only want of memory.
pub fn all_empty(
    alloc: Global,
    schema: &Schema,
    places: &[usize],
) -> Result<Vec<Growing>, AllocError>
    requires { (k : ℕ) → k < length places.now → slice_index places.now k < length schema.now }
    ensures { IfOk result (λ all. AreGrown (empty_columns (map (entry_at schema.now) places.now)) all.items) }
{
    let mut all = Vec::new(alloc);
    for place in places {
        push(&mut all, empty_one(alloc, schema, *place)?)?;
    }
    Ok(all)
}

// Puts the cells of a column behind others, and lets it go. Refuses only want of memory.
fn grow(growing: &mut Growing, column: Column) -> Result<(), AllocError>
    ensures { (before : ColumnValue) → IsGrown before growing.old → OnOk result (IsGrown (with_values before (before.values ++ column.values)) growing.new) }
{
    let nulls = growing.nulls.checked_add(column.null_count());
    let put = put_rows(&mut growing.arrays, kind_of(&growing.dtype), &column);
    drop(column);
    put?;
    let Some(nulls) = nulls else {
        return Err(AllocError);
    };
    growing.nulls = nulls;
    Ok(())
}

/// Puts the cells of a column behind those of each. Refuses only want of memory.
pub fn grow_all(all: &mut [Growing], columns: Vec<Column>) -> Result<(), AllocError>
    requires { length all.old ≡ length columns.items }
    ensures { (before : List ColumnValue) → AreGrown before all.old → OnOk result (AreGrown (stacked before columns.items) all.new) }
{
    let mut place = 0;
    for column in columns {
        grow(&mut all[place], column)?;
        place += 1;
    }
    Ok(())
}

// Makes room for so many times the cells that there are. Refuses only want of memory.
fn grow_room(growing: &mut Growing, times: usize) -> Result<(), AllocError>
    ensures { (column : ColumnValue) → IsGrown column growing.old → OnOk result (IsGrown column growing.new) }
{
    let rows = growing.arrays.present.len().saturating_mul(times);
    let bytes = growing.arrays.bytes.len().saturating_mul(times);
    make_room(&mut growing.arrays, kind_of(&growing.dtype), rows, bytes)
}

// Makes room for so many times the cells that there are, in each. Refuses only want of memory.
fn make_rooms(all: &mut [Growing], times: usize) -> Result<(), AllocError>
    ensures { (columns : List ColumnValue) → AreGrown columns all.old → OnOk result (AreGrown columns all.new) }
{
    for place in 0..all.len() {
        grow_room(&mut all[place], times)?;
    }
    Ok(())
}

/// Puts the cells of a column behind those of each, and makes room for so many times as many. Refuses only want of memory.
pub fn grow_piece(all: &mut [Growing], columns: Vec<Column>, times: usize) -> Result<(), AllocError>
    requires { length all.old ≡ length columns.items }
    ensures { (before : List ColumnValue) → AreGrown before all.old → OnOk result (AreGrown (stacked before columns.items) all.new) }
{
    grow_all(all, columns)?;
    make_rooms(all, times)
}

// The number of rows.
fn height_of(all: &[Growing]) -> usize
    ensures { (columns : List ColumnValue) → AreGrown columns all.now → result ≡ height_of columns }
{
    match all {
        [] => 0,
        [first, ..] => first.arrays.present.len(),
    }
}

// A column that is kept, whose cells are no codes.
fn kept_plain(alloc: Global, name: Vec<u8>, arrays: Arrays) -> KeptColumn
    ensures { (column : ColumnValue) → name.items ≡ column.name → HavePlain (kind_of column.dtype) column arrays → kind_of column.dtype ≢ kind.Codes → IsKeptOf column result }
{
    KeptColumn {
        name,
        arrays,
        categories: Vec::new(alloc),
    }
}

// Puts a column and its view behind others. Refuses only want of memory.
fn keep_one(alloc: Global, frame: &mut KeptFrame, one: Growing) -> Result<(), AllocError>
    ensures kept { (columns : List ColumnValue) (column : ColumnValue) → AreKept columns frame.old.columns.items frame.old.views.items → IsGrown column one → kind_of column.dtype ≢ kind.Codes
        → OnOk result (AreKept (columns ++ column ∷ []) frame.new.columns.items frame.new.views.items) }
    ensures height { frame.new.height ≡ frame.old.height }
{
    let Growing {
        name,
        dtype,
        arrays,
        nulls,
    } = one;
    let kept = kept_plain(alloc, name, arrays);
    let view = view_of(&dtype, nulls, &kept);
    drop(dtype);
    push(&mut frame.columns, kept)?;
    push(&mut frame.views, view)?;
    Ok(())
}

/// The frame of columns whose cells all stand in arrays, kept. Refuses only want of memory.
pub fn keep_all(alloc: Global, all: Vec<Growing>) -> Result<KeptFrame, AllocError>
    ensures { (columns : List ColumnValue) → AreGrown columns all.items → ArePlain columns → IfOk result (IsFrameKept columns) }
{
    let mut kept = KeptFrame {
        columns: Vec::new(alloc),
        views: Vec::new(alloc),
        height: height_of(&all),
    };
    for one in all {
        keep_one(alloc, &mut kept, one)?;
    }
    Ok(kept)
}
