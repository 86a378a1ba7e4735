//! A column as arrays, as the view of it shows them.
ghost use Rattle.std.specs.Prelude.{◌≡◌, ◌≤◌, ◌-◌, ◌++◌, take, drop, length, List, Option, map, [], ◌∷◌, IfOk, OnOk};
ghost use Rattle.pl_csv_c.specs.Arrays.{HaveCells, HaveCodes, AreArraysOf};
ghost use Rattle.pl_csv_c.specs.Kinds.{kind_of};
ghost use Rattle.pl_csv_c.specs.declared.kinds.Kind.TheVariants as kind;
ghost use Rattle.pl_frame.specs.Frame.{Scalar};

use crate::codes::{category_bytes, put_codes};
use crate::kinds::{Kind, kind_of};
use crate::put_cells::{put_flags, put_numbers, put_words};
use crate::put_texts::put_texts;
use pl_frame::column::Column;
use std::alloc::{AllocError, Global};

/// The cells of a column. Flags tell which of them are there; of the others only those have something that `Kind` says.
#[derive(Drop)]
pub struct Arrays {
    /// A flag a row.
    pub present: Vec<bool>,
    /// A number a row, 0 where there is none: that of the cell, or its place among the categories.
    pub numbers: Vec<i64>,
    /// Two words a row, the low one first, 0 where there is none.
    pub words: Vec<u64>,
    /// Where each row's text ends in the bytes, behind the place where the first begins.
    pub ends: Vec<usize>,
    /// The texts, one behind the other.
    pub bytes: Vec<u8>,
    /// The categories.
    pub categories: Vec<Vec<u8>>,
}

// So many rows are copied at a time: they go through the processor's cache.
const ROWS: usize = 1 << 13;

// Arrays of no cells.
pub(crate) fn no_cells(alloc: Global, kind: Kind) -> Result<Arrays, AllocError>
    ensures cells { IfOk result (HaveCells kind []) }
    ensures none { IfOk result (λ arrays. arrays.categories.items ≡ []) }
{
    let mut ends = Vec::new(alloc);
    if let Kind::Texts = kind {
        ends.push(0)?;
    }
    Ok(Arrays {
        present: Vec::new(alloc),
        numbers: Vec::new(alloc),
        words: Vec::new(alloc),
        ends,
        bytes: Vec::new(alloc),
        categories: Vec::new(alloc),
    })
}

// Makes room for so many more rows, and for so many bytes of texts. Refuses only want of memory.
pub(crate) fn make_room(
    arrays: &mut Arrays,
    kind: Kind,
    rows: usize,
    bytes: usize,
) -> Result<(), AllocError>
    ensures cells { (cells : List (Option Scalar)) → HaveCells kind cells arrays.old → OnOk result (HaveCells kind cells arrays.new) }
    ensures categories { arrays.new.categories ≡ arrays.old.categories }
{
    arrays.present.reserve(rows)?;
    match kind {
        Kind::Numbers | Kind::Codes => arrays.numbers.reserve(rows),
        Kind::Words => arrays.words.reserve(rows.saturating_mul(2)),
        Kind::Texts => {
            arrays.ends.reserve(rows)?;
            arrays.bytes.reserve(bytes)
        }
        Kind::Nowhere => Ok(()),
    }
}

// Puts the cells of a column behind others, where they are no codes. Refuses only want of memory.
pub(crate) fn put_rows(arrays: &mut Arrays, kind: Kind, column: &Column) -> Result<(), AllocError>
    ensures cells { (cells : List (Option Scalar)) → HaveCells kind cells arrays.old → OnOk result (HaveCells kind (cells ++ column.now.values) arrays.new) }
    ensures categories { arrays.new.categories ≡ arrays.old.categories }
{
    put_flags(&mut arrays.present, column)?;
    match kind {
        Kind::Numbers => put_numbers(&mut arrays.numbers, column),
        Kind::Words => put_words(&mut arrays.words, column),
        Kind::Texts => {
            put_texts(&mut arrays.ends, &mut arrays.bytes, column)?;
            Ok(())
        }
        Kind::Codes | Kind::Nowhere => Ok(()),
    }
}

// Puts the cells of the rows from one up to another behind others, where they are no codes. Refuses only want of memory.
fn put_run(
    alloc: Global,
    arrays: &mut Arrays,
    kind: Kind,
    column: &Column,
    from: usize,
    to: usize,
) -> Result<(), AllocError>
    requires { (from ≤ to) × (to ≤ length column.now.values) }
    ensures cells { (cells : List (Option Scalar)) → HaveCells kind cells arrays.old
        → OnOk result (HaveCells kind (cells ++ take (to - from) (drop from column.now.values)) arrays.new) }
    ensures categories { arrays.new.categories ≡ arrays.old.categories }
{
    let part = column.plain(alloc, from, to)?;
    let done = put_rows(arrays, kind, &part);
    drop(part);
    done
}

// The cells of a column as arrays, where they are no codes. Refuses only want of memory.
fn plain_arrays(alloc: Global, kind: Kind, column: &Column) -> Result<Arrays, AllocError>
    ensures cells { IfOk result (HaveCells kind column.now.values) }
    ensures none { IfOk result (λ arrays. arrays.categories.items ≡ []) }
{
    let rows = column.len();
    let mut arrays = no_cells(alloc, kind)?;
    make_room(&mut arrays, kind, rows, 0)?;
    let mut from = 0;
    while from < rows {
        let to = from + ROWS.min(rows - from);
        put_run(alloc, &mut arrays, kind, column, from, to)?;
        from = to;
    }
    Ok(arrays)
}

// The codes of a column as arrays. Refuses only want of memory.
fn coded_arrays(alloc: Global, column: &Column) -> Result<Arrays, AllocError>
    requires { kind_of column.now.dtype ≡ kind.Codes }
    ensures { IfOk result (HaveCodes column.now) }
{
    let mut arrays = no_cells(alloc, Kind::Codes)?;
    make_room(&mut arrays, Kind::Codes, column.len(), 0)?;
    put_codes(&mut arrays.present, &mut arrays.numbers, column)?;
    arrays.categories = category_bytes(alloc, column.categories())?;
    Ok(arrays)
}

/// The cells of a column as arrays. Refuses only want of memory.
pub fn arrays_of(alloc: Global, column: &Column) -> Result<Arrays, AllocError>
    ensures { IfOk result (AreArraysOf column.now) }
{
    match kind_of(column.dtype()) {
        Kind::Codes => coded_arrays(alloc, column),
        kind => plain_arrays(alloc, kind, column),
    }
}
