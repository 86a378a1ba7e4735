//! Tables of the fields of records.
ghost use Rattle.std.specs.Prelude.{◌≡◌, ◌≤◌, ◌<◌, ◌+◌, ◌-◌, ◌^◌, ◌++◌, [], ◌∷◌, List, ℕ, None, map, length, take, drop, slice_get, slice_index, slice_index_or, IfSome, IfNone, OnOk, OnErr, IfOk};
ghost use Rattle.std.specs.Option.{option_map};
ghost use Rattle.pl_frame.specs.Dialect.{AreDistinct};
ghost use Rattle.pl_scan.specs.Dialect.{marks_of};
ghost use Rattle.pl_scan.specs.Fields.{extent};
ghost use Rattle.pl_table.specs.Index.{cut_at, row_cuts, table_of, IsIndex};
ghost use Rattle.pl_table.specs.Rows.{rows, table_rows};
ghost use Rattle.pl_table.specs.Tables.{IsWithin, AreWithin, AreClosed, fields_of, cut_text, placed_text};

use crate::index::index_text;
use pl_scan::dialect::Dialect;
use std::alloc::{AllocError, Global};
use std::marker::Model;

// The number of the field of a row in a column, if there is one.
#[inline(always)]
fn field_index(firsts: &[u32], row: usize, column: usize) -> Option<usize>
    requires row { row + 1 < length firsts.now }
    requires ordered { slice_index firsts.now row ≤ slice_index firsts.now (row + 1) }
    ensures none { IfNone result (slice_index firsts.now (row + 1) - slice_index firsts.now row ≤ column) }
    ensures inside { IfSome result (λ _. column < slice_index firsts.now (row + 1) - slice_index firsts.now row) }
    ensures some { IfSome result (λ field. field ≡ slice_index firsts.now row + column) }
{
    let first = firsts[row] as usize;
    let past = firsts[row + 1] as usize;
    if column < past - first {
        Some(first + column)
    } else {
        None
    }
}

// How many fields a row has.
#[inline(always)]
fn width_in(firsts: &[u32], row: usize) -> usize
    requires row { row + 1 < length firsts.now }
    requires ordered { slice_index firsts.now row ≤ slice_index firsts.now (row + 1) }
    ensures { result ≡ slice_index firsts.now (row + 1) - slice_index firsts.now row }
{
    (firsts[row + 1] - firsts[row]) as usize
}

// How many fields a record of the table has.
#[inline(always)]
fn width_of(starts: &[u32], firsts: &[u32], count: usize, row: usize) -> usize
    requires index { IsIndex starts.now firsts.now count }
    requires row { row < count }
    ensures { result ≡ length (slice_index_or (table_of starts.now firsts.now count) row []) }
{
    width_in(firsts, row)
}

// The field with this number.
#[inline(always)]
fn placed_at<'a>(starts: &[u32], text: &'a [u8], field: usize) -> Placed<'a>
    requires field { field + 1 < length starts.now }
    requires ended { 0 < slice_index starts.now (field + 1) }
    requires within { IsWithin (length text.now) (cut_at starts.now field) }
    ensures text { placed_text result ≡ cut_text text.now (cut_at starts.now field) }
    ensures inside { result.start ≤ length result.upto.now }
{
    Placed {
        upto: &text[..(starts[field + 1] - 1) as usize],
        start: starts[field] as usize,
    }
}

// The field of a record of the table in a column, if there is one.
#[inline(always)]
fn front_of<'a>(
    starts: &[u32],
    firsts: &[u32],
    count: usize,
    text: &'a [u8],
    row: usize,
    column: usize,
) -> Option<Placed<'a>>
    requires index { IsIndex starts.now firsts.now count }
    requires within { AreWithin (length text.now) (table_of starts.now firsts.now count) }
    requires row { row < count }
    ensures field { option_map placed_text result ≡ slice_get (slice_index_or (fields_of text.now (table_of starts.now firsts.now count)) row []) column }
    ensures inside { IfSome result (λ placed. placed.start ≤ length placed.upto.now) }
{
    match field_index(firsts, row, column) {
        Some(field) => Some(placed_at(starts, text, field)),
        None => None,
    }
}

// The place behind the last of so many records.
#[inline(always)]
fn place_behind(starts: &[u32], firsts: &[u32], count: usize) -> usize
    requires row { count < length firsts.now }
    requires start { slice_index firsts.now count < length starts.now }
    ensures { result ≡ slice_index starts.now (slice_index firsts.now count) }
{
    starts[firsts[count] as usize] as usize
}

// Fills vectors with the index of a text. Gives the number of its records and the place behind them.
fn fill(
    starts: &mut Vec<u32>,
    firsts: &mut Vec<u32>,
    text: &[u8],
    dialect: &Dialect,
) -> Result<(usize, usize), AllocError>
    requires apart { AreDistinct (marks_of dialect.now) }
    requires short { length text.now + 64 < 2 ^ 30 }
    ensures index { IfOk result (λ found. IsIndex starts.new.items firsts.new.items found.0) }
    ensures rows { IfOk result (λ found. (more : List ℕ) → rows (marks_of dialect.now) None (text.now ++ more)
        ≡ table_rows text.now (table_of starts.new.items firsts.new.items found.0) ++ rows (marks_of dialect.now) None (drop found.1 text.now ++ more)) }
    ensures closed { IfOk result (λ found. AreClosed (marks_of dialect.now) (fields_of text.now (table_of starts.new.items firsts.new.items found.0))) }
    ensures within { IfOk result (λ found. AreWithin (length text.now) (table_of starts.new.items firsts.new.items found.0)) }
    ensures fits { IfOk result (λ found. found.1 ≤ length text.now) }
    ensures left { IfOk result (λ found. drop (extent (marks_of dialect.now) (drop found.1 text.now)) (drop found.1 text.now) ≡ []) }
{
    let count = index_text(starts, firsts, text, dialect)?;
    Ok((count, place_behind(starts, firsts, count)))
}

/// A field of a text: what stands up to its end, and where it starts in that.
#[derive(Clone, Copy)]
pub struct Placed<'a> {
    pub upto: &'a [u8],
    pub start: usize,
}

/// Where the fields of the records of a text stand. The memory of a table is used again when it is filled again.
#[derive(Drop)]
pub struct Table {
    // Where each field starts, and behind the last one the place behind its end. What follows them is junk.
    starts: Vec<u32>,
    // How many fields come before each record, and before the one behind the last. What follows them is junk.
    firsts: Vec<u32>,
    // The number of records.
    count: usize,
}

impl Model for Table {
    ghost use Rattle.std.specs.Prelude.{List};
    ghost use Rattle.pl_table.specs.Index.{table_of, IsIndex};
    ghost use Rattle.pl_table.specs.Tables.{Cut};

    ghost Value = { List (List Cut) };

    ghost view = { λ it. table_of it.starts.items it.firsts.items it.count };

    ghost invariant = { λ it. IsIndex it.starts.items it.firsts.items it.count };
}

impl Table {
    /// No records, without taking memory.
    pub fn new(alloc: Global) -> Self
        ensures { result ≡ [] }
    {
        Table {
            starts: Vec::new(alloc),
            firsts: Vec::new(alloc),
            count: 0,
        }
    }

    /// Fills the table with those records of a text that a line end ends, comments not looked at. They are the first records
    /// of what begins with the text, whatever follows it. Gives how many bytes they have, their line ends among them; what is
    /// left of the text has no line end that ends a record.
    ///
    /// Refuses only want of memory, and is then empty.
    pub fn cut(&mut self, text: &[u8], dialect: &Dialect) -> Result<usize, AllocError>
        requires apart { AreDistinct (marks_of dialect.now) }
        requires short { length text.now + 64 < 2 ^ 30 }
        ensures rows { IfOk result (λ cut. (more : List ℕ) → rows (marks_of dialect.now) None (text.now ++ more)
            ≡ table_rows text.now self.new ++ rows (marks_of dialect.now) None (drop cut text.now ++ more)) }
        ensures closed { OnOk result (AreClosed (marks_of dialect.now) (fields_of text.now self.new)) }
        ensures within { OnOk result (AreWithin (length text.now) self.new) }
        ensures fits { IfOk result (λ cut. cut ≤ length text.now) }
        ensures left { IfOk result (λ cut. drop (extent (marks_of dialect.now) (drop cut text.now)) (drop cut text.now) ≡ []) }
        ensures err { OnErr result (self.new ≡ []) }
    {
        self.count = 0;
        let (count, place) = fill(&mut self.starts, &mut self.firsts, text, dialect)?;
        self.count = count;
        Ok(place)
    }

    /// How many records there are, without taking memory.
    #[inline]
    pub fn len(&self) -> usize
        ensures { result ≡ length self.now }
    {
        self.count
    }

    /// How many fields a record has, without taking memory.
    #[inline]
    pub fn width(&self, row: usize) -> usize
        requires { row < length self.now }
        ensures { result ≡ length (slice_index_or self.now row []) }
    {
        width_of(&self.starts, &self.firsts, self.count, row)
    }

    /// The field of a record in a column, if the record has so many, without taking memory. The text is the one that the table
    /// was filled with.
    #[inline(always)]
    pub fn front<'a>(&self, text: &'a [u8], row: usize, column: usize) -> Option<Placed<'a>>
        requires within { AreWithin (length text.now) self.now }
        requires row { row < length self.now }
        ensures field { option_map placed_text result ≡ slice_get (slice_index_or (fields_of text.now self.now) row []) column }
        ensures inside { IfSome result (λ placed. placed.start ≤ length placed.upto.now) }
    {
        front_of(&self.starts, &self.firsts, self.count, text, row, column)
    }
}
