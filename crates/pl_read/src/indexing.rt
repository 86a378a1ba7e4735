//! The row index before the columns, numbers that do not fit 64 bits, and codes that do not fit 32.
ghost use Rattle.std.specs.Prelude.{◌≡◌, ◌<◌, ◌≤◌, ◌+◌, ◌^◌, ◌∷◌, nat_lt, IfOk, OnOk, IfErr, IsOkUnless, None, map};
ghost use Rattle.std.specs.Option.{option_copied};
ghost use Rattle.pl_frame.specs.Frame.{IsFrame, height_of};
ghost use Rattle.pl_frame.specs.declared.error.ComputeFault.TheVariants as compute_fault;
ghost use Rattle.pl_frame.specs.declared.error.PolarsError.TheVariants as error;
ghost use Rattle.pl_options.specs.FirstCause.{when, first_some, IsFault};
ghost use Rattle.pl_infer.specs.Schemas.{is_categorical};
ghost use Rattle.pl_frame.specs.RowIndex.{row_numbers, row_index_column};
ghost use Rattle.pl_read.specs.Batches.{index_behind};
ghost use Rattle.pl_read.specs.Refusals.{numbers_past, codes_past, index_past};
ghost use Rattle.pl_read.specs.Rows.{with_index};

use pl_frame::column::Column;
use pl_frame::data_type::DataType;
use pl_frame::error::{ComputeFault, PolarsError, PolarsResult};
use pl_frame::frame::DataFrame;
use pl_options::row_index::RowIndex;
use std::alloc::Global;

// So many numbers are there of 64 bits.
const NUMBERS: u128 = 1 << 64;

// So many codes are there of 32 bits.
const CODES: u64 = 1 << 32;

// The refusal of a row index whose last number does not fit 64 bits.
pub(crate) fn numbers_past(index: Option<&RowIndex>, rows: usize) -> Option<PolarsError>
    ensures { result ≡ numbers_past (option_copied index.entry) rows }
{
    match index {
        Some(index) => rows_past(index.offset, rows as u64),
        None => None,
    }
}

// The refusal of so many numbers from one on, where the last does not fit 64 bits.
fn rows_past(offset: u64, rows: u64) -> Option<PolarsError>
    ensures { result ≡ when (nat_lt (2 ^ 64) (offset + rows)) (error.ComputeError (compute_fault.Index offset rows)) }
{
    if u128::from(offset) + u128::from(rows) > NUMBERS {
        return Some(PolarsError::ComputeError(ComputeFault::Index { offset, rows }));
    }
    None
}

// The refusal of so many texts, where the last code of one does not fit 32 bits.
fn texts_past(texts: u64) -> Option<PolarsError>
    ensures { result ≡ when (nat_lt (2 ^ 32) texts) (error.ComputeError (compute_fault.Index 0 texts)) }
{
    if texts > CODES {
        return Some(PolarsError::ComputeError(ComputeFault::Index {
            offset: 0,
            rows: texts,
        }));
    }
    None
}

// Whether the type is `Categorical`.
fn is_categorical(dtype: &DataType) -> bool
    ensures { result ≡ is_categorical dtype.now }
{
    matches!(dtype, DataType::Categorical)
}

// The refusal of a column whose last code does not fit 32 bits.
fn codes_past(column: &Column) -> Option<PolarsError>
    ensures { result ≡ codes_past column.now }
{
    if !is_categorical(column.dtype()) {
        return None;
    }
    texts_past(column.categories().len() as u64)
}

// The refusal of the first column whose last code does not fit 32 bits.
fn find_codes_past(columns: &[Column]) -> Option<PolarsError>
    ensures { result ≡ first_some (map codes_past columns.now) }
{
    for column in columns {
        if let Some(fault) = codes_past(column) {
            return Some(fault);
        }
    }
    None
}

// The refusal of the last number of a row index that does not fit 64 bits, or else of a code that does not fit 32.
fn index_past(index: Option<&RowIndex>, rows: usize, columns: &[Column]) -> Option<PolarsError>
    ensures { result ≡ index_past (option_copied index.entry) rows columns.now }
{
    match numbers_past(index, rows) {
        Some(fault) => Some(fault),
        None => find_codes_past(columns),
    }
}

/// The number of rows of columns of one height, without taking memory.
pub fn rows_of(columns: &[Column]) -> usize
    ensures { result ≡ height_of columns.now }
{
    match columns {
        [] => 0,
        [first, ..] => first.len(),
    }
}

// The column of a row index of so many rows, whose numbers begin with an offset. Refuses only want of memory.
fn numbers_of(alloc: Global, index: &RowIndex, offset: u64, rows: usize) -> PolarsResult<Column>
    requires { offset + rows ≤ 2 ^ 64 }
    ensures column { IfOk result (λ column. column ≡ row_index_column index.now.name offset rows) }
    ensures refused { IsOkUnless result error.OutOfMemory }
{
    match index.name.try_clone() {
        Ok(name) => Column::row_numbers(alloc, name, offset, rows),
        Err(fault) => Err(fault),
    }
}

// The frame of a column and others behind it. Refuses only want of memory.
fn put_in_front(first: Column, columns: Vec<Column>) -> PolarsResult<DataFrame>
    requires { IsFrame (first ∷ columns.items) }
    ensures frame { IfOk result (λ frame. frame ≡ first ∷ columns.items) }
    ensures refused { IsOkUnless result error.OutOfMemory }
{
    let mut columns = columns;
    match columns.insert(0, first) {
        Ok(()) => Ok(DataFrame::of_distinct(columns)),
        Err(_) => {
            drop(columns);
            Err(PolarsError::OutOfMemory)
        }
    }
}

// The frame of columns of one height behind the column of a row index, whose numbers begin with an offset. Refuses only want of memory.
fn with_numbers(
    alloc: Global,
    index: &RowIndex,
    offset: u64,
    columns: Vec<Column>,
) -> PolarsResult<DataFrame>
    requires fits { offset + height_of columns.items ≤ 2 ^ 64 }
    requires frame { IsFrame (row_index_column index.now.name offset (height_of columns.items) ∷ columns.items) }
    ensures frame { IfOk result (λ frame. frame ≡ row_index_column index.now.name offset (height_of columns.items) ∷ columns.items) }
    ensures refused { IsOkUnless result error.OutOfMemory }
{
    let rows = rows_of(&columns);
    match numbers_of(alloc, index, offset, rows) {
        Ok(numbers) => put_in_front(numbers, columns),
        Err(fault) => {
            drop(columns);
            Err(fault)
        }
    }
}

/// The frame of columns of one height behind their row index, where one is asked; with it their names are distinct. Refuses
/// the last number of the row index that does not fit 64 bits, or else the last code of the first column that does not fit 32
/// (`Index`), and want of memory.
pub fn with_index(
    alloc: Global,
    index: Option<&RowIndex>,
    columns: Vec<Column>,
) -> PolarsResult<DataFrame>
    requires { IsFrame (with_index (option_copied index) (height_of columns.items) columns.items) }
    ensures frame { IfOk result (λ frame. frame ≡ with_index (option_copied index.entry) (height_of columns.items) columns.items) }
    ensures sound { OnOk result (index_past (option_copied index.entry) (height_of columns.items) columns.items ≡ None) }
    ensures refused { IfErr result (IsFault (index_past (option_copied index.entry) (height_of columns.items) columns.items)) }
{
    let rows = rows_of(&columns);
    if let Some(fault) = index_past(index, rows, &columns) {
        drop(columns);
        return Err(fault);
    }
    let Some(index) = index else {
        return Ok(DataFrame::of_distinct(columns));
    };
    with_numbers(alloc, index, index.offset, columns)
}

// The number so many behind another, of so many rows; where there are none it may be any.
fn number_behind(offset: u64, before: usize, rows: usize) -> u64
    requires fits { offset + (before + rows) ≤ 2 ^ 64 }
    ensures numbers { row_numbers result rows ≡ row_numbers (offset + before) rows }
    ensures within { result + rows ≤ 2 ^ 64 }
{
    if rows == 0 { 0 } else { offset + before as u64 }
}

/// The frame of columns of one height behind their row index, where one is asked, whose numbers begin so many later; with it
/// their names are distinct. Refuses the last number of the row index up to their end that does not fit 64 bits, or else the
/// last code of the first column that does not fit 32 (`Index`), and want of memory.
pub fn with_index_behind(
    alloc: Global,
    index: Option<&RowIndex>,
    before: usize,
    columns: Vec<Column>,
) -> PolarsResult<DataFrame>
    requires fits { before + height_of columns.items < 2 ^ 64 }
    requires frame { IsFrame (with_index (index_behind before (option_copied index)) (height_of columns.items) columns.items) }
    ensures frame { IfOk result (λ frame. frame ≡ with_index (index_behind before (option_copied index.entry)) (height_of columns.items) columns.items) }
    ensures sound { OnOk result (index_past (option_copied index.entry) (before + height_of columns.items) columns.items ≡ None) }
    ensures refused { IfErr result (IsFault (index_past (option_copied index.entry) (before + height_of columns.items) columns.items)) }
{
    let rows = rows_of(&columns);
    if let Some(fault) = index_past(index, before + rows, &columns) {
        drop(columns);
        return Err(fault);
    }
    let Some(index) = index else {
        return Ok(DataFrame::of_distinct(columns));
    };
    let offset = number_behind(index.offset, before, rows);
    with_numbers(alloc, index, offset, columns)
}
