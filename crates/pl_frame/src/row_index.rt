//! Columns that number the rows.
ghost use Rattle.std.specs.Prelude.{◌≡◌, ◌+◌, ◌^◌, ◌≤◌, pos, map, Some, IfOk, IsOkUnless};
ghost use Rattle.std.specs.List.{range_with_len};
ghost use Rattle.pl_frame.specs.declared.error.PolarsError.TheVariants as error;
ghost use Rattle.pl_frame.specs.RowIndex.{row_index_column};

use crate::column::Column;
use crate::data_type::DataType;
use crate::error::{PolarsError, PolarsResult};
use crate::name::PlSmallStr;
use crate::numbers::Numbers;
use std::alloc::{AllocError, Global};

impl Column {
    /// A column of type `UInt64` of so many rows, in which row r has the number offset + r. Refuses only want of memory.
    pub fn row_numbers(
        alloc: Global,
        name: PlSmallStr,
        offset: u64,
        count: usize,
    ) -> PolarsResult<Column>
        requires { offset + count ≤ 2 ^ 64 }
        ensures column { IfOk result (λ column. column ≡ row_index_column name offset count) }
        ensures refused { IsOkUnless result error.OutOfMemory }
    {
        if u128::from(offset) + count as u128 <= 1 << 63 {
            return match narrow_from(alloc, offset, count) {
                Ok(numbers) => Ok(Column::from_narrow(name, DataType::UInt64, numbers)),
                Err(_) => Err(PolarsError::OutOfMemory),
            };
        }
        match wide_from(alloc, offset, count) {
            Ok(numbers) => Ok(Column::from_wide(name, DataType::UInt64, numbers)),
            Err(_) => Err(PolarsError::OutOfMemory),
        }
    }
}

// So many numbers, from one on, which fit 64 bits with a sign.
fn narrow_from(alloc: Global, offset: u64, count: usize) -> Result<Numbers<i64>, AllocError>
    requires { offset + count ≤ 2 ^ 63 }
    ensures { IfOk result (λ numbers. numbers ≡ map (λ n. Some (pos n)) (range_with_len offset count)) }
{
    let mut numbers = Numbers::new(alloc);
    numbers.reserve(count)?;
    for row in 0..count {
        numbers.push((offset + row as u64) as i64)?;
    }
    Ok(numbers)
}

// The same of numbers that need not.
fn wide_from(alloc: Global, offset: u64, count: usize) -> Result<Numbers<i128>, AllocError>
    requires { offset + count ≤ 2 ^ 64 }
    ensures { IfOk result (λ numbers. numbers ≡ map (λ n. Some (pos n)) (range_with_len offset count)) }
{
    let mut numbers = Numbers::new(alloc);
    numbers.reserve(count)?;
    for row in 0..count {
        numbers.push(i128::from(offset + row as u64))?;
    }
    Ok(numbers)
}
