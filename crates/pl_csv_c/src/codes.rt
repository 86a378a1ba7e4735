//! Codes of cells, put behind others, and the categories that they count.
ghost use Rattle.std.specs.Prelude.{◌≡◌, ◌++◌, true, is_some, map, OnOk, IfOk};
ghost use Rattle.pl_csv_c.specs.Arrays.{code_number, codes_of};
ghost use Rattle.pl_frame.specs.Columns.{is_coded};

use pl_frame::column::Column;
use pl_frame::name::PlSmallStr;
use std::alloc::{AllocError, Global};

// A code as a number, 0 where there is none.
#[inline]
fn code_number(code: Option<u64>) -> Result<i64, AllocError>
    ensures { IfOk result (λ number. number ≡ code_number code) }
{
    match code {
        Some(code) => match i64::try_from(code) {
            Ok(code) => Ok(code),
            Err(_) => Err(AllocError),
        },
        None => Ok(0),
    }
}

/// Puts a flag and the place among the categories for each cell of a column behind others. Refuses only want of memory.
pub(crate) fn put_codes(
    flags: &mut Vec<bool>,
    numbers: &mut Vec<i64>,
    column: &Column,
) -> Result<(), AllocError>
    requires { is_coded column.now.dtype ≡ true }
    ensures flags { OnOk result (flags.new.items ≡ flags.old.items ++ map is_some column.now.values) }
    ensures numbers { OnOk result (numbers.new.items ≡ numbers.old.items ++ codes_of column.now) }
{
    for row in 0..column.len() {
        let code = column.code(row);
        let number = code_number(code)?;
        flags.push(code.is_some())?;
        numbers.push(number)?;
    }
    Ok(())
}

/// The bytes of each category. Refuses only want of memory.
pub(crate) fn category_bytes(
    alloc: Global,
    categories: &[PlSmallStr],
) -> Result<Vec<Vec<u8>>, AllocError>
    ensures { IfOk result (λ bytes. map (λ text. text.items) bytes.items ≡ categories.now) }
{
    let mut all = Vec::new(alloc);
    for category in categories {
        let bytes = Vec::from_slice(alloc, category.as_str().as_bytes())?;
        if all.push(bytes).is_err() {
            return Err(AllocError);
        }
    }
    Ok(all)
}
