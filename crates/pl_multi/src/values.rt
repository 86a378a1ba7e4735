//! The values of a part behind each of its rows.
ghost use Rattle.std.specs.Prelude.{◌≡◌, ◌∷◌, ◌++◌, [], replicate, Some, IfOk, OnOk};
ghost use Rattle.pl_multi.specs.Scan.{value_columns};

use crate::part::Part;
use pl_frame::column::Column;
use pl_frame::name::PlSmallStr;
use pl_frame::texts::Texts;
use std::alloc::{AllocError, Global};

// A text, so many times. Refuses only want of memory.
fn repeated(alloc: Global, text: &str, rows: usize) -> Result<Texts, AllocError>
    ensures { IfOk result (λ texts. texts ≡ replicate rows (Some text.now)) }
{
    let mut texts = Texts::new(alloc);
    for _row in 0..rows {
        texts.push(text)?;
    }
    Ok(texts)
}

// A column of one value in so many rows. Refuses only want of memory.
fn value_column(
    alloc: Global,
    name: &PlSmallStr,
    value: &PlSmallStr,
    rows: usize,
) -> Result<Column, AllocError>
    ensures { IfOk result (λ column. column ∷ [] ≡ value_columns rows ((name.now, value.now) ∷ [])) }
{
    let texts = repeated(alloc, value.as_str(), rows)?;
    let Ok(name) = name.try_clone() else {
        return Err(AllocError);
    };
    Ok(Column::from_string(name, texts))
}

/// Puts a part's values behind its columns, each the same in so many rows. Refuses only want of memory.
pub(crate) fn push_values(
    alloc: Global,
    columns: &mut Vec<Column>,
    part: &Part,
    rows: usize,
) -> Result<(), AllocError>
    ensures { OnOk result (columns.new.items ≡ columns.old.items ++ value_columns rows part.now.values) }
{
    for value in part.values.values() {
        let (name, value) = value;
        columns.push(value_column(alloc, name, value, rows)?)?;
    }
    Ok(())
}
