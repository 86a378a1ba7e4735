//! What stands against a joined read whatever the bytes of its parts.
ghost use Rattle.std.specs.Prelude.{◌≡◌, ◌++◌, ◌∷◌, ◌<◌, [], ℕ, IfOk, OnOk, length, map, slice_index};
ghost use Rattle.std.specs.Option.{option_copied};
ghost use Rattle.std.specs.Cmp.Lexicographic.{pointwise};
ghost use Rattle.std.specs.Str.{bytes_eq};
ghost use Rattle.pl_cells.specs.InitBuffers.{entry_at};
ghost use Rattle.pl_multi.specs.Parts.{value_names, partition_names, first_other, index_name, is_wrong};

use crate::part::Part;
use pl_frame::name::PlSmallStr;
use pl_frame::schema::Schema;
use pl_options::read_options::CsvReadOptions;
use pl_options::row_index::RowIndex;
use std::alloc::{AllocError, Global};

/// Whether no schema is given, or a path or a limit of rows is, or the slice ends before it starts.
pub(crate) fn is_wrong(read: &CsvReadOptions, slice: Option<(usize, usize)>) -> bool
    ensures { result ≡ is_wrong read.now slice }
{
    if read.schema.is_none() || read.path.is_some() || read.n_rows.is_some() {
        return true;
    }
    match slice {
        Some((start, end)) => end < start,
        None => false,
    }
}

// Whether the values of two parts have the same names.
fn have_same_names(part: &Part, other: &Part) -> bool
    ensures { result ≡ pointwise bytes_eq (value_names part.now) (value_names other.now) }
{
    let values = part.values.values();
    let others = other.values.values();
    if values.len() != others.len() {
        return false;
    }
    for i in 0..values.len() {
        if values[i].0 != others[i].0 {
            return false;
        }
    }
    true
}

/// The least part whose values have other names than those of the first.
pub(crate) fn find_other(parts: &[Part]) -> Option<usize>
    ensures { result ≡ first_other parts.now }
{
    let [first, ..] = parts else {
        return None;
    };
    parts.iter().position(|part| !have_same_names(part, first))
}

// Puts a copy of a name at the end. Refuses only want of memory.
fn push_name(names: &mut Vec<PlSmallStr>, name: &PlSmallStr) -> Result<(), AllocError>
    ensures { OnOk result (names.new.items ≡ names.old.items ++ name.now ∷ []) }
{
    match name.try_clone() {
        Ok(name) => {
            names.push(name)?;
            Ok(())
        }
        Err(_) => Err(AllocError),
    }
}

/// Puts the names of the first part's values at the end. Refuses only want of memory.
pub(crate) fn push_partition_names(
    names: &mut Vec<PlSmallStr>,
    parts: &[Part],
) -> Result<(), AllocError>
    ensures { OnOk result (names.new.items ≡ names.old.items ++ partition_names parts.now) }
{
    let [first, ..] = parts else {
        return Ok(());
    };
    for value in first.values.values() {
        push_name(names, &value.0)?;
    }
    Ok(())
}

// Puts the names of columns of a schema at the end. Refuses only want of memory.
fn push_schema_names(
    names: &mut Vec<PlSmallStr>,
    schema: &Schema,
    places: &[usize],
) -> Result<(), AllocError>
    requires { (k : ℕ) → k < length places.now → slice_index places.now k < length schema.now }
    ensures { OnOk result (names.new.items ≡ names.old.items ++ map (λ entry. entry.0) (map (entry_at schema.now) places.now)) }
{
    for place in places {
        let (name, _) = schema.entry(*place);
        push_name(names, name)?;
    }
    Ok(())
}

/// The names of all columns of the answer: of the row index, of the columns that are read, and of the values of parts. Refuses only want
/// of memory.
pub(crate) fn column_names(
    alloc: Global,
    index: Option<&RowIndex>,
    schema: &Schema,
    places: &[usize],
    parts: &[Part],
) -> Result<Vec<PlSmallStr>, AllocError>
    requires { (k : ℕ) → k < length places.now → slice_index places.now k < length schema.now }
    ensures { IfOk result (λ names. names.items ≡ index_name (option_copied index.entry) ++ (map (λ entry. entry.0) (map (entry_at schema.now) places.now) ++ partition_names parts.now)) }
{
    let mut names = Vec::new(alloc);
    if let Some(index) = index {
        push_name(&mut names, &index.name)?;
    }
    push_schema_names(&mut names, schema, places)?;
    push_partition_names(&mut names, parts)?;
    Ok(names)
}
