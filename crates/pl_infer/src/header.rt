//! The names of columns, where no schema is given.
ghost use Rattle.std.specs.Prelude.{◌≡◌, ◌+◌, ◌<◌, ◌^◌, ◌∷◌, ◌++◌, [], ℕ, List, length, map, string_bytes, if◌then◌else◌, OnOk, IfOk, IsOkUnless};
ghost use Rattle.std.specs.Str.{bytes_eq};
ghost use Rattle.std.specs.Str.Lossy.{utf8_lossy};
ghost use Rattle.pl_frame.specs.Dialect.{marks, AreDistinct};
ghost use Rattle.pl_frame.specs.declared.error.PolarsError.TheVariants as error;
ghost use Rattle.pl_cells.specs.Quoting.{undouble};
ghost use Rattle.pl_infer.specs.Header.{field_name, numbered_name, apart_behind, counted_names, column_names};
ghost use Rattle.pl_infer.specs.ReadNames.{written, count_of};

use pl_cells::quoting::{between_quotes, quote_of, undouble_into, without_return};
use pl_frame::error::{PolarsError, PolarsResult};
use pl_frame::name::PlSmallStr;
use pl_options::column_lists::ColumnNames;
use pl_scan::fields::SplitFields;
use std::alloc::{AllocError, Global};
use std::collections::HashMap;

// How often each name came.
type NameCounts = HashMap<String, usize>;

// The text between two quotes, undoubled, where what is not UTF-8 is replaced.
fn undoubled(alloc: Global, text: &[u8], quote: u8) -> Result<String, AllocError>
    ensures { IfOk result (λ name. string_bytes name ≡ utf8_lossy (undouble quote text.now)) }
{
    let mut bytes = Vec::new(alloc);
    undouble_into(&mut bytes, text, quote)?;
    String::from_utf8_lossy(alloc, &bytes)
}

// The name that a field of a header writes.
fn field_name(alloc: Global, field: &[u8], quote_char: Option<u8>) -> Result<String, AllocError>
    ensures { IfOk result (λ name. string_bytes name ≡ field_name quote_char field.now) }
{
    let text = without_return(field);
    let Some(quote) = quote_of(field, quote_char) else {
        return String::from_utf8_lossy(alloc, text);
    };
    match between_quotes(text, quote) {
        Some(between) => undoubled(alloc, between, quote),
        None => String::from_utf8_lossy(alloc, text),
    }
}

// Puts a name at the end.
fn push_name(names: &mut Vec<PlSmallStr>, name: &str) -> Result<(), AllocError>
    ensures { OnOk result (names.new.items ≡ names.old.items ++ name.now ∷ []) }
{
    let Ok(name) = PlSmallStr::from_str(*names.allocator(), name) else {
        return Err(AllocError);
    };
    names.push(name)?;
    Ok(())
}

// The names that fields write.
fn field_names(
    alloc: Global,
    fields: SplitFields<'_>,
    quote_char: Option<u8>,
) -> Result<Vec<PlSmallStr>, AllocError>
    ensures { IfOk result (λ names. names.items ≡ written quote_char fields.entry) }
{
    let mut names = Vec::new(alloc);
    for (field, _) in fields {
        push_name(&mut names, field_name(alloc, field, quote_char)?.as_str())?;
    }
    Ok(names)
}

// How often a name came.
fn count_of(counts: &NameCounts, name: &str) -> usize
    ensures { result ≡ count_of counts.now name.now }
{
    counts.get(name).copied().unwrap_or(0)
}

// Counts a name once more.
fn count_up(counts: &mut NameCounts, alloc: Global, name: &str) -> Result<(), AllocError>
    requires { count_of counts.old name.now + 1 < 2 ^ 64 }
    ensures { OnOk result ((other : List ℕ) → count_of counts.new other ≡ count_of counts.old other + (if bytes_eq other name.now then 1 else 0)) }
{
    let count = count_of(counts, name) + 1;
    let key = String::from_str(alloc, name)?;
    counts.insert(key, count)?;
    Ok(())
}

// A name behind so many that are the same.
fn numbered_name(alloc: Global, name: &str, before: usize) -> Result<String, AllocError>
    ensures { IfOk result (λ numbered. string_bytes numbered ≡ numbered_name name.now before) }
{
    if before == 0 {
        return String::from_str(alloc, name);
    }
    let number = before - 1;
    format!(in alloc; "{name}_duplicated_{number}")
}

// These names, told apart.
fn told_apart(alloc: Global, names: &[PlSmallStr]) -> Result<Vec<PlSmallStr>, AllocError>
    ensures { IfOk result (λ apart. apart.items ≡ apart_behind [] names.now) }
{
    let mut counts = HashMap::new(alloc);
    let mut apart = Vec::new(alloc);
    for name in names {
        let before = count_of(&counts, name.as_str());
        let numbered = numbered_name(alloc, name.as_str(), before)?;
        push_name(&mut apart, numbered.as_str())?;
        count_up(&mut counts, alloc, name.as_str())?;
    }
    Ok(apart)
}

// The names of a header that has these fields.
fn header_names(
    alloc: Global,
    fields: SplitFields<'_>,
    quote_char: Option<u8>,
) -> Result<Vec<PlSmallStr>, AllocError>
    ensures { IfOk result (λ names. names.items ≡ apart_behind [] (written quote_char fields.entry)) }
{
    let names = field_names(alloc, fields, quote_char)?;
    told_apart(alloc, &names)
}

// Counted names, one for each field.
fn counted_names(alloc: Global, fields: SplitFields<'_>) -> Result<Vec<PlSmallStr>, AllocError>
    ensures { IfOk result (λ names. names.items ≡ counted_names (length fields.entry)) }
{
    let mut names = Vec::new(alloc);
    for _ in fields {
        let number = names.len() + 1;
        push_name(&mut names, format!(in alloc; "column_{number}")?.as_str())?;
    }
    Ok(names)
}

/// The names of the columns of a text whose first record is the header, or else is like all others. Refuses only want of
/// memory.
pub fn column_names(
    alloc: Global,
    from_first_record: &[u8],
    has_header: bool,
    separator: u8,
    quote_char: Option<u8>,
    eol_char: u8,
) -> PolarsResult<ColumnNames>
    requires { AreDistinct (marks separator quote_char eol_char) }
    ensures names { IfOk result (λ names. names ≡ column_names has_header (marks separator quote_char eol_char) from_first_record.now) }
    ensures refused { IsOkUnless result error.OutOfMemory }
{
    let fields = SplitFields::new(from_first_record, separator, quote_char, eol_char);
    let names = if has_header {
        header_names(alloc, fields, quote_char)
    } else {
        counted_names(alloc, fields)
    };
    match names {
        Ok(names) => Ok(ColumnNames::new(names)),
        Err(_) => Err(PolarsError::OutOfMemory),
    }
}
