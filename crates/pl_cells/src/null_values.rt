//! Texts that mean null.
ghost use Rattle.std.specs.Prelude.{◌≡◌, ◌++◌, ◌∷◌, [], suc, if◌then◌else◌, None, is_some, IfOk, IfErr, OnOk, IsOkUnless};
ghost use Rattle.std.specs.Option.{option_map};
ghost use Rattle.std.specs.Cmp.{partial_equiv_from_equiv};
ghost use Rattle.std.specs.Cmp.Lexicographic.{lists_equiv, lists_per, nat_list_eq_equiv, pointwise};
ghost use Rattle.std.specs.List.{list_any};
ghost use Rattle.std.specs.Str.{bytes_eq};
ghost use Rattle.pl_frame.specs.Schema.{names_in, place_of};
ghost use Rattle.pl_frame.specs.declared.error.PolarsError.TheVariants as error;
ghost use Rattle.pl_cells.specs.NullValues.{text_under, column_texts, compiled_under, compiled_for, unknown_among, unknown_name, IsNameFault, entries_equal, entries_equiv, is_null_text, HasColumns};

use pl_frame::error::{PolarsError, PolarsResult};
use pl_frame::name::PlSmallStr;
use pl_frame::schema::Schema;
use std::alloc::Global;
use std::marker::Model;

/// Texts in order. Contracts see the list of their bytes.
#[derive(Debug, Drop)]
pub struct NullTexts {
    texts: Vec<PlSmallStr>,
}

impl Model for NullTexts {
    ghost use Rattle.std.specs.Prelude.{ℕ, List};

    ghost Value = { List (List ℕ) };

    ghost view = { λ t. t.texts.items };
}

// By the bytes of its texts in order.
impl PartialEq for NullTexts {
    ghost eq = { pointwise bytes_eq };

    ghost laws = { lists_per (partial_equiv_from_equiv nat_list_eq_equiv) };

    fn eq(&self, other: &NullTexts) -> bool {
        self.texts == other.texts
    }
}

impl Eq for NullTexts {
    ghost laws = { lists_equiv nat_list_eq_equiv };
}

/// Names of columns with texts, in order. Contracts see the list of pairs of their bytes.
#[derive(Debug, Drop)]
pub struct NamedTexts {
    entries: Vec<(PlSmallStr, PlSmallStr)>,
}

impl Model for NamedTexts {
    ghost use Rattle.std.specs.Prelude.{ℕ, List};

    ghost Value = { List (List ℕ × List ℕ) };

    ghost view = { λ t. t.entries.items };
}

// By the bytes of its names and texts in order.
impl PartialEq for NamedTexts {
    ghost eq = { pointwise entries_equal };

    ghost laws = { lists_per (partial_equiv_from_equiv entries_equiv) };

    fn eq(&self, other: &NamedTexts) -> bool {
        self.entries == other.entries
    }
}

impl Eq for NamedTexts {
    ghost laws = { lists_equiv entries_equiv };
}

/// Which texts mean null (docs/types.md, "Null values").
#[derive(Debug, Drop, PartialEq, Eq)]
pub enum NullValues {
    /// This text, in every column.
    AllColumnsSingle(PlSmallStr),
    /// Each of these texts, in every column.
    AllColumns(NullTexts),
    /// In a column the text of its name's last entry, or the empty text where it has none.
    Named(NamedTexts),
}

/// Which texts mean null in the columns of a schema.
#[derive(Debug, Drop, PartialEq, Eq)]
pub enum NullValuesCompiled {
    /// This text, in every column.
    AllColumnsSingle(PlSmallStr),
    /// Each of these texts, in every column.
    AllColumns(NullTexts),
    /// In each column the text at its place.
    Columns(NullTexts),
}

impl NullTexts {
    /// These texts, without taking memory.
    pub fn new(texts: Vec<PlSmallStr>) -> Self
        ensures { result ≡ texts.items }
    {
        NullTexts { texts }
    }

    /// The texts again, without taking memory.
    pub fn into_texts(self) -> Vec<PlSmallStr>
        ensures { result.items ≡ self }
    {
        self.texts
    }

    /// The texts in order, without taking memory.
    pub fn texts(&self) -> &[PlSmallStr]
        ensures { result.now ≡ self.now }
    {
        &self.texts
    }

    /// Equal texts. Refuses only want of memory.
    pub fn try_clone(&self) -> PolarsResult<NullTexts>
        ensures equal { IfOk result (λ texts. texts ≡ self.now) }
        ensures refused { IsOkUnless result error.OutOfMemory }
    {
        let mut texts = Vec::new(*self.texts.allocator());
        for text in &self.texts {
            push(&mut texts, text.try_clone()?)?;
        }
        Ok(NullTexts { texts })
    }
}

impl NamedTexts {
    /// These names with texts, without taking memory.
    pub fn new(entries: Vec<(PlSmallStr, PlSmallStr)>) -> Self
        ensures { result ≡ entries.items }
    {
        NamedTexts { entries }
    }

    /// The names with texts again, without taking memory.
    pub fn into_entries(self) -> Vec<(PlSmallStr, PlSmallStr)>
        ensures { result.items ≡ self }
    {
        self.entries
    }

    /// The names with their texts, without taking memory.
    pub fn entries(&self) -> &[(PlSmallStr, PlSmallStr)]
        ensures { result.now ≡ self.now }
    {
        &self.entries
    }

    /// Equal names with equal texts. Refuses only want of memory.
    pub fn try_clone(&self) -> PolarsResult<NamedTexts>
        ensures equal { IfOk result (λ texts. texts ≡ self.now) }
        ensures refused { IsOkUnless result error.OutOfMemory }
    {
        let mut entries = Vec::new(*self.entries.allocator());
        for (name, text) in &self.entries {
            push(&mut entries, (name.try_clone()?, text.try_clone()?))?;
        }
        Ok(NamedTexts { entries })
    }
}

// Puts something at the end. Refuses only want of memory.
fn push<T: Drop>(items: &mut Vec<T>, item: T) -> PolarsResult<()>
    ensures pushed { OnOk result (items.new.items ≡ items.old.items ++ item ∷ []) }
    ensures refused { IsOkUnless result error.OutOfMemory }
{
    match items.push(item) {
        Ok(()) => Ok(()),
        Err(_) => Err(PolarsError::OutOfMemory),
    }
}

impl NullValues {
    /// Equal null values. Refuses only want of memory.
    pub fn try_clone(&self) -> PolarsResult<NullValues>
        ensures equal { IfOk result (λ values. values ≡ self.now) }
        ensures refused { IsOkUnless result error.OutOfMemory }
    {
        Ok(match self {
            NullValues::AllColumnsSingle(text) => NullValues::AllColumnsSingle(text.try_clone()?),
            NullValues::AllColumns(texts) => NullValues::AllColumns(texts.try_clone()?),
            NullValues::Named(texts) => NullValues::Named(texts.try_clone()?),
        })
    }

    /// The null values of the columns of a schema.
    ///
    /// Refuses the first name that the schema doesn't have (`ColumnNotFound`), and want of memory.
    pub fn compile(self, alloc: Global, schema: &Schema) -> PolarsResult<NullValuesCompiled>
        ensures compiled { IfOk result (λ compiled. compiled ≡ compiled_for self schema.now) }
        ensures known { OnOk result (unknown_name schema.now self ≡ None) }
        ensures refused { IfErr result (IsNameFault (unknown_name schema.now self)) }
    {
        match self {
            NullValues::AllColumnsSingle(text) => Ok(NullValuesCompiled::AllColumnsSingle(text)),
            NullValues::AllColumns(texts) => Ok(NullValuesCompiled::AllColumns(texts)),
            NullValues::Named(texts) => {
                check_names(alloc, texts.entries(), schema)?;
                let texts = texts_of_columns(alloc, texts.entries(), schema)?;
                Ok(NullValuesCompiled::Columns(NullTexts::new(texts)))
            }
        }
    }

    /// The null values of columns of these names. An entry for another name is passed over. Refuses only want of memory.
    pub fn compile_for_names(
        &self,
        alloc: Global,
        names: &[PlSmallStr],
    ) -> PolarsResult<NullValuesCompiled>
        ensures compiled { IfOk result (λ compiled. compiled ≡ compiled_under self.now names.now) }
        ensures refused { IsOkUnless result error.OutOfMemory }
    {
        Ok(match self {
            NullValues::AllColumnsSingle(text) => {
                NullValuesCompiled::AllColumnsSingle(text.try_clone()?)
            }
            NullValues::AllColumns(texts) => NullValuesCompiled::AllColumns(texts.try_clone()?),
            NullValues::Named(texts) => {
                let texts = texts_under(alloc, texts.entries(), names)?;
                NullValuesCompiled::Columns(NullTexts::new(texts))
            }
        })
    }
}

// Whether the schema has a name.
fn has_name(schema: &Schema, name: &PlSmallStr) -> bool
    ensures { result ≡ is_some (place_of name.now schema.now) }
{
    schema.index_of(name.as_str()).is_some()
}

// The first name that the schema doesn't have.
fn find_unknown<'a>(
    entries: &'a [(PlSmallStr, PlSmallStr)],
    schema: &Schema,
) -> Option<&'a PlSmallStr>
    ensures { option_map (λ name. name.now) result ≡ unknown_among schema.now entries.now }
{
    for (name, _) in entries {
        if !has_name(schema, name) {
            return Some(name);
        }
    }
    None
}

// Refuses the first name that the schema doesn't have, and want of memory.
fn check_names(
    alloc: Global,
    entries: &[(PlSmallStr, PlSmallStr)],
    schema: &Schema,
) -> PolarsResult<()>
    ensures known { OnOk result (unknown_among schema.now entries.now ≡ None) }
    ensures refused { IfErr result (IsNameFault (unknown_among schema.now entries.now)) }
{
    match find_unknown(entries, schema) {
        Some(name) => Err(PolarsError::ColumnNotFound(name.try_clone()?)),
        None => Ok(()),
    }
}

// The text of an entry of this name, or else another.
fn text_of<'a>(entry: &'a (PlSmallStr, PlSmallStr), name: &str, other: &'a str) -> &'a str
    ensures { result.now ≡ (if bytes_eq name.now entry.now.0 then entry.now.1 else other.now) }
{
    if name == entry.0.as_str() {
        entry.1.as_str()
    } else {
        other
    }
}

// The text of a name's last entry, or the empty text.
fn text_under<'a>(entries: &'a [(PlSmallStr, PlSmallStr)], name: &str) -> &'a str
    ensures { result.now ≡ text_under [] entries.now name.now }
{
    let mut text = "";
    for entry in entries {
        text = text_of(entry, name, text);
    }
    text
}

// The text of each column of a schema. Refuses only want of memory.
fn texts_of_columns(
    alloc: Global,
    entries: &[(PlSmallStr, PlSmallStr)],
    schema: &Schema,
) -> PolarsResult<Vec<PlSmallStr>>
    ensures texts { IfOk result (λ texts. texts.items ≡ column_texts entries.now (names_in schema.now)) }
    ensures refused { IsOkUnless result error.OutOfMemory }
{
    let mut texts = Vec::new(alloc);
    for place in 0..schema.len() {
        let Some((name, _)) = schema.get_at_index(place) else {
            unreachable!();
        };
        let text = PlSmallStr::from_str(alloc, text_under(entries, name.as_str()))?;
        push(&mut texts, text)?;
    }
    Ok(texts)
}

// The text of each of these names. Refuses only want of memory.
fn texts_under(
    alloc: Global,
    entries: &[(PlSmallStr, PlSmallStr)],
    names: &[PlSmallStr],
) -> PolarsResult<Vec<PlSmallStr>>
    ensures texts { IfOk result (λ texts. texts.items ≡ column_texts entries.now names.now) }
    ensures refused { IsOkUnless result error.OutOfMemory }
{
    let mut texts = Vec::new(alloc);
    for name in names {
        let text = PlSmallStr::from_str(alloc, text_under(entries, name.as_str()))?;
        push(&mut texts, text)?;
    }
    Ok(texts)
}

impl NullValuesCompiled {
    /// Equal null values. Refuses only want of memory.
    pub fn try_clone(&self) -> PolarsResult<NullValuesCompiled>
        ensures equal { IfOk result (λ values. values ≡ self.now) }
        ensures refused { IsOkUnless result error.OutOfMemory }
    {
        Ok(match self {
            NullValuesCompiled::AllColumnsSingle(text) => {
                NullValuesCompiled::AllColumnsSingle(text.try_clone()?)
            }
            NullValuesCompiled::AllColumns(texts) => {
                NullValuesCompiled::AllColumns(texts.try_clone()?)
            }
            NullValuesCompiled::Columns(texts) => NullValuesCompiled::Columns(texts.try_clone()?),
        })
    }

    /// Whether a text means null in the column at a place, without taking memory. Under `Columns` there must be so many
    /// columns.
    #[inline]
    pub fn is_null(&self, field: &[u8], index: usize) -> bool
        requires { HasColumns self.now (suc index) }
        ensures { result ≡ is_null_text self.now index field.now }
    {
        match self {
            NullValuesCompiled::AllColumnsSingle(text) => is_text(field, text),
            NullValuesCompiled::AllColumns(texts) => is_among(field, texts.texts()),
            NullValuesCompiled::Columns(texts) => is_text(field, &texts.texts()[index]),
        }
    }
}

// Whether bytes are those of a text. Lengths are compared first.
#[inline]
fn is_text(field: &[u8], text: &PlSmallStr) -> bool
    ensures { result ≡ bytes_eq field.now text.now }
{
    let bytes = text.as_str().as_bytes();
    field.len() == bytes.len() && field == bytes
}

// Whether bytes are those of one of the texts.
fn is_among(field: &[u8], texts: &[PlSmallStr]) -> bool
    ensures { result ≡ list_any (bytes_eq field.now) texts.now }
{
    texts.iter().any(|text| is_text(field, text))
}
