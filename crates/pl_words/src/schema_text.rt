//! The text of a schema: names with types.
ghost use Rattle.std.specs.Prelude.{◌≡◌, ◌++◌, ◌∷◌, ◌≢◌, [], if◌then◌else◌, false, None, Some, Err, IfOk, OnOk, IsErrOf};
ghost use Rattle.std.specs.List.{list_any};
ghost use Rattle.std.specs.Option.{option_and_then};
ghost use Rattle.std.specs.Str.{bytes_eq};
ghost use Rattle.pl_frame.specs.Schema.{names_in};
ghost use Rattle.pl_words.specs.SchemaText.{entry_of, schema_of};

use crate::from_text::FromText;
use crate::splitting::{copy_text, cut_at};
use crate::type_text::type_named;
use crate::words::WordsFault;
use pl_frame::data_type::DataType;
use pl_frame::schema::Schema;
use std::alloc::Global;

// The name and the type of a part NAME:TYPE. Refuses any other part, and want of memory.
fn read_entry(alloc: Global, part: &str) -> Result<(&str, DataType), WordsFault>
    ensures entry { IfOk result (λ entry. entry_of part.now ≡ Some (entry.0.now, entry.1)) }
    ensures refused { IsErrOf result WordsFault.Words → entry_of part.now ≡ None }
{
    match cut_at(part, b':') {
        Some((name, text)) => Ok((name, type_named(alloc, text)?)),
        None => Err(WordsFault::Words),
    }
}

// Whether the schema has a name.
fn has_name(schema: &Schema, name: &str) -> bool
    ensures { result ≡ list_any (bytes_eq name.now) (names_in schema.now) }
{
    schema.index_of(name).is_some()
}

// Puts a name that the schema doesn't have at its end. Refuses want of memory.
fn push_entry(
    alloc: Global,
    schema: &mut Schema,
    name: &str,
    dtype: DataType,
) -> Result<(), WordsFault>
    requires { list_any (bytes_eq name.now) (names_in schema.old) ≡ false }
    ensures pushed { OnOk result (schema.new ≡ schema.old ++ (name.now, dtype) ∷ []) }
    ensures refused { result ≢ Err WordsFault.Words }
{
    let copy = copy_text(alloc, name)?;
    match schema.with_column(copy, dtype) {
        Ok(_) => Ok(()),
        Err(_) => Err(WordsFault::OutOfMemory),
    }
}

// Puts the entry of a part at the end of a schema. Refuses a part that is no entry or whose name is there, and want of
// memory.
fn add_part(alloc: Global, schema: &mut Schema, part: &str) -> Result<(), WordsFault>
    ensures added { OnOk result (option_and_then (λ entry. if list_any (bytes_eq entry.0) (names_in schema.old) then None else Some (schema.old ++ entry ∷ [])) (entry_of part.now) ≡ Some schema.new) }
    ensures refused { IsErrOf result WordsFault.Words → option_and_then (λ entry. if list_any (bytes_eq entry.0) (names_in schema.old) then None else Some (schema.old ++ entry ∷ [])) (entry_of part.now) ≡ None }
{
    let (name, dtype) = read_entry(alloc, part)?;
    if has_name(schema, name) {
        return Err(WordsFault::Words);
    }
    push_entry(alloc, schema, name, dtype)
}

/// The schema that a text means. Refuses a text without a meaning, and want of memory.
pub fn parse_schema(alloc: Global, text: &str) -> Result<Schema, WordsFault>
    ensures schema { IfOk result (λ schema. schema_of text.now ≡ Some schema) }
    ensures refused { IsErrOf result WordsFault.Words → schema_of text.now ≡ None }
{
    let mut schema = Schema::new(alloc);
    let mut rest = text;
    while let Some((part, behind)) = cut_at(rest, b',') {
        add_part(alloc, &mut schema, part)?;
        rest = behind;
    }
    add_part(alloc, &mut schema, rest)?;
    Ok(schema)
}

// The text of a schema.
impl FromText for Schema {
    ghost meaning = { schema_of };

    fn from_text(alloc: Global, text: &str) -> Result<Self, WordsFault> {
        parse_schema(alloc, text)
    }
}
