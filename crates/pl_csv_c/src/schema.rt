//! The schema of an input, as the text that `--schema` takes.
ghost use Rattle.std.specs.Prelude.{◌≡◌, ◌≢◌, ℕ, List, map, length, string_bytes, IfOk, IfErr, Some};
ghost use Rattle.std.specs.Bool.{Decides};
ghost use Rattle.pl_csv_c.specs.Fault.{IsRefusedAs};
ghost use Rattle.pl_csv_c.specs.SchemaText.{schema_text};
ghost use Rattle.pl_csv_c.specs.Schemas.{IsTold, HasNoText, IsToldSchema, HasNoToldSchema, TellsSchema, TellsNoSchema};
ghost use Rattle.pl_read.specs.Steps.{MayRead};
ghost use Rattle.pl_words.specs.SchemaText.{schema_of};

use crate::bytes::{BytesView, hand_out};
use crate::fault::refuse;
use crate::given::given_of;
use crate::schema_text::text_of_schema;
use pl_csv::run::Refusal;
use pl_frame::error::{OpFault, PolarsError, PolarsResult};
use pl_frame::schema::Schema;
use pl_options::read_options::CsvReadOptions;
use pl_read::checks::check_options;
use pl_read::preparing::prepare;
use pl_words::schema_text::parse_schema;
use pl_words::words::WordsFault;
use std::alloc::{AllocError, Global};

// Whether `--schema` reads a text as a schema. Refuses only want of memory.
fn tells(alloc: Global, text: &str, schema: &Schema) -> Result<bool, AllocError>
    ensures { IfOk result (λ told. Decides told (schema_of text.now ≡ Some schema.now)) }
{
    match parse_schema(alloc, text) {
        Ok(read) => Ok(read == *schema),
        Err(WordsFault::Words) => Ok(false),
        Err(WordsFault::OutOfMemory) => Err(AllocError),
    }
}

// The text of a schema, where `--schema` reads it as that schema. Refuses where it does not, and want of memory.
fn told_text(alloc: Global, schema: &Schema) -> PolarsResult<String>
    ensures text { IfOk result (λ text. string_bytes text ≡ schema_text schema.now) }
    ensures told { IfOk result (λ text. IsTold schema.now) }
    ensures refused { IfErr result (HasNoText schema.now) }
{
    let Ok(text) = text_of_schema(alloc, schema) else {
        return Err(PolarsError::OutOfMemory);
    };
    match tells(alloc, text.as_str(), schema) {
        Ok(true) => Ok(text),
        Ok(false) => Err(PolarsError::InvalidOperation(OpFault::Option)),
        Err(_) => Err(PolarsError::OutOfMemory),
    }
}

// The text of the settled schema of an input, where the options may stand.
fn schema_checked(alloc: Global, input: &[u8], read: &CsvReadOptions) -> PolarsResult<String>
    requires { MayRead read.now }
    ensures told { IfOk result (λ text. IsToldSchema read.now input.now (string_bytes text)) }
    ensures refused { IfErr result (HasNoToldSchema read.now input.now) }
{
    match prepare(alloc, input, read) {
        Ok(prepared) => {
            let text = told_text(alloc, &prepared.schema);
            drop(prepared);
            text
        }
        Err(fault) => Err(fault),
    }
}

// The text of the settled schema of an input. Refuses the first cause that stands against the input before those of its rows, then a
// schema that has no such text, and want of memory.
fn schema_of_input(alloc: Global, input: &[u8], read: &CsvReadOptions) -> PolarsResult<String>
    ensures told { IfOk result (λ text. IsToldSchema read.now input.now (string_bytes text)) }
    ensures refused { IfErr result (HasNoToldSchema read.now input.now) }
{
    match check_options(read) {
        Ok(()) => schema_checked(alloc, input, read),
        Err(fault) => Err(fault),
    }
}

// The same, by words.
fn schema_given(alloc: Global, input: &[u8], words: &[&[u8]]) -> Result<Vec<u8>, Refusal>
    ensures told { IfOk result (λ text. TellsSchema (map (λ word. word.now) words.now) input.now text.items) }
    ensures refused { IfErr result (TellsNoSchema (map (λ word. word.now) words.now) input.now) }
{
    let given = match given_of(alloc, words) {
        Ok(given) => given,
        Err(refusal) => return Err(refusal),
    };
    match schema_of_input(alloc, input, &given.read) {
        Ok(text) => Ok(text.into_bytes()),
        Err(fault) => Err(Refusal::Polars(fault)),
    }
}

/// Hands out the schema by which an input is read under the words, as the text that `--schema` takes. So each part of the input can be
/// read by the schema of the whole. Where `--schema` would not read that text as that schema, as where there is no column, or a name has
/// a colon or a comma, the status is 12. At any status but 0 nothing is written but the fault line.
#[unsafe(no_mangle)]
pub extern "C" fn pl_csv_schema(
    alloc: Global,
    input: &[u8],
    words: &[&[u8]],
    text: &mut BytesView,
    line: &mut [u8],
    line_len: &mut usize,
) -> u32
    // Status 0: the words have a meaning, no cause stands against the input before those of its rows, and bytes are handed out, as many
    // as the text of its schema has. No line is told.
    ensures told { result ≡ 0 → (told : List ℕ) × TellsSchema (map (λ word. word.now) words.now) input.now told × (text.new.len ≡ length told) }
    ensures silent { result ≡ 0 → (line.new ≡ line.old) × (line_len.new ≡ 0) }

    // Each other status comes only by its cause, whose line is told, and no bytes are handed out.
    ensures refused { result ≢ 0 → IsRefusedAs (TellsNoSchema (map (λ word. word.now) words.now) input.now) result line.old line.new line_len.new }
    ensures same { result ≢ 0 → text.new ≡ text.old }
{
    let told = match schema_given(alloc, input, words) {
        Ok(told) => told,
        Err(refusal) => return refuse(alloc, refusal, line, line_len),
    };
    match hand_out(alloc, told, text) {
        Ok(()) => {
            *line_len = 0;
            0
        }
        Err(_) => {
            let wanting = Refusal::Polars(PolarsError::OutOfMemory);
            refuse(alloc, wanting, line, line_len)
        }
    }
}
