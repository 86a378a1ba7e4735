//! From the bytes of an input to its schema.
ghost use Rattle.std.specs.Prelude.{◌≡◌, length, unwrap_or, [], None, if◌then◌else◌, is_ok, IfOk, IfErr, OnOk, IsOkUnless};
ghost use Rattle.std.specs.Option.{option_copied, option_map, option_map_or};
ghost use Rattle.pl_frame.specs.Dialect.{AreDistinct};
ghost use Rattle.pl_frame.specs.declared.error.PolarsError.TheVariants as error;
ghost use Rattle.pl_cells.specs.NullValues.{compiled_under};
ghost use Rattle.pl_options.specs.FirstCause.{first_some, IsFault, IsFirstCause};
ghost use Rattle.pl_options.specs.ReaderBytes.{bytes_in};
ghost use Rattle.pl_options.specs.Text.{marks_of, comment_of};
ghost use Rattle.pl_infer.specs.Header as header;
ghost use Rattle.pl_infer.specs.Inference.{first_record, data_in, sample_of, types_of_names, has_long_texts, inferred, repeated, inference_causes, file_causes, inference_result, sampled_bytes, workers_left, asks_several, overwritten_columns, names_of, inference, IsInferenceFault, IsInferred};
ghost use Rattle.pl_infer.specs.InferenceOptions.{inference_by};
ghost use Rattle.pl_infer.specs.Sample.{bytes_of_items};

use crate::columns::{overwritten_columns, schema_of};
use crate::evidence::EvidenceRules;
use crate::header::column_names;
use crate::inference_options::InferenceOptions;
use crate::inference_result::SchemaInferenceResult;
use crate::sample::{Sample, take_sample};
use pl_cells::null_values::NullValuesCompiled;
use pl_frame::data_type::DataType;
use pl_frame::error::{NoDataFault, OpFault, PolarsError, PolarsResult};
use pl_frame::name::PlSmallStr;
use pl_frame::schema::Schema;
use pl_options::column_lists::ColumnNames;
use pl_options::parse_options::CsvParseOptions;
use pl_options::reader_bytes::ReaderBytes;
use pl_scan::start::{data_of, skip_lines_naive};
use std::alloc::Global;

// What stands from the first record on, where there is one.
fn first_record<'a>(bytes: &'a [u8], options: &InferenceOptions<'_>) -> Option<&'a [u8]>
    ensures { option_copied result ≡ first_record (inference_by options.now) bytes.now }
{
    let parse_options = options.parse_options;
    let rest = data_of(
        bytes,
        parse_options.separator,
        parse_options.quote_char,
        parse_options.eol_char,
        false,
        options.skip_lines,
        options.skip_rows,
        0,
        parse_options.comment_prefix.as_ref(),
        false,
    )?;
    if rest.is_empty() { None } else { Some(rest) }
}

// What stands from the starting point of the data on, or nothing where there are too few items before it.
fn data_in<'a>(bytes: &'a [u8], options: &InferenceOptions<'_>) -> &'a [u8]
    ensures { result.now ≡ data_in (inference_by options.now) bytes.now }
{
    let parse_options = options.parse_options;
    let data = data_of(
        bytes,
        parse_options.separator,
        parse_options.quote_char,
        parse_options.eol_char,
        false,
        options.skip_lines,
        options.skip_rows,
        options.skip_rows_after_header,
        parse_options.comment_prefix.as_ref(),
        options.has_header,
    );
    match data {
        Some(data) => data,
        None => &[],
    }
}

// The names of the columns, given what stands from the first record on. Refuses only want of memory.
fn names_of(
    alloc: Global,
    record: Option<&[u8]>,
    options: &InferenceOptions<'_>,
) -> PolarsResult<ColumnNames>
    requires { AreDistinct (marks_of options.now.parse_options.now) }
    ensures names { IfOk result (λ names. names ≡ option_map_or (header.column_names options.now.has_header (marks_of options.now.parse_options.now)) (option_copied record.entry) []) }
    ensures refused { IsOkUnless result error.OutOfMemory }
{
    let parse_options = options.parse_options;
    match record {
        Some(record) => column_names(
            alloc,
            record,
            options.has_header,
            parse_options.separator,
            parse_options.quote_char,
            parse_options.eol_char,
        ),
        None => Ok(ColumnNames::new(Vec::new(alloc))),
    }
}

// The texts that mean null in columns of these names, where there are such. Refuses only want of memory.
fn null_values_of(
    alloc: Global,
    names: &[PlSmallStr],
    options: &CsvParseOptions,
) -> PolarsResult<Option<NullValuesCompiled>>
    ensures compiled { IfOk result (λ compiled. compiled ≡ option_map (λ values. compiled_under values names.now) options.now.null_values) }
    ensures refused { IsOkUnless result error.OutOfMemory }
{
    match &options.null_values {
        Some(values) => Ok(Some(values.compile_for_names(alloc, names)?)),
        None => Ok(None),
    }
}

// What the sample of data shows of columns of these names. Refuses only want of memory.
fn sample_of(
    alloc: Global,
    data: &[u8],
    names: &[PlSmallStr],
    options: &InferenceOptions<'_>,
) -> PolarsResult<Sample>
    requires { AreDistinct (marks_of options.now.parse_options.now) }
    ensures types { IfOk result (λ sample. sample.types ≡ types_of_names (inference_by options.now) names.now data.now) }
    ensures items { IfOk result (λ sample. sample.items ≡ length (sample_of (inference_by options.now) data.now)) }
    ensures bytes { IfOk result (λ sample. sample.bytes ≡ bytes_of_items (marks_of options.now.parse_options.now) (comment_of options.now.parse_options.now) sample.items data.now) }
    ensures long { IfOk result (λ sample. sample.has_long_text ≡ has_long_texts (inference_by options.now) names.now data.now) }
    ensures refused { IsOkUnless result error.OutOfMemory }
{
    let null_values = null_values_of(alloc, names, options.parse_options)?;
    let rules = EvidenceRules {
        dialect: options.parse_options.dialect(),
        null_values: null_values.as_ref(),
        dates: options.parse_options.try_parse_dates,
    };
    let sample = take_sample(
        alloc,
        data,
        options.infer_schema_length,
        names.len(),
        &rules,
    );
    drop(null_values);
    sample
}

// The schema of columns of these names and types. Refuses the first name that an earlier column has, and want of memory.
fn schema_of_names(
    alloc: Global,
    names: &[PlSmallStr],
    types: &[DataType],
    other: Option<&Schema>,
) -> PolarsResult<Schema>
    requires { length types.now ≡ length names.now }
    ensures schema { IfOk result (λ schema. schema ≡ overwritten_columns (unwrap_or (option_copied other.entry) []) names.now types.now) }
    ensures distinct { OnOk result (repeated (overwritten_columns (unwrap_or (option_copied other.entry) []) names.now types.now) ≡ None) }
    ensures refused { IfErr result (IsFault (repeated (overwritten_columns (unwrap_or (option_copied other.entry) []) names.now types.now))) }
{
    let columns = overwritten_columns(alloc, names, types, other)?;
    let schema = schema_of(alloc, &columns);
    drop(columns);
    schema
}

// How many bytes stand between the skipped lines and the place just behind the last sampled item; 0 where none is sampled.
fn sampled_bytes(
    bytes: &[u8],
    data: &[u8],
    sample: &Sample,
    options: &InferenceOptions<'_>,
) -> usize
    requires data { data.now ≡ data_in (inference_by options.now) bytes.now }
    requires items { sample.now.items ≡ length (sample_of (inference_by options.now) data.now) }
    requires bytes { sample.now.bytes ≡ bytes_of_items (marks_of options.now.parse_options.now) (comment_of options.now.parse_options.now) sample.now.items data.now }
    ensures { result ≡ sampled_bytes (inference_by options.now) bytes.now }
{
    if sample.items == 0 {
        return 0;
    }
    let text = skip_lines_naive(bytes, options.parse_options.eol_char, options.skip_lines);
    text.len().saturating_sub(data.len()) + sample.bytes
}

// Whether several workers are asked; four are, where no number is given.
fn asks_several(asked: Option<usize>) -> bool
    ensures { result ≡ asks_several asked }
{
    match asked {
        Some(workers) => workers > 1,
        None => true,
    }
}

// How many workers are to read: one where several are asked and a long text was seen.
fn workers_left(asked: Option<usize>, has_long_text: bool) -> Option<usize>
    ensures { result ≡ workers_left asked has_long_text }
{
    if asks_several(asked) && has_long_text {
        Some(1)
    } else {
        asked
    }
}

// What inference gives, where the columns have these names. Refuses a name that an earlier column has, and want of memory.
fn infer_types(
    alloc: Global,
    bytes: &[u8],
    names: &[PlSmallStr],
    options: &InferenceOptions<'_>,
    n_threads: Option<usize>,
) -> PolarsResult<SchemaInferenceResult>
    requires apart { AreDistinct (marks_of options.now.parse_options.now) }
    requires names { names.now ≡ names_of (inference_by options.now) bytes.now }
    ensures inferred { IfOk result (λ found. found ≡ inference_result (inference_by options.now) n_threads bytes.now) }
    ensures sound { OnOk result (repeated (inferred (inference_by options.now) bytes.now) ≡ None) }
    ensures refused { IfErr result (IsFault (repeated (inferred (inference_by options.now) bytes.now))) }
{
    let data = data_in(bytes, options);
    let sample = sample_of(alloc, data, names, options)?;
    let bytes_read = sampled_bytes(bytes, data, &sample, options);
    let types = sample.types.dtypes();
    let inferred_schema = match schema_of_names(alloc, names, types, options.schema_overwrite) {
        Ok(schema) => schema,
        Err(fault) => {
            drop(sample);
            return Err(fault);
        }
    };
    let rows_read = sample.items;
    let n_threads = workers_left(n_threads, sample.has_long_text);
    drop(sample);
    Ok(SchemaInferenceResult {
        inferred_schema,
        rows_read,
        bytes_read,
        bytes_total: bytes.len(),
        n_threads,
    })
}

/// What inference gives of an input, where the bytes that cut it make a dialect, and not both lines and rows are to be skipped.
/// Refuses an input without a record, where that is asked (`Empty`); then the first name that an earlier column has
/// (`Duplicate`); and want of memory. Takes time for the head and the sample of the input alone.
pub fn infer_schema(
    alloc: Global,
    bytes: &[u8],
    options: &InferenceOptions<'_>,
    n_threads: Option<usize>,
) -> PolarsResult<SchemaInferenceResult>
    requires apart { AreDistinct (marks_of options.now.parse_options.now) }
    ensures inferred { IfOk result (λ found. found ≡ inference_result (inference_by options.now) n_threads bytes.now) }
    ensures sound { OnOk result (first_some (inference_causes (inference_by options.now) bytes.now) ≡ None) }
    ensures refused { IfErr result (IsFault (first_some (inference_causes (inference_by options.now) bytes.now))) }
{
    let record = first_record(bytes, options);
    if record.is_none() && options.raise_if_empty {
        return Err(PolarsError::NoData(NoDataFault::Empty));
    }
    let names = names_of(alloc, record, options)?;
    let found = infer_types(alloc, bytes, names.names(), options, n_threads);
    drop(names);
    found
}

/// What inference gives of an input. Refuses bytes that make no dialect (`Dialect`), then lines and rows that are both to be
/// skipped (`Option`), and then as `infer_schema`.
pub(crate) fn infer_checked(
    alloc: Global,
    bytes: &[u8],
    options: &InferenceOptions<'_>,
    n_threads: Option<usize>,
) -> PolarsResult<SchemaInferenceResult>
    ensures inferred { IfOk result (λ found. found ≡ inference_result (inference_by options.now) n_threads bytes.now) }
    ensures sound { OnOk result (IsFirstCause (file_causes (inference_by options.now) bytes.now) options.now.parse_options.now None) }
    ensures refused { IfErr result (IsInferenceFault (inference_by options.now) bytes.now) }
{
    if !options.parse_options.has_dialect() {
        return Err(PolarsError::InvalidOperation(OpFault::Dialect));
    }
    if options.skip_lines > 0 && options.skip_rows > 0 {
        return Err(PolarsError::InvalidOperation(OpFault::Option));
    }
    match infer_schema(alloc, bytes, options, n_threads) {
        Ok(found) => Ok(found),
        Err(fault) => Err(fault),
    }
}

/// The schema of an input, by its first record and its first items, at most `max_read_rows` where that is given; the number
/// of these items; and how many bytes stand up to the end of the last of them, behind skipped lines (docs/types.md,
/// "Inference"). One worker is left of several, where a quoted text with more than eight line ends was seen.
///
/// Refuses bytes that make no dialect (`Dialect`), then lines and rows that are both to be skipped (`Option`), then an input
/// without a record, where `raise_if_empty` (`Empty`), then the first name that an earlier column has (`Duplicate`), and want
/// of memory; the number of workers then stays.
pub fn infer_file_schema(
    alloc: Global,
    reader_bytes: &ReaderBytes<'_>,
    parse_options: &CsvParseOptions,
    max_read_rows: Option<usize>,
    has_header: bool,
    schema_overwrite: Option<&Schema>,
    skip_rows: usize,
    skip_lines: usize,
    skip_rows_after_header: usize,
    raise_if_empty: bool,
    n_threads: &mut Option<usize>,
) -> PolarsResult<(Schema, usize, usize)>
    ensures inferred { IfOk result (λ found. let i = inference parse_options.now max_read_rows has_header (unwrap_or (option_copied schema_overwrite.entry) []) skip_rows skip_lines skip_rows_after_header raise_if_empty in
        IsInferred i (bytes_in reader_bytes.now) found) }
    ensures threads { n_threads.new ≡ (let i = inference parse_options.now max_read_rows has_header (unwrap_or (option_copied schema_overwrite.entry) []) skip_rows skip_lines skip_rows_after_header raise_if_empty in
        if is_ok result then (inference_result i n_threads.old (bytes_in reader_bytes.now)).n_threads else n_threads.old) }
    ensures sound { OnOk result (IsFirstCause (file_causes
        (inference parse_options.now max_read_rows has_header (unwrap_or (option_copied schema_overwrite.entry) []) skip_rows skip_lines skip_rows_after_header raise_if_empty)
        (bytes_in reader_bytes.now)) parse_options.now None) }
    ensures refused { IfErr result (IsInferenceFault
        (inference parse_options.now max_read_rows has_header (unwrap_or (option_copied schema_overwrite.entry) []) skip_rows skip_lines skip_rows_after_header raise_if_empty)
        (bytes_in reader_bytes.now)) }
{
    let options = InferenceOptions {
        parse_options,
        infer_schema_length: max_read_rows,
        has_header,
        schema_overwrite,
        skip_rows,
        skip_lines,
        skip_rows_after_header,
        raise_if_empty,
    };
    match infer_checked(alloc, reader_bytes.bytes(), &options, *n_threads) {
        Ok(found) => {
            *n_threads = found.n_threads;
            Ok((found.inferred_schema, found.rows_read, found.bytes_read))
        }
        Err(fault) => Err(fault),
    }
}
