//! What a read needs before it comes to the rows: the settled schema, null values, the columns that are read and the starting point.
ghost use Rattle.std.specs.Prelude.{◌≡◌, ◌≤◌, ◌==◌, ◌&&◌, nat_lt, length, drop, IfOk, OnOk, IfErr, IfSome, IfNone, None, Some};
ghost use Rattle.std.specs.Option.{option_copied};
ghost use Rattle.pl_infer.specs.Schemas.{first_unreadable_column};
ghost use Rattle.pl_options.specs.FirstCause.{IsFault};
ghost use Rattle.pl_read.specs.Options.{keeps_ends, data_of, settled_schema};
ghost use Rattle.pl_read.specs.Preparing.{IsPrepared};
ghost use Rattle.pl_read.specs.Projection.{asked, projected, taken_name};
ghost use Rattle.pl_read.specs.Refusals.{nothing_read};
ghost use Rattle.pl_read.specs.Steps.{MayRead, opening_cause, settled_cause, asked_cause};

use crate::nulls::named_in;
use crate::projecting::projected_places;
use crate::settling::settled_schema;
use pl_cells::null_values::NullValuesCompiled;
use pl_frame::compression::is_compressed;
use pl_frame::error::{ComputeFault, NoDataFault, PolarsError, PolarsResult};
use pl_frame::schema::Schema;
use pl_options::read_options::CsvReadOptions;
use pl_scan::start::data_of;
use std::alloc::Global;

/// What the rows of an input are read by: how many workers read, the settled schema, the null values of its columns, the places of
/// the columns that are read, and where the data begins.
pub struct Prepared {
    pub n_threads: Option<usize>,
    pub schema: Schema,
    pub null_values: Option<NullValuesCompiled>,
    pub places: Vec<usize>,
    pub start: usize,
}

impl Drop for Prepared {
    fn drop(self) {
        let Prepared {
            n_threads: _,
            schema: _,
            null_values: _,
            places: _,
            start: _,
        } = self;
    }
}

/// What the rows of an input are read by, where the options may stand: `check_options` tells. Refuses the first cause against the
/// input that stands before those of its rows (docs/refusals.md), and want of memory.
pub fn prepare(alloc: Global, input: &[u8], options: &CsvReadOptions) -> PolarsResult<Prepared>
    requires { MayRead options.now }
    ensures prepared { IfOk result (IsPrepared options.now (settled_schema options.now input.now) input.now) }
    ensures sound { OnOk result (opening_cause options.now (settled_schema options.now input.now) input.now ≡ None) }
    ensures refused { IfErr result (IsFault (opening_cause options.now (settled_schema options.now input.now) input.now)) }
{
    if is_compressed(input) {
        return Err(PolarsError::ComputeError(ComputeFault::Compressed));
    }
    let mut n_threads = options.n_threads;
    match settled_schema(alloc, input, options, &mut n_threads) {
        Ok(schema) => prepare_settled(alloc, n_threads, input, options, schema),
        Err(fault) => Err(fault),
    }
}

// Where the data begins, where it does.
fn start_of(input: &[u8], options: &CsvReadOptions) -> Option<usize>
    ensures within { IfSome result (λ start. start ≤ length input.now) }
    ensures data { IfSome result (λ start. data_of options.now input.now ≡ Some (drop start input.now)) }
    ensures none { IfNone result (data_of options.now input.now ≡ None) }
{
    match data_from_start(input, options) {
        Some(records) => Some(input.len() - records.len()),
        None => None,
    }
}

// What stands from the starting point on, where there is one.
fn data_from_start<'a>(input: &'a [u8], options: &CsvReadOptions) -> Option<&'a [u8]>
    ensures { option_copied result ≡ data_of options.now input.now }
{
    let parse_options = &options.parse_options;
    data_of(
        input,
        parse_options.separator,
        parse_options.quote_char,
        parse_options.eol_char,
        keeps_ends(options),
        options.skip_lines,
        options.skip_rows,
        options.skip_rows_after_header,
        parse_options.comment_prefix.as_ref(),
        options.has_header,
    )
}

/// Whether line ends at the front of an input are kept: where a schema of one column at most is given.
pub fn keeps_ends(options: &CsvReadOptions) -> bool
    ensures { result ≡ keeps_ends options.now }
{
    match &options.schema {
        Some(schema) => schema.len() <= 1,
        None => false,
    }
}

// What the rows of an input are read by, under its settled schema.
fn prepare_settled(
    alloc: Global,
    n_threads: Option<usize>,
    input: &[u8],
    options: &CsvReadOptions,
    schema: Schema,
) -> PolarsResult<Prepared>
    requires { first_unreadable_column schema ≡ None }
    ensures prepared { IfOk result (IsPrepared options.now schema input.now) }
    ensures sound { OnOk result (settled_cause options.now schema input.now ≡ None) }
    ensures refused { IfErr result (IsFault (settled_cause options.now schema input.now)) }
{
    let (null_values, asked) = match named_in(alloc, options, &schema) {
        Ok(named) => named,
        Err(fault) => {
            drop(schema);
            return Err(fault);
        }
    };
    let Some(start) = start_of(input, options) else {
        drop(null_values);
        drop(schema);
        return Err(PolarsError::NoData(NoDataFault::Skip));
    };
    match places_read(alloc, &input[start..], options, &schema, &asked) {
        Ok(places) => Ok(Prepared {
            n_threads,
            schema,
            null_values,
            places,
            start,
        }),
        Err(fault) => {
            drop(null_values);
            drop(schema);
            Err(fault)
        }
    }
}

// The places of the columns that are read of the data, of those that are asked.
fn places_read(
    alloc: Global,
    records: &[u8],
    options: &CsvReadOptions,
    schema: &Schema,
    wanted: &[usize],
) -> PolarsResult<Vec<usize>>
    requires { wanted.now ≡ asked options.now schema.now }
    ensures places { IfOk result (λ places. places.items ≡ projected options.now schema.now) }
    ensures free { OnOk result (taken_name options.now schema.now ≡ None) }
    ensures some { OnOk result (nothing_read options.now schema.now records.now ≡ None) }
    ensures sound { OnOk result (asked_cause options.now schema.now records.now ≡ None) }
    ensures refused { IfErr result (IsFault (asked_cause options.now schema.now records.now)) }
{
    match projected_places(alloc, options, schema, wanted) {
        Ok(places) => {
            if is_nothing_read(&places, records) {
                return Err(PolarsError::EmptyProjection);
            }
            Ok(places)
        }
        Err(fault) => Err(fault),
    }
}

// Whether no column is read, and there is data.
fn is_nothing_read(places: &[usize], records: &[u8]) -> bool
    ensures { result ≡ (length places.now == 0 && nat_lt 0 (length records.now)) }
{
    places.is_empty() && !records.is_empty()
}
