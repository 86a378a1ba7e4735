//! The null values of the columns of a schema.
ghost use Rattle.std.specs.Prelude.{◌≡◌, IfOk, OnOk, IfErr, None};
ghost use Rattle.std.specs.Option.{option_map};
ghost use Rattle.pl_frame.specs.declared.error.PolarsError.TheVariants as error;
ghost use Rattle.pl_cells.specs.NullValues.{compiled_for};
ghost use Rattle.pl_options.specs.FirstCause.{IsFault};
ghost use Rattle.pl_read.specs.Projection.{asked};
ghost use Rattle.pl_read.specs.Refusals.{unknown};
ghost use Rattle.pl_read.specs.Steps.{unknown_null};

use crate::projecting::asked_places;
use pl_cells::null_values::NullValuesCompiled;
use pl_frame::error::PolarsResult;
use pl_frame::schema::Schema;
use pl_options::read_options::CsvReadOptions;
use std::alloc::Global;

// The null values of the columns, where there are such. Refuses the first name that the schema doesn't have
// (`ColumnNotFound`), and want of memory.
fn null_values_of(
    alloc: Global,
    options: &CsvReadOptions,
    schema: &Schema,
) -> PolarsResult<Option<NullValuesCompiled>>
    ensures compiled { IfOk result (λ compiled. compiled ≡ option_map (λ values. compiled_for values schema.now) options.now.parse_options.null_values) }
    ensures known { OnOk result (unknown_null options.now schema.now ≡ None) }
    ensures refused { IfErr result (IsFault (option_map error.ColumnNotFound (unknown_null options.now schema.now))) }
{
    let Some(null_values) = &options.parse_options.null_values else {
        return Ok(None);
    };
    match null_values.try_clone()?.compile(alloc, schema) {
        Ok(compiled) => Ok(Some(compiled)),
        Err(fault) => Err(fault),
    }
}

/// What the options name of a schema: the null values of its columns, where there are such, and the places of the columns that are
/// asked. Refuses the first name that the schema doesn't have (`ColumnNotFound`), and want of memory.
pub(crate) fn named_in(
    alloc: Global,
    options: &CsvReadOptions,
    schema: &Schema,
) -> PolarsResult<(Option<NullValuesCompiled>, Vec<usize>)>
    ensures compiled { IfOk result (λ named. named.0 ≡ option_map (λ values. compiled_for values schema.now) options.now.parse_options.null_values) }
    ensures places { IfOk result (λ named. named.1.items ≡ asked options.now schema.now) }
    ensures known { OnOk result (unknown options.now schema.now ≡ None) }
    ensures refused { IfErr result (IsFault (unknown options.now schema.now)) }
{
    let null_values = null_values_of(alloc, options, schema)?;
    match asked_places(alloc, options, schema) {
        Ok(asked) => Ok((null_values, asked)),
        Err(fault) => {
            drop(null_values);
            Err(fault)
        }
    }
}
