//! The settled schema: the one that is given, or else that of the input, with the types that the options put in place of its
//! first ones.
ghost use Rattle.std.specs.Prelude.{◌≡◌, IfOk, OnOk, IfErr, IsOkUnless, None, unwrap_or, []};
ghost use Rattle.pl_frame.specs.declared.error.PolarsError.TheVariants as error;
ghost use Rattle.pl_frame.specs.Dialect.{AreDistinct};
ghost use Rattle.pl_options.specs.FirstCause.{first_some, IsFault};
ghost use Rattle.pl_options.specs.Text.{marks_of};
ghost use Rattle.pl_infer.specs.Inference.{inference_of, inferred, inference_causes};
ghost use Rattle.pl_read.specs.Options.{schema_of, with_types, settled, settled_schema};
ghost use Rattle.pl_read.specs.Steps.{MayRead, schema_cause, types_cause, settling_cause};

use pl_frame::data_type::DataType;
use pl_frame::error::{ComputeFault, OpFault, PolarsError, PolarsResult};
use pl_frame::schema::Schema;
use pl_infer::inference::infer_schema;
use pl_infer::inference_options::InferenceOptions;
use pl_infer::schemas::find_unreadable;
use pl_options::column_lists::DataTypes;
use pl_options::read_options::CsvReadOptions;
use std::alloc::Global;

// The schema of an input for which none is given. Refuses an input without a record, where that is asked (`Empty`), then the
// first name that an earlier column has (`Duplicate`), and want of memory. How many workers read becomes one where the sample
// has a long text (docs/types.md, "Inference").
fn inferred_schema(
    alloc: Global,
    input: &[u8],
    options: &CsvReadOptions,
    n_threads: &mut Option<usize>,
) -> PolarsResult<Schema>
    requires { AreDistinct (marks_of options.now.parse_options) }
    ensures inferred { IfOk result (λ schema. schema ≡ inferred (inference_of options.now) input.now) }
    ensures sound { OnOk result (first_some (inference_causes (inference_of options.now) input.now) ≡ None) }
    ensures refused { IfErr result (IsFault (first_some (inference_causes (inference_of options.now) input.now))) }
{
    let inference = InferenceOptions::of(options);
    match infer_schema(alloc, input, &inference, *n_threads) {
        Ok(found) => {
            *n_threads = found.n_threads;
            Ok(found.inferred_schema)
        }
        Err(fault) => Err(fault),
    }
}

// The schema that is given, or else that of the input. Refuses the first cause against it where it is not given, and want of
// memory.
fn schema_of(
    alloc: Global,
    input: &[u8],
    options: &CsvReadOptions,
    n_threads: &mut Option<usize>,
) -> PolarsResult<Schema>
    requires { MayRead options.now }
    ensures schema { IfOk result (λ schema. schema ≡ schema_of options.now input.now) }
    ensures sound { OnOk result (schema_cause options.now input.now ≡ None) }
    ensures refused { IfErr result (IsFault (schema_cause options.now input.now)) }
{
    match &options.schema {
        Some(schema) => schema.try_clone(),
        None => inferred_schema(alloc, input, options, n_threads),
    }
}

// The types that the options put in place of the first ones.
fn given_types(options: &CsvReadOptions) -> &[DataType]
    ensures { result.now ≡ unwrap_or options.now.dtype_overwrite [] }
{
    match &options.dtype_overwrite {
        Some(types) => types.dtypes(),
        None => &[],
    }
}

// Puts types in place of the first ones of a schema. Refuses only want of memory.
fn put_types(schema: &mut Schema, types: &[DataType]) -> PolarsResult<()>
    ensures put { OnOk result (schema.new ≡ with_types types.now schema.old) }
    ensures refused { IsOkUnless result error.OutOfMemory }
{
    for place in 0..types.len() {
        let dtype = types[place].try_clone()?;
        schema.set_dtype_at_index(place, dtype);
    }
    Ok(())
}

/// A schema with the types that the options give. Refuses more types than it has columns (`Overrides`), then the least column
/// whose type can't be read (`Dtype`), and want of memory.
pub(crate) fn with_given_types(options: &CsvReadOptions, given: Schema) -> PolarsResult<Schema>
    ensures settled { IfOk result (λ schema. schema ≡ settled options.now given) }
    ensures sound { OnOk result (types_cause options.now given ≡ None) }
    ensures refused { IfErr result (IsFault (types_cause options.now given)) }
{
    let types = given_types(options);
    if types.len() > given.len() {
        let columns = given.len();
        drop(given);
        return Err(PolarsError::InvalidOperation(OpFault::Overrides {
            given: types.len(),
            columns,
        }));
    }
    let mut schema = given;
    put_types(&mut schema, types)?;
    match find_unreadable(&schema) {
        Some(column) => {
            drop(schema);
            Err(PolarsError::ComputeError(ComputeFault::Dtype { column }))
        }
        None => Ok(schema),
    }
}

/// The settled schema of an input, where the options may stand. Refuses the first cause against it, in this order: where no
/// schema is given, an input without a record (`Empty`) and a name that an earlier column has (`Duplicate`); more types than
/// there are columns (`Overrides`), the least column whose type can't be read (`Dtype`); and want of memory. How many workers
/// read becomes what the inference leaves of it.
pub fn settled_schema(
    alloc: Global,
    input: &[u8],
    options: &CsvReadOptions,
    n_threads: &mut Option<usize>,
) -> PolarsResult<Schema>
    requires { MayRead options.now }
    ensures settled { IfOk result (λ schema. schema ≡ settled_schema options.now input.now) }
    ensures sound { OnOk result (settling_cause options.now input.now ≡ None) }
    ensures refused { IfErr result (IsFault (settling_cause options.now input.now)) }
{
    match schema_of(alloc, input, options, n_threads) {
        Ok(schema) => with_given_types(options, schema),
        Err(fault) => Err(fault),
    }
}
