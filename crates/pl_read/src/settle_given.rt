//! What a read under a given schema goes by, whatever its input.
ghost use Rattle.std.specs.Prelude.{◌≡◌, IfOk, OnOk, IfErr, IsSome, None};
ghost use Rattle.pl_options.specs.FirstCause.{first_some, IsFault, IsFirstCause};
ghost use Rattle.pl_read.specs.SettleGiven.{given_schema, given_causes, settled_causes, column_causes, IsSettled, IsGivenFault};
ghost use Rattle.pl_read.specs.Steps.{MayRead};

use crate::checks::check_options;
use crate::nulls::named_in;
use crate::projecting::projected_places;
use crate::settling::with_given_types;
use pl_cells::null_values::NullValuesCompiled;
use pl_frame::error::PolarsResult;
use pl_frame::schema::Schema;
use pl_options::read_options::CsvReadOptions;
use std::alloc::Global;

/// What a read goes by: the settled schema, the places of the columns that are read, in the order of the schema, and the null values of its
/// columns.
pub struct Settled {
    pub schema: Schema,
    pub projection: Vec<usize>,
    pub null_values: Option<NullValuesCompiled>,
}

impl Drop for Settled {
    fn drop(self) {
        let Settled {
            schema: _,
            projection: _,
            null_values: _,
        } = self;
    }
}

/// What a read under a given schema goes by, whatever its input (docs/options.md). Refuses the first cause that stands against the options
/// alone (docs/refusals.md): marks that are no dialect (`Dialect`), an option with a value that it may not have (`Option`), more types than
/// there are columns (`Overrides`), the least column whose type can't be read (`Dtype`), the first name that the schema doesn't have
/// (`ColumnNotFound`), the greatest place that is none of the schema's (`OutOfBounds`), and the least column that is asked twice, or the
/// name of the row index where a column that is read has it (`Duplicate`); and want of memory.
pub fn settle_given(alloc: Global, read: &CsvReadOptions) -> PolarsResult<Settled>
    requires given { IsSome read.now.schema }
    ensures settled { IfOk result (IsSettled read.now (given_schema read.now)) }
    ensures sound { OnOk result (IsFirstCause (given_causes read.now) read.now.parse_options None) }
    ensures refused { IfErr result (IsGivenFault read.now) }
{
    match check_options(read) {
        Ok(()) => settle_checked(alloc, read),
        Err(fault) => Err(fault),
    }
}

// The same, where the options may stand.
fn settle_checked(alloc: Global, read: &CsvReadOptions) -> PolarsResult<Settled>
    requires given { IsSome read.now.schema }
    requires allowed { MayRead read.now }
    ensures settled { IfOk result (IsSettled read.now (given_schema read.now)) }
    ensures sound { OnOk result (first_some (settled_causes read.now (given_schema read.now)) ≡ None) }
    ensures refused { IfErr result (IsFault (first_some (settled_causes read.now (given_schema read.now)))) }
{
    let Some(given) = &read.schema else {
        unreachable!()
    };
    let given = match given.try_clone() {
        Ok(given) => given,
        Err(fault) => return Err(fault),
    };
    match with_given_types(read, given) {
        Ok(schema) => settle_columns(alloc, read, schema),
        Err(fault) => Err(fault),
    }
}

// What is read of a settled schema.
fn settle_columns(alloc: Global, read: &CsvReadOptions, schema: Schema) -> PolarsResult<Settled>
    ensures settled { IfOk result (IsSettled read.now schema) }
    ensures sound { OnOk result (first_some (column_causes read.now schema) ≡ None) }
    ensures refused { IfErr result (IsFault (first_some (column_causes read.now schema))) }
{
    let (null_values, asked) = match named_in(alloc, read, &schema) {
        Ok(named) => named,
        Err(fault) => {
            drop(schema);
            return Err(fault);
        }
    };
    match projected_places(alloc, read, &schema, &asked) {
        Ok(projection) => Ok(Settled {
            schema,
            projection,
            null_values,
        }),
        Err(fault) => {
            drop(null_values);
            drop(schema);
            Err(fault)
        }
    }
}
