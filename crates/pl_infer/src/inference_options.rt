//! The options that a schema is inferred by.
ghost use Rattle.std.specs.Prelude.{◌≡◌};
ghost use Rattle.pl_infer.specs.Inference.{inference_of};
ghost use Rattle.pl_infer.specs.InferenceOptions.{inference_by};

use pl_frame::schema::Schema;
use pl_options::parse_options::CsvParseOptions;
use pl_options::read_options::CsvReadOptions;

/// What a schema is inferred by (docs/options.md).
#[derive(Clone, Copy)]
pub struct InferenceOptions<'a> {
    pub parse_options: &'a CsvParseOptions,
    /// How many items are sampled; `None` for all.
    pub infer_schema_length: Option<usize>,
    pub has_header: bool,
    /// Types by name; or else names and types by place, where it has as many columns.
    pub schema_overwrite: Option<&'a Schema>,
    pub skip_rows: usize,
    pub skip_lines: usize,
    pub skip_rows_after_header: usize,
    /// Whether an input without a record is refused.
    pub raise_if_empty: bool,
}

impl<'a> InferenceOptions<'a> {
    /// What options of a reader say of inference, without taking memory.
    pub fn of(options: &'a CsvReadOptions) -> Self
        ensures { inference_by result ≡ inference_of options.now }
    {
        InferenceOptions {
            parse_options: &options.parse_options,
            infer_schema_length: options.infer_schema_length,
            has_header: options.has_header,
            schema_overwrite: options.schema_overwrite.as_ref(),
            skip_rows: options.skip_rows,
            skip_lines: options.skip_lines,
            skip_rows_after_header: options.skip_rows_after_header,
            raise_if_empty: options.raise_if_empty,
        }
    }
}
