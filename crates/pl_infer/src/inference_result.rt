//! What inference gives.
ghost use Rattle.std.specs.Prelude.{◌≡◌, None, IfOk, IfErr, OnOk, IsOkUnless};
ghost use Rattle.pl_frame.specs.declared.error.PolarsError.TheVariants as error;
ghost use Rattle.pl_options.specs.declared.read_options.CsvReadOptions.{CsvReadOptions};
ghost use Rattle.pl_options.specs.FirstCause.{IsFirstCause};
ghost use Rattle.pl_options.specs.ReaderBytes.{bytes_in};
ghost use Rattle.pl_infer.specs.Inference.{inference_of, inference_result, file_causes, IsInferenceFault};
ghost use Rattle.pl_infer.specs.InferenceResult.{empty_result, estimated_rows};

use crate::inference::infer_checked;
use crate::inference_options::InferenceOptions;
use pl_frame::error::PolarsResult;
use pl_frame::schema::Schema;
use pl_options::read_options::CsvReadOptions;
use pl_options::reader_bytes::ReaderBytes;
use std::alloc::Global;

/// What inference gives: a schema, and how much was read for it.
#[derive(Debug, Drop)]
pub struct SchemaInferenceResult {
    /// The names and types of all columns.
    pub inferred_schema: Schema,
    /// How many items types were inferred from.
    pub rows_read: usize,
    /// How many bytes stand up to the end of the last of them.
    pub bytes_read: usize,
    /// How many bytes there are.
    pub bytes_total: usize,
    /// How many workers are to read; `None` means four.
    pub n_threads: Option<usize>,
}

impl SchemaInferenceResult {
    /// A result without columns, rows and bytes. Takes no memory.
    pub fn new(alloc: Global) -> Self
        ensures { result ≡ empty_result }
    {
        SchemaInferenceResult {
            inferred_schema: Schema::new(alloc),
            rows_read: 0,
            bytes_read: 0,
            bytes_total: 0,
            n_threads: None,
        }
    }

    /// What inference gives of an input under the options of a reader, as `infer_file_schema` does, which says what is refused.
    pub fn try_from_reader_bytes_and_options(
        alloc: Global,
        reader_bytes: &ReaderBytes<'_>,
        options: &CsvReadOptions,
    ) -> PolarsResult<Self>
        ensures inferred { IfOk result (λ found. found ≡ inference_result (inference_of options.now) options.now.n_threads (bytes_in reader_bytes.now)) }
        ensures sound { OnOk result (IsFirstCause (file_causes (inference_of options.now) (bytes_in reader_bytes.now)) options.now.parse_options None) }
        ensures refused { IfErr result (IsInferenceFault (inference_of options.now) (bytes_in reader_bytes.now)) }
    {
        let inference = InferenceOptions::of(options);
        match infer_checked(alloc, reader_bytes.bytes(), &inference, options.n_threads) {
            Ok(found) => Ok(found),
            Err(fault) => Err(fault),
        }
    }

    /// An equal result. Refuses only want of memory.
    pub fn try_clone(&self) -> PolarsResult<SchemaInferenceResult>
        ensures equal { IfOk result (λ copy. copy ≡ self.now) }
        ensures refused { IsOkUnless result error.OutOfMemory }
    {
        Ok(SchemaInferenceResult {
            inferred_schema: self.inferred_schema.try_clone()?,
            rows_read: self.rows_read,
            bytes_read: self.bytes_read,
            bytes_total: self.bytes_total,
            n_threads: self.n_threads,
        })
    }

    /// Sets the schema, and keeps the rest. Takes no memory.
    pub fn with_inferred_schema(mut self, inferred_schema: Schema) -> Self
        ensures { result ≡ record self { inferred_schema = inferred_schema } }
    {
        self.inferred_schema = inferred_schema;
        self
    }

    /// The schema, without taking memory.
    pub fn get_inferred_schema(&self) -> &Schema
        ensures { result.now ≡ self.now.inferred_schema }
    {
        &self.inferred_schema
    }

    /// How many rows the input has, if the bytes that were not read have as many as those that were: the rows times the total
    /// bytes divided by the bytes read, and 0 where nothing was read. Where that does not fit, the largest `usize`.
    pub fn get_estimated_n_rows(&self) -> usize
        ensures { result ≡ estimated_rows self.now.rows_read self.now.bytes_read self.now.bytes_total }
    {
        if self.bytes_read == 0 {
            return 0;
        }
        let rows = (self.rows_read as u128) * (self.bytes_total as u128);
        let estimate = rows / (self.bytes_read as u128);
        if estimate < u64::MAX as u128 {
            estimate as usize
        } else {
            usize::MAX
        }
    }
}

/// Options that can be brought up to date with what inference gives.
pub trait UpdateWithInferenceResult {
    /// The options, which contracts see.
    ghost options: { Self → CsvReadOptions };

    /// Sets how many workers read to what inference leaves of that number, and keeps the rest.
    fn update_with_inference_result(&mut self, si_result: &SchemaInferenceResult)
        ensures { options self.new ≡ record (options self.old) { n_threads = si_result.now.n_threads } };
}

impl UpdateWithInferenceResult for CsvReadOptions {
    ghost options = { λ it. it };

    fn update_with_inference_result(&mut self, si_result: &SchemaInferenceResult) {
        self.n_threads = si_result.n_threads;
    }
}
