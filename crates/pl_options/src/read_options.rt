//! How an input is read.
ghost use Rattle.std.specs.Prelude.{◌≡◌, IfOk, OnOk, IsOkUnless};
ghost use Rattle.pl_frame.specs.declared.error.PolarsError.TheVariants as error;
ghost use Rattle.pl_options.specs.Options.{default_read_options};

use crate::column_lists::{ColumnNames, ColumnPlaces, DataTypes, Fields};
use crate::parse_options::CsvParseOptions;
use crate::put::put;
use crate::row_index::RowIndex;
use crate::try_clone::copy_into;
use pl_frame::error::PolarsResult;
use pl_frame::name::PlSmallStr;
use pl_frame::schema::Schema;
use std::alloc::Global;

/// How an input is read: which rows and columns, under which names and types, and by which marks (docs/options.md). Each
/// `with_` call sets the option that it names, keeps the others and takes no memory.
#[derive(Debug, Drop, PartialEq, Eq)]
pub struct CsvReadOptions {
    /// Where the input lies, for the calls that open it. Default: nowhere (docs/options.md).
    pub path: Option<PlSmallStr>,
    /// Whether the frame of a read has each column in one piece; its values are the same either way. Default: off (docs/options.md).
    pub rechunk: bool,
    /// How many workers read; `None`, the default, means four (docs/options.md).
    pub n_threads: Option<usize>,
    /// Has no effect. Default: off (docs/options.md).
    pub low_memory: bool,
    /// How many rows are read at most; `None`, the default, means all (docs/options.md).
    pub n_rows: Option<usize>,
    /// A column of row numbers before the others. Default: none (docs/options.md).
    pub row_index: Option<RowIndex>,
    /// The names of the columns that are read. Default: none are named (docs/options.md).
    pub columns: Option<ColumnNames>,
    /// The places of the columns that are read, where none are named; `None`, the default, means all (docs/options.md).
    pub projection: Option<ColumnPlaces>,
    /// The names and types of all columns; `None`, the default, means that they are inferred (docs/options.md).
    pub schema: Option<Schema>,
    /// Names and types in place of inferred ones. Default: none (docs/options.md).
    pub schema_overwrite: Option<Schema>,
    /// The types of the first columns, in place of others. Default: none (docs/options.md).
    pub dtype_overwrite: Option<DataTypes>,
    /// How bytes are cut into fields, and what their texts mean.
    pub parse_options: CsvParseOptions,
    /// Whether the first record is a header. Default: it is (docs/grammar.md, "The starting point").
    pub has_header: bool,
    /// About how many bytes of the data are taken at a time, and more where 256 columns or more are read. Default 262144
    /// (docs/options.md).
    pub chunk_size: usize,
    /// How many items are skipped before the header. Default 0 (docs/grammar.md, "The starting point").
    pub skip_rows: usize,
    /// How many lines are skipped at the head. Default 0 (docs/grammar.md, "The starting point").
    pub skip_lines: usize,
    /// How many items are skipped behind the header. Default 0 (docs/grammar.md, "The starting point").
    pub skip_rows_after_header: usize,
    /// From how many items types are inferred; `None` means all. Default 100 (docs/options.md).
    pub infer_schema_length: Option<usize>,
    /// Whether an input without a record is refused where names are inferred. Default: it is (docs/options.md).
    pub raise_if_empty: bool,
    /// Whether a cell without a value is null; else it is a fault. Default: a fault (docs/types.md, "Every type").
    pub ignore_errors: bool,
    /// Columns to be cast behind a read. A read refuses any, and no call sets them. Default: none (docs/options.md).
    pub fields_to_cast: Fields,
}

impl CsvReadOptions {
    /// The default of each option. Takes no memory.
    pub fn new(alloc: Global) -> Self
        ensures { result ≡ default_read_options }
    {
        CsvReadOptions {
            path: None,
            rechunk: false,
            n_threads: None,
            low_memory: false,
            n_rows: None,
            row_index: None,
            columns: None,
            projection: None,
            schema: None,
            schema_overwrite: None,
            dtype_overwrite: None,
            parse_options: CsvParseOptions::new(),
            has_header: true,
            chunk_size: 262144,
            skip_rows: 0,
            skip_lines: 0,
            skip_rows_after_header: 0,
            infer_schema_length: Some(100),
            raise_if_empty: true,
            ignore_errors: false,
            fields_to_cast: Fields::new(Vec::new(alloc)),
        }
    }

    /// Equal options. Refuses only want of memory.
    pub fn try_clone(&self) -> PolarsResult<CsvReadOptions>
        ensures equal { IfOk result (λ options. options ≡ self.now) }
        ensures refused { IsOkUnless result error.OutOfMemory }
    {
        let fields_to_cast = self.fields_to_cast.try_clone()?;
        let parse_options = match self.parse_options.try_clone() {
            Ok(parse_options) => parse_options,
            Err(fault) => {
                drop(fields_to_cast);
                return Err(fault);
            }
        };
        let mut copy = CsvReadOptions {
            path: None,
            rechunk: self.rechunk,
            n_threads: self.n_threads,
            low_memory: self.low_memory,
            n_rows: self.n_rows,
            row_index: None,
            columns: None,
            projection: None,
            schema: None,
            schema_overwrite: None,
            dtype_overwrite: None,
            parse_options,
            has_header: self.has_header,
            chunk_size: self.chunk_size,
            skip_rows: self.skip_rows,
            skip_lines: self.skip_lines,
            skip_rows_after_header: self.skip_rows_after_header,
            infer_schema_length: self.infer_schema_length,
            raise_if_empty: self.raise_if_empty,
            ignore_errors: self.ignore_errors,
            fields_to_cast,
        };
        match self.copy_optional_into(&mut copy) {
            Ok(()) => Ok(copy),
            Err(fault) => {
                drop(copy);
                Err(fault)
            }
        }
    }

    // Copies what may be absent into other options, but for those of the parse. Refuses only want of memory.
    fn copy_optional_into(&self, copy: &mut CsvReadOptions) -> PolarsResult<()>
        ensures copied { OnOk result (copy.new ≡ record copy.old {
          path = self.now.path;
          row_index = self.now.row_index;
          columns = self.now.columns;
          projection = self.now.projection;
          schema = self.now.schema;
          schema_overwrite = self.now.schema_overwrite;
          dtype_overwrite = self.now.dtype_overwrite;
        }) }
        ensures refused { IsOkUnless result error.OutOfMemory }
    {
        copy_into(&self.path, &mut copy.path)?;
        copy_into(&self.row_index, &mut copy.row_index)?;
        copy_into(&self.columns, &mut copy.columns)?;
        copy_into(&self.projection, &mut copy.projection)?;
        copy_into(&self.schema, &mut copy.schema)?;
        copy_into(&self.schema_overwrite, &mut copy.schema_overwrite)?;
        copy_into(&self.dtype_overwrite, &mut copy.dtype_overwrite)
    }

    /// The options of the parse, without taking memory.
    pub fn get_parse_options(&self) -> &CsvParseOptions
        ensures { result.now ≡ self.now.parse_options }
    {
        &self.parse_options
    }

    /// Replaces the options of the parse by what `map_func` makes of them, which may be called on them, and keeps the
    /// others.
    pub fn map_parse_options<F: Fn(CsvParseOptions) -> CsvParseOptions>(
        mut self,
        map_func: F,
    ) -> Self
        requires { F.pre map_func self.parse_options }
        ensures made { F.post map_func self.parse_options result.parse_options }
        ensures kept { result ≡ record self { parse_options = result.parse_options } }
    {
        self.parse_options = map_func(self.parse_options);
        self
    }

    /// Sets where the input lies, for the calls that open it.
    pub fn with_path(mut self, path: Option<PlSmallStr>) -> Self
        ensures { result ≡ record self { path = path } }
    {
        put(&mut self.path, path);
        self
    }

    /// Sets whether the frame of a read has each column in one piece; its values are the same either way.
    pub fn with_rechunk(mut self, rechunk: bool) -> Self
        ensures { result ≡ record self { rechunk = rechunk } }
    {
        self.rechunk = rechunk;
        self
    }

    /// Sets how many workers read; `None` means four.
    pub fn with_n_threads(mut self, n_threads: Option<usize>) -> Self
        ensures { result ≡ record self { n_threads = n_threads } }
    {
        self.n_threads = n_threads;
        self
    }

    /// Sets an option without an effect.
    pub fn with_low_memory(mut self, low_memory: bool) -> Self
        ensures { result ≡ record self { low_memory = low_memory } }
    {
        self.low_memory = low_memory;
        self
    }

    /// Sets how many rows are read at most; `None` means all.
    pub fn with_n_rows(mut self, n_rows: Option<usize>) -> Self
        ensures { result ≡ record self { n_rows = n_rows } }
    {
        self.n_rows = n_rows;
        self
    }

    /// Sets a column of row numbers before the others.
    pub fn with_row_index(mut self, row_index: Option<RowIndex>) -> Self
        ensures { result ≡ record self { row_index = row_index } }
    {
        put(&mut self.row_index, row_index);
        self
    }

    /// Sets the names of the columns that are read.
    pub fn with_columns(mut self, columns: Option<ColumnNames>) -> Self
        ensures { result ≡ record self { columns = columns } }
    {
        put(&mut self.columns, columns);
        self
    }

    /// Sets the places of the columns that are read, where none are named; `None` means all.
    pub fn with_projection(mut self, projection: Option<ColumnPlaces>) -> Self
        ensures { result ≡ record self { projection = projection } }
    {
        put(&mut self.projection, projection);
        self
    }

    /// Sets the names and types of all columns; `None` means that they are inferred.
    pub fn with_schema(mut self, schema: Option<Schema>) -> Self
        ensures { result ≡ record self { schema = schema } }
    {
        put(&mut self.schema, schema);
        self
    }

    /// Sets names and types in place of inferred ones.
    pub fn with_schema_overwrite(mut self, schema_overwrite: Option<Schema>) -> Self
        ensures { result ≡ record self { schema_overwrite = schema_overwrite } }
    {
        put(&mut self.schema_overwrite, schema_overwrite);
        self
    }

    /// Sets the types of the first columns, in place of others.
    pub fn with_dtype_overwrite(mut self, dtype_overwrite: Option<DataTypes>) -> Self
        ensures { result ≡ record self { dtype_overwrite = dtype_overwrite } }
    {
        put(&mut self.dtype_overwrite, dtype_overwrite);
        self
    }

    /// Sets how bytes are cut into fields, and what their texts mean.
    pub fn with_parse_options(mut self, parse_options: CsvParseOptions) -> Self
        ensures { result ≡ record self { parse_options = parse_options } }
    {
        put(&mut self.parse_options, parse_options);
        self
    }

    /// Sets whether the first record is a header.
    pub fn with_has_header(mut self, has_header: bool) -> Self
        ensures { result ≡ record self { has_header = has_header } }
    {
        self.has_header = has_header;
        self
    }

    /// Sets about how many bytes of the data are taken at a time.
    pub fn with_chunk_size(mut self, chunk_size: usize) -> Self
        ensures { result ≡ record self { chunk_size = chunk_size } }
    {
        self.chunk_size = chunk_size;
        self
    }

    /// Sets how many items are skipped before the header.
    pub fn with_skip_rows(mut self, skip_rows: usize) -> Self
        ensures { result ≡ record self { skip_rows = skip_rows } }
    {
        self.skip_rows = skip_rows;
        self
    }

    /// Sets how many lines are skipped at the head.
    pub fn with_skip_lines(mut self, skip_lines: usize) -> Self
        ensures { result ≡ record self { skip_lines = skip_lines } }
    {
        self.skip_lines = skip_lines;
        self
    }

    /// Sets how many items are skipped behind the header.
    pub fn with_skip_rows_after_header(mut self, skip_rows_after_header: usize) -> Self
        ensures { result ≡ record self { skip_rows_after_header = skip_rows_after_header } }
    {
        self.skip_rows_after_header = skip_rows_after_header;
        self
    }

    /// Sets from how many items types are inferred; `None` means all.
    pub fn with_infer_schema_length(mut self, infer_schema_length: Option<usize>) -> Self
        ensures { result ≡ record self { infer_schema_length = infer_schema_length } }
    {
        self.infer_schema_length = infer_schema_length;
        self
    }

    /// Sets whether an input without a record is refused where names are inferred.
    pub fn with_raise_if_empty(mut self, raise_if_empty: bool) -> Self
        ensures { result ≡ record self { raise_if_empty = raise_if_empty } }
    {
        self.raise_if_empty = raise_if_empty;
        self
    }

    /// Sets whether a cell without a value is null; else it is a fault.
    pub fn with_ignore_errors(mut self, ignore_errors: bool) -> Self
        ensures { result ≡ record self { ignore_errors = ignore_errors } }
    {
        self.ignore_errors = ignore_errors;
        self
    }
}
