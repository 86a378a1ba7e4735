//! Frames that are read of a file and of bytes in memory.
ghost use Rattle.std.specs.Prelude.{◌≡◌, None, IfOk};

use pl_csv::adapters::FsOpener;
use pl_frame::data_type::DataType;
use pl_frame::error::PolarsResult;
use pl_frame::frame::DataFrame;
use pl_frame::name::PlSmallStr;
use pl_frame::schema::Schema;
use pl_frame::source::MemSource;
use pl_infer::inference::infer_file_schema;
use pl_read::bytes_reader::MmapBytesReader;
use pl_read::csv_reader::{CsvReader, SerReader};
use pl_read::options::{
    ColumnNames, CsvParseOptions, CsvReadOptions, NullTexts, NullValues, ReaderBytes,
};
use pl_read::reader_makers::ReaderMakers;
use std::alloc::Global;
use std::fs::Files;
use std::sync::Wait;
use std::thread::Threads;

/// Puts a column at the end of a schema. Its type from before, if it was there, goes to `drop`.
pub fn add_column(schema: &mut Schema, name: PlSmallStr, dtype: DataType) -> PolarsResult<()> {
    drop(schema.with_column(name, dtype)?);
    Ok(())
}

/// A read of the columns `id`, `name` and `amount`.
pub fn orders(alloc: Global) -> PolarsResult<CsvReadOptions>
    ensures { IfOk result (λ options. options.path ≡ None) }
{
    let mut schema = Schema::new(alloc);
    let name = PlSmallStr::from_str(alloc, "id")?;
    add_column(&mut schema, name, DataType::Int64)?;
    let name = PlSmallStr::from_str(alloc, "name")?;
    add_column(&mut schema, name, DataType::String)?;
    let name = PlSmallStr::from_str(alloc, "amount")?;
    add_column(&mut schema, name, DataType::Decimal(None, Some(2)))?;
    Ok(CsvReadOptions::new(alloc).with_schema(Some(schema)))
}

/// The frame that a reader reads.
pub fn frame_of<W: Threads + Wait + Sync, R: MmapBytesReader + Drop>(
    rt: &W,
    reader: CsvReader<R>,
) -> PolarsResult<DataFrame> {
    let mut reader = reader;
    let frame = reader.finish(rt);
    drop(reader);
    frame
}

/// The frame of a file.
pub fn read_a_file<W: Files + Threads + Wait + Sync>(
    rt: &W,
    alloc: Global,
    path: &str,
) -> PolarsResult<DataFrame> {
    let path = PlSmallStr::from_str(alloc, path)?;
    let mut opener = FsOpener::new(rt);
    let options = orders(alloc)?;
    let reader = options.try_into_reader_with_file_path(alloc, &mut opener, Some(path))?;
    frame_of(rt, reader)
}

/// The frame of a text whose header names the columns and whose texts give the types.
pub fn read_without_a_schema<W: Threads + Wait + Sync>(
    rt: &W,
    alloc: Global,
    text: &[u8],
) -> PolarsResult<DataFrame> {
    frame_of(rt, CsvReader::new(alloc, MemSource::new(text)))
}

/// The columns `id` and `amount` of a text.
pub fn read_two_columns<W: Threads + Wait + Sync>(
    rt: &W,
    alloc: Global,
    text: &[u8],
) -> PolarsResult<DataFrame> {
    let amount = PlSmallStr::from_str(alloc, "amount")?;
    let id = PlSmallStr::from_str(alloc, "id")?;
    let names = vec![in alloc; amount, id]?;
    let options = orders(alloc)?.with_columns(Some(ColumnNames::new(names)));
    let reader = options.into_reader_with_file_handle(alloc, MemSource::new(text));
    frame_of(rt, reader)
}

/// The frame of a text in which `NA` and `-` mean null, in every column.
pub fn read_with_nulls<W: Threads + Wait + Sync>(
    rt: &W,
    alloc: Global,
    text: &[u8],
) -> PolarsResult<DataFrame> {
    let na = PlSmallStr::from_str(alloc, "NA")?;
    let dash = PlSmallStr::from_str(alloc, "-")?;
    let nulls = NullValues::AllColumns(NullTexts::new(vec![in alloc; na, dash]?));
    let parse = CsvParseOptions::new().with_null_values(Some(nulls));
    let options = CsvReadOptions::new(alloc).with_parse_options(parse);
    let reader = options.into_reader_with_file_handle(alloc, MemSource::new(text));
    frame_of(rt, reader)
}

/// The names in the header of a text, and the types that its first hundred rows show.
pub fn infer_a_schema(alloc: Global, text: &[u8]) -> PolarsResult<Schema> {
    let bytes = ReaderBytes::Borrowed(text);
    let parse = CsvParseOptions::new();
    let found = infer_file_schema(
        alloc,
        &bytes,
        &parse,
        Some(100),
        true,
        None,
        0,
        0,
        0,
        true,
        &mut None,
    );
    drop(parse);
    Ok(found?.0)
}
