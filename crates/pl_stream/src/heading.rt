//! What stands before the rows of a stream.
ghost use Rattle.std.specs.Prelude.{◌≡◌, ◌<◌, ◌++◌, [], length, map, IfOk, OnOk, IsOkUnless, if◌then◌else◌};
ghost use Rattle.pl_frame.specs.ByteOrderMark.{byte_order_mark};
ghost use Rattle.pl_frame.specs.Frame.{names_of};
ghost use Rattle.pl_text.specs.FrameText.{header_line};
ghost use Rattle.pl_write.specs.Options.{cell_options};
ghost use Rattle.pl_stream.specs.declared.fault.StreamFault.TheVariants as fault;
ghost use Rattle.pl_stream.specs.Printing.{CanStream, stream_head, name_column};

use crate::fault::StreamFault;
use crate::reading::frame_behind;
use pl_frame::column::Column;
use pl_frame::name::PlSmallStr;
use pl_frame::texts::Texts;
use pl_options::read_options::CsvReadOptions;
use pl_read::settle_given::Settled;
use pl_rows::push::push;
use pl_write::options::{CsvWriterOptions, SerializeOptions};
use pl_write::row_printer::RowPrinter;
use std::alloc::{AllocError, Global};

// A name as a column of one text. Refuses only want of memory.
fn name_column(alloc: Global, name: &str) -> Result<Column, AllocError>
    ensures { IfOk result (λ column. column ≡ name_column name.now) }
{
    let mut texts = Texts::new(alloc);
    texts.push(name)?;
    let Ok(name) = PlSmallStr::from_str(alloc, name) else {
        return Err(AllocError);
    };
    Ok(Column::from_string(name, texts))
}

// The names of columns as a row of texts. Refuses only want of memory.
fn name_columns(alloc: Global, columns: &[Column]) -> Result<Vec<Column>, AllocError>
    ensures { IfOk result (λ names. names.items ≡ map name_column (names_of columns.now)) }
{
    let mut names = Vec::new(alloc);
    for column in columns {
        let name = name_column(alloc, column.name())?;
        push(&mut names, name)?;
    }
    Ok(names)
}

// Appends the line of the names of columns. Refuses only want of memory.
fn push_names(
    alloc: Global,
    columns: &[Column],
    printer: &mut RowPrinter,
    options: &SerializeOptions,
    text: &mut Vec<u8>,
) -> Result<(), AllocError>
    requires { 0 < length columns.now }
    ensures { OnOk result (text.new.items ≡ text.old.items ++ header_line (cell_options options.now) (names_of columns.now)) }
{
    let names = name_columns(alloc, columns)?;
    printer.print(alloc, &names, options)?;
    text.extend_from_slice(printer.as_slice())?;
    Ok(())
}

// Appends a byte order mark, where one is asked for. Refuses only want of memory.
fn push_mark(text: &mut Vec<u8>, include_bom: bool) -> Result<(), AllocError>
    ensures { OnOk result (text.new.items ≡ text.old.items ++ (if include_bom then byte_order_mark else [])) }
{
    if include_bom {
        text.extend_from_slice(&[0xEF, 0xBB, 0xBF])?;
    }
    Ok(())
}

// Appends the line of the names of columns, where it is asked for. Refuses only want of memory.
fn push_header(
    alloc: Global,
    columns: &[Column],
    printer: &mut RowPrinter,
    write: &CsvWriterOptions,
    text: &mut Vec<u8>,
) -> Result<(), AllocError>
    requires { 0 < length columns.now }
    ensures { OnOk result (text.new.items ≡ text.old.items ++ (if write.now.include_header then header_line (cell_options write.now.serialize_options) (names_of columns.now) else [])) }
{
    if write.include_header {
        push_names(alloc, columns, printer, &write.serialize_options, text)
    } else {
        Ok(())
    }
}

/// Appends what stands before the rows. Refuses only want of memory.
pub(crate) fn push_head(
    alloc: Global,
    printer: &mut RowPrinter,
    read: &CsvReadOptions,
    settled: &Settled,
    write: &CsvWriterOptions,
    text: &mut Vec<u8>,
) -> Result<(), StreamFault>
    requires { CanStream read.now settled.now }
    ensures head { OnOk result (text.new.items ≡ text.old.items ++ stream_head read.now write.now) }
    ensures refused { IsOkUnless result fault.OutOfMemory }
{
    let Ok(none) = frame_behind(alloc, &[], read, settled, 0, 0) else {
        return Err(StreamFault::OutOfMemory);
    };
    let Ok(()) = push_mark(text, write.include_bom) else {
        return Err(StreamFault::OutOfMemory);
    };
    match push_header(alloc, none.columns(), printer, write, text) {
        Ok(()) => Ok(()),
        Err(_) => Err(StreamFault::OutOfMemory),
    }
}
