//! The text of a frame, printed by the caller alone.
ghost use Rattle.std.specs.Prelude.{◌≡◌, ◌++◌, [], length, ◌<◌, map, IfOk, OnOk, if◌then◌else◌};
ghost use Rattle.pl_csv_c.specs.FrameText.{name_column};
ghost use Rattle.pl_frame.specs.ByteOrderMark.{byte_order_mark};
ghost use Rattle.pl_frame.specs.Frame.{HaveHeight, height_of, names_of};
ghost use Rattle.pl_text.specs.FrameText.{header_line, head_text, text_of_frame};
ghost use Rattle.pl_write.specs.Options.{cell_options, frame_options};

use pl_frame::column::Column;
use pl_frame::name::PlSmallStr;
use pl_frame::texts::Texts;
use pl_rows::push::push;
use pl_write::options::{CsvWriterOptions, SerializeOptions};
use pl_write::row_printer::RowPrinter;
use std::alloc::{AllocError, Global};

// A name as a column of one text. Refuses only want of memory.
fn name_column(alloc: Global, name: &str) -> Result<Column, AllocError>
    ensures { IfOk result (λ column. column ≡ name_column name.now) }
{
    let mut texts = Texts::new(alloc);
    texts.push(name)?;
    let Ok(name) = PlSmallStr::from_str(alloc, name) else {
        return Err(AllocError);
    };
    Ok(Column::from_string(name, texts))
}

// The names of columns as a row of texts. Refuses only want of memory.
fn name_columns(alloc: Global, columns: &[Column]) -> Result<Vec<Column>, AllocError>
    ensures { IfOk result (λ names. names.items ≡ map name_column (names_of columns.now)) }
{
    let mut names = Vec::new(alloc);
    for column in columns {
        let name = name_column(alloc, column.name())?;
        push(&mut names, name)?;
    }
    Ok(names)
}

// Appends the line of the names of columns, of which there are some. Refuses only want of memory.
fn push_names(
    alloc: Global,
    columns: &[Column],
    printer: &mut RowPrinter,
    options: &SerializeOptions,
    text: &mut Vec<u8>,
) -> Result<(), AllocError>
    requires { 0 < length columns.now }
    ensures { OnOk result (text.new.items ≡ text.old.items ++ header_line (cell_options options.now) (names_of columns.now)) }
{
    let names = name_columns(alloc, columns)?;
    printer.print(alloc, &names, options)?;
    text.extend_from_slice(printer.as_slice())?;
    Ok(())
}

// Appends the line of the names of columns. Refuses only want of memory.
fn push_header(
    alloc: Global,
    columns: &[Column],
    printer: &mut RowPrinter,
    options: &SerializeOptions,
    text: &mut Vec<u8>,
) -> Result<(), AllocError>
    ensures { OnOk result (text.new.items ≡ text.old.items ++ header_line (cell_options options.now) (names_of columns.now)) }
{
    if columns.is_empty() {
        return text.extend_from_slice(options.line_terminator.as_str().as_bytes());
    }
    push_names(alloc, columns, printer, options, text)
}

// Appends a byte order mark, where one is asked for. Refuses only want of memory.
fn push_mark(text: &mut Vec<u8>, include_bom: bool) -> Result<(), AllocError>
    ensures { OnOk result (text.new.items ≡ text.old.items ++ (if include_bom then byte_order_mark else [])) }
{
    if include_bom {
        text.extend_from_slice(&[0xEF, 0xBB, 0xBF])?;
    }
    Ok(())
}

// Appends what stands before the rows of columns. Refuses only want of memory.
fn push_head(
    alloc: Global,
    columns: &[Column],
    printer: &mut RowPrinter,
    options: &CsvWriterOptions,
    text: &mut Vec<u8>,
) -> Result<(), AllocError>
    ensures { OnOk result (text.new.items ≡ text.old.items ++ head_text (frame_options options.now) (names_of columns.now)) }
{
    push_mark(text, options.include_bom)?;
    if options.include_header {
        push_header(alloc, columns, printer, &options.serialize_options, text)?;
    }
    Ok(())
}

/// The text of a frame, printed by the caller. Refuses only want of memory.
pub(crate) fn frame_text(
    alloc: Global,
    columns: &[Column],
    options: &CsvWriterOptions,
) -> Result<Vec<u8>, AllocError>
    requires { HaveHeight (height_of columns.now) columns.now }
    ensures { IfOk result (λ text. text.items ≡ text_of_frame (frame_options options.now) columns.now) }
{
    let mut printer = RowPrinter::new(alloc)?;
    let mut text = Vec::new(alloc);
    push_head(alloc, columns, &mut printer, options, &mut text)?;
    printer.print(alloc, columns, &options.serialize_options)?;
    text.extend_from_slice(printer.as_slice())?;
    Ok(text)
}
