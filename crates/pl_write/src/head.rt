//! What stands before the rows: the byte order mark and the line of the names.
ghost use Rattle.std.specs.Prelude.{◌≡◌, ℕ, ◌<◌, ◌++◌, [], List, length, slice_index_or, IfOk, OnOk, if◌then◌else◌};
ghost use Rattle.pl_frame.specs.Frame.{names_of};
ghost use Rattle.pl_frame.specs.Schema.{names_in};
ghost use Rattle.pl_frame.specs.ByteOrderMark.{byte_order_mark};
ghost use Rattle.pl_text.specs.FrameText.{written_text, header_line, head_text};
ghost use Rattle.pl_write.specs.Options.{cell_options, frame_options};
ghost use Rattle.pl_write.specs.Writing.{separator_before};

use crate::block::Block;
use crate::options::{CsvWriterOptions, SerializeOptions};
use crate::texts::push_text;
use pl_frame::column::Column;
use pl_frame::schema::Schema;
use std::alloc::{AllocError, Global};

/// What has names in order.
pub(crate) trait Names {
    /// The names.
    ghost names: { Self → List (List ℕ) };

    /// How many there are.
    fn count(&self) -> usize
        ensures { result ≡ length (names self.now) };

    /// The name at a place.
    fn name_at(&self, place: usize) -> &str
        requires { place < length (names self.now) }
        ensures { result.now ≡ slice_index_or (names self.now) place [] };
}

/// The names of columns.
#[derive(Clone, Copy)]
pub(crate) struct ColumnNames<'a>(pub &'a [Column]);

impl<'a> Names for ColumnNames<'a> {
    ghost names = { λ columns. names_of columns.0.now };

    fn count(&self) -> usize {
        self.0.len()
    }

    fn name_at(&self, place: usize) -> &str {
        self.0[place].name()
    }
}

impl Names for Schema {
    ghost names = { names_in };

    fn count(&self) -> usize {
        self.len()
    }

    fn name_at(&self, place: usize) -> &str {
        match self.get_at_index(place) {
            Some((name, _)) => name.as_str(),
            None => "",
        }
    }
}

// Appends a separator, but before the first of a line.
#[inline]
fn push_separator(block: &mut Vec<u8>, separator: u8, place: usize) -> Result<(), AllocError>
    ensures { OnOk result (block.new.items ≡ block.old.items ++ separator_before separator place) }
{
    if place > 0 {
        block.push(separator)?;
    }
    Ok(())
}

// Appends what ends a line.
#[inline]
fn push_terminator(block: &mut Vec<u8>, options: &SerializeOptions) -> Result<(), AllocError>
    ensures { OnOk result (block.new.items ≡ block.old.items ++ options.now.line_terminator) }
{
    block.extend_from_slice(options.line_terminator.as_str().as_bytes())
}

// Appends the line of the names.
fn push_header<N: Names>(
    block: &mut Vec<u8>,
    names: &N,
    options: &SerializeOptions,
) -> Result<(), AllocError>
    ensures { OnOk result (block.new.items ≡ block.old.items ++ header_line (cell_options options.now) (N.names names.now)) }
{
    for place in 0..names.count() {
        push_separator(block, options.separator, place)?;
        push_text(block, names.name_at(place).as_bytes(), options)?;
    }
    push_terminator(block, options)
}

// Appends a byte order mark, where one is asked for.
fn push_mark(block: &mut Vec<u8>, include_bom: bool) -> Result<(), AllocError>
    ensures { OnOk result (block.new.items ≡ block.old.items ++ (if include_bom then byte_order_mark else [])) }
{
    if include_bom {
        block.extend_from_slice(&[0xEF, 0xBB, 0xBF])?;
    }
    Ok(())
}

// Appends what stands before the rows.
fn push_head<N: Names>(
    block: &mut Vec<u8>,
    names: &N,
    options: &CsvWriterOptions,
) -> Result<(), AllocError>
    ensures { OnOk result (block.new.items ≡ block.old.items ++ head_text (frame_options options.now) (N.names names.now)) }
{
    push_mark(block, options.include_bom)?;
    if options.include_header {
        push_header(block, names, &options.serialize_options)?;
    }
    Ok(())
}

/// A block of what stands before the rows. Refuses only want of memory.
pub(crate) fn head_block<N: Names>(
    alloc: Global,
    names: &N,
    options: &CsvWriterOptions,
) -> Result<Block, AllocError>
    ensures { IfOk result (λ block. block ≡ head_text (frame_options options.now) (N.names names.now)) }
{
    let mut head = Vec::new(alloc);
    push_head(&mut head, names, options)?;
    let mut block = Block::new(alloc);
    block.append(&head)?;
    Ok(block)
}
