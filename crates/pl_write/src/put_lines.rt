//! The cells of a line and lines, put into a block from a place on.
ghost use Rattle.std.specs.Prelude.{◌≡◌, ◌<◌, ◌++◌, ◌+◌, ◌≤◌, length, take, IfSome, IfNone};
ghost use Rattle.pl_write.specs.Lines.{cell_in_line};
ghost use Rattle.pl_write.specs.Options.{cell_options};
ghost use Rattle.pl_write.specs.Writing.{separator_before};

use crate::options::SerializeOptions;
use crate::put_cell::PutCell;
use crate::put_cells::put_ready;
use crate::puts::{put_byte, put_byte_if, put_bytes};
use crate::spare::Spare;
use pl_frame::column::Column;

// A separator and a cell that is no long text need no more room.
const ROOM: usize = 67;

// A line up to so long is copied with what stands behind it.
const SHORT: usize = 64;

// Puts a separator, but before the first of a line.
#[inline(always)]
fn put_separator(to: &mut [u8], at: usize, separator: u8, place: usize) -> usize
    requires room { at < length to.old }
    ensures text { take result to.new ≡ take at to.old ++ separator_before separator place }
    ensures end { result ≤ at + 1 }
{
    put_byte_if(to, at, separator, place > 0)
}

// Puts what ends a line, where there is room.
#[inline]
fn put_terminator(to: &mut [u8], at: usize, options: &SerializeOptions) -> Option<usize>
    requires room { at ≤ length to.old }
    ensures text { IfSome result (λ end. take end to.new ≡ take at to.old ++ options.now.line_terminator) }
    ensures within { IfSome result (λ end. end ≤ length to.new) }
    ensures unchanged { IfNone result (to.new ≡ to.old) }
{
    let terminator = options.line_terminator.as_str().as_bytes();
    if terminator.len() > to.len() - at {
        return None;
    }
    match terminator {
        [byte] => Some(put_byte(to, at, *byte)),
        _ => Some(put_bytes(to, at, terminator)),
    }
}

/// Puts a cell, with a separator in front unless it is the first of its line. Where there is no room for both, or memory is
/// wanting, no cell is put, and what stood in front stays.
#[inline(always)]
pub(crate) fn put_cell_in_line<C: PutCell>(
    to: &mut [u8],
    at: usize,
    spare: &mut Spare,
    column: &Column,
    source: &C,
    row: usize,
    place: usize,
    options: &SerializeOptions,
) -> Option<usize>
    requires at { at ≤ length to.old }
    requires row { row < length column.now.values }
    requires source { C.fits source.now (cell_options options.now) column.now }
    ensures text { IfSome result (λ end. take end to.new ≡ take at to.old ++ cell_in_line (cell_options options.now) column.now place row) }
    ensures within { IfSome result (λ end. end ≤ length to.new) }
    ensures kept { IfNone result (take at to.new ≡ take at to.old) }
{
    if to.len() - at < ROOM {
        return None;
    }
    let front = put_separator(to, at, options.separator, place);
    source.put(to, front, spare, column, row, options)
}

// Puts the first bytes of a buffer, where there is room.
#[inline(always)]
fn put_start(to: &mut [u8], at: usize, buffer: &[u8], count: usize) -> Option<usize>
    requires at { at ≤ length to.old }
    requires few { count ≤ length buffer.now }
    ensures text { IfSome result (λ end. take end to.new ≡ take at to.old ++ take count buffer.now) }
    ensures within { IfSome result (λ end. end ≤ length to.new) }
    ensures unchanged { IfNone result (to.new ≡ to.old) }
{
    if count <= SHORT && buffer.len() >= SHORT && to.len() - at >= SHORT {
        put_bytes(to, at, &buffer[..SHORT]);
        return Some(at + count);
    }
    put_ready(to, at, &buffer[..count])
}

/// Puts the first bytes of a buffer as a line, and what ends it. Where there is no room, no line is put, and what stood in
/// front stays.
#[inline(always)]
pub(crate) fn put_line(
    to: &mut [u8],
    at: usize,
    buffer: &[u8],
    count: usize,
    options: &SerializeOptions,
) -> Option<usize>
    requires at { at ≤ length to.old }
    requires few { count ≤ length buffer.now }
    ensures text { IfSome result (λ end. take end to.new ≡ (take at to.old ++ take count buffer.now) ++ options.now.line_terminator) }
    ensures within { IfSome result (λ end. end ≤ length to.new) }
    ensures kept { IfNone result (take at to.new ≡ take at to.old) }
{
    match put_start(to, at, buffer, count) {
        Some(end) => put_terminator(to, end, options),
        None => None,
    }
}
