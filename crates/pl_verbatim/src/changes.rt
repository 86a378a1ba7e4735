//! Rows that are written otherwise than they were read: what is written of them is put into a block.
ghost use Rattle.std.specs.Prelude.{◌≡◌, ◌+◌, ◌-◌, None, Some, ◌<◌, ◌≤◌, ◌∷◌, [], ◌++◌, true, false, length, get_or, take, slice_index, slice_range, IfSome, IfNone};
ghost use Rattle.std.specs.List.{All};
ghost use Rattle.pl_verbatim.specs.Nulls.{are_alike, AreStartsOf};
ghost use Rattle.pl_verbatim.specs.Changes.{found_text, IsCellPut, IsColumnPut, IsRowPut};
ghost use Rattle.pl_verbatim.specs.CellTexts.{zeros_text};
ghost use Rattle.pl_verbatim.specs.Kinds.{is_passed, is_sound_kind};

use crate::form::Form;
use crate::found::{Found, find};
use crate::kinds::Kind;
use crate::marks::Marks;
use crate::nulls::{means_null, null_end};
use crate::passed::pass_field;
use pl_write::puts::{put_byte, put_byte_if, put_bytes};

// What is written of a cell needs no more room beside its text: two quotes, a point and zeros, a mark, and what a copy of fixed size puts behind it.
pub(crate) const ROOM: usize = 64;

// Puts what stands from one place to another. A short text goes there with what stands behind it.
#[inline(always)]
pub(crate) fn put_part(text: &[u8], from: usize, to: usize, out: &mut [u8], place: usize) -> usize
    requires ordered { from ≤ to }
    requires inside { to ≤ length text.now }
    requires room { place + (to - from) + 32 ≤ length out.old }
    ensures text { take result out.new ≡ take place out.old ++ slice_range text.now from to }
    ensures end { result ≡ place + (to - from) }
{
    let count = to - from;
    if count <= 16 && text.len() - from >= 16 {
        put_bytes(out, place, &text[from..from + 16]);
        return place + count;
    }
    if count <= 32 && text.len() - from >= 32 {
        put_bytes(out, place, &text[from..from + 32]);
        return place + count;
    }
    put_bytes(out, place, &text[from..to])
}

// Puts a point and so many zeros, where there are such.
#[inline(always)]
fn put_zeros(zeros: usize, out: &mut [u8], place: usize) -> usize
    requires few { zeros ≤ 9 }
    requires room { place + 10 ≤ length out.old }
    ensures text { take result out.new ≡ take place out.old ++ zeros_text zeros }
    ensures end { result ≤ place + 10 }
{
    if zeros == 0 {
        return place;
    }
    put_bytes(out, place, &b".000000000"[..zeros + 1])
}

// Puts what was found, where there is room.
#[inline(always)]
fn put_found(text: &[u8], found: Found, quote: u8, out: &mut [u8], place: usize) -> Option<usize>
    requires ordered { found.start ≤ found.stop }
    requires inside { found.stop ≤ length text.now }
    requires few { found.zeros ≤ 9 }
    requires place { place ≤ length out.old }
    ensures text { IfSome result (λ end. take end out.new ≡ take place out.old ++ found_text text.now quote found) }
    ensures within { IfSome result (λ end. end < length out.new) }
    ensures long { length out.new ≡ length out.old }
    ensures unchanged { IfNone result (out.new ≡ out.old) }
{
    let room = out.len() - place;
    if room < ROOM || found.stop - found.start > room - ROOM {
        return None;
    }
    let opened = put_byte_if(out, place, quote, found.is_quoted);
    let behind = put_part(text, found.start, found.stop, out, opened);
    let closing = put_zeros(found.zeros, out, behind);
    Some(put_byte_if(out, closing, quote, found.is_quoted))
}

// Puts a text, most often an empty one or one byte, where there is room.
#[inline(always)]
fn put_text(text: &[u8], out: &mut [u8], place: usize) -> Option<usize>
    requires place { place ≤ length out.old }
    ensures text { IfSome result (λ end. take end out.new ≡ take place out.old ++ text.now) }
    ensures within { IfSome result (λ end. end < length out.new) }
    ensures long { length out.new ≡ length out.old }
    ensures unchanged { IfNone result (out.new ≡ out.old) }
{
    if text.len() >= out.len() - place {
        return None;
    }
    match text {
        [] => Some(place),
        [byte] => Some(put_byte(out, place, *byte)),
        _ => Some(put_bytes(out, place, text)),
    }
}

// Puts what is written of the cell at a place that is not empty, where there is room and no text means null, and answers the end of its field, and the
// place behind what was put. `CALLER` is that of `cell_end`.
#[inline(always)]
pub(crate) fn put_value<const CALLER: usize>(
    text: &[u8],
    at: usize,
    kind: Kind,
    mark: u8,
    separator: u8,
    quote: u8,
    form: &Form,
    out: &mut [u8],
    place: usize,
) -> Option<(usize, usize)>
    requires inside { at < length text.now }
    requires sound { is_sound_kind kind ≡ true }
    requires ascii { quote < 128 }
    requires place { place ≤ length out.old }
    requires begin { AreStartsOf form.now.nulls form.now.starts }
    requires other { get_or form.now.starts (slice_index text.now at) false ≡ false }
    ensures put { IfSome result (λ put. IsCellPut text.now at (put.0 + 1) kind mark separator quote form.now (take place out.old) (take put.1 out.new)) }
    ensures inside { IfSome result (λ put. put.0 < length text.now) }
    ensures within { IfSome result (λ put. put.1 < length out.new) }
    ensures long { length out.new ≡ length out.old }
    ensures unchanged { IfNone result (out.new ≡ out.old) }
{
    let found = find::<CALLER>(text, at, kind, mark, separator, quote, form)?;
    let end = put_found(text, found, quote, out, place)?;
    Some((found.end, end))
}

// The same where the field may be a text that means null.
#[inline(never)]
fn put_unless_null(
    text: &[u8],
    at: usize,
    kind: Kind,
    mark: u8,
    separator: u8,
    quote: u8,
    form: &Form,
    out: &mut [u8],
    place: usize,
) -> Option<(usize, usize)>
    requires inside { at < length text.now }
    requires sound { is_sound_kind kind ≡ true }
    requires ascii { quote < 128 }
    requires place { place ≤ length out.old }
    requires alike { are_alike form.now.nulls ≡ true }
    ensures put { IfSome result (λ put. IsCellPut text.now at (put.0 + 1) kind mark separator quote form.now (take place out.old) (take put.1 out.new)) }
    ensures inside { IfSome result (λ put. put.0 < length text.now) }
    ensures within { IfSome result (λ put. put.1 < length out.new) }
    ensures long { length out.new ≡ length out.old }
    ensures unchanged { IfNone result (out.new ≡ out.old) }
{
    let Some(nulls) = &form.nulls else {
        return None;
    };
    match find::<9>(text, at, kind, mark, separator, quote, form) {
        Some(found) => {
            if means_null(nulls, &text[at..found.end], quote)? {
                let end = put_text(&form.null, out, place)?;
                return Some((found.end, end));
            }
            let end = put_found(text, found, quote, out, place)?;
            Some((found.end, end))
        }
        None => {
            let next = null_end(text, at, mark, separator, quote, nulls)?;
            let end = put_text(&form.null, out, place)?;
            Some((next, end))
        }
    }
}

// Puts what is written of the cell at a place, where there is room, and answers the place behind the mark that ends its field, and the place behind
// what was put. `CALLER` is that of `cell_end`.
#[inline(always)]
fn put_cell<const CALLER: usize>(
    text: &[u8],
    at: usize,
    kind: Kind,
    mark: u8,
    separator: u8,
    quote: u8,
    form: &Form,
    marks: &mut Marks,
    out: &mut [u8],
    place: usize,
) -> Option<(usize, usize)>
    requires inside { at ≤ length text.now }
    requires sound { is_sound_kind kind ≡ true }
    requires ascii { quote < 128 }
    requires place { place ≤ length out.old }
    requires alike { are_alike form.now.nulls ≡ true }
    requires begin { AreStartsOf form.now.nulls form.now.starts }
    ensures put { IfSome result (λ put. IsCellPut text.now at put.0 kind mark separator quote form.now (take place out.old) (take put.1 out.new)) }
    ensures within { IfSome result (λ put. put.1 < length out.new) }
    ensures long { length out.new ≡ length out.old }
    ensures kept { take place out.new ≡ take place out.old }
{
    if at >= text.len() {
        return None;
    }
    let ahead = marks.next(text, separator);
    if text[at] == mark {
        let end = put_text(&form.null, out, place)?;
        return Some((marks.pass(ahead, text, at, separator), end));
    }
    let put = if form.starts[text[at] as usize] {
        put_unless_null(text, at, kind, mark, separator, quote, form, out, place)
    } else {
        put_value::<CALLER>(text, at, kind, mark, separator, quote, form, out, place)
    };
    let (field_end, end) = put?;
    Some((marks.pass(ahead, text, field_end, separator), end))
}

// Puts what is put of the field at a place whose column is read, where there is room, and answers the place behind the mark that ends it, and the place
// behind what was put: what is written of the cell, behind a separator unless it is the first. `CALLER` is that of `cell_end`.
#[inline(always)]
fn put_read<const CALLER: usize>(
    text: &[u8],
    at: usize,
    kind: Kind,
    mark: u8,
    separator: u8,
    quote: u8,
    form: &Form,
    marks: &mut Marks,
    out: &mut [u8],
    place: usize,
    is_first: bool,
) -> Option<(usize, usize)>
    requires inside { at ≤ length text.now }
    requires read { is_passed kind ≡ false }
    requires sound { is_sound_kind kind ≡ true }
    requires ascii { quote < 128 }
    requires place { place < length out.old }
    requires alike { are_alike form.now.nulls ≡ true }
    requires begin { AreStartsOf form.now.nulls form.now.starts }
    ensures put { IfSome result (λ put. IsColumnPut text.now at put.0 kind mark separator quote form.now is_first (take place out.old) (take put.1 out.new)) }
    ensures within { IfSome result (λ put. put.1 < length out.new) }
    ensures long { length out.new ≡ length out.old }
    ensures kept { take place out.new ≡ take place out.old }
{
    let behind = put_byte_if(out, place, form.separator, !is_first);
    put_cell::<CALLER>(
        text, at, kind, mark, separator, quote, form, marks, out, behind,
    )
}

// What `put_row` does. With `READS_ALL` no column is asked whether it is read. `CELL` and `LAST` are callers of `put_read`.
#[inline(always)]
fn put_row_of<const READS_ALL: bool, const CELL: usize, const LAST: usize>(
    text: &[u8],
    start: usize,
    kinds: &[Kind],
    separator: u8,
    quote: u8,
    form: &Form,
    marks: &mut Marks,
    out: &mut [u8],
    from: usize,
) -> Option<(usize, usize)>
    requires inside { start ≤ length text.now }
    requires sound { All (λ kind. is_sound_kind kind ≡ true) kinds.now }
    requires ascii { quote < 128 }
    requires place { from ≤ length out.old }
    requires alike { are_alike form.now.nulls ≡ true }
    requires begin { AreStartsOf form.now.nulls form.now.starts }
    requires whole { READS_ALL ≡ true → All (λ kind. is_passed kind ≡ false) kinds.now }
    ensures some { IfSome result (λ put. 0 < length kinds.now) }
    ensures after { IfSome result (λ put. start < put.0) }
    ensures within { IfSome result (λ put. put.0 ≤ length text.now) }
    ensures room { IfSome result (λ put. put.1 ≤ length out.new) }
    ensures long { length out.new ≡ length out.old }
    ensures kept { take from out.new ≡ take from out.old }
    ensures put { IfSome result (λ put. IsRowPut text.now start kinds.now separator quote form.now (take from out.old) (take put.1 out.new) put.0) }
{
    if kinds.is_empty() || from >= out.len() {
        return None;
    }
    let last = kinds.len() - 1;
    let mut at = start;
    let mut place = from;
    let mut is_first = true;
    for index in 0..last {
        let kind = kinds[index];
        if !READS_ALL && kind.is_passed() {
            at = pass_field(text, at, separator, separator, quote, marks)?;
            continue;
        }
        let (next, end) = put_read::<CELL>(
            text, at, kind, separator, separator, quote, form, marks, out, place, is_first,
        )?;
        at = next;
        place = end;
        is_first = false;
    }
    let kind = kinds[last];
    if !READS_ALL && kind.is_passed() {
        let next = pass_field(text, at, b'\n', separator, quote, marks)?;
        let behind = put_text(&form.terminator, out, place)?;
        return Some((next, behind));
    }
    let (next, end) = put_read::<LAST>(
        text, at, kind, b'\n', separator, quote, form, marks, out, place, is_first,
    )?;
    let behind = put_text(&form.terminator, out, end)?;
    Some((next, behind))
}

/// Puts what is written of the row at a place, where there is room, and answers the place behind its own line, and the place behind what was put.
/// None also where no such row is found; what stands in front stays. Where all columns are read, it has a loop of its own, which is faster.
#[inline(always)]
pub(crate) fn put_row(
    text: &[u8],
    start: usize,
    kinds: &[Kind],
    separator: u8,
    quote: u8,
    form: &Form,
    marks: &mut Marks,
    out: &mut [u8],
    from: usize,
    reads_all: bool,
) -> Option<(usize, usize)>
    requires inside { start ≤ length text.now }
    requires sound { All (λ kind. is_sound_kind kind ≡ true) kinds.now }
    requires ascii { quote < 128 }
    requires place { from ≤ length out.old }
    requires alike { are_alike form.now.nulls ≡ true }
    requires begin { AreStartsOf form.now.nulls form.now.starts }
    requires whole { reads_all ≡ true → All (λ kind. is_passed kind ≡ false) kinds.now }
    ensures some { IfSome result (λ put. 0 < length kinds.now) }
    ensures after { IfSome result (λ put. start < put.0) }
    ensures within { IfSome result (λ put. put.0 ≤ length text.now) }
    ensures room { IfSome result (λ put. put.1 ≤ length out.new) }
    ensures long { length out.new ≡ length out.old }
    ensures kept { take from out.new ≡ take from out.old }
    ensures put { IfSome result (λ put. IsRowPut text.now start kinds.now separator quote form.now (take from out.old) (take put.1 out.new) put.0) }
{
    if reads_all {
        put_row_of::<true, 5, 6>(text, start, kinds, separator, quote, form, marks, out, from)
    } else {
        put_row_of::<false, 20, 21>(text, start, kinds, separator, quote, form, marks, out, from)
    }
}
