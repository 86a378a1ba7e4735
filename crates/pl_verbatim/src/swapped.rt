//! Rows that stand as they are written but for the separator, as far as they do: what stands so waits where it was read, and is copied in one go, and
//! the separator is changed in the copy.
ghost use Rattle.std.specs.Prelude.{◌≡◌, ◌+◌, ◌-◌, ◌<◌, ◌≤◌, ◌++◌, true, false, Some, None, [], length, get_or, take, slice_range, slice_index, IfSome, IfNone};
ghost use Rattle.std.specs.Bool.{OnTrue};
ghost use Rattle.std.specs.List.{All};
ghost use Rattle.memchr.specs.Find.{Nowhere, Passes, is_byte};
ghost use Rattle.pl_verbatim.specs.Changes.{IsCellPut, IsRowPut};
ghost use Rattle.pl_verbatim.specs.Kinds.{is_passed, is_sound_kind};
ghost use Rattle.pl_verbatim.specs.Swaps.{swapped, IsSwap};
ghost use Rattle.pl_verbatim.specs.Verbatim.{AreRowsCopied};

use crate::cells::cell_end;
use crate::changes::{ROOM, put_part, put_value};
use crate::form::Form;
use crate::front::{BLOCK, FULL};
use crate::kinds::Kind;
use crate::marks::Marks;
use crate::rows::row_end;
use crate::verbatim::{Verbatim, VerbatimFront};
use memchr::memchr;
use pl_round_trip::laws::rows_return;

/// Whether nothing but the separator, which is no line feed, is written otherwise, and no text means null.
pub(crate) fn is_swap(form: &Form, separator: u8) -> bool
    ensures swap { OnTrue result (IsSwap form.now) }
    ensures apart { OnTrue result (separator ≡ 10 → ⊥) }
{
    separator != b'\n'
        && form.is_alike(form.separator)
        && form.null.is_empty()
        && form.nulls.is_none()
}

/// Whether the line at a place has fewer quotes than a number.
pub(crate) fn has_few_quotes(text: &[u8], from: usize, quote: u8, count: usize) -> bool
    requires { from ≤ length text.now }
{
    let mut left = count;
    for byte in &text[from..] {
        if *byte == b'\n' {
            break;
        }
        if *byte == quote {
            left = left.saturating_sub(1);
        }
    }
    left > 0
}

// The place of a byte from a place on; where there is none, the end.
fn first_of(text: &[u8], from: usize, byte: u8) -> usize
    requires { from ≤ length text.now }
    ensures after { from ≤ result }
    ensures within { result ≤ length text.now }
    ensures none { Nowhere (Passes (is_byte byte) text.now) from result }
{
    match memchr(byte, &text[from..]) {
        Some(count) => from + count,
        None => text.len(),
    }
}

// Puts one byte in the place of each that is another.
fn swap(bytes: &mut [u8], old: u8, new: u8)
    ensures { bytes.new ≡ swapped old new bytes.old }
{
    for byte in bytes.iter_mut() {
        *byte = if *byte == old { new } else { *byte };
    }
}

// Puts what stands from one place to another, with one byte in the place of each that is another, where there is room.
#[inline(always)]
fn put_swapped(
    text: &[u8],
    from: usize,
    to: usize,
    old: u8,
    new: u8,
    out: &mut [u8],
    place: usize,
) -> Option<usize>
    requires ordered { from ≤ to }
    requires inside { to ≤ length text.now }
    requires place { place ≤ length out.old }
    ensures text { IfSome result (λ end. take end out.new ≡ take place out.old ++ swapped old new (slice_range text.now from to)) }
    ensures within { IfSome result (λ end. end < length out.new) }
    ensures long { length out.new ≡ length out.old }
    ensures unchanged { IfNone result (out.new ≡ out.old) }
{
    let room = out.len() - place;
    if room < ROOM || to - from > room - ROOM {
        return None;
    }
    let end = put_part(text, from, to, out, place);
    swap(&mut out[place..end], old, new);
    Some(end)
}

// Puts what waits from a place on, and what is written of the cell at another, where there is room, and answers the end of its field, and the place
// behind what was put.
#[inline(never)]
fn put_behind(
    text: &[u8],
    from: usize,
    at: usize,
    kind: Kind,
    mark: u8,
    separator: u8,
    quote: u8,
    form: &Form,
    out: &mut [u8],
    place: usize,
) -> Option<(usize, usize)>
    requires ordered { from ≤ at }
    requires inside { at < length text.now }
    requires sound { is_sound_kind kind ≡ true }
    requires ascii { quote < 128 }
    requires swap { IsSwap form.now }
    requires place { place ≤ length out.old }
    ensures put { IfSome result (λ put. IsCellPut text.now at (put.0 + 1) kind mark separator quote form.now (take place out.old ++ swapped separator form.now.separator (slice_range text.now from at)) (take put.1 out.new)) }
    ensures inside { IfSome result (λ put. put.0 < length text.now) }
    ensures after { IfSome result (λ put. place ≤ put.1) }
    ensures within { IfSome result (λ put. put.1 < length out.new) }
    ensures long { length out.new ≡ length out.old }
    ensures kept { take place out.new ≡ take place out.old }
{
    if form.starts[text[at] as usize] {
        return None;
    }
    let behind = put_swapped(text, from, at, separator, form.separator, out, place)?;
    put_value::<30>(text, at, kind, mark, separator, quote, form, out, behind)
}

// Where a row goes on: the place behind the mark that ended a field, the place from which on what stands waits, and the place behind what was put.
#[derive(Clone, Copy)]
struct Waiting {
    at: usize,
    from: usize,
    place: usize,
}

// What is written of the cell at a place waits with what stands in front of it, if it stands so, without the other separator, which stands nowhere
// up to a place; else what waits is put, and what is written of the cell. `CALLER` is that of `cell_end`.
#[inline(always)]
fn swap_cell<const CALLER: usize>(
    text: &[u8],
    now: Waiting,
    kind: Kind,
    mark: u8,
    separator: u8,
    quote: u8,
    form: &Form,
    other: usize,
    marks: &mut Marks,
    out: &mut [u8],
) -> Option<Waiting>
    requires ordered { now.from ≤ now.at }
    requires inside { now.at ≤ length text.now }
    requires sound { is_sound_kind kind ≡ true }
    requires ascii { quote < 128 }
    requires swap { IsSwap form.now }
    requires none { Nowhere (Passes (is_byte form.now.separator) text.now) now.at other }
    requires place { now.place ≤ length out.old }
    ensures put { IfSome result (λ next. IsCellPut text.now now.at next.at kind mark separator quote form.now
        (take now.place out.old ++ swapped separator form.now.separator (slice_range text.now now.from now.at))
        (take next.place out.new ++ swapped separator form.now.separator (slice_range text.now next.from (next.at - 1)))) }
    ensures ordered { IfSome result (λ next. next.from < next.at) }
    ensures after { IfSome result (λ next. now.place ≤ next.place) }
    ensures within { IfSome result (λ next. next.place ≤ length out.new) }
    ensures long { length out.new ≡ length out.old }
    ensures kept { take now.place out.new ≡ take now.place out.old }
{
    let Waiting { at, from, place } = now;
    if at >= text.len() {
        return None;
    }
    let ahead = marks.next(text, separator);
    if text[at] != quote {
        if let Some(end) = cell_end::<CALLER>(text, at, kind, mark, separator, quote) {
            if end <= other {
                let at = marks.pass(ahead, text, end, separator);
                return Some(Waiting { at, from, place });
            }
        }
    }
    let (end, behind) = put_behind(
        text, from, at, kind, mark, separator, quote, form, out, place,
    )?;
    let at = marks.pass(ahead, text, end, separator);
    Some(Waiting {
        at,
        from: end,
        place: behind,
    })
}

// What is written of the row at a place waits with what stands in front of it, as far as it stands so; else it is put, where there is room, with
// what waits. None also where no such row is found; what stands in front stays. The other separator stands nowhere from that row up to a place.
#[inline]
fn swap_row(
    text: &[u8],
    start: Waiting,
    kinds: &[Kind],
    separator: u8,
    quote: u8,
    form: &Form,
    other: usize,
    marks: &mut Marks,
    out: &mut [u8],
) -> Option<Waiting>
    requires ordered { start.from ≤ start.at }
    requires inside { start.at ≤ length text.now }
    requires sound { All (λ kind. is_sound_kind kind ≡ true) kinds.now }
    requires whole { All (λ kind. is_passed kind ≡ false) kinds.now }
    requires ascii { quote < 128 }
    requires apart { separator ≡ 10 → ⊥ }
    requires swap { IsSwap form.now }
    requires none { Nowhere (Passes (is_byte form.now.separator) text.now) start.at other }
    requires place { start.place ≤ length out.old }
    ensures some { IfSome result (λ end. 0 < length kinds.now) }
    ensures after { IfSome result (λ end. start.at < end.at) }
    ensures within { IfSome result (λ end. end.at ≤ length text.now) }
    ensures ordered { IfSome result (λ end. end.from ≤ end.at) }
    ensures room { IfSome result (λ end. end.place ≤ length out.new) }
    ensures long { length out.new ≡ length out.old }
    ensures kept { take start.place out.new ≡ take start.place out.old }
    ensures put { IfSome result (λ end. IsRowPut text.now start.at kinds.now separator quote form.now
        (take start.place out.old ++ swapped separator form.now.separator (slice_range text.now start.from start.at))
        (take end.place out.new ++ swapped separator form.now.separator (slice_range text.now end.from end.at)) end.at) }
{
    if kinds.is_empty() {
        return None;
    }
    let last = kinds.len() - 1;
    let mut now = start;
    for index in 0..last {
        now = swap_cell::<31>(
            text,
            now,
            kinds[index],
            separator,
            separator,
            quote,
            form,
            other,
            marks,
            out,
        )?;
    }
    swap_cell::<32>(
        text,
        now,
        kinds[last],
        b'\n',
        separator,
        quote,
        form,
        other,
        marks,
        out,
    )
}

// Appends a block to lines, and behind it what stands from one place to another, with one byte in the place of each that is another. Tells whether
// memory sufficed; else lines stay.
fn append_waiting(
    text: &[u8],
    from: usize,
    to: usize,
    old: u8,
    new: u8,
    block: &[u8],
    lines: &mut Vec<u8>,
) -> bool
    requires ordered { from ≤ to }
    requires inside { to ≤ length text.now }
    ensures appended { OnTrue result (lines.new.items ≡ lines.old.items ++ (block.now ++ swapped old new (slice_range text.now from to))) }
    ensures same { result ≡ false → lines.new.items ≡ lines.old.items }
{
    let len = lines.len();
    if lines.extend_from_slice(block).is_err() {
        return false;
    }
    let behind = lines.len();
    if lines.extend_from_slice(&text[from..to]).is_err() {
        lines.truncate(len);
        return false;
    }
    swap(&mut lines[behind..], old, new);
    true
}

impl Verbatim {
    // The rows that stand from one place to another as they are written but for the separator, as far as they are found, where neither the
    // quote nor the other separator stands there.
    fn swapped_rows(&self, text: &[u8], from: usize, to: usize, form: &Form) -> VerbatimFront
        requires ordered { from ≤ to }
        requires inside { to ≤ length text.now }
        requires whole { self.now.reads_all ≡ true }
        requires form { self.now.form ≡ Some form.now }
        requires swap { IsSwap form.now }
        requires quotes { Nowhere (Passes (is_byte self.now.quote_char) text.now) from to }
        requires others { Nowhere (Passes (is_byte form.now.separator) text.now) from to }
        ensures few { result.rows ≤ result.end }
        ensures copied { AreRowsCopied self.now text.now from result.end result.rows [] (swapped self.now.separator form.now.separator (slice_range text.now from result.end)) }
    {
        rows_return();
        let mut end = from;
        let mut rows = 0;
        let mut marks = Marks::later(end);
        while end < to {
            match row_end(
                text,
                end,
                &self.kinds,
                self.separator,
                self.quote_char,
                &mut marks,
            ) {
                Some(next) => {
                    if next > to {
                        break;
                    }
                    end = next;
                }
                None => break,
            }
            rows += 1;
        }
        VerbatimFront { end, rows }
    }

    /// What `copy` does of rows that are written by a form which changes nothing but the separator. Those in front of the first quote or other
    /// separator are copied in one go.
    pub(crate) fn swap_rows(
        &self,
        text: &[u8],
        from: usize,
        form: &Form,
        lines: &mut Vec<u8>,
    ) -> VerbatimFront
        requires inside { from ≤ length text.now }
        requires whole { self.now.reads_all ≡ true }
        requires form { self.now.form ≡ Some form.now }
        requires swap { IsSwap form.now }
        requires apart { self.now.separator ≡ 10 → ⊥ }
        ensures { AreRowsCopied self.now text.now from result.end result.rows lines.old.items lines.new.items }
    {
        rows_return();
        let none = VerbatimFront { end: from, rows: 0 };
        let mut other = first_of(text, from, form.separator);
        let quoted = first_of(text, from, self.quote_char);
        let first = self.swapped_rows(text, from, other.min(quoted), form);
        if !append_waiting(
            text,
            from,
            first.end,
            self.separator,
            form.separator,
            &[],
            lines,
        ) {
            return none;
        }
        let mut kept = first;
        let mut rows = first.rows;
        let mut block = [0u8; BLOCK];
        let mut now = Waiting {
            at: first.end,
            from: first.end,
            place: 0,
        };
        let mut marks = Marks::later(first.end);
        while now.at < text.len() {
            if other <= now.at {
                other = first_of(text, now.at, form.separator);
            }
            match swap_row(
                text,
                now,
                &self.kinds,
                self.separator,
                self.quote_char,
                form,
                other,
                &mut marks,
                &mut block,
            ) {
                Some(next) => now = next,
                None => break,
            }
            rows += 1;
            if now.place + (now.at - now.from) >= FULL {
                if !append_waiting(
                    text,
                    now.from,
                    now.at,
                    self.separator,
                    form.separator,
                    &block[..now.place],
                    lines,
                ) {
                    return kept;
                }
                now = Waiting {
                    at: now.at,
                    from: now.at,
                    place: 0,
                };
                kept = VerbatimFront { end: now.at, rows };
            }
        }
        if !append_waiting(
            text,
            now.from,
            now.at,
            self.separator,
            form.separator,
            &block[..now.place],
            lines,
        ) {
            return kept;
        }
        VerbatimFront { end: now.at, rows }
    }
}
