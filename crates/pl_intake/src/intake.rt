//! What comes of a source, text by text, each of which ends where rows seem to begin.
ghost use Rattle.std.specs.Prelude.{◌≡◌, ◌++◌, ◌-◌, ◌+◌, ◌<◌, ◌≤◌, [], false, true, drop, length, slice_range, take, IfOk, OnOk, IfSome, IsErrOf};
ghost use Rattle.std.specs.Io.KnownBytes.{Consumes, IsAtEnd};
ghost use Rattle.pl_frame.specs.Came.{IsReadOn};
ghost use Rattle.pl_frame.specs.Causes.{Rose};
ghost use Rattle.pl_frame.specs.Dialect.{IsDialect};
ghost use Rattle.pl_scan.specs.Dialect.{marks_of, comment_of};
ghost use Rattle.pl_intake.specs.Intake.{HasGiven, HasGainedAll, HasStopped, IsPastLimit};

use crate::cuts::{find_row, state_behind};
use memchr::memrchr;
use pl_frame::read_all::{BLOCK_SIZE, ReadAllFault};
use pl_frame::source::Source;
use pl_scan::dialect::Dialect;
use pl_scan::summary::LineState;
use std::alloc::{AllocError, Global};

// How far before the end of a text rows are looked for.
const NEAR: usize = 1 << 14;

// A text that is not cut yet is read on so often,
const TIMES: usize = 1 << 20;

// and by so many bytes at most at a time, unless texts are longer.
const STEP: usize = 1 << 20;

/// What came of a source: how many bytes, whether these are all, and those that were not given out yet.
#[derive(Drop)]
pub struct Intake {
    pub(crate) rest: Vec<u8>,
    pub(crate) size: usize,
    pub(crate) is_ended: bool,
}

// Where bytes that were read end, and whether they are the last.
#[derive(Drop)]
struct Filled {
    to: usize,
    is_ended: bool,
}

// Where a text is to be cut: how far it was looked through, and the state there.
#[derive(Clone, Copy)]
struct Scanned {
    to: usize,
    state: LineState,
}

impl Scanned {
    // The place, where an item begins there.
    fn cut(&self) -> Option<usize>
        ensures { IfSome result (λ cut. cut ≤ self.now.to) }
    {
        match self.state {
            LineState::Start if self.to > 0 => Some(self.to),
            _ => None,
        }
    }
}

// Where rows seem to begin near the end of a text.
fn guess_cut(text: &[u8], dialect: &Dialect<'_>, width: usize) -> Option<usize>
    ensures { IfSome result (λ cut. cut ≤ length text.now) }
{
    let near = NEAR.min(text.len() / 2);
    let from = text.len() - near;
    if from < text.len() {
        return find_row(text, from, near, dialect, width);
    }
    None
}

// The place behind the last line end among the bytes of a text up to a place, but none before another place.
fn behind_line(text: &[u8], from: usize, to: usize, eol_char: u8) -> usize
    requires order { from ≤ to }
    requires within { to ≤ length text.now }
    ensures after { from ≤ result }
    ensures within { result ≤ to }
{
    match memrchr(eol_char, &text[from..to]) {
        Some(at) => from + at + 1,
        None => from,
    }
}

// Looks on through a text up to a place.
fn scan_to(text: &[u8], scanned: Scanned, to: usize, dialect: &Dialect<'_>) -> Scanned
    requires dialect { IsDialect (marks_of dialect.now) (comment_of dialect.now) }
    requires order { scanned.to ≤ to }
    requires within { to ≤ length text.now }
    ensures after { scanned.to ≤ result.to }
    ensures within { result.to ≤ length text.now }
{
    match state_behind(&text[scanned.to..to], scanned.state, dialect) {
        Some(state) => Scanned { to, state },
        None => scanned,
    }
}

// Looks on through a text up to its last line end. Where that is within a quoted field, the field may begin with the last quote: then the text
// is to be cut behind the line end in front of it.
fn scan_on(text: &[u8], scanned: Scanned, dialect: &Dialect<'_>) -> Scanned
    requires dialect { IsDialect (marks_of dialect.now) (comment_of dialect.now) }
    requires within { scanned.to ≤ length text.now }
    ensures { result.to ≤ length text.now }
{
    let from = scanned.to;
    let quote = match dialect.quote_char {
        Some(quote) => memrchr(quote, &text[from..]).unwrap_or(0),
        None => 0,
    };
    let line = behind_line(text, from, from + quote, dialect.eol_char);
    let front = scan_to(text, scanned, line, dialect);
    let line = behind_line(text, front.to, text.len(), dialect.eol_char);
    let all = scan_to(text, front, line, dialect);
    if all.cut().is_none() && front.cut().is_some() {
        front
    } else {
        all
    }
}

// Looks for the place where a text is to be cut: where rows seem to begin near its end, or else behind a line end.
fn look_on(text: &[u8], scanned: Scanned, dialect: &Dialect<'_>, width: usize) -> Scanned
    requires dialect { IsDialect (marks_of dialect.now) (comment_of dialect.now) }
    requires within { scanned.to ≤ length text.now }
    ensures { result.to ≤ length text.now }
{
    if scanned.to == 0 {
        if let Some(to) = guess_cut(text, dialect, width) {
            return Scanned {
                to,
                state: LineState::Start,
            };
        }
    }
    scan_on(text, scanned, dialect)
}

// Writes bytes over the front of a text.
fn copy_front(text: &mut [u8], front: &[u8])
    requires { length front.now ≤ length text.old }
    ensures len { length text.new ≡ length text.old }
    ensures front { take (length front.now) text.new ≡ front.now }
{
    text[..front.len()].copy_from_slice(front);
}

// A text that begins with these bytes, with about so many bytes behind them, in the memory that is given where that suffices. Refuses want of
// memory.
fn begin_text(room: Vec<u8>, front: &[u8], size: usize) -> Result<Vec<u8>, AllocError>
    ensures inside { IfOk result (λ text. length front.now ≤ length text.items) }
    ensures front { IfOk result (λ text. take (length front.now) text.items ≡ front.now) }
{
    let mut text = room;
    let least = front.len().saturating_add(size / 2).max(size);
    if text.len() < least {
        text.resize(least, 0)?;
    }
    copy_front(&mut text, front);
    Ok(text)
}

// Reads bytes into a text from a place on, until it is full or there are no more, where so many bytes came before. Refuses `TooLong` and
// `Source` as `read_all` does.
fn fill<So: Source>(
    source: &mut So,
    text: &mut [u8],
    from: usize,
    size: usize,
    limit: usize,
) -> Result<Filled, ReadAllFault>
    requires from { from ≤ length text.old }
    requires within { size ≤ limit }
    ensures after { IfOk result (λ filled. from ≤ filled.to) }
    ensures inside { IfOk result (λ filled. filled.to ≤ length text.new) }
    ensures len { length text.new ≡ length text.old }
    ensures kept { take from text.new ≡ take from text.old }
    ensures bytes { IfOk result (λ filled. Consumes (So.left source.old) (So.left source.new) (slice_range text.new from filled.to)) }
    ensures within { IfOk result (λ filled. size + (filled.to - from) ≤ limit) }
    ensures ended { IfOk result (λ filled. filled.is_ended ≡ true → IsAtEnd (So.left source.new)) }
    ensures too_long { IsErrOf result ReadAllFault.TooLong → IsPastLimit (So.left source.old) (So.left source.new) limit size }
    ensures failed { IsErrOf result ReadAllFault.Source → HasStopped (So.left source.old) (So.left source.new) limit size }
    ensures cause { IsErrOf result ReadAllFault.Source → Rose (So.faults source.old) (So.faults source.new) }
    ensures read_on { IsReadOn (So.left source.old) (So.left source.new) }
    ensures later { So.faults source.old ≤ So.faults source.new }
{
    let mut to = from;
    while to < text.len() {
        let count = match source.read(&mut text[to..]) {
            Ok(count) => count,
            Err(_) => return Err(ReadAllFault::Source),
        };
        if count == 0 {
            return Ok(Filled { to, is_ended: true });
        }
        if count > limit - (size + (to - from)) {
            return Err(ReadAllFault::TooLong);
        }
        to += count;
    }
    Ok(Filled {
        to,
        is_ended: false,
    })
}

impl Intake {
    /// What came of a source of which nothing was read.
    pub fn new(alloc: Global) -> Intake
        ensures rest { result.rest.items ≡ [] }
        ensures size { result.size ≡ 0 }
        ensures open { result.is_ended ≡ false }
    {
        Intake {
            rest: Vec::new(alloc),
            size: 0,
            is_ended: false,
        }
    }

    /// Whether all bytes of the source came.
    pub fn is_ended(&self) -> bool
        ensures { result ≡ self.now.is_ended }
    {
        self.is_ended
    }

    /// The bytes that were not given out, lent.
    pub fn rest(&self) -> &[u8]
        ensures { result.now ≡ self.now.rest.items }
    {
        &self.rest
    }

    /// The bytes that were not given out.
    pub fn into_rest(self) -> Vec<u8>
        ensures { result ≡ self.rest }
    {
        let Intake {
            rest,
            size: _,
            is_ended: _,
        } = self;
        rest
    }

    /// Takes bytes back, in front of those that were not given out. Refuses want of memory.
    pub fn put_back(&mut self, text: Vec<u8>) -> Result<(), AllocError>
        ensures rest { OnOk result (self.new.rest.items ≡ text.items ++ self.old.rest.items) }
        ensures size { self.new.size ≡ self.old.size }
        ensures ended { self.new.is_ended ≡ self.old.is_ended }
    {
        let mut text = text;
        text.append(&mut self.rest)?;
        self.rest = text;
        Ok(())
    }

    /// Lets so many bytes go of those that were not given out. Refuses want of memory, and then keeps all.
    pub fn skip(&mut self, count: usize) -> Result<(), AllocError>
        requires { count ≤ length self.old.rest.items }
        ensures rest { OnOk result (self.new.rest.items ≡ drop count self.old.rest.items) }
        ensures size { self.new.size ≡ self.old.size }
        ensures ended { self.new.is_ended ≡ self.old.is_ended }
    {
        let rest = self.rest.split_off(count)?;
        self.rest = rest;
        Ok(())
    }

    /// The next text: what was not given out, and about so many bytes more, up to where rows seem to begin; at the end of the source all of
    /// it. It stands in the memory that is given, where that suffices. Refuses as `read_all` does, with those bytes that came before counted
    /// in.
    pub fn next_text<So: Source>(
        &mut self,
        source: &mut So,
        room: Vec<u8>,
        size: usize,
        limit: usize,
        dialect: &Dialect<'_>,
        width: usize,
    ) -> Result<Vec<u8>, ReadAllFault>
        requires dialect { IsDialect (marks_of dialect.now) (comment_of dialect.now) }
        requires within { self.old.size ≤ limit }
        ensures given { IfOk result (λ text. HasGiven (So.left source.old) (So.left source.new) limit self.old self.new text.items) }
        ensures too_long { IsErrOf result ReadAllFault.TooLong → IsPastLimit (So.left source.old) (So.left source.new) limit self.old.size }
        ensures failed { IsErrOf result ReadAllFault.Source → HasStopped (So.left source.old) (So.left source.new) limit self.old.size }
        ensures cause { IsErrOf result ReadAllFault.Source → Rose (So.faults source.old) (So.faults source.new) }
        ensures read_on { IsReadOn (So.left source.old) (So.left source.new) }
        ensures later { So.faults source.old ≤ So.faults source.new }
    {
        let Ok(mut text) = begin_text(room, &self.rest, size) else {
            return Err(ReadAllFault::OutOfMemory);
        };
        let mut from = self.rest.len();
        let mut scanned = Scanned {
            to: 0,
            state: LineState::Start,
        };
        self.rest.clear();
        self.is_ended = false;
        for _ in 0..TIMES {
            let filled = fill(source, &mut text, from, self.size, limit)?;
            self.size += filled.to - from;
            self.is_ended = filled.is_ended;
            text.truncate(filled.to);
            if filled.is_ended {
                return Ok(text);
            }
            scanned = look_on(&text, scanned, dialect, width);
            if let Some(cut) = scanned.cut() {
                if self.rest.extend_from_slice(&text[cut..]).is_err() {
                    return Err(ReadAllFault::OutOfMemory);
                }
                text.truncate(cut);
                return Ok(text);
            }
            from = filled.to;
            let more = size.max(STEP.min(from / 8));
            if text.resize(from.saturating_add(more), 0).is_err() {
                return Err(ReadAllFault::OutOfMemory);
            }
        }
        text.truncate(from);
        Ok(text)
    }

    /// Reads all that is left of the source, and keeps it behind what was not given out. Refuses as `read_all` does, with those bytes that
    /// came before counted in.
    pub fn read_on<So: Source>(&mut self, source: &mut So, limit: usize) -> Result<(), ReadAllFault>
        requires within { self.old.size ≤ limit }
        requires ended { self.old.is_ended ≡ true → IsAtEnd (So.left source.old) }
        ensures all { OnOk result (HasGainedAll (So.left source.old) (So.left source.new) limit self.old self.new) }
        ensures too_long { IsErrOf result ReadAllFault.TooLong → IsPastLimit (So.left source.old) (So.left source.new) limit self.old.size }
        ensures failed { IsErrOf result ReadAllFault.Source → HasStopped (So.left source.old) (So.left source.new) limit self.old.size }
        ensures cause { IsErrOf result ReadAllFault.Source → Rose (So.faults source.old) (So.faults source.new) }
        ensures read_on { IsReadOn (So.left source.old) (So.left source.new) }
        ensures later { So.faults source.old ≤ So.faults source.new }
    {
        let mut block = [0u8; BLOCK_SIZE];
        while !self.is_ended {
            self.read_block(source, &mut block, limit)?;
        }
        Ok(())
    }

    // Reads once, at most as many bytes as a block has, and keeps them behind what was not given out. Refuses as `read_on` does.
    fn read_block<So: Source>(
        &mut self,
        source: &mut So,
        block: &mut [u8],
        limit: usize,
    ) -> Result<(), ReadAllFault>
        requires within { self.old.size ≤ limit }
        requires block { 0 < length block.old }
        ensures given { OnOk result (HasGiven (So.left source.old) (So.left source.new) limit self.old self.new []) }
        ensures nearer { OnOk result (self.new.is_ended ≡ false → self.old.size < self.new.size) }
        ensures too_long { IsErrOf result ReadAllFault.TooLong → IsPastLimit (So.left source.old) (So.left source.new) limit self.old.size }
        ensures failed { IsErrOf result ReadAllFault.Source → HasStopped (So.left source.old) (So.left source.new) limit self.old.size }
        ensures cause { IsErrOf result ReadAllFault.Source → Rose (So.faults source.old) (So.faults source.new) }
        ensures read_on { IsReadOn (So.left source.old) (So.left source.new) }
        ensures later { So.faults source.old ≤ So.faults source.new }
    {
        let count = match source.read(block) {
            Ok(count) => count,
            Err(_) => return Err(ReadAllFault::Source),
        };
        if count > limit - self.size {
            return Err(ReadAllFault::TooLong);
        }
        if self.rest.extend_from_slice(&block[..count]).is_err() {
            return Err(ReadAllFault::OutOfMemory);
        }
        self.size += count;
        self.is_ended = count == 0;
        Ok(())
    }
}
