//! Where the records of an input begin.
ghost use Rattle.std.specs.Prelude.{◌≡◌, ℕ, ◌<◌, ◌≤◌, ◌+◌, ◌++◌, ◌∷◌, ◌^◌, ◌==◌, [], List, not, false, length, drop, get_or, None, IfSome, OnOk, IfOk};
ghost use Rattle.std.specs.List.{prefix_len};
ghost use Rattle.pl_frame.specs.Dialect.{marks, AreDistinct};
ghost use Rattle.pl_scan.specs.Bits.{set_bits};
ghost use Rattle.pl_scan.specs.Comment.{is_comment};
ghost use Rattle.pl_scan.specs.Dialect.{marks_of, comment_of};
ghost use Rattle.pl_scan.specs.Fields.{extent};
ghost use Rattle.pl_scan.specs.Items.{item, text_of};
ghost use Rattle.pl_seek.specs.Grouping.{HasSeen, unless_comment};
ghost use Rattle.pl_seek.specs.Places.{group_places, record_places};

use crate::record_ends::add_records;
use memchr::{memchr, memchr2};
use pl_scan::comment::is_comment_line;
use pl_scan::dialect::Dialect;
use pl_scan::items::record_len;
use std::alloc::{AllocError, Global};

/// Of the places of records that came, those of which each begins a group.
#[derive(Drop)]
pub(crate) struct Groups {
    pub every: usize,
    pub records: usize,
    pub places: Vec<usize>,
    // How many records come before the next group.
    pub wait: usize,
}

impl Groups {
    // Before all records.
    fn new(alloc: Global, every: usize) -> Groups
        requires { 0 < every }
        ensures seen { HasSeen result [] }
        ensures every { result.every ≡ every }
    {
        Groups {
            every,
            records: 0,
            places: Vec::new(alloc),
            wait: 0,
        }
    }

    // Takes the place of the next record. Refuses only want of memory.
    #[inline]
    fn add(&mut self, place: usize) -> Result<(), AllocError>
        requires some { 0 < self.old.every }
        requires few { self.old.records + 1 < 2 ^ 64 }
        ensures seen { OnOk result ((seen : List ℕ) → HasSeen self.old seen → HasSeen self.new (seen ++ place ∷ [])) }
        ensures counted { OnOk result (self.new.records ≡ self.old.records + 1) }
        ensures every { OnOk result (self.new.every ≡ self.old.every) }
    {
        if self.wait == 0 {
            self.places.push(place)?;
            self.wait = self.every;
        }
        self.wait -= 1;
        self.records += 1;
        Ok(())
    }

    // Takes the place of the next item, unless it is a comment. Refuses only want of memory.
    #[inline]
    fn add_unless(&mut self, is_comment: bool, place: usize) -> Result<(), AllocError>
        requires some { 0 < self.old.every }
        requires few { self.old.records + 1 < 2 ^ 64 }
        ensures seen { OnOk result ((seen : List ℕ) → HasSeen self.old seen → HasSeen self.new (seen ++ unless_comment is_comment place)) }
        ensures every { OnOk result (self.new.every ≡ self.old.every) }
    {
        if is_comment { Ok(()) } else { self.add(place) }
    }

    // Takes the places behind the bits of a word whose lowest bit has this place, one by one.
    fn add_each(&mut self, bits: u64, at: usize) -> Result<(), AllocError>
        requires some { 0 < self.old.every }
        requires few { self.old.records + 64 < 2 ^ 64 }
        requires fits { at + 64 < 2 ^ 64 }
        ensures seen { OnOk result ((seen : List ℕ) → HasSeen self.old seen → HasSeen self.new (seen ++ set_bits 64 (at + 1) bits)) }
        ensures every { OnOk result (self.new.every ≡ self.old.every) }
    {
        let mut left = bits;
        while left != 0 {
            self.add(at + left.trailing_zeros() as usize + 1)?;
            left &= left - 1;
        }
        Ok(())
    }

    // Takes the places behind the bits of a word whose lowest bit has this place: of records of which none begins a group only the number.
    #[inline(always)]
    pub(crate) fn add_ends(&mut self, bits: u64, at: usize) -> Result<(), AllocError>
        requires some { 0 < self.old.every }
        requires few { self.old.records + 64 < 2 ^ 64 }
        requires fits { at + 64 < 2 ^ 64 }
        ensures seen { OnOk result ((seen : List ℕ) → HasSeen self.old seen → HasSeen self.new (seen ++ set_bits 64 (at + 1) bits)) }
        ensures every { OnOk result (self.new.every ≡ self.old.every) }
    {
        let count = bits.count_ones() as usize;
        if count > self.wait {
            return self.add_each(bits, at);
        }
        self.wait -= count;
        self.records += count;
        Ok(())
    }
}

// The length of the line at the front, without its line end.
#[inline]
fn line_len(bytes: &[u8], eol_char: u8) -> usize
    ensures fits { result ≤ length bytes.now }
    ensures value { result ≡ prefix_len (λ x. not (x == eol_char)) bytes.now }
{
    match memchr(eol_char, bytes) {
        Some(at) => at,
        None => bytes.len(),
    }
}

// The length of the line at the front, without its line end, where no quote stands in it.
#[inline]
fn plain_line_len(bytes: &[u8], eol_char: u8, quote: u8) -> Option<usize>
    ensures fits { IfSome result (λ len. len ≤ length bytes.now) }
    ensures value { IfSome result (λ len. len ≡ prefix_len (λ x. not (x == eol_char)) bytes.now) }
    ensures lacks { IfSome result (λ len. (k : ℕ) → k < len → (get_or bytes.now k 0 == quote) ≡ false) }
{
    match memchr2(eol_char, quote, bytes) {
        Some(at) => {
            if bytes[at] == eol_char {
                Some(at)
            } else {
                None
            }
        }
        None => Some(bytes.len()),
    }
}

// The length of the record at the front: that of its line, where no quote stands in it.
#[inline]
fn record_len_by_line(rest: &[u8], dialect: &Dialect<'_>) -> usize
    requires { AreDistinct (marks_of dialect.now) }
    ensures fits { result ≤ length rest.now }
    ensures value { result ≡ extent (marks_of dialect.now) rest.now }
{
    let Some(quote) = dialect.quote_char else {
        return line_len(rest, dialect.eol_char);
    };
    match plain_line_len(rest, dialect.eol_char, quote) {
        Some(len) => len,
        None => record_len(
            rest,
            dialect.separator,
            dialect.quote_char,
            dialect.eol_char,
        ),
    }
}

// Whether the item at the front is a comment, and how long it is.
#[inline]
pub(crate) fn front_item(rest: &[u8], dialect: &Dialect<'_>) -> (bool, usize)
    requires { AreDistinct (marks_of dialect.now) }
    ensures comment { result.0 ≡ is_comment (comment_of dialect.now) rest.now }
    ensures fits { result.1 ≤ length rest.now }
    ensures len { result.1 ≡ length (text_of (item (marks_of dialect.now) (comment_of dialect.now) rest.now)) }
{
    if is_comment_line(rest, dialect.comment_prefix) {
        (true, line_len(rest, dialect.eol_char))
    } else {
        (false, record_len_by_line(rest, dialect))
    }
}

// What stands behind so many bytes and the one behind them.
#[inline]
pub(crate) fn behind_item(rest: &[u8], len: usize) -> &[u8]
    requires { len ≤ length rest.now }
    ensures { result.now ≡ drop (len + 1) rest.now }
{
    match &rest[len..] {
        [_, behind @ ..] => behind,
        [] => &[],
    }
}

// Takes the places of the records from this place on, item by item.
fn add_items(
    groups: &mut Groups,
    input: &[u8],
    start: usize,
    dialect: &Dialect<'_>,
) -> Result<(), AllocError>
    requires none { HasSeen groups.old [] }
    requires within { start ≤ length input.now }
    requires apart { AreDistinct (marks_of dialect.now) }
    ensures seen { OnOk result (HasSeen groups.new (record_places (marks_of dialect.now) (comment_of dialect.now) (length input.now) (drop start input.now))) }
    ensures every { OnOk result (groups.new.every ≡ groups.old.every) }
{
    let mut rest = &input[start..];
    while !rest.is_empty() {
        let (is_comment, len) = front_item(rest, dialect);
        groups.add_unless(is_comment, input.len() - rest.len())?;
        rest = behind_item(rest, len);
    }
    Ok(())
}

// Where the record ends that begins at a place, with its line end.
fn behind_record(input: &[u8], begin: usize, dialect: &Dialect<'_>) -> usize
    requires within { begin < length input.now }
    requires apart { AreDistinct (marks_of dialect.now) }
    ensures more { begin < result }
    ensures fits { result ≤ length input.now }
    ensures rest { drop result input.now ≡ drop (extent (marks_of dialect.now) (drop begin input.now) + 1) (drop begin input.now) }
{
    let rest = &input[begin..];
    let len = record_len_by_line(rest, dialect);
    if len < rest.len() {
        begin + len + 1
    } else {
        input.len()
    }
}

// Takes the places of the records from this place on, where there are no comments.
fn add_plain(
    groups: &mut Groups,
    input: &[u8],
    start: usize,
    dialect: &Dialect<'_>,
) -> Result<(), AllocError>
    requires none { HasSeen groups.old [] }
    requires within { start ≤ length input.now }
    requires apart { AreDistinct (marks_of dialect.now) }
    ensures seen { OnOk result (HasSeen groups.new (record_places (marks_of dialect.now) None (length input.now) (drop start input.now))) }
    ensures every { OnOk result (groups.new.every ≡ groups.old.every) }
{
    let mut begin = start;
    while begin < input.len() {
        groups.add(begin)?;
        let last = add_records(groups, input, begin, dialect)?;
        begin = behind_record(input, last, dialect);
    }
    Ok(())
}

/// The places where the records of an input begin whose data begins at this place: of each group the first, and how many records
/// there are. Refuses only want of memory.
pub(crate) fn find_places(
    alloc: Global,
    input: &[u8],
    start: usize,
    dialect: &Dialect<'_>,
    every: usize,
) -> Result<Groups, AllocError>
    requires some { 0 < every }
    requires within { start ≤ length input.now }
    requires apart { AreDistinct (marks_of dialect.now) }
    ensures records { IfOk result (λ groups. groups.records ≡ length (record_places (marks_of dialect.now) (comment_of dialect.now) (length input.now) (drop start input.now))) }
    ensures places { IfOk result (λ groups. groups.places.items ≡ group_places every (record_places (marks_of dialect.now) (comment_of dialect.now) (length input.now) (drop start input.now))) }
{
    let mut groups = Groups::new(alloc, every);
    match dialect.comment_prefix {
        Some(_) => add_items(&mut groups, input, start, dialect)?,
        None => add_plain(&mut groups, input, start, dialect)?,
    }
    Ok(groups)
}
