//! Texts, some of which are missing.
ghost use Rattle.std.specs.Prelude.{◌≡◌, ◌+◌, ◌-◌, ◌<◌, [], ◌∷◌, ◌++◌, take, drop, length, map, ◌==◌, OnOk, OnErr, IfOk, IfSome, IfNone, ◌≤◌, IsUtf8, slice_range, slice_index, slice_get, count_by, is_none, vec_len, vec_capacity};
ghost use Rattle.pl_frame.specs.ByteCount.{byte_count};
ghost use Rattle.pl_frame.specs.Flags.{filled};
ghost use Rattle.pl_frame.specs.Optional.{AreAllUtf8, AreTexts, RiseTo, flagged, parts_between};

use crate::ends::begin_of;
use crate::numbers::{copy_of, extend_reserved, flags_between};
use crate::packed_texts::{PackedTexts, short_begin_of};
use std::alloc::{AllocError, Global};
use std::marker::Model;

/// A list of texts with nulls: all texts in one buffer, with the place where each ends and a flag for each.
#[derive(Debug, Drop)]
pub struct Texts {
    bytes: Vec<u8>,
    ends: Vec<usize>,
    present: Vec<bool>,
}

/// A text as a part of a buffer, in which other texts may lie too.
#[derive(Clone, Copy, Debug)]
pub struct TextPart<'a> {
    pub buffer: &'a [u8],
    pub begin: usize,
    pub end: usize,
}

// How texts are kept: all in one buffer, with the place where each ends and a flag for each.
#[derive(Drop)]
pub(crate) struct KeptTexts<'a> {
    pub(crate) bytes: &'a [u8],
    pub(crate) ends: &'a [usize],
    pub(crate) present: &'a [bool],
}

impl Model for Texts {
    ghost use Rattle.std.specs.Prelude.{ℕ, List, Option};
    ghost use Rattle.pl_frame.specs.Optional.{flagged, parts_between, AreTexts};

    ghost Value = { List (Option (List ℕ)) };

    ghost view = { λ t. flagged (parts_between 0 t.ends.items t.bytes.items) t.present.items };

    ghost invariant = { λ t. AreTexts t.bytes.items t.ends.items t.present.items };
}

#[tactic(auto, using(crate::proofs::OptionalLaws::parts))]
impl Texts {
    /// No texts, without taking memory.
    pub fn new(alloc: Global) -> Self
        ensures { result ≡ [] }
    {
        Texts {
            bytes: Vec::new(alloc),
            ends: Vec::new(alloc),
            present: Vec::new(alloc),
        }
    }

    /// How many there are, nulls among them, without taking memory.
    #[inline]
    pub fn len(&self) -> usize
        ensures len { result ≡ length self.now }
        ensures utf8 { AreAllUtf8 self.now }
    {
        self.present.len()
    }

    /// Whether there are none, without taking memory.
    #[inline]
    pub fn is_empty(&self) -> bool
        ensures { result ≡ (length self.now == 0) }
    {
        self.present.is_empty()
    }

    /// Makes room for so many more texts, and for so many bytes in them. Refuses only want of memory; the texts stay as
    /// they are.
    pub fn reserve(&mut self, texts: usize, bytes: usize) -> Result<(), AllocError>
        ensures { self.new ≡ self.old }
    {
        self.bytes.reserve(bytes)?;
        self.ends.reserve(texts)?;
        self.present.reserve(texts)
    }

    /// At least as many bytes as the texts have, which is room enough for them, without taking memory.
    #[inline]
    pub fn byte_len(&self) -> usize
        ensures { byte_count self.now ≤ result }
    {
        self.bytes.len()
    }

    /// Puts a text at the end. Refuses only want of memory, and is then as it was.
    #[inline]
    pub fn push(&mut self, text: &str) -> Result<(), AllocError>
        ensures ok { OnOk result (self.new ≡ self.old ++ Some text.now ∷ []) }
        ensures err { OnErr result (self.new ≡ self.old) }
    {
        self.ends.reserve(1)?;
        self.present.reserve(1)?;
        self.bytes.extend_from_slice(text.as_bytes())?;
        self.ends.push_reserved(self.bytes.len());
        self.present.push_reserved(true);
        Ok(())
    }

    /// Puts a null at the end. Refuses only want of memory, and is then as it was.
    #[inline]
    pub fn push_null(&mut self) -> Result<(), AllocError>
        ensures ok { OnOk result (self.new ≡ self.old ++ None ∷ []) }
        ensures err { OnErr result (self.new ≡ self.old) }
    {
        self.ends.reserve(1)?;
        self.present.reserve(1)?;
        self.ends.push_reserved(self.bytes.len());
        self.present.push_reserved(false);
        Ok(())
    }

    /// Puts other texts behind these. Refuses only want of memory, and is then as it was.
    #[tactic(auto, using(crate::proofs::JoinLaws::joined_texts))]
    pub fn append(&mut self, other: &Texts) -> Result<(), AllocError>
        ensures ok { OnOk result (self.new ≡ self.old ++ other.now) }
        ensures err { OnErr result (self.new ≡ self.old) }
    {
        self.bytes.reserve(other.bytes.len())?;
        self.ends.reserve(other.ends.len())?;
        self.present.reserve(other.present.len())?;
        let base = self.bytes.len();
        extend_reserved(&mut self.bytes, &other.bytes);
        extend_ends(&mut self.ends, &other.ends, base, self.bytes.len());
        extend_reserved(&mut self.present, &other.present);
        Ok(())
    }

    // Puts the texts of others from one place up to another behind these. Refuses only want of memory.
    pub(crate) fn append_range(
        &mut self,
        other: &Texts,
        from: usize,
        to: usize,
    ) -> Result<(), AllocError>
        requires { (from ≤ to) × (to ≤ length other.now) }
        ensures { OnOk result (self.new ≡ self.old ++ take (to - from) (drop from other.now)) }
    {
        let other = other.kept();
        let start = begin_of(other.ends, from);
        let bytes = between(other.bytes, start, begin_of(other.ends, to));
        let ends = between(other.ends, from, to);
        self.bytes.reserve(bytes.len())?;
        self.ends.reserve(ends.len())?;
        self.present.reserve(to - from)?;
        let base = self.bytes.len();
        extend_reserved(&mut self.bytes, bytes);
        extend_run(&mut self.ends, ends, start, base, self.bytes.len());
        extend_reserved(&mut self.present, between(other.present, from, to));
        Ok(())
    }

    // The same of texts in no more memory than they need.
    pub(crate) fn append_packed(
        &mut self,
        other: &PackedTexts,
        from: usize,
        to: usize,
    ) -> Result<(), AllocError>
        requires { (from ≤ to) × (to ≤ length other.now) }
        ensures { OnOk result (self.new ≡ self.old ++ take (to - from) (drop from other.now)) }
    {
        let other = other.kept();
        let start = short_begin_of(other.ends, from);
        let bytes = between(other.bytes, start, short_begin_of(other.ends, to));
        let ends = between(other.ends, from, to);
        self.bytes.reserve(bytes.len())?;
        self.ends.reserve(ends.len())?;
        self.present.reserve(to - from)?;
        let base = self.bytes.len();
        extend_reserved(&mut self.bytes, bytes);
        extend_short_run(&mut self.ends, ends, start, base, self.bytes.len());
        let flags = flags_between(other.present, from, to);
        extend_flags(&mut self.present, flags, to - from);
        Ok(())
    }

    /// Keeps so many texts, or all if there are fewer, without taking memory.
    #[tactic(auto, using(crate::proofs::CutLaws::cut_texts))]
    pub fn truncate(&mut self, len: usize)
        ensures { self.new ≡ take len self.old }
    {
        if len < self.ends.len() {
            let begin = begin_of(&self.ends, len);
            self.bytes.truncate(begin);
            self.ends.truncate(len);
            self.present.truncate(len);
        }
    }

    /// Equal texts. Refuses only want of memory.
    pub fn try_clone(&self) -> Result<Self, AllocError>
        ensures { IfOk result (λ texts. texts ≡ self.now) }
    {
        let alloc = *self.bytes.allocator();
        Ok(Texts {
            bytes: copy_of(alloc, &self.bytes)?,
            ends: copy_of(alloc, &self.ends)?,
            present: copy_of(alloc, &self.present)?,
        })
    }

    /// The text at a place, or a null, without taking memory.
    #[inline]
    pub fn get(&self, i: usize) -> Option<&str>
        requires { i < length self.now }
        ensures null { IfNone result (slice_get self.now i ≡ Some None) }
        ensures text { IfSome result (λ text. slice_get self.now i ≡ Some (Some text.now)) }
    {
        if self.present[i] {
            let begin = begin_of(&self.ends, i);
            Some(text_between(&self.bytes, begin, self.ends[i]))
        } else {
            None
        }
    }

    /// The text at a place as a part of the buffer that all texts lie in, or a null, without taking memory.
    #[inline]
    pub fn part(&self, i: usize) -> Option<TextPart<'_>>
        requires { i < length self.now }
        ensures null { IfNone result (slice_get self.now i ≡ Some None) }
        ensures text { IfSome result (λ part. slice_get self.now i ≡ Some (Some (slice_range part.buffer.now part.begin part.end))) }
        ensures ordered { IfSome result (λ part. part.begin ≤ part.end) }
        ensures within { IfSome result (λ part. part.end ≤ length part.buffer.now) }
    {
        if self.present[i] {
            Some(TextPart {
                buffer: &self.bytes,
                begin: begin_of(&self.ends, i),
                end: self.ends[i],
            })
        } else {
            None
        }
    }

    /// How many nulls there are, without taking memory.
    pub fn null_count(&self) -> usize
        ensures { result ≡ count_by is_none self.now }
    {
        self.present.iter().filter(|flag| !**flag).count()
    }

    // The buffer with the ends and the flags, without taking memory.
    pub(crate) fn kept(&self) -> KeptTexts<'_>
        ensures texts { AreTexts result.bytes.now result.ends.now result.present.now }
        ensures whole { flagged (parts_between 0 result.ends.now result.bytes.now) result.present.now ≡ self.now }
    {
        KeptTexts {
            bytes: &self.bytes,
            ends: &self.ends,
            present: &self.present,
        }
    }
}

// Puts ends behind others, for which there is room, each so much further on. They rise, and the last of them is so far on.
fn extend_ends(ends: &mut Vec<usize>, more: &[usize], base: usize, last: usize)
    requires room { vec_len ends.old + length more.now ≤ vec_capacity ends.old }
    requires rising { RiseTo base (map (λ end. base + end) more.now) last }
    ensures { ends.new.items ≡ ends.old.items ++ map (λ end. base + end) more.now }
{
    for end in more {
        ends.push_reserved(base + *end);
    }
}

// Puts the ends of a run behind others, for which there is room: the run began at a place, and its bytes begin now at
// another. They rise, and the last of them is so far on.
fn extend_run(ends: &mut Vec<usize>, more: &[usize], start: usize, base: usize, last: usize)
    requires room { vec_len ends.old + length more.now ≤ vec_capacity ends.old }
    requires ordered { base ≤ last }
    requires rising { RiseTo start more.now (start + (last - base)) }
    ensures { ends.new.items ≡ ends.old.items ++ map (λ end. base + (end - start)) more.now }
{
    for end in more {
        ends.push_reserved(base + (*end - start));
    }
}

// The same of ends in 32 bits.
fn extend_short_run(ends: &mut Vec<usize>, more: &[u32], start: usize, base: usize, last: usize)
    requires room { vec_len ends.old + length more.now ≤ vec_capacity ends.old }
    requires ordered { base ≤ last }
    requires rising { RiseTo start more.now (start + (last - base)) }
    ensures { ends.new.items ≡ ends.old.items ++ map (λ end. base + (end - start)) more.now }
{
    for end in more {
        ends.push_reserved(base + (*end as usize - start));
    }
}

// Puts flags behind others, for which there is room, and behind them set ones up to so many.
fn extend_flags(flags: &mut Vec<bool>, more: &[bool], count: usize)
    requires room { vec_len flags.old + count ≤ vec_capacity flags.old }
    requires few { length more.now ≤ count }
    ensures { flags.new.items ≡ flags.old.items ++ filled count more.now }
{
    put_flags(flags, more);
    for place in more.len()..count {
        flags.push_reserved(true);
    }
}

// Puts flags behind others, for which there is room, and takes none of the other room.
fn put_flags(flags: &mut Vec<bool>, more: &[bool])
    requires { vec_len flags.old + length more.now ≤ vec_capacity flags.old }
    ensures items { flags.new.items ≡ flags.old.items ++ more.now }
    ensures room { vec_capacity flags.old ≤ vec_capacity flags.new }
{
    match flags.extend_from_slice(more) {
        Ok(()) => {}
        Err(_) => unreachable!(),
    }
}

// The items from one place up to another.
#[inline]
fn between<T>(items: &[T], from: usize, to: usize) -> &[T]
    requires { (from ≤ to) × (to ≤ length items.now) }
    ensures { result.now ≡ take (to - from) (drop from items.now) }
{
    &items[from..to]
}

// A part of a buffer that is known to be a text: no test is run.
#[inline]
pub(crate) fn text_between(bytes: &[u8], from: usize, to: usize) -> &str
    requires ordered { (from ≤ to) × (to ≤ length bytes.now) }
    requires text { IsUtf8 (slice_range bytes.now from to) }
    ensures { result.now ≡ slice_range bytes.now from to }
{
    unsafe { str::from_utf8_unchecked(&bytes[from..to]) }
}
