//! Texts in no more memory than they need.
ghost use Rattle.std.specs.Prelude.{◌≡◌, ◌+◌, ◌^◌, ◌<◌, ◌≤◌, ◌∷◌, length, IfOk, IfSome, IfNone, slice_get, slice_index, count_by, is_none, vec_len, vec_capacity};
ghost use Rattle.std.specs.List.{list_all};
ghost use Rattle.pl_frame.specs.Columns.{text_cells};
ghost use Rattle.pl_frame.specs.Flags.{marked};
ghost use Rattle.pl_frame.specs.Optional.{RiseTo, parts_between};
ghost use Rattle.pl_frame.specs.Packed.{ArePacked, needed};
ghost use Rattle.pl_frame.specs.Parts.{part_cells};

use crate::numbers::copy_of;
use crate::part::Part;
use crate::texts::{Texts, text_between};
use std::alloc::{AllocError, Global};
use std::marker::Model;

// A list of texts with nulls: all texts in one buffer of less than 4 GiB, with the place where each ends. Flags are kept
// only where a text is missing.
#[derive(Debug, Drop)]
pub(crate) struct PackedTexts {
    bytes: Vec<u8>,
    ends: Vec<u32>,
    present: Vec<bool>,
}

// How they are kept: all in one buffer, with the place where each ends, and flags as far as they are needed.
#[derive(Drop)]
pub(crate) struct KeptPacked<'a> {
    pub(crate) bytes: &'a [u8],
    pub(crate) ends: &'a [u32],
    pub(crate) present: &'a [bool],
}

impl Model for PackedTexts {
    ghost use Rattle.std.specs.Prelude.{ℕ, List, Option};
    ghost use Rattle.pl_frame.specs.Flags.{marked};
    ghost use Rattle.pl_frame.specs.Optional.{parts_between};
    ghost use Rattle.pl_frame.specs.Packed.{ArePacked};

    ghost Value = { List (Option (List ℕ)) };

    ghost view = { λ t. marked (parts_between 0 t.ends.items t.bytes.items) t.present.items };

    ghost invariant = { λ t. ArePacked t.bytes.items t.ends.items t.present.items };
}

#[tactic(auto, using(crate::proofs::PackedLaws::packed))]
impl PackedTexts {
    // How many there are, nulls among them, without taking memory.
    #[inline]
    pub(crate) fn len(&self) -> usize
        ensures { result ≡ length self.now }
    {
        self.ends.len()
    }

    // Equal texts. Refuses only want of memory.
    pub(crate) fn try_clone(&self) -> Result<Self, AllocError>
        ensures { IfOk result (λ texts. texts ≡ self.now) }
    {
        let alloc = *self.bytes.allocator();
        Ok(PackedTexts {
            bytes: copy_of(alloc, &self.bytes)?,
            ends: copy_of(alloc, &self.ends)?,
            present: copy_of(alloc, &self.present)?,
        })
    }

    // The text at a place, or a null, without taking memory.
    #[inline]
    pub(crate) fn get(&self, i: usize) -> Option<&str>
        requires { i < length self.now }
        ensures null { IfNone result (slice_get self.now i ≡ Some None) }
        ensures text { IfSome result (λ text. slice_get self.now i ≡ Some (Some text.now)) }
    {
        if i < self.present.len() && !self.present[i] {
            None
        } else {
            let begin = short_begin_of(&self.ends, i);
            Some(text_between(&self.bytes, begin, self.ends[i] as usize))
        }
    }

    // The buffer with the ends and the flags, without taking memory.
    pub(crate) fn kept(&self) -> KeptPacked<'_>
        ensures texts { ArePacked result.bytes.now result.ends.now result.present.now }
        ensures whole { marked (parts_between 0 result.ends.now result.bytes.now) result.present.now ≡ self.now }
    {
        KeptPacked {
            bytes: &self.bytes,
            ends: &self.ends,
            present: &self.present,
        }
    }

    // How many nulls there are, without taking memory.
    pub(crate) fn null_count(&self) -> usize
        ensures { result ≡ count_by is_none self.now }
    {
        self.present.iter().filter(|flag| !**flag).count()
    }
}

// Texts in no more memory than they need. Refuses only want of memory.
pub(crate) fn pack_texts(alloc: Global, texts: &Texts) -> Result<Part, AllocError>
    ensures { IfOk result (λ part. part_cells part ≡ text_cells texts.now) }
{
    let kept = texts.kept();
    if kept.bytes.len() >= 1 << 32 {
        return Ok(Part::Texts(texts.try_clone()?));
    }
    let bytes = copy_of(alloc, kept.bytes)?;
    let ends = short_ends(alloc, kept.ends, bytes.len())?;
    let present = needed_flags(alloc, kept.present)?;
    Ok(Part::Packed(PackedTexts {
        bytes,
        ends,
        present,
    }))
}

// The ends in 32 bits. They rise to a length that fits.
fn short_ends(alloc: Global, ends: &[usize], last: usize) -> Result<Vec<u32>, AllocError>
    requires fits { last < 2 ^ 32 }
    requires rising { RiseTo 0 ends.now last }
    ensures { IfOk result (λ short. short.items ≡ ends.now) }
{
    let mut short = Vec::new(alloc);
    short.reserve_exact(ends.len())?;
    for end in ends {
        short.push_reserved(*end as u32);
    }
    Ok(short)
}

// The flags, and none where all are set.
fn needed_flags(alloc: Global, flags: &[bool]) -> Result<Vec<bool>, AllocError>
    ensures { IfOk result (λ kept. kept.items ≡ needed flags.now) }
{
    if are_set(flags) {
        return Ok(Vec::new(alloc));
    }
    copy_of(alloc, flags)
}

fn are_set(flags: &[bool]) -> bool
    ensures { result ≡ list_all (λ flag. flag) flags.now }
{
    flags.iter().all(|flag| *flag)
}

// Where a text begins, or would begin behind the last: where the one before it ends.
#[inline]
pub(crate) fn short_begin_of(ends: &[u32], i: usize) -> usize
    requires { i ≤ length ends.now }
    ensures { result ≡ slice_index (0 ∷ ends.now) i }
{
    if i == 0 { 0 } else { ends[i - 1] as usize }
}
