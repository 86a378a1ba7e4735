//! An index of record places.
ghost use Rattle.std.specs.Prelude.{◌≡◌, ◌<◌, IfOk, OnOk, IfErr, IsErrOf, IsOkUnless};
ghost use Rattle.pl_seek.specs.Index.{Index, IsIndex, ArePlaces, HasIndex, index_bytes};
ghost use Rattle.pl_seek.specs.Binding.{first_difference, IsDifference};
ghost use Rattle.pl_seek.specs.declared.fault.SeekFault.TheVariants as fault;

use crate::fault::SeekFault;
use crate::reading::{MAGIC, are_parts, numbers_in, parts_in};
use crate::settings::Settings;
use crate::writing::{put_number, put_numbers, put_settings, put_text};
use std::alloc::Global;
use std::marker::Model;

/// Where every k-th record of an input begins, kept beside the digest of the input and the settings that tell where records
/// begin. It is bound to the input by both, and by the places themselves.
#[derive(Debug, Drop)]
pub struct SeekIndex {
    digest: [u8; 32],
    settings: Settings,
    comment_prefix: Vec<u8>,
    every: usize,
    records: usize,
    places: Vec<usize>,
}

impl Model for SeekIndex {
    ghost use Rattle.pl_seek.specs.Index.{Index, IsIndex};

    ghost Value = { Index };

    ghost use Rattle.pl_seek.specs.Inside.{inside};

    ghost view = { inside };

    ghost invariant = { λ index. IsIndex (inside index) };
}

// The least number of a place that is another one in the other list, as far as both go.
fn first_difference(places: &[usize], own: &[usize]) -> Option<usize>
    ensures { result ≡ first_difference places.now own.now }
{
    places
        .iter()
        .zip(own.iter())
        .position(|(place, other)| *place != *other)
}

impl SeekIndex {
    /// An index of these parts, without taking memory.
    pub(crate) fn new(
        digest: [u8; 32],
        settings: Settings,
        comment_prefix: Vec<u8>,
        every: usize,
        records: usize,
        places: Vec<usize>,
    ) -> SeekIndex
        requires { ArePlaces every records places.items }
        ensures { result ≡ record {
          digest = digest;
          settings = settings;
          comment_prefix = comment_prefix.items;
          every = every;
          records = records;
          places = places.items;
        } }
    {
        SeekIndex {
            digest,
            settings,
            comment_prefix,
            every,
            records,
            places,
        }
    }

    /// How many records are a group.
    pub fn every(&self) -> usize
        ensures value { result ≡ self.now.every }
        ensures some { 0 < result }
    {
        self.every
    }

    /// How many records there are.
    pub fn records(&self) -> usize
        ensures { result ≡ self.now.records }
    {
        self.records
    }

    /// Where each group begins.
    pub fn places(&self) -> &[usize]
        ensures { result.now ≡ self.now.places }
    {
        &self.places
    }

    /// Refuses what differs in another index of groups of as many records: the digest (`Input`), or else the settings (`Settings`), or
    /// else the least place, or the number of records (`Places`).
    pub(crate) fn compare(&self, own: &SeekIndex) -> Result<(), SeekFault>
        requires { self.now.every ≡ own.now.every }
        ensures same { OnOk result (self.now ≡ own.now) }
        ensures refused { IfErr result (IsDifference self.now own.now) }
    {
        if self.digest.as_slice() != own.digest.as_slice() {
            return Err(SeekFault::Input);
        }
        if self.settings != own.settings || self.comment_prefix != own.comment_prefix {
            return Err(SeekFault::Settings);
        }
        if let Some(number) = first_difference(&self.places, &own.places) {
            return Err(SeekFault::Places { number });
        }
        if self.records != own.records {
            let number = self.places.len().min(own.places.len());
            return Err(SeekFault::Places { number });
        }
        Ok(())
    }

    /// The bytes of this index, which `from_bytes` reads again. Refuses only want of memory.
    #[tactic(auto, unfolding(crate::specs::Index::index_bytes))]
    pub fn to_bytes(&self) -> Result<Vec<u8>, SeekFault>
        ensures bytes { IfOk result (λ bytes. bytes.items ≡ index_bytes self.now) }
        ensures form { IsIndex self.now }
        ensures refused { IsOkUnless result fault.OutOfMemory }
    {
        let mut out = Vec::new(*self.places.allocator());
        out.extend_from_slice(&MAGIC)?;
        out.extend_from_slice(&self.digest)?;
        put_settings(&mut out, &self.settings)?;
        put_text(&mut out, &self.comment_prefix)?;
        put_number(&mut out, self.every)?;
        put_number(&mut out, self.records)?;
        put_numbers(&mut out, &self.places)?;
        Ok(out)
    }

    /// The index that has these bytes. Refuses bytes of no index, and want of memory.
    pub fn from_bytes(alloc: Global, bytes: &[u8]) -> Result<SeekIndex, SeekFault>
        ensures found { IfOk result (λ index. IsIndex index × (bytes.now ≡ index_bytes index)) }
        ensures only { (i : Index) → IsIndex i → bytes.now ≡ index_bytes i → IfOk result (λ index. index ≡ i) }
        ensures read { HasIndex bytes.now → IsOkUnless result fault.OutOfMemory }
        ensures refused { ¬ HasIndex bytes.now → IsErrOf result fault.Format }
    {
        let Some(parts) = parts_in(bytes) else {
            return Err(SeekFault::Format);
        };
        if !are_parts(&parts) {
            return Err(SeekFault::Format);
        }
        let places = numbers_in(alloc, parts.places)?;
        let comment_prefix = Vec::from_slice(alloc, parts.comment_prefix)?;
        Ok(SeekIndex::new(
            parts.digest,
            parts.settings,
            comment_prefix,
            parts.every,
            parts.records,
            places,
        ))
    }
}
