//! Numbers, some of which are missing.
ghost use Rattle.std.specs.Prelude.{◌≡◌, ◌+◌, ◌-◌, ◌<◌, ◌≤◌, [], ◌∷◌, ◌++◌, take, drop, map, length, ◌==◌, OnOk, OnErr, IfOk, slice_get, count_by, is_none, vec_len, vec_capacity};
ghost use Rattle.std.specs.Option.{option_map};
ghost use Rattle.pl_frame.specs.Columns.{number_cells};
ghost use Rattle.pl_frame.specs.Flags.{flags_behind, marked, AreMarked};
ghost use Rattle.pl_frame.specs.Frame.{Number};

use crate::whole::{Narrow, Whole};
use std::alloc::{AllocError, Global};
use std::marker::Model;

/// A list of numbers with nulls: the numbers in one vector, with the type's default where there is none, and flags in
/// another. Flags are kept up to the last null: behind them every number is there.
#[derive(Debug, Drop)]
pub struct Numbers<T> {
    values: Vec<T>,
    present: Vec<bool>,
}

// How numbers are kept: values, and flags up to the last null.
#[derive(Drop)]
pub(crate) struct KeptNumbers<'a, T> {
    pub(crate) values: &'a [T],
    pub(crate) present: &'a [bool],
}

impl<T> Model for Numbers<T> {
    ghost use Rattle.std.specs.Prelude.{List, Option};
    ghost use Rattle.std.specs.Option.{option_map};
    ghost use Rattle.pl_frame.specs.Columns.{number_cells};
    ghost use Rattle.pl_frame.specs.Flags.{flags_behind, marked, AreMarked};
    ghost use Rattle.pl_frame.specs.Frame.{Number};

    ghost Value = { List (Option T) };

    ghost view = { λ n. marked n.values.items n.present.items };

    ghost invariant = { λ n. AreMarked n.values.items n.present.items };
}

#[tactic(auto, using(crate::proofs::FlagLaws::marks))]
impl<T: Copy + Default> Numbers<T> {
    /// No numbers, without taking memory.
    pub fn new(alloc: Global) -> Self
        ensures { result ≡ [] }
    {
        Numbers {
            values: Vec::new(alloc),
            present: Vec::new(alloc),
        }
    }

    /// How many there are, nulls among them, without taking memory.
    #[inline]
    pub fn len(&self) -> usize
        ensures { result ≡ length self.now }
    {
        self.values.len()
    }

    /// Whether there are none, without taking memory.
    #[inline]
    pub fn is_empty(&self) -> bool
        ensures { result ≡ (length self.now == 0) }
    {
        self.values.is_empty()
    }

    /// Makes room for so many more. Refuses only want of memory; the numbers stay as they are.
    pub fn reserve(&mut self, additional: usize) -> Result<(), AllocError>
        ensures { self.new ≡ self.old }
    {
        self.values.reserve(additional)
    }

    /// Puts a number at the end. Refuses only want of memory, and is then as it was.
    #[inline]
    pub fn push(&mut self, value: T) -> Result<(), AllocError>
        ensures ok { OnOk result (self.new ≡ self.old ++ Some value ∷ []) }
        ensures err { OnErr result (self.new ≡ self.old) }
    {
        self.values.push(value)?;
        Ok(())
    }

    /// Puts a null at the end. Refuses only want of memory, and is then as it was.
    #[inline]
    pub fn push_null(&mut self) -> Result<(), AllocError>
        ensures ok { OnOk result (self.new ≡ self.old ++ None ∷ []) }
        ensures err { OnErr result (self.new ≡ self.old) }
    {
        self.values.reserve(1)?;
        self.present.resize(self.values.len(), true)?;
        self.present.push(false)?;
        self.values.push_reserved(T::default());
        Ok(())
    }

    /// Puts other numbers behind these. Refuses only want of memory, and is then as it was.
    pub fn append(&mut self, other: &Numbers<T>) -> Result<(), AllocError>
        ensures ok { OnOk result (self.new ≡ self.old ++ other.now) }
        ensures err { OnErr result (self.new ≡ self.old) }
    {
        if other.present.is_empty() {
            return self.values.extend_from_slice(&other.values);
        }
        self.values.reserve(other.values.len())?;
        self.present.resize(self.values.len(), true)?;
        self.present.extend_from_slice(&other.present)?;
        extend_reserved(&mut self.values, &other.values);
        Ok(())
    }

    /// Keeps so many numbers, or all if there are fewer, without taking memory.
    #[inline]
    pub fn truncate(&mut self, len: usize)
        ensures { self.new ≡ take len self.old }
    {
        self.values.truncate(len);
        self.present.truncate(len);
    }

    /// Equal numbers. Refuses only want of memory.
    pub fn try_clone(&self) -> Result<Self, AllocError>
        ensures { IfOk result (λ numbers. numbers ≡ self.now) }
    {
        let alloc = *self.values.allocator();
        Ok(Numbers {
            values: copy_of(alloc, &self.values)?,
            present: copy_of(alloc, &self.present)?,
        })
    }

    /// The number at a place, or a null, without taking memory.
    #[inline]
    pub fn get(&self, i: usize) -> Option<T>
        requires { i < length self.now }
        ensures { slice_get self.now i ≡ Some result }
    {
        if i < self.present.len() && !self.present[i] {
            None
        } else {
            Some(self.values[i])
        }
    }

    /// How many nulls there are, without taking memory.
    pub fn null_count(&self) -> usize
        ensures { result ≡ count_by is_none self.now }
    {
        self.present.iter().filter(|flag| !**flag).count()
    }

    // Puts the numbers of others from one place up to another behind these. Refuses only want of memory.
    pub(crate) fn append_range(
        &mut self,
        other: &Numbers<T>,
        from: usize,
        to: usize,
    ) -> Result<(), AllocError>
        requires { (from ≤ to) × (to ≤ length other.now) }
        ensures { OnOk result (self.new ≡ self.old ++ take (to - from) (drop from other.now)) }
    {
        self.values.reserve(to - from)?;
        let flags = flags_between(&other.present, from, to);
        append_flags(&mut self.present, self.values.len(), flags)?;
        extend_reserved(&mut self.values, &other.values[from..to]);
        Ok(())
    }

    // Numbers that are kept as these values and flags, without taking memory.
    pub(crate) fn of(values: Vec<T>, present: Vec<bool>) -> Self
        requires { AreMarked values.items present.items }
        ensures { result ≡ marked values.items present.items }
    {
        Numbers { values, present }
    }

    // The values and the flags, without taking memory.
    pub(crate) fn kept(&self) -> KeptNumbers<'_, T>
        ensures whole { marked result.values.now result.present.now ≡ self.now }
        ensures flags { AreMarked result.values.now result.present.now }
    {
        KeptNumbers {
            values: &self.values,
            present: &self.present,
        }
    }
}

#[tactic(auto, using(crate::proofs::FlagLaws::marks))]
impl Numbers<i64> {
    // Puts numbers of no more bits from one place up to another behind these. Refuses only want of memory.
    pub(crate) fn append_narrow<N: Narrow>(
        &mut self,
        other: &Numbers<N>,
        from: usize,
        to: usize,
    ) -> Result<(), AllocError>
        requires { (from ≤ to) × (to ≤ length other.now) }
        ensures { OnOk result (number_cells self.new ≡ number_cells self.old ++ take (to - from) (drop from (map (option_map N.scalar) other.now))) }
    {
        self.values.reserve(to - from)?;
        let flags = flags_between(&other.present, from, to);
        append_flags(&mut self.present, self.values.len(), flags)?;
        extend_narrow(&mut self.values, &other.values[from..to]);
        Ok(())
    }
}

#[tactic(auto, using(crate::proofs::FlagLaws::marks))]
impl Numbers<i128> {
    // Puts numbers of any width from one place up to another behind these. Refuses only want of memory.
    pub(crate) fn append_wide<N: Whole>(
        &mut self,
        other: &Numbers<N>,
        from: usize,
        to: usize,
    ) -> Result<(), AllocError>
        requires { (from ≤ to) × (to ≤ length other.now) }
        ensures { OnOk result (number_cells self.new ≡ number_cells self.old ++ take (to - from) (drop from (map (option_map N.scalar) other.now))) }
    {
        self.values.reserve(to - from)?;
        let flags = flags_between(&other.present, from, to);
        append_flags(&mut self.present, self.values.len(), flags)?;
        extend_wide(&mut self.values, &other.values[from..to]);
        Ok(())
    }
}

// Puts numbers behind others, for which there is room.
fn extend_narrow<N: Narrow>(values: &mut Vec<i64>, more: &[N])
    requires { vec_len values.old + length more.now ≤ vec_capacity values.old }
    ensures { map Number values.new.items ≡ map Number values.old.items ++ map N.scalar more.now }
{
    for number in more {
        values.push_reserved(number.narrow());
    }
}

// Puts numbers behind others, for which there is room.
fn extend_wide<N: Whole>(values: &mut Vec<i128>, more: &[N])
    requires { vec_len values.old + length more.now ≤ vec_capacity values.old }
    ensures { map Number values.new.items ≡ map Number values.old.items ++ map N.scalar more.now }
{
    for number in more {
        values.push_reserved(number.wide());
    }
}

// The flags from one place up to another, as far as they are kept.
pub(crate) fn flags_between(flags: &[bool], from: usize, to: usize) -> &[bool]
    requires { from ≤ to }
    ensures { result.now ≡ take (to - from) (drop from flags.now) }
{
    let from = from.min(flags.len());
    let to = to.min(flags.len());
    &flags[from..to]
}

// Puts flags behind those of so many values, where there are any.
fn append_flags(flags: &mut Vec<bool>, len: usize, more: &[bool]) -> Result<(), AllocError>
    requires { vec_len flags.old ≤ len }
    ensures ok { OnOk result (flags.new.items ≡ flags_behind flags.old.items len more.now) }
    ensures err { OnErr result (vec_len flags.new ≤ len) }
{
    if more.is_empty() {
        return Ok(());
    }
    flags.resize(len, true)?;
    flags.extend_from_slice(more)
}

/// Puts items behind others, for which there is room.
#[inline]
pub(crate) fn extend_reserved<T: Copy>(items: &mut Vec<T>, more: &[T])
    requires { vec_len items.old + length more.now ≤ vec_capacity items.old }
    ensures { items.new.items ≡ items.old.items ++ more.now }
{
    match items.extend_from_slice(more) {
        Ok(()) => {}
        Err(_) => unreachable!(),
    }
}

/// A copy of these items. Refuses only want of memory.
pub(crate) fn copy_of<T: Copy>(alloc: Global, items: &[T]) -> Result<Vec<T>, AllocError>
    ensures { IfOk result (λ copy. copy.items ≡ items.now) }
{
    let mut copy = Vec::new(alloc);
    copy.extend_from_slice(items)?;
    Ok(copy)
}
