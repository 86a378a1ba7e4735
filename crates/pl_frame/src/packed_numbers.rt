//! Numbers in as many bits as they need.
ghost use Rattle.std.specs.Prelude.{◌≡◌, true, IfOk};
ghost use Rattle.pl_frame.specs.Columns.{number_cells, truth_cells};
ghost use Rattle.pl_frame.specs.Packed.{AreBetween};
ghost use Rattle.pl_frame.specs.Parts.{part_cells};

use crate::numbers::{Numbers, copy_of};
use crate::part::Part;
use std::alloc::{AllocError, Global};

// Numbers of 64 bits in no more bits than they need. Refuses only want of memory.
pub(crate) fn pack_narrow(alloc: Global, numbers: &Numbers<i64>) -> Result<Part, AllocError>
    ensures { IfOk result (λ part. part_cells part ≡ number_cells numbers.now) }
{
    let kept = numbers.kept();
    let present = copy_of(alloc, kept.present)?;
    if are_between(kept.values, -0x80, 0x7f) {
        let values = bytes_of(alloc, kept.values)?;
        return Ok(Part::Byte(Numbers::of(values, present)));
    }
    if are_between(kept.values, -0x8000, 0x7fff) {
        let values = shorts_of(alloc, kept.values)?;
        return Ok(Part::Short(Numbers::of(values, present)));
    }
    if are_between(kept.values, -0x8000_0000, 0x7fff_ffff) {
        let values = mediums_of(alloc, kept.values)?;
        return Ok(Part::Medium(Numbers::of(values, present)));
    }
    let values = copy_of(alloc, kept.values)?;
    Ok(Part::Narrow(Numbers::of(values, present)))
}

// Numbers of 128 bits in no more bits than they need. Refuses only want of memory.
pub(crate) fn pack_wide(alloc: Global, numbers: &Numbers<i128>) -> Result<Part, AllocError>
    ensures { IfOk result (λ part. part_cells part ≡ number_cells numbers.now) }
{
    let kept = numbers.kept();
    let present = copy_of(alloc, kept.present)?;
    if are_narrow(kept.values) {
        let values = narrows_of(alloc, kept.values)?;
        return pack_narrow(alloc, &Numbers::of(values, present));
    }
    let values = copy_of(alloc, kept.values)?;
    Ok(Part::Wide(Numbers::of(values, present)))
}

// Whether each number lies between two others, or is one of them.
fn are_between(numbers: &[i64], low: i64, high: i64) -> bool
    ensures { result ≡ true → AreBetween low high numbers.now }
{
    for number in numbers {
        if *number < low || high < *number {
            return false;
        }
    }
    true
}

// Whether each number fits 64 bits.
fn are_narrow(numbers: &[i128]) -> bool
    ensures { result ≡ true → AreBetween i64.MIN i64.MAX numbers.now }
{
    for number in numbers {
        if *number < i128::from(i64::MIN) || i128::from(i64::MAX) < *number {
            return false;
        }
    }
    true
}

// The same numbers in 8 bits.
fn bytes_of(alloc: Global, numbers: &[i64]) -> Result<Vec<i8>, AllocError>
    requires { AreBetween i8.MIN i8.MAX numbers.now }
    ensures { IfOk result (λ bytes. bytes.items ≡ numbers.now) }
{
    let mut bytes = Vec::new(alloc);
    bytes.reserve_exact(numbers.len())?;
    for number in numbers {
        bytes.push_reserved(*number as i8);
    }
    Ok(bytes)
}

// The same numbers in 16 bits.
fn shorts_of(alloc: Global, numbers: &[i64]) -> Result<Vec<i16>, AllocError>
    requires { AreBetween i16.MIN i16.MAX numbers.now }
    ensures { IfOk result (λ shorts. shorts.items ≡ numbers.now) }
{
    let mut shorts = Vec::new(alloc);
    shorts.reserve_exact(numbers.len())?;
    for number in numbers {
        shorts.push_reserved(*number as i16);
    }
    Ok(shorts)
}

// The same numbers in 32 bits.
fn mediums_of(alloc: Global, numbers: &[i64]) -> Result<Vec<i32>, AllocError>
    requires { AreBetween i32.MIN i32.MAX numbers.now }
    ensures { IfOk result (λ mediums. mediums.items ≡ numbers.now) }
{
    let mut mediums = Vec::new(alloc);
    mediums.reserve_exact(numbers.len())?;
    for number in numbers {
        mediums.push_reserved(*number as i32);
    }
    Ok(mediums)
}

// The same numbers in 64 bits.
fn narrows_of(alloc: Global, numbers: &[i128]) -> Result<Vec<i64>, AllocError>
    requires { AreBetween i64.MIN i64.MAX numbers.now }
    ensures { IfOk result (λ narrows. narrows.items ≡ numbers.now) }
{
    let mut narrows = Vec::new(alloc);
    narrows.reserve_exact(numbers.len())?;
    for number in numbers {
        narrows.push_reserved(*number as i64);
    }
    Ok(narrows)
}
