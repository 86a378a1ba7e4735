//! Decimal numbers as text.
ghost use Rattle.std.specs.Prelude.{◌≡◌, ◌++◌, ◌∷◌, [], ◌<◌, ◌≤◌, ◌+◌, ◌-◌, ◌^◌, length, replicate, OnOk, if◌then◌else◌};
ghost use Rattle.std.specs.Int.{is_negative};
ghost use Rattle.pl_text.specs.ValueText.{padded, point_text, decimal_text};
ghost use Rattle.pl_write.specs.Writing.{StaysInFront};

use crate::put_decimals::put_decimal;
use std::alloc::AllocError;

// Appends a minus, where the number is below zero.
#[tactic(auto, using(crate::proofs::KeptLaws::keeping))]
#[inline]
fn push_sign(block: &mut Vec<u8>, number: i128) -> Result<(), AllocError>
    ensures text { OnOk result (block.new.items ≡ block.old.items ++ (if is_negative number then 45 ∷ [] else [])) }
    ensures kept { StaysInFront block.old.items block.new.items }
{
    if number < 0 {
        block.push(b'-')?;
    }
    Ok(())
}

// Appends so many zeros.
#[tactic(auto, using(crate::proofs::KeptLaws::keeping))]
#[inline]
fn push_zeros(block: &mut Vec<u8>, count: usize) -> Result<(), AllocError>
    requires { count < 2 ^ 32 }
    ensures text { OnOk result (block.new.items ≡ block.old.items ++ replicate count 48) }
    ensures kept { StaysInFront block.old.items block.new.items }
{
    block.resize(block.len() + count, b'0')
}

// Appends digits with a point before the last of them.
#[tactic(auto, using(crate::proofs::KeptLaws::keeping))]
#[inline]
fn push_point(block: &mut Vec<u8>, digits: &[u8], scale: usize) -> Result<(), AllocError>
    requires { scale < length digits.now }
    ensures text { OnOk result (block.new.items ≡ block.old.items ++ point_text scale digits.now) }
    ensures kept { StaysInFront block.old.items block.new.items }
{
    if scale == 0 {
        return block.extend_from_slice(digits);
    }
    let (whole, rest) = digits.split_at(digits.len() - scale);
    block.extend_from_slice(whole)?;
    block.push(b'.')?;
    block.extend_from_slice(rest)
}

// Appends digits that all stand behind the point, with zeros in front of them.
#[tactic(auto, using(crate::proofs::KeptLaws::keeping))]
#[inline]
fn push_fraction(block: &mut Vec<u8>, digits: &[u8], scale: usize) -> Result<(), AllocError>
    requires few { length digits.now ≤ scale }
    requires small { scale < 2 ^ 32 }
    ensures text { OnOk result (block.new.items ≡ block.old.items ++ 48 ∷ (46 ∷ (replicate (scale - length digits.now) 48 ++ digits.now))) }
    ensures kept { StaysInFront block.old.items block.new.items }
{
    block.extend_from_slice(b"0.")?;
    push_zeros(block, scale - digits.len())?;
    block.extend_from_slice(digits)
}

// Appends digits with a point before the last of them, filled in front with zeros to one digit before the point.
#[tactic(auto, using(crate::proofs::KeptLaws::keeping))]
#[inline]
fn push_filled(block: &mut Vec<u8>, digits: &[u8], scale: usize) -> Result<(), AllocError>
    requires some { 0 < length digits.now }
    requires small { scale < 2 ^ 32 }
    ensures text { OnOk result (block.new.items ≡ block.old.items ++ point_text scale (replicate (scale + 1 - length digits.now) 48 ++ digits.now)) }
    ensures kept { StaysInFront block.old.items block.new.items }
{
    if digits.len() > scale {
        push_point(block, digits, scale)
    } else {
        push_fraction(block, digits, scale)
    }
}

// Appends the digits of a size of any width, with a point before the last of them.
#[tactic(auto, using(crate::proofs::KeptLaws::keeping))]
fn push_wide_scaled(block: &mut Vec<u8>, size: u128, scale: u32) -> Result<(), AllocError>
    ensures text { OnOk result (block.new.items ≡ block.old.items ++ point_text scale (padded (scale + 1) size)) }
    ensures kept { StaysInFront block.old.items block.new.items }
{
    let mut buffer = itoa::Buffer::new();
    let digits = buffer.format(size);
    push_filled(block, digits.as_bytes(), scale as usize)
}

// Appends a decimal number of any size.
#[tactic(auto, using(crate::proofs::KeptLaws::keeping))]
#[cold]
fn push_wide_decimal(block: &mut Vec<u8>, number: i128, scale: u32) -> Result<(), AllocError>
    ensures text { OnOk result (block.new.items ≡ block.old.items ++ decimal_text scale number) }
    ensures kept { StaysInFront block.old.items block.new.items }
{
    push_sign(block, number)?;
    push_wide_scaled(block, number.unsigned_abs(), scale)
}

/// Appends a decimal number of which 10^scale make one: a minus below zero, and digits with a point before the last
/// `scale` of them.
#[tactic(auto, using(crate::proofs::KeptLaws::keeping))]
#[inline]
pub(crate) fn push_decimal(block: &mut Vec<u8>, number: i128, scale: u32) -> Result<(), AllocError>
    ensures text { OnOk result (block.new.items ≡ block.old.items ++ decimal_text scale number) }
    ensures kept { StaysInFront block.old.items block.new.items }
{
    let at = block.len();
    block.resize(at + 26, 0)?;
    match put_decimal(block, at, number, scale) {
        Some(end) => {
            block.truncate(end);
            Ok(())
        }
        None => {
            block.truncate(at);
            push_wide_decimal(block, number, scale)
        }
    }
}
