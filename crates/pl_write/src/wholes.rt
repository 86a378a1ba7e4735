//! Whole numbers as text.
ghost use Rattle.std.specs.Prelude.{◌≡◌, ◌++◌, OnOk};
ghost use Rattle.std.specs.Fmt.{signed_decimal};
ghost use Rattle.pl_write.specs.Writing.{StaysInFront};

use crate::put_wholes::put_narrow;
use itoa::Buffer;
use std::alloc::AllocError;

// Appends a number of 64 bits.
#[inline]
pub(crate) fn push_narrow(block: &mut Vec<u8>, number: i64) -> Result<(), AllocError>
    ensures text { OnOk result (block.new.items ≡ block.old.items ++ signed_decimal number) }
    ensures kept { StaysInFront block.old.items block.new.items }
{
    let at = block.len();
    block.resize(at + 21, 0)?;
    let end = put_narrow(block, at, number);
    block.truncate(end);
    Ok(())
}

// Appends a number of any width.
#[tactic(auto, using(crate::proofs::KeptLaws::keeping))]
#[cold]
fn push_wide(block: &mut Vec<u8>, number: i128) -> Result<(), AllocError>
    ensures text { OnOk result (block.new.items ≡ block.old.items ++ signed_decimal number) }
    ensures kept { StaysInFront block.old.items block.new.items }
{
    let mut digits = Buffer::new();
    block.extend_from_slice(digits.format(number).as_bytes())
}

/// Appends a whole number of any width, in decimal digits, with a minus below zero.
#[tactic(auto, using(crate::proofs::KeptLaws::keeping))]
#[inline]
pub(crate) fn push_whole(block: &mut Vec<u8>, number: i128) -> Result<(), AllocError>
    ensures text { OnOk result (block.new.items ≡ block.old.items ++ signed_decimal number) }
    ensures kept { StaysInFront block.old.items block.new.items }
{
    match i64::try_from(number) {
        Ok(number) => push_narrow(block, number),
        Err(_) => push_wide(block, number),
    }
}
