//! Decimals read in place: of the bytes from a place of a text to its end. No call takes memory.
ghost use Rattle.std.specs.Prelude.{◌≡◌, ◌≤◌, ◌<◌, ◌^◌, ℕ, drop, take, true, IfSome, Some};
ghost use Rattle.pl_frame.specs.Types.{decimal_range, is_readable_decimal, is_within};
ghost use Rattle.pl_cells.specs.Columns.{begins_number};
ghost use Rattle.pl_cells.specs.DecimalParts.{scaled_below};
ghost use Rattle.pl_cells.specs.Decimals.{before_point, behind_point, decimal_value};
ghost use Rattle.pl_cells.specs.Integers.{is_digits};
ghost use Rattle.pl_cells.specs.Quoting.{strip};

use crate::around_point::number_around;
use crate::decimals::{limit_of, with_sign};
use crate::whole_at::digits_from;

// Up to sixteen digits with a point among them, and as many behind it as the scale says, at least one, as one number. Other
// texts are not seen.
#[inline(always)]
fn scaled_at(upto: &[u8], from: usize, scale: usize) -> Option<u64>
    ensures value { IfSome result (λ n. Some n ≡ scaled_below (2 ^ 128) scale (before_point (drop from upto.now)) (behind_point (drop from upto.now))) }
    ensures front { IfSome result (λ _. is_digits (take 1 (drop from upto.now)) ≡ true) }
    ensures back { IfSome result (λ _. (start : ℕ) → start ≤ from → strip (drop start upto.now) ≡ drop start upto.now) }
{
    if scale == 0 || scale > 16 || upto.len() < scale + 2 {
        return None;
    }
    let point = upto.len() - scale - 1;
    if point <= from || upto[point] != b'.' {
        return None;
    }
    let number = number_around(upto, from, point)?;
    Some(number)
}

// The same with an optional minus in front. It is not put where it is called, so that the loop that calls it stays short.
#[inline(never)]
fn signed_at(upto: &[u8], start: usize, precision: Option<u32>, scale: u32) -> Option<i128>
    requires { is_readable_decimal precision (Some scale) ≡ true }
    ensures value { IfSome result (λ n. decimal_value precision scale (drop start upto.now) ≡ Some n) }
    ensures within { IfSome result (λ n. is_within (decimal_range precision) n ≡ true) }
    ensures front { IfSome result (λ _. begins_number (drop start upto.now) ≡ true) }
    ensures back { IfSome result (λ _. strip (drop start upto.now) ≡ drop start upto.now) }
{
    if start >= upto.len() {
        return None;
    }
    let (negative, from) = digits_from(upto, start);
    let number = scaled_at(upto, from, scale as usize)?;
    with_sign(negative, u128::from(number), limit_of(precision, scale))
}

/// The number that the bytes write times ten to the scale: an optional minus and up to sixteen digits with a point among them,
/// behind which stand as many as the scale says, at least one on each side. Other texts are not seen.
///
/// Decimals of this precision and scale must be readable.
#[inline(always)]
pub(crate) fn decimal_at(
    upto: &[u8],
    start: usize,
    precision: Option<u32>,
    scale: u32,
) -> Option<i128>
    requires { is_readable_decimal precision (Some scale) ≡ true }
    ensures value { IfSome result (λ n. decimal_value precision scale (drop start upto.now) ≡ Some n) }
    ensures within { IfSome result (λ n. is_within (decimal_range precision) n ≡ true) }
    ensures front { IfSome result (λ _. begins_number (drop start upto.now) ≡ true) }
    ensures back { IfSome result (λ _. strip (drop start upto.now) ≡ drop start upto.now) }
{
    // Most numbers have no sign.
    match scaled_at(upto, start, scale as usize) {
        Some(number) => with_sign(false, u128::from(number), limit_of(precision, scale)),
        None => signed_at(upto, start, precision, scale),
    }
}
