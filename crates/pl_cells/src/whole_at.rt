//! Whole numbers read in place: of the bytes from a place of a text to its end. No call takes memory.
ghost use Rattle.std.specs.Prelude.{◌≡◌, ◌≤◌, ◌<◌, ◌^◌, drop, length, pos, true, IfSome, Some};
ghost use Rattle.pl_frame.specs.Types.{from_to, is_within};
ghost use Rattle.pl_cells.specs.Columns.{begins_number};
ghost use Rattle.pl_cells.specs.Integers.{is_digits, is_negative, number_of, only_within, signed, signed_value, unsigned_value, without_minus};
ghost use Rattle.pl_cells.specs.Quoting.{strip};

use crate::lanes::number_at;

/// Whether a minus stands at the place, and where the digits begin.
#[inline(always)]
pub(crate) fn digits_from(upto: &[u8], start: usize) -> (bool, usize)
    requires { start < length upto.now }
    ensures negative { result.0 ≡ is_negative (drop start upto.now) }
    ensures behind { start ≤ result.1 }
    ensures inside { result.1 ≤ length upto.now }
    ensures digits { drop result.1 upto.now ≡ without_minus (drop start upto.now) }
{
    if upto[start] == b'-' {
        (true, start + 1)
    } else {
        (false, start)
    }
}

// The number with its sign.
#[inline(always)]
fn with_sign(negative: bool, number: u64) -> i64
    requires { number < 10 ^ 16 }
    ensures { result ≡ signed negative number }
{
    let number = number as i64;
    if negative { -number } else { number }
}

// The number, where it lies from `low` to `high`.
#[inline(always)]
fn only_between(number: i64, low: i64, high: i64) -> Option<i64>
    ensures { result ≡ only_within (from_to low high) number }
{
    if low <= number && number <= high {
        Some(number)
    } else {
        None
    }
}

// The whole number from `low` to `high`: an optional minus and up to sixteen digits. Other texts are not seen. It is not put where
// it is called, so that the loop that calls it stays short.
#[inline(never)]
fn signed_at(upto: &[u8], start: usize, low: i64, high: i64) -> Option<i64>
    ensures value { IfSome result (λ n. signed_value (from_to low high) (drop start upto.now) ≡ Some n) }
    ensures within { IfSome result (λ n. is_within (from_to low high) n ≡ true) }
    ensures front { IfSome result (λ _. begins_number (drop start upto.now) ≡ true) }
    ensures back { IfSome result (λ _. strip (drop start upto.now) ≡ drop start upto.now) }
{
    if start >= upto.len() {
        return None;
    }
    let (negative, from) = digits_from(upto, start);
    let number = with_sign(negative, number_at(upto, from)?);
    only_between(number, low, high)
}

/// The whole number from `low` to `high`, both included: an optional minus and up to sixteen digits. Other texts are not seen.
#[inline(always)]
pub(crate) fn whole_at(upto: &[u8], start: usize, low: i64, high: i64) -> Option<i64>
    ensures value { IfSome result (λ n. signed_value (from_to low high) (drop start upto.now) ≡ Some n) }
    ensures within { IfSome result (λ n. is_within (from_to low high) n ≡ true) }
    ensures front { IfSome result (λ _. begins_number (drop start upto.now) ≡ true) }
    ensures back { IfSome result (λ _. strip (drop start upto.now) ≡ drop start upto.now) }
{
    if start > upto.len() {
        return None;
    }
    // Most numbers have no sign.
    match number_at(upto, start) {
        Some(number) => only_between(number as i64, low, high),
        None => signed_at(upto, start, low, high),
    }
}

/// The whole number from 0 to `high` of up to sixteen digits. Other texts are not seen.
#[inline(always)]
pub(crate) fn natural_at(upto: &[u8], start: usize, high: i64) -> Option<i64>
    ensures value { IfSome result (λ n. unsigned_value (from_to (pos 0) high) (drop start upto.now) ≡ Some n) }
    ensures within { IfSome result (λ n. is_within (from_to (pos 0) high) n ≡ true) }
    ensures front { IfSome result (λ _. begins_number (drop start upto.now) ≡ true) }
    ensures back { IfSome result (λ _. strip (drop start upto.now) ≡ drop start upto.now) }
{
    if start >= upto.len() {
        return None;
    }
    let number = number_at(upto, start)? as i64;
    if number <= high { Some(number) } else { None }
}
