//! Flags, numbers and words of cells, put behind others.
ghost use Rattle.std.specs.Prelude.{◌≡◌, ◌+◌, ◌*◌, ◌≤◌, ◌++◌, ◌∷◌, [], true, replicate, map, is_some, length, OnOk, IfOk, vec_len, vec_capacity, Some};
ghost use Rattle.std.specs.List.{flat_map};
ghost use Rattle.pl_csv_c.specs.Arrays.{number_in, or_zero, wide_in, low_word, high_word, words_in};
ghost use Rattle.pl_frame.specs.Columns.{scalar_of, number_cells, text_cells};

use pl_frame::column::{Column, Value};
use pl_frame::numbers::Numbers;
use pl_frame::texts::Texts;
use std::alloc::AllocError;

// Whether a cell is there.
#[inline]
fn is_there(value: Value<'_>) -> bool
    ensures { result ≡ is_some (scalar_of value.entry) }
{
    !matches!(value, Value::Null)
}

// The flags of a column, cell by cell.
fn put_each_flag(flags: &mut Vec<bool>, column: &Column)
    requires { vec_len flags.old + length column.now.values ≤ vec_capacity flags.old }
    ensures { flags.new.items ≡ flags.old.items ++ map is_some column.now.values }
{
    for row in 0..column.len() {
        flags.push_reserved(is_there(column.get(row)));
    }
}

// The flags of numbers of 64 bits, for which there is room.
fn put_narrow_flags(flags: &mut Vec<bool>, kept: &Numbers<i64>)
    requires { vec_len flags.old + length kept.now ≤ vec_capacity flags.old }
    ensures { flags.new.items ≡ flags.old.items ++ map is_some (number_cells kept.now) }
{
    for row in 0..kept.len() {
        flags.push_reserved(kept.get(row).is_some());
    }
}

// The flags of numbers of 128 bits, for which there is room.
fn put_wide_flags(flags: &mut Vec<bool>, kept: &Numbers<i128>)
    requires { vec_len flags.old + length kept.now ≤ vec_capacity flags.old }
    ensures { flags.new.items ≡ flags.old.items ++ map is_some (number_cells kept.now) }
{
    for row in 0..kept.len() {
        flags.push_reserved(kept.get(row).is_some());
    }
}

// The flags of texts, for which there is room.
fn put_text_flags(flags: &mut Vec<bool>, texts: &Texts)
    requires { vec_len flags.old + length texts.now ≤ vec_capacity flags.old }
    ensures { flags.new.items ≡ flags.old.items ++ map is_some (text_cells texts.now) }
{
    for row in 0..texts.len() {
        flags.push_reserved(texts.part(row).is_some());
    }
}

// So many flags that are set.
fn put_set_flags(flags: &mut Vec<bool>, count: usize)
    requires { vec_len flags.old + count ≤ vec_capacity flags.old }
    ensures { flags.new.items ≡ flags.old.items ++ replicate count true }
{
    for row in 0..count {
        flags.push_reserved(true);
    }
}

/// Puts a flag for each cell of a column behind others, which tells whether it is there. Refuses only want of memory.
#[tactic(auto, using(crate::proofs::ArrayLaws::all_there))]
pub(crate) fn put_flags(flags: &mut Vec<bool>, column: &Column) -> Result<(), AllocError>
    ensures { OnOk result (flags.new.items ≡ flags.old.items ++ map is_some column.now.values) }
{
    if column.null_count() == 0 {
        let rows = column.len();
        flags.reserve(rows)?;
        put_set_flags(flags, rows);
    } else if let Some(kept) = column.narrow_numbers() {
        flags.reserve(kept.len())?;
        put_narrow_flags(flags, kept);
    } else if let Some(kept) = column.wide_numbers() {
        flags.reserve(kept.len())?;
        put_wide_flags(flags, kept);
    } else if let Some(texts) = column.kept_texts() {
        flags.reserve(texts.len())?;
        put_text_flags(flags, texts);
    } else {
        flags.reserve(column.len())?;
        put_each_flag(flags, column);
    }
    Ok(())
}

// A number, and 0 where there is none.
#[inline]
fn or_zero(number: Option<i64>) -> i64
    ensures { result ≡ or_zero number }
{
    match number {
        Some(number) => number,
        None => 0,
    }
}

// Puts numbers behind others, for which there is room.
fn put_kept(numbers: &mut Vec<i64>, kept: &Numbers<i64>)
    requires { vec_len numbers.old + length kept.now ≤ vec_capacity numbers.old }
    ensures { numbers.new.items ≡ numbers.old.items ++ map number_in (number_cells kept.now) }
{
    for row in 0..kept.len() {
        numbers.push_reserved(or_zero(kept.get(row)));
    }
}

// The number of a cell, where it has 64 bits: 1 at true, 0 at false and where there is none.
#[inline]
fn number_in(value: Value<'_>) -> Result<i64, AllocError>
    ensures { IfOk result (λ number. number ≡ number_in (scalar_of value.entry)) }
{
    match value {
        Value::Boolean(true) => Ok(1),
        Value::Whole(number) => match i64::try_from(number) {
            Ok(number) => Ok(number),
            Err(_) => Err(AllocError),
        },
        Value::Boolean(false) | Value::Text(_) | Value::Null => Ok(0),
    }
}

// The numbers of a column, cell by cell.
fn put_each_number(numbers: &mut Vec<i64>, column: &Column) -> Result<(), AllocError>
    ensures { OnOk result (numbers.new.items ≡ numbers.old.items ++ map number_in column.now.values) }
{
    for row in 0..column.len() {
        let number = number_in(column.get(row))?;
        numbers.push(number)?;
    }
    Ok(())
}

/// Puts the number of each cell of a column behind others. Refuses only want of memory.
pub(crate) fn put_numbers(numbers: &mut Vec<i64>, column: &Column) -> Result<(), AllocError>
    ensures { OnOk result (numbers.new.items ≡ numbers.old.items ++ map number_in column.now.values) }
{
    let Some(kept) = column.narrow_numbers() else {
        return put_each_number(numbers, column);
    };
    numbers.reserve(kept.len())?;
    put_kept(numbers, kept);
    Ok(())
}

// So many words of 64 bits there are.
const WORDS: u128 = 1 << 64;

// The low word of a number in two's complement.
#[inline]
fn low_word(number: i128) -> u64
    ensures { result ≡ low_word number }
{
    (number.cast_unsigned() % WORDS) as u64
}

// The high word.
#[inline]
fn high_word(number: i128) -> u64
    ensures { result ≡ high_word number }
{
    (number.cast_unsigned() / WORDS) as u64
}

// The number of a cell, 0 where there is none.
#[inline]
fn wide_in(value: Value<'_>) -> i128
    ensures { result ≡ wide_in (scalar_of value.entry) }
{
    match value {
        Value::Whole(number) => number,
        Value::Boolean(_) | Value::Text(_) | Value::Null => 0,
    }
}

// A number, and 0 where there is none.
#[inline]
fn wide_or_zero(number: Option<i128>) -> i128
    ensures { result ≡ or_zero number }
{
    match number {
        Some(number) => number,
        None => 0,
    }
}

// Puts a number behind others as two words, for which there is room.
#[inline]
fn put_pair_reserved(words: &mut Vec<u64>, number: i128)
    requires { vec_len words.old + 2 ≤ vec_capacity words.old }
    ensures items { words.new.items ≡ words.old.items ++ low_word number ∷ high_word number ∷ [] }
    ensures len { vec_len words.new ≡ vec_len words.old + 2 }
    ensures capacity { vec_capacity words.new ≡ vec_capacity words.old }
{
    words.push_reserved(low_word(number));
    words.push_reserved(high_word(number));
}

// Puts numbers behind others as two words each, for which there is room.
fn put_wide(words: &mut Vec<u64>, kept: &Numbers<i128>)
    requires { vec_len words.old + 2 * length kept.now ≤ vec_capacity words.old }
    ensures { words.new.items ≡ words.old.items ++ flat_map words_in (number_cells kept.now) }
{
    for row in 0..kept.len() {
        put_pair_reserved(words, wide_or_zero(kept.get(row)));
    }
}

// Puts a number behind others as two words.
#[inline]
fn put_pair(words: &mut Vec<u64>, number: i128) -> Result<(), AllocError>
    ensures { OnOk result (words.new.items ≡ words.old.items ++ low_word number ∷ high_word number ∷ []) }
{
    words.push(low_word(number))?;
    words.push(high_word(number))?;
    Ok(())
}

// The words of a column, cell by cell.
fn put_each_pair(words: &mut Vec<u64>, column: &Column) -> Result<(), AllocError>
    ensures { OnOk result (words.new.items ≡ words.old.items ++ flat_map words_in column.now.values) }
{
    for row in 0..column.len() {
        put_pair(words, wide_in(column.get(row)))?;
    }
    Ok(())
}

/// Puts two words for the number of each cell of a column behind others. Refuses only want of memory.
pub(crate) fn put_words(words: &mut Vec<u64>, column: &Column) -> Result<(), AllocError>
    ensures { OnOk result (words.new.items ≡ words.old.items ++ flat_map words_in column.now.values) }
{
    let Some(kept) = column.wide_numbers() else {
        return put_each_pair(words, column);
    };
    let Some(count) = kept.len().checked_mul(2) else {
        return Err(AllocError);
    };
    words.reserve(count)?;
    put_wide(words, kept);
    Ok(())
}
