//! A large input from a number.
ghost use Rattle.std.specs.Prelude.{◌≡◌, ◌≤◌, ◌<◌, ◌+◌, ◌%◌, ◌++◌, ◌∷◌, [], pos, decimal, IfOk, OnOk, IsOkUnless};
ghost use Rattle.pl_text.specs.ValueText.{date_text, padded};
ghost use Rattle.pl_frame.specs.declared.error.PolarsError.TheVariants as error;
ghost use Rattle.pl_csv.specs.MadeInput.{name_field, day_field, amount_field, made_fields, made_line, made_input};

use jiff_core::civil::Date;
use pl_frame::error::{PolarsError, PolarsResult};
use std::alloc::{AllocError, Global};

/// The day number of 2020-01-01.
const FIRST_DAY: u64 = 18262;

/// How many days the year 2020 has.
const DAYS: u64 = 366;

/// Appends the digits of a number.
pub(crate) fn push_number(input: &mut Vec<u8>, number: u64) -> Result<(), AllocError>
    ensures { OnOk result (input.new.items ≡ input.old.items ++ decimal number) }
{
    let mut digits = itoa::Buffer::new();
    input.extend_from_slice(digits.format(number).as_bytes())
}

// Appends a number in two digits.
#[tactic(auto, using(crate::proofs::MadeInputLaws::padded_pair))]
fn push_two(input: &mut Vec<u8>, number: u32) -> Result<(), AllocError>
    requires { number < 100 }
    ensures { OnOk result (input.new.items ≡ input.old.items ++ padded 2 number) }
{
    let digits = [48 + (number / 10) as u8, 48 + (number % 10) as u8];
    input.extend_from_slice(&digits)
}

// Appends the date of a day of the year 2020.
fn push_day(input: &mut Vec<u8>, day: u64) -> Result<(), AllocError>
    requires { day < 366 }
    ensures { OnOk result (input.new.items ≡ input.old.items ++ date_text (pos (18262 + day))) }
{
    let date = Date::from_days_since_min((FIRST_DAY + day + 4_371_587) as u32);
    input.extend_from_slice(b"2020-")?;
    push_two(input, u32::from(date.month))?;
    input.push(b'-')?;
    push_two(input, u32::from(date.day))?;
    Ok(())
}

// Appends the name of a row.
fn push_name(input: &mut Vec<u8>, row: u64) -> Result<(), AllocError>
    ensures { OnOk result (input.new.items ≡ input.old.items ++ name_field row) }
{
    if row % 4 == 3 {
        return input.extend_from_slice(b"\"a\"\"b,\nc\"");
    }
    input.push(b'p')?;
    push_number(input, row % 100)
}

// Appends the amount of a row.
fn push_amount(input: &mut Vec<u8>, row: u64) -> Result<(), AllocError>
    ensures { OnOk result (input.new.items ≡ input.old.items ++ amount_field row) }
{
    if row % 10 == 9 {
        return Ok(());
    }
    push_number(input, row % 1000)?;
    input.extend_from_slice(b".25")
}

// Appends a comma.
fn push_comma(input: &mut Vec<u8>) -> Result<(), AllocError>
    ensures { OnOk result (input.new.items ≡ input.old.items ++ 44 ∷ []) }
{
    input.extend_from_slice(b",")
}

// Appends the line of a row.
fn push_row(input: &mut Vec<u8>, row: u64) -> Result<(), AllocError>
    ensures { OnOk result (input.new.items ≡ input.old.items ++ made_line (made_fields row)) }
{
    push_number(input, row)?;
    push_comma(input)?;
    push_name(input, row)?;
    push_comma(input)?;
    push_day(input, row % DAYS)?;
    push_comma(input)?;
    push_amount(input, row)?;
    input.extend_from_slice(b"\n")
}

// Appends the line of the names and that of each row.
fn push_rows(input: &mut Vec<u8>, rows: u64) -> Result<(), AllocError>
    ensures { OnOk result (input.new.items ≡ input.old.items ++ made_input rows) }
{
    input.extend_from_slice(b"id,name,day,amount\n")?;
    for row in 0..rows {
        push_row(input, row)?;
    }
    Ok(())
}

/// The input of so many rows: the line of the names `id`, `name`, `day` and `amount`, and a line for each row
/// (docs/command-line.md, "A made input"). Refuses only want of memory.
pub fn make_input(alloc: Global, rows: u64) -> PolarsResult<Vec<u8>>
    requires { rows ≤ 1000000 }
    ensures made { IfOk result (λ input. input.items ≡ made_input rows) }
    ensures refused { IsOkUnless result error.OutOfMemory }
{
    let mut input = Vec::new(alloc);
    match push_rows(&mut input, rows) {
        Ok(()) => Ok(input),
        Err(_) => Err(PolarsError::OutOfMemory),
    }
}
