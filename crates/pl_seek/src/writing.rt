//! The bytes of an index, written one part behind the other.
ghost use Rattle.std.specs.Prelude.{◌≡◌, ◌++◌, OnOk};
ghost use Rattle.std.specs.List.{flat_map};
ghost use Rattle.pl_seek.specs.Index.{flag_bytes, number_bytes, quote_bytes, settings_bytes, text_bytes};

use crate::settings::Settings;
use std::alloc::AllocError;

#[inline]
pub(crate) fn put_number(out: &mut Vec<u8>, number: usize) -> Result<(), AllocError>
    ensures { OnOk result (out.new.items ≡ out.old.items ++ number_bytes number) }
{
    out.extend_from_slice(&number.to_be_bytes())
}

fn put_flag(out: &mut Vec<u8>, flag: bool) -> Result<(), AllocError>
    ensures { OnOk result (out.new.items ≡ out.old.items ++ flag_bytes flag) }
{
    out.push(if flag { 1 } else { 0 })?;
    Ok(())
}

fn put_quote(out: &mut Vec<u8>, quote_char: Option<u8>) -> Result<(), AllocError>
    ensures { OnOk result (out.new.items ≡ out.old.items ++ quote_bytes quote_char) }
{
    match quote_char {
        Some(quote) => out.extend_from_slice(&[1, quote]),
        None => out.extend_from_slice(&[0, 0]),
    }
}

// The length of the text, and its bytes.
pub(crate) fn put_text(out: &mut Vec<u8>, text: &[u8]) -> Result<(), AllocError>
    ensures { OnOk result (out.new.items ≡ out.old.items ++ text_bytes text.now) }
{
    put_number(out, text.len())?;
    out.extend_from_slice(text)
}

pub(crate) fn put_settings(out: &mut Vec<u8>, settings: &Settings) -> Result<(), AllocError>
    ensures { OnOk result (out.new.items ≡ out.old.items ++ settings_bytes settings.now) }
{
    out.push(settings.separator)?;
    put_quote(out, settings.quote_char)?;
    out.push(settings.eol_char)?;
    put_flag(out, settings.has_header)?;
    put_flag(out, settings.keep_ends)?;
    put_number(out, settings.skip_rows)?;
    put_number(out, settings.skip_lines)?;
    put_number(out, settings.skip_rows_after_header)
}

pub(crate) fn put_numbers(out: &mut Vec<u8>, numbers: &[usize]) -> Result<(), AllocError>
    ensures { OnOk result (out.new.items ≡ out.old.items ++ flat_map number_bytes numbers.now) }
{
    out.reserve(numbers.len().saturating_mul(8))?;
    for number in numbers {
        put_number(out, *number)?;
    }
    Ok(())
}
