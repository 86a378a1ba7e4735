//! What stands in front of a line: its number and a separator.
ghost use Rattle.std.specs.Prelude.{◌≡◌, ◌++◌, ◌+◌, ◌%◌, ◌^◌, ◌≤◌, ◌==◌, length, take};
ghost use Rattle.pl_row_numbers.specs.Numbered.{IsFront, front_text};
ghost use Rattle.pl_write.specs.Options.{style_number};

use itoa::Buffer;
use pl_write::options::{QuoteStyle, SerializeOptions};
use pl_write::puts::{put_byte, put_byte_if, put_bytes};

/// How numbers are written in front of lines.
#[derive(Clone, Copy)]
pub(crate) struct FrontForm {
    pub(crate) separator: u8,
    pub(crate) quoted: bool,
}

/// By these options.
pub(crate) fn form_of(options: &SerializeOptions) -> FrontForm
    ensures { result ≡ record { separator = options.now.separator; quoted = style_number options.now.quote_style == 1 } }
{
    FrontForm {
        separator: options.separator,
        quoted: matches!(options.quote_style, QuoteStyle::Always),
    }
}

/// The front of a line of this number: the first bytes of a text of fixed size, which is copied at once, but for the last digit, which is put
/// behind.
#[derive(Drop)]
pub(crate) struct Front {
    pub(crate) number: u64,
    pub(crate) form: FrontForm,
    text: [u8; 32],
    pub(crate) len: usize,
}

// Puts a number, as a cell, and a separator.
fn put_number(to: &mut [u8], at: usize, number: u64, form: FrontForm) -> usize
    requires room { at + 23 ≤ length to.old }
    ensures text { take result to.new ≡ take at to.old ++ front_text form number }
    ensures end { result ≤ at + 23 }
{
    let mut digits = Buffer::new();
    let opened = put_byte_if(to, at, b'"', form.quoted);
    let behind = put_bytes(to, opened, digits.format(number).as_bytes());
    let closed = put_byte_if(to, behind, b'"', form.quoted);
    put_byte(to, closed, form.separator)
}

/// The front of a line of this number.
pub(crate) fn front_of(number: u64, form: FrontForm) -> Front
    ensures front { IsFront result }
    ensures number { result.number ≡ number }
    ensures form { result.form ≡ form }
{
    let mut text = [0; 32];
    let len = put_number(&mut text, 0, number, form);
    Front {
        number,
        form,
        text,
        len,
    }
}

/// Makes the front of a line that of the next one. In nine of ten only the last digit changes.
#[inline(always)]
pub(crate) fn advance(front: &mut Front)
    requires { IsFront front.old }
    ensures front { IsFront front.new }
    ensures number { front.new.number ≡ (front.old.number + 1) % 2 ^ 64 }
    ensures form { front.new.form ≡ front.old.form }
{
    front.number = front.number.wrapping_add(1);
    if front.number % 10 == 0 {
        *front = front_of(front.number, front.form);
    }
}

/// Puts the front of a line.
#[inline(always)]
pub(crate) fn put_front(to: &mut [u8], at: usize, front: &Front) -> usize
    requires room { at + 32 ≤ length to.old }
    requires front { IsFront front.now }
    ensures text { take result to.new ≡ take at to.old ++ front_text front.now.form front.now.number }
    ensures end { result ≤ at + 23 }
{
    put_bytes(to, at, &front.text);
    let end = at + front.len;
    to[end - 2 - front.form.quoted as usize] = b'0' + (front.number % 10) as u8;
    end
}
