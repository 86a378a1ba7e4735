//! Texts for a terminal, into which nothing comes that could steer it.
ghost use Rattle.std.specs.Prelude.{◌≡◌, ◌≢◌, ◌<◌, ◌++◌, ◌∷◌, [], ◌/◌, ◌%◌, false, OnOk, length, decimal};
ghost use Rattle.std.specs.Char.{encode_utf8, digit_char};
ghost use Rattle.std.specs.List.{flat_map};
ghost use Rattle.pl_terminal.specs.Shown.{steers, escape, piece_text, shown, IsHarmless};

use bstr::decode_utf8;
use std::alloc::{AllocError, Global};
use std::marker::Model;

/// How many characters of a text of the input are shown.
pub const MOST_SHOWN: usize = 60;

/// Whether a character may steer a terminal: a control character, or one that changes the direction of a text, its lines or its joints.
pub fn steers(c: char) -> bool
    ensures { result ≡ steers c }
{
    matches!(
        c,
        '\0'..='\u{1f}'
            | '\u{7f}'..='\u{9f}'
            | '\u{61c}'
            | '\u{200b}'..='\u{200f}'
            | '\u{2028}'..='\u{202e}'
            | '\u{2060}'..='\u{206f}'
            | '\u{feff}'
    )
}

// The hexadecimal digit of a number.
fn hexadecimal_digit(number: u8) -> char
    requires { number < 16 }
    ensures digit { result ≡ digit_char number }
    ensures plain { steers result ≡ false }
{
    if number < 10 {
        (b'0' + number) as char
    } else {
        (b'a' + (number - 10)) as char
    }
}

/// A text for a terminal. Contracts see its bytes; no character of it may steer a terminal.
#[derive(Drop)]
pub struct Message {
    text: String,
}

impl Model for Message {
    ghost use Rattle.std.specs.Prelude.{ℕ, List, string_bytes};
    ghost use Rattle.pl_terminal.specs.Shown.{IsHarmless};

    ghost Value = { List ℕ };

    ghost view = { λ it. string_bytes it.text };

    ghost invariant = { λ it. IsHarmless (string_bytes it.text) };
}

impl Message {
    /// An empty text.
    pub fn new(alloc: Global) -> Self
        ensures { result ≡ [] }
    {
        Message {
            text: String::new(alloc),
        }
    }

    /// The text.
    pub fn as_str(&self) -> &str
        ensures text { result.now ≡ self.now }
        ensures harmless { IsHarmless result.now }
    {
        self.text.as_str()
    }

    // Puts a character that does not steer at the end.
    fn add_plain(&mut self, c: char) -> Result<(), AllocError>
        requires { steers c ≡ false }
        ensures added { OnOk result (self.new ≡ self.old ++ encode_utf8 c) }
    {
        self.text.push(c)
    }

    // Puts a byte at the end as it is written where it is not shown.
    fn add_escaped(&mut self, byte: u8) -> Result<(), AllocError>
        ensures added { OnOk result (self.new ≡ self.old ++ escape byte) }
    {
        self.add_plain('\\')?;
        self.add_plain('x')?;
        self.add_plain(hexadecimal_digit(byte / 16))?;
        self.add_plain(hexadecimal_digit(byte % 16))
    }

    // Puts bytes at the end as they are written where they are not shown.
    fn add_all_escaped(&mut self, bytes: &[u8]) -> Result<(), AllocError>
        ensures added { OnOk result (self.new ≡ self.old ++ flat_map escape bytes.now) }
    {
        for byte in bytes {
            self.add_escaped(*byte)?;
        }
        Ok(())
    }

    // Puts a piece of a text at the end: a character, where it is one, or else bytes that are none.
    fn add_piece(&mut self, c: Option<char>, piece: &[u8]) -> Result<(), AllocError>
        ensures added { OnOk result (self.new ≡ self.old ++ piece_text c piece.now) }
    {
        match c {
            Some(c) if !steers(c) => self.add_plain(c),
            _ => self.add_all_escaped(piece),
        }
    }

    /// Puts at the end what a terminal may show of bytes: up to so many characters, each that may steer it escaped, as are bytes that are no
    /// UTF-8, and three points where there are more. Refuses only want of memory.
    pub fn add_shown(&mut self, bytes: &[u8], most: usize) -> Result<(), AllocError>
        ensures added { OnOk result (self.new ≡ self.old ++ shown most bytes.now) }
    {
        let mut rest = bytes;
        for _turn in 0..most {
            if rest.is_empty() {
                return Ok(());
            }
            let (c, size) = decode_utf8(rest);
            let (piece, behind) = rest.split_at(size);
            self.add_piece(c, piece)?;
            rest = behind;
        }
        if rest.is_empty() {
            return Ok(());
        }
        self.add_points()
    }

    // Puts three points at the end.
    fn add_points(&mut self) -> Result<(), AllocError>
        ensures added { OnOk result (self.new ≡ self.old ++ 46 ∷ 46 ∷ 46 ∷ []) }
    {
        self.add_plain('.')?;
        self.add_plain('.')?;
        self.add_plain('.')
    }

    /// Puts a text at the end, as a terminal may show it. Refuses only want of memory.
    pub fn add(&mut self, text: &str) -> Result<(), AllocError>
        ensures added { OnOk result (self.new ≡ self.old ++ shown (length text.now) text.now) }
    {
        self.add_shown(text.as_bytes(), text.len())
    }

    /// Puts a number at the end. Refuses only want of memory.
    pub fn add_number(&mut self, number: usize) -> Result<(), AllocError>
        ensures added { OnOk result (self.new ≡ self.old ++ shown (length (decimal number)) (decimal number)) }
    {
        let mut digits = itoa::Buffer::new();
        self.add(digits.format(number))
    }
}
