//! Whether bytes are UTF-8, and what a reader does where they are not.
ghost use Rattle.std.specs.Prelude.{◌≡◌};
ghost use Rattle.std.specs.Str.{is_utf8};

/// What is done with bytes of a `String` column that are not UTF-8. Of categories and enums they are a fault under either.
#[derive(Clone, Copy, Debug, Default, PartialEq, Eq)]
pub enum CsvEncoding {
    /// They are a fault.
    #[default]
    Utf8,
    /// They are replaced, as std's lossy reading does.
    LossyUtf8,
}

/// Whether bytes are UTF-8. Takes no memory.
#[inline]
pub fn validate_utf8(bytes: &[u8]) -> bool
    ensures { result ≡ is_utf8 bytes.now }
{
    match simdutf8::basic::from_utf8(bytes) {
        Ok(_) => true,
        Err(_) => false,
    }
}
