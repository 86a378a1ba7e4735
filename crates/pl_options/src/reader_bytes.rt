//! The bytes of an input.
ghost use Rattle.std.specs.Prelude.{◌≡◌};
ghost use Rattle.pl_options.specs.ReaderBytes.{bytes_in};

/// The bytes of an input, from its first to its last.
#[derive(Debug, Drop)]
pub enum ReaderBytes<'a> {
    /// Lent by what has them.
    Borrowed(&'a [u8]),
    /// Read from what had them.
    Owned(Vec<u8>),
}

impl<'a> ReaderBytes<'a> {
    /// The bytes, without taking memory.
    pub fn bytes(&self) -> &[u8]
        ensures { result.now ≡ bytes_in self.now }
    {
        match self {
            ReaderBytes::Borrowed(bytes) => bytes,
            ReaderBytes::Owned(bytes) => bytes.as_slice(),
        }
    }
}
