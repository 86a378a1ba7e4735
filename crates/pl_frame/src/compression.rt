//! Marks of compressed streams.
ghost use Rattle.std.specs.Prelude.{◌≡◌};
ghost use Rattle.pl_frame.specs.Compression.{is_compressed};

/// Whether bytes begin with the mark of a compressed stream: of gzip, zlib or zstd.
pub fn is_compressed(bytes: &[u8]) -> bool
    ensures { result ≡ is_compressed bytes.now }
{
    bytes.starts_with(&[0x1F, 0x8B])
        || bytes.starts_with(&[0x78, 0x01])
        || bytes.starts_with(&[0x78, 0x9C])
        || bytes.starts_with(&[0x78, 0xDA])
        || bytes.starts_with(&[0x28, 0xB5, 0x2F, 0xFD])
}
