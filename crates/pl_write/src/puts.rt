//! Bytes put into a block from a place on. Each call answers the place behind them. A few bytes go there by one copy of
//! fixed size, of which only the first count.
ghost use Rattle.std.specs.Prelude.{◌≡◌, ◌++◌, ◌∷◌, [], ◌+◌, ◌≤◌, ◌<◌, length, take, if◌then◌else◌};

/// Puts a byte.
#[inline(always)]
pub fn put_byte(to: &mut [u8], at: usize, byte: u8) -> usize
    requires room { at < length to.old }
    ensures text { take result to.new ≡ take at to.old ++ byte ∷ [] }
    ensures end { result ≡ at + 1 }
{
    to[at] = byte;
    at + 1
}

/// Puts a byte where it is wanted, without a branch.
#[inline(always)]
pub fn put_byte_if(to: &mut [u8], at: usize, byte: u8, wanted: bool) -> usize
    requires room { at < length to.old }
    ensures text { take result to.new ≡ take at to.old ++ (if wanted then byte ∷ [] else []) }
    ensures end { result ≤ at + 1 }
{
    to[at] = byte;
    at + usize::from(wanted)
}

/// Puts the first bytes of eight.
#[inline(always)]
pub fn put_front(to: &mut [u8], at: usize, bytes: [u8; 8], count: usize) -> usize
    requires room { at + 8 ≤ length to.old }
    requires few { count ≤ 8 }
    ensures text { take result to.new ≡ take at to.old ++ take count bytes }
    ensures end { result ≡ at + count }
{
    put_bytes(to, at, &bytes);
    at + count
}

/// Puts bytes.
#[inline(always)]
pub fn put_bytes(to: &mut [u8], at: usize, bytes: &[u8]) -> usize
    requires room { at + length bytes.now ≤ length to.old }
    ensures text { take result to.new ≡ take at to.old ++ bytes.now }
    ensures end { result ≡ at + length bytes.now }
{
    let end = at + bytes.len();
    to[at..end].copy_from_slice(bytes);
    end
}
