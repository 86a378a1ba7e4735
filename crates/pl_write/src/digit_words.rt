//! Eight decimal digits in one word, whose lowest byte is the first of them.
ghost use Rattle.std.specs.Prelude.{◌≡◌, ◌+◌, ◌-◌, ◌*◌, ◌/◌, ◌%◌, ◌^◌, ◌<◌, take, drop};
ghost use Rattle.std.specs.Int.{w64, to_le_bytes};
ghost use Rattle.pl_text.specs.ValueText.{padded};

// The two digits of a number below 100, the first of them in the low byte.
#[inline]
fn pair(n: u32) -> u64
    requires { n < 100 }
    ensures { result ≡ (48 + n / 10) + 256 * (48 + n % 10) }
{
    const PAIRS: [u16; 100] = [
        0x3030, 0x3130, 0x3230, 0x3330, 0x3430, 0x3530, 0x3630, 0x3730, 0x3830, 0x3930, 0x3031,
        0x3131, 0x3231, 0x3331, 0x3431, 0x3531, 0x3631, 0x3731, 0x3831, 0x3931, 0x3032, 0x3132,
        0x3232, 0x3332, 0x3432, 0x3532, 0x3632, 0x3732, 0x3832, 0x3932, 0x3033, 0x3133, 0x3233,
        0x3333, 0x3433, 0x3533, 0x3633, 0x3733, 0x3833, 0x3933, 0x3034, 0x3134, 0x3234, 0x3334,
        0x3434, 0x3534, 0x3634, 0x3734, 0x3834, 0x3934, 0x3035, 0x3135, 0x3235, 0x3335, 0x3435,
        0x3535, 0x3635, 0x3735, 0x3835, 0x3935, 0x3036, 0x3136, 0x3236, 0x3336, 0x3436, 0x3536,
        0x3636, 0x3736, 0x3836, 0x3936, 0x3037, 0x3137, 0x3237, 0x3337, 0x3437, 0x3537, 0x3637,
        0x3737, 0x3837, 0x3937, 0x3038, 0x3138, 0x3238, 0x3338, 0x3438, 0x3538, 0x3638, 0x3738,
        0x3838, 0x3938, 0x3039, 0x3139, 0x3239, 0x3339, 0x3439, 0x3539, 0x3639, 0x3739, 0x3839,
        0x3939,
    ];
    u64::from(PAIRS[n as usize])
}

/// The two digits of a number below 100, in front of eight bytes.
#[inline]
pub(crate) fn two_digits(n: u32) -> [u8; 8]
    requires { n < 100 }
    ensures { take 2 result ≡ padded 2 n }
{
    pair(n).to_le_bytes()
}

/// The eight digits of a number below 10^8, zeros in front among them.
#[inline]
pub(crate) fn eight_digits(n: u32) -> u64
    requires { n < 100000000 }
    ensures { to_le_bytes w64 result ≡ padded 8 n }
{
    let (high, low) = (n / 10_000, n % 10_000);
    pair(high / 100)
        + pair(high % 100) * 0x1_0000
        + pair(low / 100) * 0x1_0000_0000
        + pair(low % 100) * 0x1_0000_0000_0000
}

/// The bytes of a word from a place on, in front.
#[inline]
pub(crate) fn bytes_from(word: u64, place: usize) -> [u8; 8]
    requires { place < 8 }
    ensures { take (8 - place) result ≡ drop place (to_le_bytes w64 word) }
{
    (word >> (8 * place)).to_le_bytes()
}
