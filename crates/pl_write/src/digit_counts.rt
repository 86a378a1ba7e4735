//! How many decimal digits a number has.
ghost use Rattle.std.specs.Prelude.{◌≡◌, ◌<◌, ◌≤◌, length, decimal};

/// How many digits a number has.
#[inline]
pub(crate) fn digit_count(n: u64) -> usize
    ensures count { result ≡ length (decimal n) }
    ensures few { result ≤ 20 }
{
    n.max(1).ilog10() as usize + 1
}

/// How many digits a number below 10^8 has. Where the power of two at or below it has d digits, the table has
/// (d + 1) * 2^32 - 10^d: the number has one digit more exactly where it carries the sum to the next multiple of 2^32.
#[inline]
pub(crate) fn short_digit_count(n: u32) -> usize
    requires { n < 100000000 }
    ensures count { result ≡ length (decimal n) }
    ensures some { 1 ≤ result }
    ensures few { result ≤ 8 }
{
    const COUNTS: [u64; 27] = [
        0x1_ffff_fff6,
        0x1_ffff_fff6,
        0x1_ffff_fff6,
        0x1_ffff_fff6,
        0x2_ffff_ff9c,
        0x2_ffff_ff9c,
        0x2_ffff_ff9c,
        0x3_ffff_fc18,
        0x3_ffff_fc18,
        0x3_ffff_fc18,
        0x4_ffff_d8f0,
        0x4_ffff_d8f0,
        0x4_ffff_d8f0,
        0x4_ffff_d8f0,
        0x5_fffe_7960,
        0x5_fffe_7960,
        0x5_fffe_7960,
        0x6_fff0_bdc0,
        0x6_fff0_bdc0,
        0x6_fff0_bdc0,
        0x7_ff67_6980,
        0x7_ff67_6980,
        0x7_ff67_6980,
        0x7_ff67_6980,
        0x8_fa0a_1f00,
        0x8_fa0a_1f00,
        0x8_fa0a_1f00,
    ];
    ((u64::from(n) + COUNTS[n.max(1).ilog2() as usize]) >> 32) as usize
}
