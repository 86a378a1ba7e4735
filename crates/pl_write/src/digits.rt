//! Numbers in a fixed number of decimal digits.
ghost use Rattle.std.specs.Prelude.{◌≡◌, ◌+◌, ◌<◌};
ghost use Rattle.pl_text.specs.ValueText.{padded};

// The digit for a number below 10.
#[inline]
fn digit(n: u32) -> u8
    requires { n < 10 }
    ensures { result ≡ 48 + n }
{
    b'0' + n as u8
}

/// A number below 1000 in three digits.
#[inline]
pub(crate) fn three_digits(n: u32) -> [u8; 3]
    requires { n < 1000 }
    ensures { result ≡ padded 3 n }
{
    [digit(n / 100), digit(n / 10 % 10), digit(n % 10)]
}

/// A number below a thousand million in nine digits.
#[inline]
pub(crate) fn nine_digits(n: u32) -> [u8; 9]
    requires { n < 1000000000 }
    ensures { result ≡ padded 9 n }
{
    let [a, b, c] = three_digits(n / 1_000_000);
    let [d, e, f] = three_digits(n / 1000 % 1000);
    let [g, h, i] = three_digits(n % 1000);
    [a, b, c, d, e, f, g, h, i]
}
