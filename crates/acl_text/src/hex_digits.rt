ghost use Rattle.std.specs.Prelude.{◌≡◌, ◌<◌, ◌/◌, ◌%◌, ◌∷◌, [], IfSome};
ghost use Rattle.acl_text.specs.Fronts.{IsHexFront};
ghost use Rattle.acl_text.specs.Ipv6.{hex_digit, hex_value};

// The value of each byte that is a hexadecimal digit, and 255 of each other.
static VALUES: [u8; 256] = [
    255, 255, 255, 255, 255, 255, 255, 255, 255, 255, 255, 255, 255, 255, 255, 255, 255, 255, 255,
    255, 255, 255, 255, 255, 255, 255, 255, 255, 255, 255, 255, 255, 255, 255, 255, 255, 255, 255,
    255, 255, 255, 255, 255, 255, 255, 255, 255, 255, 0, 1, 2, 3, 4, 5, 6, 7, 8, 9, 255, 255, 255,
    255, 255, 255, 255, 10, 11, 12, 13, 14, 15, 255, 255, 255, 255, 255, 255, 255, 255, 255, 255,
    255, 255, 255, 255, 255, 255, 255, 255, 255, 255, 255, 255, 255, 255, 255, 255, 10, 11, 12, 13,
    14, 15, 255, 255, 255, 255, 255, 255, 255, 255, 255, 255, 255, 255, 255, 255, 255, 255, 255,
    255, 255, 255, 255, 255, 255, 255, 255, 255, 255, 255, 255, 255, 255, 255, 255, 255, 255, 255,
    255, 255, 255, 255, 255, 255, 255, 255, 255, 255, 255, 255, 255, 255, 255, 255, 255, 255, 255,
    255, 255, 255, 255, 255, 255, 255, 255, 255, 255, 255, 255, 255, 255, 255, 255, 255, 255, 255,
    255, 255, 255, 255, 255, 255, 255, 255, 255, 255, 255, 255, 255, 255, 255, 255, 255, 255, 255,
    255, 255, 255, 255, 255, 255, 255, 255, 255, 255, 255, 255, 255, 255, 255, 255, 255, 255, 255,
    255, 255, 255, 255, 255, 255, 255, 255, 255, 255, 255, 255, 255, 255, 255, 255, 255, 255, 255,
    255, 255, 255, 255, 255, 255, 255, 255, 255, 255, 255, 255, 255, 255, 255, 255, 255, 255, 255,
    255, 255, 255,
];

/// The value of a hexadecimal digit.
#[inline]
pub(crate) fn hex_value(c: u8) -> Option<u32>
    ensures exact { result ≡ hex_value c }
    ensures small { IfSome result (λ d. d < 16) }
{
    let value = VALUES[usize::from(c)];
    if value < 16 {
        Some(u32::from(value))
    } else {
        None
    }
}

/// The hexadecimal digit that the text begins with, and what stands behind it.
#[inline(always)]
pub(crate) fn hex_front(text: &[u8]) -> Option<(u32, &[u8])>
    ensures front { IfSome result (λ r. IsHexFront text.now r.1.now r.0) }
    ensures small { IfSome result (λ r. r.0 < 16) }
{
    let (byte, rest) = text.split_first()?;
    let value = VALUES[usize::from(*byte)];
    if value < 16 {
        Some((u32::from(value), rest))
    } else {
        None
    }
}

// The numbers from 0 to 255 in two hexadecimal digits each.
static PAIRS: [u8; 512] =
    *b"000102030405060708090a0b0c0d0e0f101112131415161718191a1b1c1d1e1f202122232425262728292a2b2c2d2e2f303132333435363738393a3b3c3d3e3f404142434445464748494a4b4c4d4e4f505152535455565758595a5b5c5d5e5f606162636465666768696a6b6c6d6e6f707172737475767778797a7b7c7d7e7f808182838485868788898a8b8c8d8e8f909192939495969798999a9b9c9d9e9fa0a1a2a3a4a5a6a7a8a9aaabacadaeafb0b1b2b3b4b5b6b7b8b9babbbcbdbebfc0c1c2c3c4c5c6c7c8c9cacbcccdcecfd0d1d2d3d4d5d6d7d8d9dadbdcdddedfe0e1e2e3e4e5e6e7e8e9eaebecedeeeff0f1f2f3f4f5f6f7f8f9fafbfcfdfeff";

/// The two hexadecimal digits of the number.
#[inline]
pub(crate) fn hex_pair(n: u8) -> &'static [u8]
    ensures { result.now ≡ hex_digit (n / 16) ∷ hex_digit (n % 16) ∷ [] }
{
    let from = 2 * usize::from(n);
    &PAIRS[from..from + 2]
}
