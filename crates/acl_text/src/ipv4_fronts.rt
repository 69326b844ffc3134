ghost use Rattle.std.specs.Prelude.{◌≡◌, ◌∷◌, IfSome};
ghost use Rattle.acl_packet.specs.declared.addresses.Family.TheVariants.{V4};
ghost use Rattle.acl_text.specs.Fronts.{IsAddressFront, IsByteFront, IsDigitFront};

// The digit that the text begins with, and what stands behind it.
#[inline(always)]
fn digit_front(text: &[u8]) -> Option<(u32, &[u8])>
    ensures { IfSome result (λ r. IsDigitFront text.now r.1.now r.0) }
{
    match text {
        [byte, rest @ ..] if byte.is_ascii_digit() => Some((u32::from(*byte - b'0'), rest)),
        _ => None,
    }
}

/// The number of a byte that the text begins with, and what stands behind it.
#[inline(always)]
#[tactic(auto, using(crate::proofs::FrontLaws::one_digit, crate::proofs::FrontLaws::two_digits, crate::proofs::FrontLaws::three_digits))]
pub(crate) fn byte_front(text: &[u8]) -> Option<(u32, &[u8])>
    ensures { IfSome result (λ r. IsByteFront text.now r.1.now r.0) }
{
    let (first, rest) = digit_front(text)?;
    if first == 0 {
        return Some((first, rest));
    }
    let Some((second, behind)) = digit_front(rest) else {
        return Some((first, rest));
    };
    let Some((third, end)) = digit_front(behind) else {
        return Some((first * 10 + second, behind));
    };
    let value = (first * 10 + second) * 10 + third;
    if value <= 255 {
        Some((value, end))
    } else {
        None
    }
}

/// What stands behind the byte, where the text begins with it.
pub(crate) fn behind_byte(text: &[u8], byte: u8) -> Option<&[u8]>
    ensures { IfSome result (λ rest. text.now ≡ byte ∷ rest.now) }
{
    match text {
        [first, rest @ ..] if *first == byte => Some(rest),
        _ => None,
    }
}

// The number of a byte that the text begins with, and what stands behind the `.` behind it.
#[inline(always)]
fn part_of(text: &[u8]) -> Option<(u32, &[u8])>
    ensures { IfSome result (λ r. IsByteFront text.now (46 ∷ r.1.now) r.0) }
{
    let (first, rest) = digit_front(text)?;
    if let Some(behind) = behind_byte(rest, b'.') {
        return Some((first, behind));
    }
    if first == 0 {
        return None;
    }
    let (second, rest) = digit_front(rest)?;
    if let Some(behind) = behind_byte(rest, b'.') {
        return Some((first * 10 + second, behind));
    }
    let (third, rest) = digit_front(rest)?;
    let value = (first * 10 + second) * 10 + third;
    if value > 255 {
        return None;
    }
    Some((value, behind_byte(rest, b'.')?))
}

// The same of a text that may end before the `.`.
#[cold]
#[inline(never)]
fn short_part(text: &[u8]) -> Option<(u32, &[u8])>
    ensures { IfSome result (λ r. IsByteFront text.now (46 ∷ r.1.now) r.0) }
{
    part_of(text)
}

// The same. Where the text is known to be long enough, its end is not looked for at each byte.
#[inline(always)]
fn part_front(text: &[u8]) -> Option<(u32, &[u8])>
    ensures { IfSome result (λ r. IsByteFront text.now (46 ∷ r.1.now) r.0) }
{
    if text.len() < 4 {
        short_part(text)
    } else {
        part_of(text)
    }
}

/// The IPv4 address that the text begins with, and what stands behind it.
pub(crate) fn ipv4_front(text: &[u8]) -> Option<(u32, &[u8])>
    ensures { IfSome result (λ r. IsAddressFront V4 text.now r.1.now r.0) }
{
    let (a, rest) = part_front(text)?;
    let (b, rest) = part_front(rest)?;
    let (c, rest) = part_front(rest)?;
    let (d, rest) = byte_front(rest)?;
    Some((((a * 256 + b) * 256 + c) * 256 + d, rest))
}
