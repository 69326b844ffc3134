ghost use Rattle.std.specs.Prelude.{◌≡◌, ℤ, IfNone, IfSome};
ghost use Rattle.acl_text.specs.SignedNumbers.{
  IsSignedWord,
  below_zero_in,
  from_zero_in,
  signed_in,
};

use acl_packet::read_u16;

/// The whole number that the word spells: 0 to `above`, or `-` and 1 to `below`.
#[tactic(auto, using(crate::proofs::SignedLaws::signed_some, crate::proofs::SignedLaws::signed_none))]
pub fn read_signed(word: &[u8], below: u16, above: u16) -> Option<i32>
    ensures some { IfSome result (λ z. IsSignedWord below above word.now z) }
    ensures none { IfNone result ((z : ℤ) → IsSignedWord below above word.now z → ⊥) }
    ensures exact { result ≡ signed_in below above word.now }
{
    signed_of(word, below, above)
}

fn signed_of(word: &[u8], below: u16, above: u16) -> Option<i32>
    ensures { result ≡ signed_in below above word.now }
{
    match word {
        [] => None,
        [b'-', digits @ ..] => below_zero(digits, below),
        [_, ..] => from_zero(word, above),
    }
}

fn below_zero(digits: &[u8], below: u16) -> Option<i32>
    ensures { result ≡ below_zero_in below digits.now }
{
    let number = read_u16(digits, below)?;
    if number == 0 {
        return None;
    }
    Some(-i32::from(number))
}

fn from_zero(word: &[u8], above: u16) -> Option<i32>
    ensures { result ≡ from_zero_in above word.now }
{
    let number = read_u16(word, above)?;
    Some(i32::from(number))
}
