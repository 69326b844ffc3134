ghost use Rattle.std.specs.Prelude.{◌≡◌, ℕ, ◌≤◌, ◌<◌, IfSome, IfNone};
ghost use Rattle.acl_packet.specs.Decimals.{IsNumber, digits_in, has_front, number_in};

/// The number that the word spells, where it is at most `max`.
///
/// A number is `0`, or decimal digits of which the first is not `0`.
#[tactic(auto, using(crate::proofs::DecimalLaws::number_some, crate::proofs::DecimalLaws::number_none))]
pub fn read_number(word: &[u8], max: u128) -> Option<u128>
    ensures some { IfSome result (λ n. IsNumber word.now n × (n ≤ max)) }
    ensures none { IfNone result ((n : ℕ) → IsNumber word.now n → n ≤ max → ⊥) }
    ensures exact { result ≡ number_in max word.now }
{
    number_of(word, max)
}

/// The number that the word spells, where it is at most `max`, as one of 8 bits.
#[tactic(auto, using(crate::proofs::DecimalLaws::number_some, crate::proofs::DecimalLaws::number_none))]
pub fn read_u8(word: &[u8], max: u8) -> Option<u8>
    ensures some { IfSome result (λ n. IsNumber word.now n × (n ≤ max)) }
    ensures none { IfNone result ((n : ℕ) → IsNumber word.now n → n ≤ max → ⊥) }
    ensures exact { result ≡ number_in max word.now }
{
    small_number(word, max)
}

/// The number that the word spells, where it is at most `max`, as one of 16 bits.
#[tactic(auto, using(crate::proofs::DecimalLaws::number_some, crate::proofs::DecimalLaws::number_none))]
pub fn read_u16(word: &[u8], max: u16) -> Option<u16>
    ensures some { IfSome result (λ n. IsNumber word.now n × (n ≤ max)) }
    ensures none { IfNone result ((n : ℕ) → IsNumber word.now n → n ≤ max → ⊥) }
    ensures exact { result ≡ number_in max word.now }
{
    short_number(word, max)
}

fn small_number(word: &[u8], max: u8) -> Option<u8>
    ensures { result ≡ number_in max word.now }
{
    let number = read_number(word, u128::from(max))?;
    Some(number as u8)
}

fn short_number(word: &[u8], max: u16) -> Option<u16>
    ensures { result ≡ number_in max word.now }
{
    let number = read_number(word, u128::from(max))?;
    Some(number as u16)
}

#[tactic(auto, unfolding(crate::specs::Decimals::number_in))]
fn number_of(word: &[u8], max: u128) -> Option<u128>
    ensures { result ≡ number_in max word.now }
{
    if has_front(word) {
        digits_at_most(word, max)
    } else {
        None
    }
}

// A small limit needs no wide numbers.
fn digits_at_most(word: &[u8], max: u128) -> Option<u128>
    ensures { result ≡ digits_in max 0 word.now }
{
    if max < 4_294_967_296 {
        let number = short_digits(word, max as u64)?;
        Some(u128::from(number))
    } else {
        digits_of(word, max)
    }
}

#[tactic(auto, unfolding(crate::specs::Decimals::digits_in))]
fn short_digits(word: &[u8], max: u64) -> Option<u64>
    requires { max < 4294967296 }
    ensures { result ≡ digits_in max 0 word.now }
{
    let mut value: u64 = 0;
    for c in word {
        if !c.is_ascii_digit() {
            return None;
        }
        let next = value * 10 + u64::from(*c - b'0');
        if next > max {
            return None;
        }
        value = next;
    }
    Some(value)
}

fn has_front(word: &[u8]) -> bool
    ensures { result ≡ has_front word.now }
{
    !word.is_empty() && (word[0] != b'0' || word.len() == 1)
}

#[tactic(auto, unfolding(crate::specs::Decimals::digits_in))]
fn digits_of(word: &[u8], max: u128) -> Option<u128>
    ensures { result ≡ digits_in max 0 word.now }
{
    let mut value: u128 = 0;
    for c in word {
        if !c.is_ascii_digit() {
            return None;
        }
        let digit = u128::from(*c - b'0');
        if digit > max || value > (max - digit) / 10 {
            return None;
        }
        value = value * 10 + digit;
    }
    Some(value)
}
