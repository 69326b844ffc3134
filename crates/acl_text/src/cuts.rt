ghost use Rattle.std.specs.Prelude.{◌≡◌, option_map};
ghost use Rattle.acl_text.specs.Cuts.{ahead, behind, cut_at, has_byte};

/// The bytes before the first such byte, and those behind it.
pub fn split_at_byte(bytes: &[u8], byte: u8) -> Option<(&[u8], &[u8])>
    ensures { option_map (λ p. (p.0.now, p.1.now)) result ≡ cut_at byte bytes.now }
{
    for (i, b) in bytes.iter().enumerate() {
        if *b == byte {
            return Some((&bytes[..i], &bytes[i + 1..]));
        }
    }
    None
}

/// Whether the byte stands in the text.
pub fn contains_byte(bytes: &[u8], byte: u8) -> bool
    ensures { result ≡ has_byte byte bytes.now }
{
    bytes.iter().any(|b| *b == byte)
}

/// What stands behind the front, where the text begins with it.
#[tactic(auto, unfolding(crate::specs::Cuts::behind))]
pub fn behind<'a>(text: &'a [u8], front: &[u8]) -> Option<&'a [u8]>
    ensures { option_map (λ x. x.now) result ≡ behind front.now text.now }
{
    text.strip_prefix(front)
}

/// What stands ahead of the end, where the text ends in it.
#[tactic(auto, unfolding(crate::specs::Cuts::ahead))]
pub fn ahead<'a>(text: &'a [u8], end: &[u8]) -> Option<&'a [u8]>
    ensures { option_map (λ x. x.now) result ≡ ahead end.now text.now }
{
    text.strip_suffix(end)
}
