ghost use Rattle.std.specs.Prelude.{◌≡◌};
ghost use Rattle.acl_rows.specs.FamilyWords.{families_in, family_in};

use acl_packet::{Families, Family};

/// The family of a header's word. Any word but `inet6` is read as IPv4's.
#[tactic(auto, unfolding(crate::specs::FamilyWords::family_in))]
pub fn family_named(word: &[u8]) -> Family
    ensures { result ≡ family_in word.now }
{
    if word == b"inet6".as_slice() {
        Family::V6
    } else {
        Family::V4
    }
}

/// The families of a header's word. Any word but `inet6` and `mixed` is read as IPv4's.
#[tactic(auto, unfolding(crate::specs::FamilyWords::families_in))]
pub fn families_of(word: &[u8]) -> Families
    ensures { result ≡ families_in word.now }
{
    if word == b"inet6".as_slice() {
        Families::Inet6
    } else if word == b"mixed".as_slice() {
        Families::Mixed
    } else {
        Families::Inet
    }
}
