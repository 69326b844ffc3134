ghost use Rattle.std.specs.Prelude.{◌≡◌, ◌≤◌, ◌↔◌, IsTrue};
ghost use Rattle.acl_packet.specs.Addresses.{IsPrefixOf, width_of};
ghost use Rattle.acl_rows.specs.PrefixCheckSteps.{is_addresses, is_aligned, is_prefix_of};
ghost use Rattle.acl_rows.specs.RuleParts.{IsAddresses};

use acl_packet::{Family, Prefix};

/// Whether it is a prefix of the family: its length is within the address, its first address is
/// one, and no bit behind the length is set.
#[tactic(auto, using(crate::proofs::DecisionLaws::prefix_decides))]
pub fn is_prefix_of(family: Family, prefix: &Prefix) -> bool
    ensures is { IsTrue result ↔ IsPrefixOf family prefix.now }
    ensures exact { result ≡ is_prefix_of family prefix.now }
{
    is_prefix(family, prefix)
}

/// Whether it is a prefix of the family, and not the one that holds all addresses.
#[tactic(auto, using(crate::proofs::DecisionLaws::addresses_decide))]
pub fn is_addresses(family: Family, prefix: &Prefix) -> bool
    ensures is { IsTrue result ↔ IsAddresses family prefix.now }
    ensures exact { result ≡ is_addresses family prefix.now }
{
    is_not_all(family, prefix)
}

fn is_not_all(family: Family, prefix: &Prefix) -> bool
    ensures { result ≡ is_addresses family prefix.now }
{
    is_prefix_of(family, prefix) && 1 <= prefix.len
}

fn is_prefix(family: Family, prefix: &Prefix) -> bool
    ensures { result ≡ is_prefix_of family prefix.now }
{
    if prefix.family != family || prefix.len > prefix.family.width() {
        return false;
    }
    prefix.first <= prefix.family.top_address() && is_aligned(prefix)
}

fn is_aligned(prefix: &Prefix) -> bool
    requires { prefix.now.len ≤ width_of prefix.now.family }
    ensures { result ≡ is_aligned prefix.now }
{
    let free = prefix.family.width() - prefix.len;
    if free == 128 {
        prefix.first == 0
    } else {
        prefix.first % 2u128.pow(u32::from(free)) == 0
    }
}
