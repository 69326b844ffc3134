ghost use Rattle.std.specs.Prelude.{◌≡◌};
ghost use Rattle.std.specs.Str.{bytes_eq};
ghost use Rattle.acl_target.specs.ClashSteps.{names_shared};
ghost use Rattle.acl_target.specs.Clashes.{
  is_mixed,
  ipv6_list,
  share_lists,
  common_family,
  clash_on,
  clash,
};

use crate::targets::{Kind, Target};
use acl_packet::Families;

fn is_mixed(families: Families) -> bool
    ensures { result ≡ is_mixed families }
{
    matches!(families, Families::Mixed)
}

/// Whether the text is the name of the IPv6 list of that target of both families.
fn is_ipv6_list(text: &[u8], name: &[u8]) -> bool
    ensures { result ≡ bytes_eq text.now (ipv6_list name.now) }
{
    text.starts_with(b"ipv6-") && &text[5..] == name
}

fn share_names(a: &[u8], a_mixed: bool, b: &[u8], b_mixed: bool) -> bool
    ensures { result ≡ names_shared a_mixed b_mixed a.now b.now }
{
    a == b || (b_mixed && is_ipv6_list(a, b)) || (a_mixed && is_ipv6_list(b, a))
}

#[tactic(auto, using(crate::proofs::SharedLists::shared_is), unfolding(crate::specs::Clashes::share_lists))]
fn share_lists(a: &Target, b: &Target) -> bool
    ensures { result ≡ share_lists a.now b.now }
{
    let a_mixed = is_mixed(a.families);
    let b_mixed = is_mixed(b.families);
    share_names(a.name.as_slice(), a_mixed, b.name.as_slice(), b_mixed)
}

fn common_family(a: Families, b: Families) -> bool
    ensures { result ≡ common_family a b }
{
    match a {
        Families::Inet => !matches!(b, Families::Inet6),
        Families::Inet6 => !matches!(b, Families::Inet),
        Families::Mixed => true,
    }
}

fn same_name(a: &Target, b: &Target) -> bool
    ensures { result ≡ bytes_eq a.now.name b.now.name }
{
    a.name.as_slice() == b.name.as_slice()
}

fn clash_on(kind: Kind, a: &Target, b: &Target) -> bool
    ensures { result ≡ clash_on kind a.now b.now }
{
    match kind {
        Kind::Cisco => share_lists(a, b),
        Kind::Juniper => a.families == b.families && same_name(a, b),
        Kind::Iptables => a.hook == b.hook && a.families == b.families,
        Kind::Nftables => a.hook == b.hook && common_family(a.families, b.families),
    }
}

/// Whether the two targets clash: whether their filters would have the same name on their platform.
#[tactic(auto, unfolding(crate::specs::Clashes::clash))]
pub fn clash(a: &Target, b: &Target) -> bool
    ensures { result ≡ clash a.now b.now }
{
    a.kind == b.kind && clash_on(a.kind, a, b)
}
