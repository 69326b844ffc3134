ghost use Rattle.std.specs.Prelude.{◌≡◌, [], ◌∷◌, IsTrue, codes};
ghost use Rattle.acl_text.specs.Output.{joined};
ghost use Rattle.acl_text.specs.Puts.{Puts};
ghost use Rattle.acl_target.specs.TargetTexts.{kind_text, inet_text, families_text, target_text};

use crate::targets::{Kind, Target};
use acl_packet::Families;
use acl_text::{Out, PutFault, put_pieces};

/// The word of a target line that names the platform, and of `platform::`.
pub fn kind_text(kind: Kind) -> &'static [u8]
    ensures { result.now ≡ kind_text kind }
{
    match kind {
        Kind::Cisco => b"cisco",
        Kind::Juniper => b"juniper",
        Kind::Iptables => b"iptables",
        Kind::Nftables => b"nftables",
    }
}

fn inet_text(kind: Kind) -> &'static [u8]
    ensures { result.now ≡ inet_text kind }
{
    match kind {
        Kind::Cisco => b"extended",
        _ => b"inet",
    }
}

fn families_text(kind: Kind, families: Families) -> &'static [u8]
    ensures { result.now ≡ families_text kind families }
{
    match families {
        Families::Inet => inet_text(kind),
        Families::Inet6 => b"inet6",
        Families::Mixed => b"mixed",
    }
}

fn put_words<'a, O: Out>(
    out: &mut O,
    kind: &'a [u8],
    name: &'a [u8],
    families: &'a [u8],
) -> Result<(), PutFault>
    requires { IsTrue (O.is_open out.old) }
    ensures { Puts O.Out out.old out.new
        (joined (kind.now ∷ codes " " ∷ name.now ∷ codes " " ∷ families.now ∷ [])) result }
{
    put_pieces(out, &[kind, b" ", name, b" ", families])
}

/// Puts the target's text: its platform, its name and its families.
#[tactic(auto, unfolding(crate::specs::TargetTexts::target_text))]
pub fn put_target<O: Out>(out: &mut O, target: &Target) -> Result<(), PutFault>
    requires { IsTrue (O.is_open out.old) }
    ensures { Puts O.Out out.old out.new (target_text target.now) result }
{
    let kind = kind_text(target.kind);
    let families = families_text(target.kind, target.families);
    put_words(out, kind, target.name.as_slice(), families)
}
