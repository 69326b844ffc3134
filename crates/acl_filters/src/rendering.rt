ghost use Rattle.std.specs.Prelude.{IsTrue};
ghost use Rattle.std.specs.List.{All};
ghost use Rattle.acl_text.specs.Puts.{Puts};
ghost use Rattle.acl_platform.specs.Platforms.{DecidesAs};
ghost use Rattle.acl_filters.specs.PlatformLanguages.{IsTextFor};
ghost use Rattle.acl_filters.specs.PlatformFiles.{AreApart, IsTaken, text_on};

use acl_platform::{Filter, write_all};
use acl_target::Kind;
use acl_text::{Out, PutFault};
use gen_cisco::Cisco;
use gen_iptables::Iptables;
use gen_junos::Junos;
use gen_nftables::Nftables;
use std::alloc::Global;

/// Puts the text of the platform's file: the one document whose sections are those of the filters, in order.
///
/// The platform's language accepts the text as one document with a section for each filter, in order, and
/// the section at a place decides the packets of its filter's families as that filter does.
pub fn render<O: Out>(
    alloc: Global,
    kind: Kind,
    filters: &[Filter],
    out: &mut O,
) -> Result<(), PutFault>
    requires open { IsTrue (O.is_open out.old) }
    requires taken { All (IsTaken kind) filters.now }
    requires apart { AreApart filters.now }
    ensures puts { Puts O.Out out.old out.new (text_on kind filters.now) result }
    ensures meant { IsTextFor kind DecidesAs filters.now (text_on kind filters.now) }
{
    match kind {
        Kind::Cisco => write_all(alloc, &Cisco, filters, out),
        Kind::Juniper => write_all(alloc, &Junos, filters, out),
        Kind::Iptables => write_all(alloc, &Iptables, filters, out),
        Kind::Nftables => write_all(alloc, &Nftables, filters, out),
    }
}
