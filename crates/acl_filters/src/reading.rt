ghost use Rattle.std.specs.Prelude.{◌≡◌, IfOk, List, None, Some, length};
ghost use Rattle.acl_packet.specs.Packets.{IsPacket};
ghost use Rattle.acl_rows.specs.Documents.{SpellsRows, outcome_at};
ghost use Rattle.acl_filters.specs.PlatformLanguages.{SectionOn, SpellsOn, outcome_on};

use acl_packet::{Outcome, Packet};
use acl_rows::{Language, outcome as outcome_of, read_document, sections as sections_of};
use acl_target::Kind;
use acl_text::Memory;
use cisco_lang::Cisco;
use ipt_lang::Iptables;
use junos_lang::Junos;
use nft_lang::Nftables;
use std::alloc::Global;

/// The number of sections of the document that the text spells in the platform's language: `None`
/// exactly where it spells none.
pub fn sections(alloc: Global, kind: Kind, text: &[u8]) -> Result<Option<usize>, Memory>
    ensures each { IfOk result (λ o. (doc : List (SectionOn kind)) → SpellsOn kind text.now doc
        → o ≡ Some (length doc)) }
    ensures none { IfOk result (λ o. ((doc : List (SectionOn kind)) → SpellsOn kind text.now doc → ⊥)
        → o ≡ None) }
{
    match kind {
        Kind::Cisco => sections_in::<Cisco>(alloc, text),
        Kind::Juniper => sections_in::<Junos>(alloc, text),
        Kind::Iptables => sections_in::<Iptables>(alloc, text),
        Kind::Nftables => sections_in::<Nftables>(alloc, text),
    }
}

fn sections_in<L: Language>(alloc: Global, text: &[u8]) -> Result<Option<usize>, Memory>
    ensures each { IfOk result (λ o. (doc : List L.Section)
        → SpellsRows L.is_section L.names L.rows text.now doc → o ≡ Some (length doc)) }
    ensures none { IfOk result (λ o. ((doc : List L.Section)
        → SpellsRows L.is_section L.names L.rows text.now doc → ⊥) → o ≡ None) }
{
    match read_document::<L>(alloc, text)? {
        Some(doc) => Ok(Some(sections_of(&doc))),
        None => Ok(None),
    }
}

/// What the section at that place, counted from 0, of the text's document does to the packet. `None`
/// where the text spells no document of the platform's language, there is no such section, or the
/// packet's family is none of the section's.
pub fn outcome(
    alloc: Global,
    kind: Kind,
    text: &[u8],
    which: usize,
    packet: &Packet,
) -> Result<Option<Outcome>, Memory>
    requires { IsPacket packet.now }
    ensures each { IfOk result (λ o. (doc : List (SectionOn kind)) → SpellsOn kind text.now doc
        → o ≡ outcome_on kind doc which packet.now) }
    ensures none { IfOk result (λ o. ((doc : List (SectionOn kind)) → SpellsOn kind text.now doc → ⊥)
        → o ≡ None) }
{
    match kind {
        Kind::Cisco => outcome_in::<Cisco>(alloc, text, which, packet),
        Kind::Juniper => outcome_in::<Junos>(alloc, text, which, packet),
        Kind::Iptables => outcome_in::<Iptables>(alloc, text, which, packet),
        Kind::Nftables => outcome_in::<Nftables>(alloc, text, which, packet),
    }
}

fn outcome_in<L: Language>(
    alloc: Global,
    text: &[u8],
    which: usize,
    packet: &Packet,
) -> Result<Option<Outcome>, Memory>
    requires { IsPacket packet.now }
    ensures each { IfOk result (λ o. (doc : List L.Section)
        → SpellsRows L.is_section L.names L.rows text.now doc
        → o ≡ outcome_at L.outcome doc which packet.now) }
    ensures none { IfOk result (λ o. ((doc : List L.Section)
        → SpellsRows L.is_section L.names L.rows text.now doc → ⊥) → o ≡ None) }
{
    match read_document::<L>(alloc, text)? {
        Some(doc) => Ok(outcome_of::<L>(&doc, which, packet)),
        None => Ok(None),
    }
}
