ghost use Rattle.std.specs.Prelude.{◌≡◌, IfNone, IfOk, IfSome, List, Some, is_some};
ghost use Rattle.acl_packet.specs.Packets.{IsPacket};
ghost use Rattle.acl_rows.specs.Documents.{has_family_at};
ghost use Rattle.std_lang.specs.declared.documents.Section.{Section as ASection};
ghost use Rattle.std_lang.specs.Documents.{IsSection, list_names};
ghost use Rattle.std_lang.specs.Texts.{Spells, section_rows};
ghost use Rattle.std_lang.specs.Walks.{has_family, outcome_of, section_outcome};

use crate::documents::{Doc, Section};
use crate::drafts::NumberedDraft;
use crate::validity::{is_section, numbers_of};
use crate::walking::walk;
use acl_packet::{Family, Outcome, Packet};
use acl_rows::{Language, Rows, are_distinct, outcome as outcome_in, read_document};
use acl_text::{Memory, Out, PutFault};
use std::alloc::Global;

/// The language of standard access lists of Cisco IOS.
pub struct Standard;

impl Language for Standard {
    type Section = Section;

    type Draft = NumberedDraft;

    ghost is_section = { IsSection };

    #[tactic(auto, using(crate::proofs::ValidityLaws::section_decides))]
    fn is_valid(_alloc: Global, section: &Section) -> Result<bool, Memory> {
        Ok(is_section(section))
    }

    ghost names = { list_names };

    #[tactic(auto, using(crate::proofs::ValidityLaws::numbers_decide))]
    fn have_distinct_names(alloc: Global, sections: &[Section]) -> Result<bool, Memory> {
        Ok(are_distinct(numbers_of(alloc, sections)?))
    }

    ghost rows = { section_rows };

    fn put_section<O: Out>(section: &Section, out: &mut O) -> Result<(), PutFault> {
        section.put_rows(out)
    }

    ghost has_family = { has_family };

    ghost outcome = { section_outcome };

    #[tactic(auto, unfolding(crate::specs::Walks::section_outcome))]
    fn outcome(section: &Section, packet: &Packet) -> Option<Outcome> {
        if packet.family == Family::V4 {
            Some(walk(section.items.as_slice(), packet))
        } else {
            None
        }
    }

    #[tactic(auto, using(crate::proofs::WalkLaws::decides_its_family))]
    fn a_section_decides_its_families() {}

    #[tactic(auto, using(crate::proofs::DocumentLaws::document_again))]
    fn a_document_is_read_again() {}
}

/// The document that the bytes spell: `Some` exactly where they spell one, and `None` exactly where they
/// spell none. The bytes spell a document where it is valid and they are its text.
pub fn read(alloc: Global, bytes: &[u8]) -> Result<Option<Doc>, Memory>
    ensures some { IfOk result (λ o. IfSome o (Spells bytes.now)) }
    ensures each { IfOk result (λ o. (doc : List ASection) → Spells bytes.now doc → o ≡ Some doc) }
    ensures none { IfOk result (λ o. IfNone o ((doc : List ASection) → Spells bytes.now doc → ⊥)) }
{
    read_document::<Standard>(alloc, bytes)
}

/// What the section at that place, counted from 0, does to the packet. `None` exactly where there is
/// no such section, or the packet is not of IPv4.
pub fn outcome(doc: &Doc, which: usize, packet: &Packet) -> Option<Outcome>
    requires { IsPacket packet.now }
    ensures told { result ≡ outcome_of doc.now which packet.now }
    ensures some { is_some result ≡ has_family_at has_family doc.now which packet.now.family }
{
    outcome_in::<Standard>(doc, which, packet)
}
