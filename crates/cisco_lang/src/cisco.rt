ghost use Rattle.acl_packet.specs.Addresses.{covers};
ghost use Rattle.cisco_lang.specs.Documents.{IsSection, list_names};
ghost use Rattle.cisco_lang.specs.Texts.{section_rows};
ghost use Rattle.cisco_lang.specs.Walks.{section_outcome};

use crate::documents::Section;
use crate::lists_drafts::ListsDraft;
use crate::validity::{is_section, list_names_of};
use crate::walking::{items_of, walk};
use acl_packet::{Outcome, Packet};
use acl_rows::{Language, Rows, are_distinct_names};
use acl_text::{Memory, Out, PutFault};
use std::alloc::Global;

/// The language of Cisco IOS access lists, of IPv4 and of IPv6.
pub struct Cisco;

impl Language for Cisco {
    type Section = Section;

    type Draft = ListsDraft;

    ghost is_section = { IsSection };

    #[tactic(auto, using(crate::proofs::ValidityLaws::section_decides))]
    fn is_valid(_alloc: Global, section: &Section) -> Result<bool, Memory> {
        Ok(is_section(section))
    }

    ghost names = { list_names };

    fn have_distinct_names(alloc: Global, sections: &[Section]) -> Result<bool, Memory> {
        Ok(are_distinct_names(list_names_of(alloc, sections)?))
    }

    ghost rows = { section_rows };

    fn put_section<O: Out>(section: &Section, out: &mut O) -> Result<(), PutFault> {
        section.put_rows(out)
    }

    ghost has_family = { λ s family. covers s.families family };

    ghost outcome = { section_outcome };

    #[tactic(auto, unfolding(crate::specs::Walks::section_outcome))]
    fn outcome(section: &Section, packet: &Packet) -> Option<Outcome> {
        if section.families.covers(packet.family) {
            let items = items_of(packet.family, section.lists.as_slice());
            Some(walk(packet.family, items, packet))
        } else {
            None
        }
    }

    #[tactic(auto, using(crate::proofs::WalkLaws::decides_its_families))]
    fn a_section_decides_its_families() {}

    #[tactic(auto, using(crate::proofs::DocumentLaws::document_again))]
    fn a_document_is_read_again() {}
}
