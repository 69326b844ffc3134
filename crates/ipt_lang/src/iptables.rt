ghost use Rattle.acl_packet.specs.Addresses.{same_family};
ghost use Rattle.ipt_lang.specs.Documents.{IsSection, hook_names};
ghost use Rattle.ipt_lang.specs.Texts.{section_rows};
ghost use Rattle.ipt_lang.specs.Walks.{section_outcome};

use crate::chains_drafts::ChainsDraft;
use crate::documents::Section;
use crate::validity::is_section;
use crate::walking::walk;
use acl_packet::{Outcome, Packet};
use acl_rows::{Language, Rows, have_distinct_names};
use acl_text::{Memory, Out, PutFault};
use std::alloc::Global;

/// The language of arguments of iptables and ip6tables.
pub struct Iptables;

impl Language for Iptables {
    type Section = Section;

    type Draft = ChainsDraft;

    ghost is_section = { IsSection };

    #[tactic(auto, using(crate::proofs::ValidityLaws::section_decides))]
    fn is_valid(alloc: Global, section: &Section) -> Result<bool, Memory> {
        is_section(alloc, section)
    }

    ghost names = { hook_names };

    #[tactic(auto, using(crate::proofs::ValidityLaws::hook_names_decide))]
    fn have_distinct_names(alloc: Global, sections: &[Section]) -> Result<bool, Memory> {
        have_distinct_names(alloc, sections)
    }

    ghost rows = { section_rows };

    fn put_section<O: Out>(section: &Section, out: &mut O) -> Result<(), PutFault> {
        section.put_rows(out)
    }

    ghost has_family = { λ s family. same_family s.family family };

    ghost outcome = { section_outcome };

    fn outcome(section: &Section, packet: &Packet) -> Option<Outcome> {
        if section.family == packet.family {
            Some(walk(section.accept, section.chains.as_slice(), packet))
        } else {
            None
        }
    }

    #[tactic(auto, using(crate::proofs::WalkLaws::decides_its_families))]
    fn a_section_decides_its_families() {}

    #[tactic(auto, using(crate::proofs::DocumentLaws::document_again))]
    fn a_document_is_read_again() {}
}
