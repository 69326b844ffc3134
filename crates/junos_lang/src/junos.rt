ghost use Rattle.acl_packet.specs.Addresses.{same_family};
ghost use Rattle.junos_lang.specs.Documents.{IsSection, filter_names};
ghost use Rattle.junos_lang.specs.Texts.{section_rows};
ghost use Rattle.junos_lang.specs.Walks.{section_outcome};

use crate::documents::Section;
use crate::filters_drafts::FiltersDraft;
use crate::validity::{have_distinct_filters, is_section};
use crate::walking::walk;
use acl_packet::{Outcome, Packet};
use acl_rows::{Language, Rows};
use acl_text::{Memory, Out, PutFault};
use std::alloc::Global;

/// The language of Junos firewall filters.
pub struct Junos;

impl Language for Junos {
    type Section = Section;

    type Draft = FiltersDraft;

    ghost is_section = { IsSection };

    #[tactic(auto, using(crate::proofs::ValidityLaws::section_decides))]
    fn is_valid(alloc: Global, section: &Section) -> Result<bool, Memory> {
        is_section(alloc, section)
    }

    ghost names = { filter_names };

    #[tactic(auto, using(crate::proofs::ValidityLaws::filter_names_decide))]
    fn have_distinct_names(alloc: Global, sections: &[Section]) -> Result<bool, Memory> {
        have_distinct_filters(alloc, sections)
    }

    ghost rows = { section_rows };

    fn put_section<O: Out>(section: &Section, out: &mut O) -> Result<(), PutFault> {
        section.put_rows(out)
    }

    ghost has_family = { λ s family. same_family s.family family };

    ghost outcome = { section_outcome };

    fn outcome(section: &Section, packet: &Packet) -> Option<Outcome> {
        if section.family == packet.family {
            Some(walk(section.terms.as_slice(), packet))
        } else {
            None
        }
    }

    #[tactic(auto, using(crate::proofs::WalkLaws::decides_its_families))]
    fn a_section_decides_its_families() {}

    #[tactic(auto, using(crate::proofs::DocumentLaws::document_again))]
    fn a_document_is_read_again() {}
}
