ghost use Rattle.acl_packet.specs.Addresses.{covers};
ghost use Rattle.nft_lang.specs.Documents.{IsSection, table_names};
ghost use Rattle.nft_lang.specs.Texts.{section_rows};
ghost use Rattle.nft_lang.specs.Walks.{section_outcome};

use crate::documents::Section;
use crate::tables_drafts::TablesDraft;
use crate::validity::{is_section, numbers_of};
use crate::walking::walk;
use acl_packet::{Outcome, Packet};
use acl_rows::{Language, Rows, are_distinct};
use acl_text::{Memory, Out, PutFault};
use std::alloc::Global;

/// The language of nftables rules, as `nft -f` reads them.
pub struct Nftables;

impl Language for Nftables {
    type Section = Section;

    type Draft = TablesDraft;

    ghost is_section = { IsSection };

    #[tactic(auto, using(crate::proofs::ValidityLaws::section_decides))]
    fn is_valid(alloc: Global, section: &Section) -> Result<bool, Memory> {
        is_section(alloc, section)
    }

    ghost names = { table_names };

    #[tactic(auto, using(crate::proofs::ValidityLaws::numbers_decide))]
    fn have_distinct_names(alloc: Global, sections: &[Section]) -> Result<bool, Memory> {
        Ok(are_distinct(numbers_of(alloc, sections)?))
    }

    ghost rows = { section_rows };

    fn put_section<O: Out>(section: &Section, out: &mut O) -> Result<(), PutFault> {
        section.put_rows(out)
    }

    ghost has_family = { λ s family. covers s.families family };

    ghost outcome = { section_outcome };

    #[tactic(auto, unfolding(crate::specs::Walks::section_outcome))]
    fn outcome(section: &Section, packet: &Packet) -> Option<Outcome> {
        if section.families.covers(packet.family) {
            Some(walk(section.accept, section.items.as_slice(), packet))
        } else {
            None
        }
    }

    #[tactic(auto, using(crate::proofs::WalkLaws::decides_its_families))]
    fn a_section_decides_its_families() {}

    #[tactic(auto, using(crate::proofs::DocumentLaws::document_again))]
    fn a_document_is_read_again() {}
}
