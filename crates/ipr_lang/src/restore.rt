ghost use Rattle.std.specs.Prelude.{◌≡◌, IfNone, IfOk, IfSome, List, Some};
ghost use Rattle.acl_packet.specs.Addresses.{same_family};
ghost use Rattle.ipt_lang.specs.declared.documents.Section.{Section as ASection};
ghost use Rattle.ipt_lang.specs.Documents.{hook_names};
ghost use Rattle.ipt_lang.specs.Walks.{section_outcome};
ghost use Rattle.ipr_lang.specs.Documents.{IsSection};
ghost use Rattle.ipr_lang.specs.Texts.{Spells, section_rows};

use crate::drafts::RestoreDraft;
use crate::restore_rows::Restored;
use acl_packet::{Outcome, Packet};
use acl_rows::{Language, Rows, read_document};
use acl_text::{Memory, Out, PutFault};
use ipt_lang::{Doc, Iptables, Section};
use std::alloc::Global;

/// The language of texts for iptables-restore and ip6tables-restore, which read them with `--noflush`
/// into a hook's chain that is empty. Its sections are those of arguments of iptables that say a policy,
/// and do what they do there.
pub struct Restore;

impl Language for Restore {
    type Section = Section;

    type Draft = RestoreDraft;

    ghost is_section = { IsSection };

    #[tactic(auto, using(crate::proofs::ValidityLaws::section_valid))]
    fn is_valid(alloc: Global, section: &Section) -> Result<bool, Memory> {
        Ok(section.accept.is_some() && Iptables::is_valid(alloc, section)?)
    }

    ghost names = { hook_names };

    #[tactic(auto, using(crate::proofs::ValidityLaws::all_valid))]
    fn have_distinct_names(alloc: Global, sections: &[Section]) -> Result<bool, Memory> {
        Iptables::have_distinct_names(alloc, sections)
    }

    ghost rows = { section_rows };

    fn put_section<O: Out>(section: &Section, out: &mut O) -> Result<(), PutFault> {
        Restored { section }.put_rows(out)
    }

    ghost has_family = { λ s family. same_family s.family family };

    ghost outcome = { section_outcome };

    fn outcome(section: &Section, packet: &Packet) -> Option<Outcome> {
        Iptables::outcome(section, packet)
    }

    fn a_section_decides_its_families() {}

    #[tactic(auto, using(crate::proofs::DocumentLaws::document_again))]
    fn a_document_is_read_again() {}
}

/// The document that the bytes spell for iptables-restore: `Some` exactly where they spell one, and
/// `None` exactly where they spell none. The bytes spell a document where it is valid and they are its
/// text.
pub fn read_restore(alloc: Global, bytes: &[u8]) -> Result<Option<Doc>, Memory>
    ensures some { IfOk result (λ o. IfSome o (Spells bytes.now)) }
    ensures each { IfOk result (λ o. (doc : List ASection) → Spells bytes.now doc → o ≡ Some doc) }
    ensures none { IfOk result (λ o. IfNone o ((doc : List ASection) → Spells bytes.now doc → ⊥)) }
{
    read_document::<Restore>(alloc, bytes)
}
