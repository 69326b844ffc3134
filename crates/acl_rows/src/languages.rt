ghost use Rattle.std.specs.Prelude.{◌≡◌, ◌↔◌, ℕ, Bool, IfNone, IfOk, IfSome, IsTrue, List, Option, flat_map, is_some, length};
ghost use Rattle.std.specs.List.{AllByRecursion, IsDistinct};
ghost use Rattle.std.specs.Str.{bytes_eq};
ghost use Rattle.acl_packet.specs.declared.addresses.Family.{Family};
ghost use Rattle.acl_packet.specs.declared.filtering.Outcome.{Outcome as PacketOutcome};
ghost use Rattle.acl_packet.specs.declared.packets.Packet.{Packet as APacket};
ghost use Rattle.acl_packet.specs.Packets.{IsPacket};
ghost use Rattle.acl_text.specs.Puts.{Puts};
ghost use Rattle.acl_rows.specs.Documents.{IsDocumentOf, SpellsRows, has_family_at, outcome_at};
ghost use Rattle.acl_rows.specs.RowSteps.{document_in};
ghost use Rattle.acl_rows.specs.Rows.{Row as LineRow, text_of_rows};

use crate::comparing::is_text_of;
use crate::drafts::{DocumentDraft, read_rows};
use crate::rows::{Each, RowForm};
use acl_packet::{Outcome, Packet};
use acl_text::{Items, Memory, Out, PutFault};
use std::alloc::Global;
use std::marker::PhantomData;

/// A language of documents.
///
/// A document is a list of sections, each of which is what the language has for one filter.
/// `is_section` says which sections are valid, `names` which names a section takes, which no two
/// sections of a document may share, `rows` how a section is written, and `outcome` what it does to a
/// packet of its families. Any bytes are read as some document, through `Draft`.
///
/// The sections are not the language: two languages may have the same ones, and write them differently.
pub trait Language {
    type Section: Drop;

    type Draft: DocumentDraft<Self::Section>;

    ghost is_section: { Self.Section → Type 0 };

    ghost names: { Self.Section → List (List ℕ) };

    ghost rows: { Self.Section → List LineRow };

    ghost has_family: { Self.Section → Family → Bool };

    ghost outcome: { Self.Section → APacket → Option PacketOutcome };

    /// Whether the section is valid.
    fn is_valid(alloc: Global, section: &Self::Section) -> Result<bool, Memory>
        ensures { IfOk result (λ b. IsTrue b ↔ is_section section.now) };

    /// Whether no two of the names that the valid sections take are the same.
    fn have_distinct_names(alloc: Global, sections: &[Self::Section]) -> Result<bool, Memory>
        requires { AllByRecursion is_section sections.now }
        ensures { IfOk result (λ b. IsTrue b ↔ IsDistinct bytes_eq (flat_map names sections.now)) };

    /// Puts the lines of the section's rows.
    fn put_section<O: Out>(section: &Self::Section, out: &mut O) -> Result<(), PutFault>
        requires { IsTrue (O.is_open out.old) }
        ensures { Puts O.Out out.old out.new (text_of_rows (rows section.now)) result };

    /// What the section does to the packet. `None` where the packet's family is none of the section's.
    fn outcome(section: &Self::Section, packet: &Packet) -> Option<Outcome>
        requires { IsPacket packet.now }
        ensures { result ≡ outcome section.now packet.now };

    /// A law: a section does something to the packets of its families, and to no others.
    fn a_section_decides_its_families()
        ensures { (section : Self.Section) (p : APacket)
            → is_some (outcome section p) ≡ has_family section p.family };

    /// A law: a document is read again from its text.
    fn a_document_is_read_again()
        ensures { (doc : List Self.Section) → AllByRecursion is_section doc
            → document_in Self.Draft.step Self.Draft.empty Self.Draft.sections
            (text_of_rows (flat_map rows doc)) ≡ doc };
}

// Sections in the rows of their language.
#[derive_where(Clone, Copy)]
struct InLanguage<L> {
    of: PhantomData<L>,
}

impl<L: Language> RowForm<L::Section> for InLanguage<L> {
    ghost item_rows = { λ f section. L.rows section };

    fn put_item<O: Out>(&self, section: &L::Section, out: &mut O) -> Result<(), PutFault> {
        L::put_section(section, out)
    }
}

/// The document that the bytes spell in the language: `Some` exactly where they spell one, and `None`
/// exactly where they spell none. The bytes spell a document where it is valid and they are its text.
pub fn read_document<L: Language>(
    alloc: Global,
    bytes: &[u8],
) -> Result<Option<Items<L::Section>>, Memory>
    ensures some { IfOk result (λ o. IfSome o (SpellsRows L.is_section L.names L.rows bytes.now)) }
    ensures each { IfOk result (λ o. (doc : List L.Section)
        → SpellsRows L.is_section L.names L.rows bytes.now doc → o ≡ Some doc) }
    ensures none { IfOk result (λ o. IfNone o ((doc : List L.Section)
        → SpellsRows L.is_section L.names L.rows bytes.now doc → ⊥)) }
{
    L::a_document_is_read_again();
    let doc = read_leniently::<L>(alloc, bytes)?;
    if is_spelled::<L>(alloc, bytes, doc.as_slice())? {
        Ok(Some(doc))
    } else {
        Ok(None)
    }
}

// What the bytes say, whatever they are.
fn read_leniently<L: Language>(alloc: Global, bytes: &[u8]) -> Result<Items<L::Section>, Memory>
    ensures { IfOk result (λ doc.
        doc ≡ document_in L.Draft.step L.Draft.empty L.Draft.sections bytes.now) }
{
    let mut draft = L::Draft::new(alloc);
    read_rows(alloc, &mut draft, bytes)?;
    draft.finish()
}

// Whether the bytes spell the document.
fn is_spelled<L: Language>(
    alloc: Global,
    bytes: &[u8],
    sections: &[L::Section],
) -> Result<bool, Memory>
    ensures { IfOk result (λ b. IsTrue b
        ↔ SpellsRows L.is_section L.names L.rows bytes.now sections.now) }
{
    Ok(is_written::<L>(bytes, sections) && is_document::<L>(alloc, sections)?)
}

fn is_document<L: Language>(alloc: Global, sections: &[L::Section]) -> Result<bool, Memory>
    ensures { IfOk result (λ b. IsTrue b ↔ IsDocumentOf L.is_section L.names sections.now) }
{
    if are_valid::<L>(alloc, sections)? {
        L::have_distinct_names(alloc, sections)
    } else {
        Ok(false)
    }
}

fn are_valid<L: Language>(alloc: Global, sections: &[L::Section]) -> Result<bool, Memory>
    ensures { IfOk result (λ b. IsTrue b ↔ AllByRecursion L.is_section sections.now) }
{
    for section in sections {
        if !L::is_valid(alloc, section)? {
            return Ok(false);
        }
    }
    Ok(true)
}

fn is_written<L: Language>(bytes: &[u8], sections: &[L::Section]) -> bool
    ensures { IsTrue result ↔ (bytes.now ≡ text_of_rows (flat_map L.rows sections.now)) }
{
    let rows = Each {
        items: sections,
        form: InLanguage::<L> { of: PhantomData },
    };
    is_text_of(bytes, &rows)
}

/// The number of sections of a document.
pub fn sections<S: Drop>(doc: &Items<S>) -> usize
    ensures { result ≡ length doc.now }
{
    doc.as_slice().len()
}

/// What the section at that place, counted from 0, does to the packet. `None` exactly where there is
/// no such section, or the packet's family is none of the section's.
pub fn outcome<L: Language>(
    doc: &Items<L::Section>,
    which: usize,
    packet: &Packet,
) -> Option<Outcome>
    requires { IsPacket packet.now }
    ensures told { result ≡ outcome_at L.outcome doc.now which packet.now }
    ensures some { is_some result ≡ has_family_at L.has_family doc.now which packet.now.family }
{
    L::a_section_decides_its_families();
    outcome_of::<L>(doc, which, packet)
}

fn outcome_of<L: Language>(
    doc: &Items<L::Section>,
    which: usize,
    packet: &Packet,
) -> Option<Outcome>
    requires { IsPacket packet.now }
    ensures { result ≡ outcome_at L.outcome doc.now which packet.now }
{
    L::outcome(doc.as_slice().get(which)?, packet)
}
