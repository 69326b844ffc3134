ghost use Rattle.std.specs.Prelude.{◌≡◌, IfNone, IfOk, IfSome, List};
ghost use Rattle.acl_packet.specs.Packets.{IsPacket};
ghost use Rattle.acl_text.specs.Cuts.{views};
ghost use Rattle.acl_rows.specs.Documents.{SpellsRows, outcome_at};
ghost use Rattle.acl_rows.specs.ScanSteps.{IsScanned, IsTextOf};
ghost use Rattle.acl_rows.specs.Scans.{Finds};

use crate::apart::are_distinct_names;
use crate::languages::Language;
use acl_packet::{Outcome, Packet};
use acl_text::Memory;
use std::alloc::Global;

/// What is found of a section of a text.
#[derive(Clone, Copy, PartialEq, Eq)]
pub enum SectionVerdict {
    /// The text spells no document of the language.
    NoDocument,
    /// Its document has no such section, or none for packets of this family.
    NoSection,
    /// The section does this to the packet.
    Decides(Outcome),
}

/// A section that was taken from the front of a text: what it does to a packet, if it is one of the packet's family, and
/// what the text has behind it.
#[derive(Clone, Copy, Drop)]
pub struct TakenSection<'a> {
    pub outcome: Option<Outcome>,
    pub rest: &'a [u8],
}

/// A language whose sections are read from a text one by one, each row when it comes, and not held.
pub trait Scan: Language {
    ghost use Rattle.acl_rows.specs.Scans.{TakesSection};

    /// Takes the section that the text begins with, and puts its names behind the others. `None` where the text is none of
    /// a document; the names are as they were then.
    fn take_section<'a>(
        alloc: Global,
        text: &'a [u8],
        names: &mut Vec<&'a [u8]>,
        packet: &Packet,
    ) -> Result<Option<TakenSection<'a>>, Memory>
        requires { IsPacket packet.now }
        ensures { IfOk result (TakesSection Self.is_section Self.names Self.rows Self.outcome
            text.now packet.now (views names.old.items) (views names.new.items)) };
}

// What is known of a text, all of whose sections were taken: the names of all, and what the one that is asked for does.
#[derive(Drop)]
struct Scanned<'a> {
    names: Vec<&'a [u8]>,
    outcome: Option<Outcome>,
}

/// What the section at the place, counted from 0, of the text's document does to the packet. No section is held, and of the
/// text only the names, so that this takes little memory, whatever the text is.
pub fn find_section<L: Scan>(
    alloc: Global,
    text: &[u8],
    which: usize,
    packet: &Packet,
) -> Result<SectionVerdict, Memory>
    requires { IsPacket packet.now }
    ensures { IfOk result (Finds (SpellsRows L.is_section L.names L.rows text.now)
        (λ (doc : List L.Section). outcome_at L.outcome doc which packet.now)) }
{
    L::a_document_is_read_again();
    let Some(scanned) = scan_sections::<L>(alloc, text, which, packet)? else {
        return Ok(SectionVerdict::NoDocument);
    };
    if !are_distinct_names(scanned.names) {
        return Ok(SectionVerdict::NoDocument);
    }
    match scanned.outcome {
        Some(outcome) => Ok(SectionVerdict::Decides(outcome)),
        None => Ok(SectionVerdict::NoSection),
    }
}

// Takes all sections of the text. `None` where it is not the text of valid sections.
fn scan_sections<'a, L: Scan>(
    alloc: Global,
    text: &'a [u8],
    which: usize,
    packet: &Packet,
) -> Result<Option<Scanned<'a>>, Memory>
    requires { IsPacket packet.now }
    ensures some { IfOk result (λ o. IfSome o (λ s. (doc : List L.Section)
        × IsScanned L.is_section L.names L.rows L.outcome text.now which packet.now
        (views s.names.items) s.outcome doc)) }
    ensures none { IfOk result (λ o. IfNone o ((doc : List L.Section)
        → IsTextOf L.is_section L.rows text.now doc → ⊥)) }
{
    let mut names = Vec::new(alloc);
    let mut outcome = None;
    let mut rest = text;
    let mut count = 0;
    while !rest.is_empty() {
        let Some(taken) = L::take_section(alloc, rest, &mut names, packet)? else {
            return Ok(None);
        };
        if count == which {
            outcome = taken.outcome;
        }
        count += 1;
        rest = taken.rest;
    }
    Ok(Some(Scanned { names, outcome }))
}
