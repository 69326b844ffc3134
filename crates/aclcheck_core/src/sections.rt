ghost use Rattle.std.specs.Prelude.{◌≡◌, ◌++◌, ℕ, ◌-◌, ◌≤◌, false, true, decimal, IfOk, IfSome, OnOk, List};
ghost use Rattle.acl_text.specs.Answers.{Answers, fault_told};
ghost use Rattle.acl_text.specs.Refusals.{fault, file_fault};
ghost use Rattle.acl_load.specs.LoadFaults.{LoadsFiles, fails_to_list};
ghost use Rattle.acl_filters.specs.PlatformLanguages.{SectionOn, SpellsOn, outcome_on};
ghost use Rattle.acl_options.specs.CodeViews.{section_view};
ghost use Rattle.acl_packet.specs.Packets.{IsPacket};
ghost use Rattle.acl_rows.specs.Scans.{Finds};
ghost use Rattle.aclcheck_core.specs.CheckAnswers.{AsksSection, MakesText};
ghost use Rattle.aclcheck_core.specs.SectionAnswers.{AnswersBytes, section_line};

use crate::lines::put_outcome;
use acl_host::{Tree, read_whole};
use acl_load::LoadFault;
use acl_options::FileSection;
use acl_packet::{Outcome, Packet};
use acl_rows::{SectionVerdict, find_section};
use acl_target::Kind;
use acl_text::{Code, Fault, Memory, Out, PutFault, Rejection, Whole, put_number};
use cisco_lang::Cisco;
use ipt_lang::Iptables;
use itoa::Buffer;
use junos_lang::Junos;
use nft_lang::Nftables;
use std::alloc::Global;

// The most bytes of the text.
const MOST_OF_TEXT: usize = 16_777_216;

// What the section at the place, counted from 0, of the text does to the packet, in the language of the platform.
fn find_on(
    alloc: Global,
    kind: Kind,
    text: &[u8],
    which: usize,
    packet: &Packet,
) -> Result<SectionVerdict, Memory>
    requires { IsPacket packet.now }
    ensures { IfOk result (Finds (SpellsOn kind text.now)
        (λ (doc : List (SectionOn kind)). outcome_on kind doc which packet.now)) }
{
    match kind {
        Kind::Cisco => find_section::<Cisco>(alloc, text, which, packet),
        Kind::Juniper => find_section::<Junos>(alloc, text, which, packet),
        Kind::Iptables => find_section::<Iptables>(alloc, text, which, packet),
        Kind::Nftables => find_section::<Nftables>(alloc, text, which, packet),
    }
}

// The fault of a section that is not there.
fn no_section(alloc: Global, at: &FileSection<'_>) -> Result<Fault, Memory>
    ensures { IfOk result (λ f. f ≡ fault Code.NoSection at.now.path.now 0 (decimal at.now.number)) }
{
    let mut buffer = Buffer::new();
    let number = buffer.format(at.number).as_bytes();
    Fault::new(alloc, Code::NoSection, at.path.as_bytes(), 0, number)
}

// What the section of the text does to the packet.
fn outcome_in(
    alloc: Global,
    at: &FileSection<'_>,
    packet: &Packet,
    text: &[u8],
) -> Result<Outcome, Rejection>
    requires packet { IsPacket packet.now }
    requires first { 1 ≤ at.now.number }
    ensures { Answers fault_told (λ o. o) result
        (AnswersBytes (section_view at.now) packet.now text.now) }
{
    let which = at.number as usize - 1;
    match find_on(alloc, at.kind, text, which, packet)? {
        SectionVerdict::Decides(outcome) => Ok(outcome),
        SectionVerdict::NoSection => Err(Rejection::Fault(no_section(alloc, at)?)),
        SectionVerdict::NoDocument => Err(Rejection::Fault(Fault::of_file(
            alloc,
            Code::NoDocument,
            at.path,
        )?)),
    }
}

// Puts the line on the section.
#[tactic(auto, unfolding(crate::specs::SectionAnswers::section_line))]
fn put_line(text: &mut Whole, at: &FileSection<'_>, outcome: Outcome) -> Result<(), PutFault>
    requires { text.old.is_open ≡ true }
    ensures { OnOk result (text.new.bytes ≡ text.old.bytes ++ section_line (section_view at.now) outcome) }
{
    text.put(at.path.as_bytes())?;
    text.put(b": section ")?;
    put_number(text, u128::from(at.number))?;
    text.put(b": ")?;
    put_outcome(text, outcome)?;
    text.put(b"\n")
}

fn line_on(alloc: Global, at: &FileSection<'_>, outcome: Outcome) -> Result<Whole, Memory>
    ensures { IfOk result (λ text. text.bytes ≡ section_line (section_view at.now) outcome) }
{
    let mut text = Whole::new(alloc);
    match put_line(&mut text, at, outcome) {
        Ok(()) => Ok(text),
        Err(_) => Err(Memory),
    }
}

/// The line that says what the section of the file does to the packet, `PATH: section N: VERDICT`, or the first fault:
/// `NoFile`, `TooLong` past 16,777,216 bytes, `NoDocument` where the file's text is none of the platform's language, and
/// `NoSection` where that document has no such section, or none for packets of this family.
///
/// Nothing but the file is read.
pub fn answer_section<T: Tree>(
    alloc: Global,
    at: &FileSection<'_>,
    packet: &Packet,
    tree: &mut T,
) -> Result<Whole, LoadFault>
    requires packet { IsPacket packet.now }
    requires first { 1 ≤ at.now.number }
    ensures makes { MakesText (AsksSection (section_view at.now) packet.now) (T.files tree.old) result }
    ensures looks { LoadsFiles T.Tree tree.old tree.new result }
    ensures unlisted { fails_to_list result ≡ false }
{
    let text = read_whole(alloc, tree, at.path, MOST_OF_TEXT, Code::TooLong)?;
    let outcome = outcome_in(alloc, at, packet, text.as_slice())?;
    Ok(line_on(alloc, at, outcome)?)
}
