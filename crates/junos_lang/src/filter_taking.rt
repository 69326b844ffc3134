ghost use Rattle.std.specs.Prelude.{◌≡◌, ◌++◌, ℕ, IfNone, IfOk, IfSome, List, None, Some, if◌then◌else◌, option_map, true};
ghost use Rattle.acl_packet.specs.Addresses.{same_family};
ghost use Rattle.acl_text.specs.Names.{is_filter_name};
ghost use Rattle.acl_rows.specs.Rows.{text_of_rows};
ghost use Rattle.junos_lang.specs.Documents.{family_word};
ghost use Rattle.junos_lang.specs.ScanSteps.{TakesFilter, head_in, head_parts, known_family_in, section_name_in};
ghost use Rattle.junos_lang.specs.Texts.{head_rows};

use crate::filter_rows::SectionHead;
use crate::terms_taking::take_terms;
use acl_packet::{Family, Outcome, Packet};
use acl_rows::rows_behind;
use acl_text::{Memory, behind, is_filter_name, split_at_byte};
use std::alloc::Global;

/// What the filter at the front of a text does to a packet, its name as a section, and what the text
/// has behind it.
#[derive(Clone, Copy, Drop)]
pub(crate) struct TakenFilter<'a> {
    pub(crate) name: &'a [u8],
    pub(crate) outcome: Option<Outcome>,
    pub(crate) rest: &'a [u8],
}

/// What the first row of a filter says.
#[derive(Clone, Copy, Drop)]
pub(crate) struct FilterHead<'a> {
    family: Family,
    filter: &'a [u8],
    // of the section
    name: &'a [u8],
}

/// Takes the filter that the text begins with. `None` where it begins with no valid filter.
pub(crate) fn take_filter<'a>(
    alloc: Global,
    text: &'a [u8],
    packet: &Packet,
) -> Result<Option<TakenFilter<'a>>, Memory>
    ensures { IfOk result (TakesFilter text.now packet.now) }
{
    let Some(head) = head_of(text) else {
        return Ok(None);
    };
    let Some(body) = body_behind(text, &head) else {
        return Ok(None);
    };
    let Some(terms) = take_terms(alloc, head.family, body, packet)? else {
        return Ok(None);
    };
    let name = head.name;
    let outcome = outcome_for(head.family, terms.outcome, packet);
    let rest = terms.rest;
    Ok(Some(TakenFilter {
        name,
        outcome,
        rest,
    }))
}

// What the text has behind the head, where the name is one of a filter.
fn body_behind<'a>(text: &'a [u8], head: &FilterHead<'_>) -> Option<&'a [u8]>
    ensures some { IfSome result (λ body. (is_filter_name head.now.filter.now ≡ true)
        × (text.now ≡ text_of_rows (head_rows (family_word head.now.family) head.now.filter.now)
        ++ body.now)) }
    ensures none { IfNone result (is_filter_name head.now.filter.now ≡ true → (body : List ℕ)
        → text.now ≡ text_of_rows (head_rows (family_word head.now.family) head.now.filter.now)
        ++ body → ⊥) }
{
    if !is_filter_name(head.filter) {
        return None;
    }
    let rows = SectionHead {
        family: head.family,
        name: head.filter,
    };
    rows_behind(text, &rows)
}

// The outcome, where the packet is of the family.
fn outcome_for(family: Family, outcome: Outcome, packet: &Packet) -> Option<Outcome>
    ensures { result
        ≡ (if same_family family packet.now.family then Some outcome else None) }
{
    if family == packet.family {
        Some(outcome)
    } else {
        None
    }
}

#[tactic(auto, unfolding(crate::specs::ScanSteps::head_in))]
fn head_of<'a>(text: &'a [u8]) -> Option<FilterHead<'a>>
    ensures { option_map head_parts result ≡ head_in text.now }
{
    let name = section_name(text)?;
    let (filter, word) = split_at_byte(name, b' ')?;
    let family = known_family(word)?;
    Some(FilterHead {
        family,
        filter,
        name,
    })
}

// What stands in the first row between the target's kind and the end of the comment.
#[tactic(auto, unfolding(crate::specs::ScanSteps::section_name_in, crate::specs::ReadingSteps::note_in))]
fn section_name<'a>(text: &'a [u8]) -> Option<&'a [u8]>
    ensures { option_map (λ name. name.now) result ≡ section_name_in text.now }
{
    let words = behind(text, b"/* juniper ")?;
    let (line, _) = split_at_byte(words, b'\n')?;
    let end = line.len().saturating_sub(b" */".len());
    Some(&line[..end])
}

#[tactic(auto, unfolding(crate::specs::ScanSteps::known_family_in))]
fn known_family(word: &[u8]) -> Option<Family>
    ensures { result ≡ known_family_in word.now }
{
    if word == b"inet".as_slice() {
        Some(Family::V4)
    } else if word == b"inet6".as_slice() {
        Some(Family::V6)
    } else {
        None
    }
}
