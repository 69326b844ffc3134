ghost use Rattle.std.specs.Prelude.{◌≡◌, ◌∷◌, ◌++◌, List, OnOk, option_map};
ghost use Rattle.std.specs.Option.{option_to_list};
ghost use Rattle.acl_text.specs.Cuts.{behind, views};
ghost use Rattle.acl_rows.specs.Rows.{text_of_rows};
ghost use Rattle.cisco_lang.specs.declared.documents.Item.{Item as AnItem};
ghost use Rattle.cisco_lang.specs.ScanSteps.{ItemsTaken, TakesList, TakesLists, by_family, heading_behind, heading_taken, item_taken, only, or_entry, row_behind, second_name, third_and_fourth, walk_end, walk_on, where_family};

use crate::cisco::Cisco;
use crate::documents::Entry;
use crate::entry_reading::{entry_of, next_word};
use crate::list_rows::{EntryRow, ListEnd, ListHead, RemarkRow, SectionHead};
use crate::validity::{is_entry, is_front_and_name};
use crate::walking::{decided_by, ending, entry_holds};
use acl_packet::{Families, Family, Outcome, Packet, Verdict};
use acl_rows::{RowWords, Rows, Scan, TakenSection, families_of, rows_behind};
use acl_text::{Memory, is_filter_name, is_safe_text, split_at_byte};
use std::alloc::Global;

/// The text of a section is read row by row. A row is compared with that of the item that it is
/// read as, and no item is held when the next one is read.
impl Scan for Cisco {
    fn take_section<'a>(
        _alloc: Global,
        text: &'a [u8],
        names: &mut Vec<&'a [u8]>,
        packet: &Packet,
    ) -> Result<Option<TakenSection<'a>>, Memory> {
        let Some(heading) = take_heading(text) else {
            return Ok(None);
        };
        let Some(lists) = take_lists(heading.families, heading.name, heading.rest, packet) else {
            return Ok(None);
        };
        push_names(names, heading.name, lists.second)?;
        Ok(Some(TakenSection {
            outcome: lists.outcome,
            rest: lists.rest,
        }))
    }
}

fn push_names<'a>(
    names: &mut Vec<&'a [u8]>,
    name: &'a [u8],
    second: Option<&'a [u8]>,
) -> Result<(), Memory>
    ensures { OnOk result (views names.new.items ≡ views names.old.items
        ++ name.now ∷ option_to_list (option_map (λ n. n.now) second.entry)) }
{
    names.push(name)?;
    if let Some(second) = second {
        names.push(second)?;
    }
    Ok(())
}

// What the text has behind the rows, where it begins with them.
#[tactic(auto, using(crate::proofs::ScanLaws::rows_found, crate::proofs::ScanLaws::rows_missing))]
fn cut_rows<'a, R: Rows>(text: &'a [u8], rows: &R) -> Option<&'a [u8]>
    ensures { option_map (λ x. x.now) result ≡ behind (text_of_rows (R.rows rows.now)) text.now }
{
    match rows_behind(text, rows) {
        Some(rest) => Some(rest),
        None => None,
    }
}

// ---- names

// The name and families of a section, and what the text has behind the row that begins it.
#[derive(Clone, Copy)]
struct Heading<'a> {
    name: &'a [u8],
    families: Families,
    rest: &'a [u8],
}

#[tactic(auto, unfolding(crate::specs::ScanSteps::heading_taken))]
fn take_heading<'a>(text: &'a [u8]) -> Option<Heading<'a>>
    ensures { option_map (λ h. (h.name.now, h.families, h.rest.now)) result
        ≡ heading_taken text.now }
{
    let (line, _) = split_at_byte(text, b'\n')?;
    let (name, word) = third_and_fourth(line);
    heading_of(name, families_of(word), text)
}

fn heading_of<'a>(name: &'a [u8], families: Families, text: &'a [u8]) -> Option<Heading<'a>>
    ensures { option_map (λ h. (h.name.now, h.families, h.rest.now)) result
        ≡ heading_behind name.now families text.now }
{
    if !is_filter_name(name) {
        return None;
    }
    let rest = cut_rows(text, &SectionHead { name, families })?;
    Some(Heading {
        name,
        families,
        rest,
    })
}

// The name of the IPv6 list of a mixed section, which its first row has.
#[tactic(auto, unfolding(crate::specs::ScanSteps::second_name))]
fn second_name<'a>(name: &[u8], text: &'a [u8]) -> Option<&'a [u8]>
    ensures { option_map (λ x. x.now) result ≡ second_name name.now text.now }
{
    let (line, _) = split_at_byte(text, b'\n')?;
    let (_, second) = third_and_fourth(line);
    if is_front_and_name(second, b"ipv6-", name) {
        Some(second)
    } else {
        None
    }
}

#[tactic(auto, unfolding(crate::specs::ScanSteps::third_and_fourth))]
fn third_and_fourth<'a>(line: &'a [u8]) -> (&'a [u8], &'a [u8])
    ensures { (result.0.now, result.1.now) ≡ third_and_fourth line.now }
{
    let (_, words) = next_word(RowWords::new(line));
    let (_, words) = next_word(words);
    let (third, words) = next_word(words);
    let (fourth, _) = next_word(words);
    (third, fourth)
}

// ---- lists

// The lists of a section that were taken from the front of a text: the name of the second, if there
// is one, what they do to a packet, and what the text has behind them.
#[derive(Clone, Copy)]
struct TakenLists<'a> {
    second: Option<&'a [u8]>,
    outcome: Option<Outcome>,
    rest: &'a [u8],
}

// A list that was taken so.
#[derive(Clone, Copy)]
struct TakenList<'a> {
    outcome: Outcome,
    rest: &'a [u8],
}

fn take_lists<'a>(
    families: Families,
    name: &[u8],
    text: &'a [u8],
    packet: &Packet,
) -> Option<TakenLists<'a>>
    ensures { TakesLists families name.now packet.now text.now result }
{
    match families {
        Families::Inet => take_one(Family::V4, name, text, packet),
        Families::Inet6 => take_one(Family::V6, name, text, packet),
        Families::Mixed => take_two(name, text, packet),
    }
}

fn take_one<'a>(
    family: Family,
    name: &[u8],
    text: &'a [u8],
    packet: &Packet,
) -> Option<TakenLists<'a>>
    ensures { TakesLists (only family) name.now packet.now text.now result }
{
    let list = take_list(family, name, text, packet)?;
    Some(TakenLists {
        second: None,
        outcome: where_family(family, packet.family, list.outcome),
        rest: list.rest,
    })
}

fn where_family(family: Family, other: Family, outcome: Outcome) -> Option<Outcome>
    ensures { result ≡ where_family family other outcome }
{
    if other == family { Some(outcome) } else { None }
}

fn take_two<'a>(name: &[u8], text: &'a [u8], packet: &Packet) -> Option<TakenLists<'a>>
    ensures { TakesLists Families.Mixed name.now packet.now text.now result }
{
    let first = take_list(Family::V4, name, text, packet)?;
    let second = second_name(name, first.rest)?;
    let other = take_list(Family::V6, second, first.rest, packet)?;
    let outcome = by_family(packet.family, first.outcome, other.outcome);
    Some(TakenLists {
        second: Some(second),
        outcome: Some(outcome),
        rest: other.rest,
    })
}

fn by_family(family: Family, four: Outcome, six: Outcome) -> Outcome
    ensures { result ≡ by_family family four six }
{
    match family {
        Family::V4 => four,
        Family::V6 => six,
    }
}

fn take_list<'a>(
    family: Family,
    name: &[u8],
    text: &'a [u8],
    packet: &Packet,
) -> Option<TakenList<'a>>
    ensures { TakesList family name.now packet.now text.now result }
{
    let begun = cut_rows(text, &ListHead { family, name })?;
    let items = take_items(family, begun, packet);
    let rest = cut_rows(items.rest, &ListEnd)?;
    Some(TakenList {
        outcome: items.outcome,
        rest,
    })
}

// ---- items

// Takes all items that the text begins with.
fn take_items<'a>(family: Family, text: &'a [u8], packet: &Packet) -> TakenList<'a>
    ensures { (items : List AnItem) × ItemsTaken family packet.now text.now result items }
{
    let mut walked = Walked {
        has_entries: false,
        first: None,
    };
    let mut rest = text;
    while let Some(item) = take_item(family, rest) {
        walked = walk_on(walked, item.entry, packet);
        rest = item.rest;
    }
    TakenList {
        outcome: walk_end(family, walked, packet),
        rest,
    }
}

// An item that was taken from the front of a text: its entry, if it is one, and what the text has
// behind it.
#[derive(Clone, Copy)]
struct TakenItem<'a> {
    entry: Option<Entry>,
    rest: &'a [u8],
}

#[tactic(auto, unfolding(crate::specs::ScanSteps::item_taken, crate::specs::ReadingSteps::item_in, crate::specs::Texts::item_rows))]
fn take_item<'a>(family: Family, text: &'a [u8]) -> Option<TakenItem<'a>>
    ensures { option_map (λ t. (t.entry, t.rest.now)) result ≡ item_taken family text.now }
{
    let (line, _) = split_at_byte(text, b'\n')?;
    let words = RowWords::new(line).behind_first();
    if words.begins_with(b"remark") {
        let remark = words.behind_first().text();
        take_row(
            is_safe_text(remark),
            None,
            &RemarkRow { text: remark },
            text,
        )
    } else {
        let entry = entry_of(family, words);
        let valid = is_entry(family, &entry);
        take_row(valid, Some(entry), &EntryRow { family, entry }, text)
    }
}

fn take_row<'a, R: Rows>(
    valid: bool,
    entry: Option<Entry>,
    row: &R,
    text: &'a [u8],
) -> Option<TakenItem<'a>>
    ensures { option_map (λ t. (t.entry, t.rest.now)) result
        ≡ row_behind valid entry (R.rows row.now) text.now }
{
    if !valid {
        return None;
    }
    let rest = cut_rows(text, row)?;
    Some(TakenItem { entry, rest })
}

// ---- what the items do to the packet

// What is known of it: whether there was an entry, and what the first that holds it decides.
#[derive(Clone, Copy)]
struct Walked {
    has_entries: bool,
    first: Option<Outcome>,
}

fn walk_on(walked: Walked, entry: Option<Entry>, packet: &Packet) -> Walked
    ensures { result ≡ walk_on walked entry packet.now }
{
    match entry {
        Some(entry) => Walked {
            has_entries: true,
            first: or_entry(walked.first, &entry, packet),
        },
        None => walked,
    }
}

fn or_entry(first: Option<Outcome>, entry: &Entry, packet: &Packet) -> Option<Outcome>
    ensures { result ≡ or_entry first entry.now packet.now }
{
    match first {
        Some(outcome) => Some(outcome),
        None => {
            if entry_holds(entry, packet) {
                Some(decided_by(entry))
            } else {
                None
            }
        }
    }
}

fn walk_end(family: Family, walked: Walked, packet: &Packet) -> Outcome
    ensures { result ≡ walk_end family walked packet.now }
{
    if !walked.has_entries {
        return Outcome::unlogged(Verdict::Accept);
    }
    match walked.first {
        Some(outcome) => outcome,
        None => ending(family, packet),
    }
}
