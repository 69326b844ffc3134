ghost use Rattle.std.specs.Prelude.{◌≡◌, ◌^◌, ◌<◌, ◌∷◌, [], IfNone, IfOk, option_map, true};
ghost use Rattle.nft_lang.specs.Documents.{fits_i32};
ghost use Rattle.nft_lang.specs.ScanSteps.{TakesChain, TakesItem, TakesItems, behind_byte, first_item_in, head_in, item_text_in, name_in, outcome_from, part_at};
ghost use Rattle.nft_lang.specs.StartSteps.{IsRefused};
ghost use Rattle.nft_lang.specs.Texts.{item_rows};
ghost use Rattle.nft_lang.specs.Walks.{first_holding};

use crate::chain_rows::{OfFamilies, SectionEnd, TableHead};
use crate::documents::Item;
use crate::nftables::Nftables;
use crate::rule_drafts::{Rooms, up_to};
use crate::start_drafts::rooms_of;
use crate::tables_drafts::{hook_of, item_of, priority_of, table_of};
use crate::validity::is_item;
use crate::walking::{decided_by, policy_verdict, rule_holds};
use acl_packet::{Families, Outcome, Packet};
use acl_rows::{RowForm, RowWords, Rows, Scan, TakenSection, families_of, rows_behind};
use acl_text::{Memory, Out, PutFault, behind, split_at_byte};
use std::alloc::Global;

// The length of a line from which on it is looked at before it is read.
const LONG: usize = 1 << 20;

// The rows of a section are read when they come, and no item is held.
impl Scan for Nftables {
    fn take_section<'a>(
        alloc: Global,
        text: &'a [u8],
        names: &mut Vec<&'a [u8]>,
        packet: &Packet,
    ) -> Result<Option<TakenSection<'a>>, Memory> {
        match take_chain(alloc, &head_of(text), text, packet)? {
            Some(taken) => {
                names.push(name_of(text))?;
                Ok(Some(TakenSection {
                    outcome: taken.decided,
                    rest: taken.rest,
                }))
            }
            None => Ok(None),
        }
    }
}

// What was taken from the front of a text: what it decides of a packet, and what stands behind it.
#[derive(Clone, Copy)]
struct Taken<'a> {
    decided: Option<Outcome>,
    rest: &'a [u8],
}

// Takes a section that has this head.
fn take_chain<'a>(
    alloc: Global,
    head: &TableHead,
    text: &'a [u8],
    packet: &Packet,
) -> Result<Option<Taken<'a>>, Memory>
    ensures { IfOk result (TakesChain head.now packet.now text.now) }
{
    match rows_behind(text, head) {
        Some(items) => match take_items(alloc, head.families, items, packet)? {
            Some(taken) => Ok(Some(Taken {
                decided: outcome_of(head, taken.decided, packet),
                rest: taken.rest,
            })),
            None => Ok(None),
        },
        None => Ok(None),
    }
}

// What a section of the head does, whose items decide that.
fn outcome_of(head: &TableHead, decided: Option<Outcome>, packet: &Packet) -> Option<Outcome>
    ensures { result ≡ outcome_from head.now decided packet.now }
{
    if head.families.covers(packet.family) {
        let unheld = Outcome::unlogged(policy_verdict(head.accept));
        Some(decided.unwrap_or(unheld))
    } else {
        None
    }
}

// Takes the items of a chain and the rows that close it. The first item that decides does.
fn take_items<'a>(
    alloc: Global,
    families: Families,
    text: &'a [u8],
    packet: &Packet,
) -> Result<Option<Taken<'a>>, Memory>
    ensures { IfOk result (TakesItems families packet.now text.now) }
{
    let mut decided = None;
    let mut rest = text;
    while let Some(item) = take_item(alloc, families, rest, packet)? {
        decided = decided.or(item.decided);
        rest = item.rest;
    }
    match rows_behind(rest, &SectionEnd) {
        Some(rest) => Ok(Some(Taken { decided, rest })),
        None => Ok(None),
    }
}

// Takes the item that the text begins with. The first line says which it would be, and is compared with the row of that one
// before the item is judged, since the elements of its sets are sorted for that.
fn take_item<'a>(
    alloc: Global,
    families: Families,
    text: &'a [u8],
    packet: &Packet,
) -> Result<Option<Taken<'a>>, Memory>
    ensures { IfOk result (TakesItem families packet.now text.now) }
{
    let Some(rooms) = rooms_in(alloc, families, text)? else {
        return Ok(None);
    };
    match first_item_of(alloc, families, text, rooms)? {
        Some(item) => take_if_valid(alloc, families, &item, text, packet),
        None => Ok(None),
    }
}

// How many prefixes the first line has, where it is long. `None` where it is seen to say no valid item. A short line is not
// looked at, since what it says takes little memory.
fn rooms_in(alloc: Global, families: Families, text: &[u8]) -> Result<Option<Rooms>, Memory>
    ensures { IfOk result (λ o. IfNone o (IsRefused families text.now)) }
{
    match item_text_of(text) {
        Some(words) if words.len() >= LONG => {
            Ok(rooms_of(alloc, families, RowWords::new(words))?)
        }
        _ => Ok(Some(Rooms::none())),
    }
}

fn take_if_valid<'a>(
    alloc: Global,
    families: Families,
    item: &Item,
    text: &'a [u8],
    packet: &Packet,
) -> Result<Option<Taken<'a>>, Memory>
    requires { first_item_in families text.now ≡ Some item.now }
    ensures { IfOk result (TakesItem families packet.now text.now) }
{
    let Some(rest) = rows_behind(text, &ItemRow { families, item }) else {
        return Ok(None);
    };
    if is_item(alloc, families, item)? {
        Ok(Some(Taken {
            decided: decided_by_item(item, packet),
            rest,
        }))
    } else {
        Ok(None)
    }
}

#[tactic(auto, unfolding(crate::specs::Walks::first_holding))]
fn decided_by_item(item: &Item, packet: &Packet) -> Option<Outcome>
    ensures { result ≡ first_holding (item.now ∷ []) packet.now }
{
    match item {
        Item::Remark(_) => None,
        Item::Rule(rule) => {
            if rule_holds(rule, packet) {
                Some(decided_by(rule))
            } else {
                None
            }
        }
    }
}

// The item that the first line of the text says, whatever that is.
#[tactic(auto, unfolding(crate::specs::ScanSteps::first_item_in))]
fn first_item_of(
    alloc: Global,
    families: Families,
    text: &[u8],
    rooms: Rooms,
) -> Result<Option<Item>, Memory>
    ensures { IfOk result (λ o. o ≡ first_item_in families text.now) }
{
    match item_text_of(text) {
        Some(words) => {
            let item = item_of(alloc, families, RowWords::new(words), rooms)?;
            Ok(Some(item))
        }
        None => Ok(None),
    }
}

// The first line behind its eight spaces.
#[tactic(auto, unfolding(crate::specs::ScanSteps::item_text_in))]
fn item_text_of(text: &[u8]) -> Option<&[u8]>
    ensures { option_map (λ words. words.now) result ≡ item_text_in text.now }
{
    let (line, _) = split_at_byte(text, b'\n')?;
    behind(line, b"        ")
}

// The row of an item of a chain in a table of the families.
#[derive(Drop)]
struct ItemRow<'a> {
    families: Families,
    item: &'a Item,
}

impl<'a> Rows for ItemRow<'a> {
    ghost rows = { λ r. item_rows r.families r.item.now };

    fn put_rows<O: Out>(&self, out: &mut O) -> Result<(), PutFault> {
        OfFamilies {
            families: self.families,
        }
        .put_item(self.item, out)
    }
}

// What the lines say at which the head of a section stands.
#[tactic(auto, unfolding(crate::specs::ScanSteps::head_in))]
fn head_of(text: &[u8]) -> TableHead
    ensures is { result ≡ head_in text.now }
    ensures number { result.number < 2 ^ 32 }
    ensures priority { fits_i32 result.priority ≡ true }
{
    let target = part_at(text, b'\n', 0);
    let chain = part_at(text, b'\n', 5);
    TableHead {
        hook: hook_of(part_at(target, b' ', 2)),
        families: families_of(part_at(target, b' ', 3)),
        number: table_of(name_of(text)),
        priority: priority_of(part_at(chain, b' ', 13)),
        accept: part_at(chain, b' ', 15) == b"accept;".as_slice(),
    }
}

// The name of the table, from the line that adds it.
#[tactic(auto, unfolding(crate::specs::ScanSteps::name_in))]
fn name_of(text: &[u8]) -> &[u8]
    ensures { result.now ≡ name_in text.now }
{
    part_at(part_at(text, b'\n', 1), b' ', 3)
}

// The part at that place, counted from 0, between such bytes; nothing where there are not so many.
fn part_at(text: &[u8], byte: u8, place: usize) -> &[u8]
    ensures { result.now ≡ part_at byte place text.now }
{
    let mut rest = text;
    for _before in 0..place {
        rest = behind_byte(rest, byte);
    }
    up_to(rest, byte)
}

#[tactic(auto, unfolding(crate::specs::ScanSteps::behind_byte))]
fn behind_byte(text: &[u8], byte: u8) -> &[u8]
    ensures { result.now ≡ behind_byte byte text.now }
{
    match split_at_byte(text, byte) {
        Some((_, rest)) => rest,
        None => &[],
    }
}
