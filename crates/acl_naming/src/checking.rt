ghost use Rattle.std.specs.Prelude.{◌≡◌, ◌<◌, true, false, Some, [], ◌∷◌, length, option_map, IfOk, MatchOption};
ghost use Rattle.acl_naming.specs.Checking.{
  CyclesAreAbsent,
  HasNoCycle,
  IsChecked,
  IsFirstCycle,
  NamesAreDefined,
  first_undefined,
  undefined_in,
};
ghost use Rattle.acl_naming.specs.Definitions.{index_of, items_at};
ghost use Rattle.acl_naming.specs.GraphSteps.{names_count};
ghost use Rattle.acl_naming.specs.RankSteps.{NeverFall};
ghost use Rattle.acl_naming.specs.Reach.{ReachesItself};
ghost use Rattle.acl_naming.specs.Tables.{name_at};

use crate::linking::LinkedTable;
use crate::marking::places_behind;
use crate::marks::Marks;
use crate::naming_items::{Item, Reference};
use crate::ranking::{lead_back, lowest, ranks};
use crate::tables::Table;
use acl_text::{Code, Memory, Refusal};
use std::alloc::Global;

fn undefined_item<'a>(table: &Table, item: &'a Item) -> Option<&'a Reference>
    ensures { option_map (λ r. r.now) result ≡ undefined_in table.now (item.now ∷ []) }
{
    match item {
        Item::Name(reference) => match table.index_of(reference.name.as_slice()) {
            Some(_) => None,
            None => Some(reference),
        },
        Item::Network(_) => None,
        Item::Service(_) => None,
    }
}

fn undefined_in<'a>(table: &Table, items: &'a [Item]) -> Option<&'a Reference>
    ensures { option_map (λ r. r.now) result ≡ undefined_in table.now items.now }
{
    for item in items {
        if let Some(reference) = undefined_item(table, item) {
            return Some(reference);
        }
    }
    None
}

fn names_count(items: &[Item]) -> usize
    ensures { result ≡ names_count items.now }
{
    let mut count = 0;
    for item in items {
        if let Item::Name(_) = item {
            count += 1;
        }
    }
    count
}

// Where each name leads somewhere, none has to be looked up again.
fn undefined_at(linked: &LinkedTable, index: usize) -> Option<&Reference>
    requires { index < length linked.now }
    ensures { option_map (λ r. r.now) result
        ≡ undefined_in linked.now (items_at linked.now index) }
{
    let table = linked.table();
    let items = table.items_at(index);
    if linked.links_at(index).len() == names_count(items) {
        return None;
    }
    undefined_in(table, items)
}

/// The first item that is a name defined nowhere.
pub fn first_undefined(linked: &LinkedTable) -> Option<&Reference>
    ensures { option_map (λ r. r.now) result ≡ first_undefined linked.now linked.now }
{
    for i in 0..linked.len() {
        if let Some(reference) = undefined_at(linked, i) {
            return Some(reference);
        }
    }
    None
}

fn reaches_itself(
    alloc: Global,
    table: &LinkedTable,
    ranks: &[usize],
    index: usize,
) -> Result<bool, Memory>
    requires within { index < length table.now }
    requires fits { length ranks.now ≡ length table.now }
    requires steady { NeverFall table.now ranks.now }
    ensures found { IfOk result (λ b. b ≡ true
        → ReachesItself table.now (name_at table.now index)) }
    ensures missed { IfOk result (λ b. b ≡ false
        → index_of table.now (name_at table.now index) ≡ Some index
        → ReachesItself table.now (name_at table.now index) → ⊥) }
{
    if lowest(table.links_at(index), ranks) > ranks[index] {
        return Ok(false);
    }
    let places = places_behind(alloc, table, index, &mut Marks::new(alloc))?;
    Ok(places.contains(&index))
}

/// The first definition that reaches itself.
pub fn first_cycle(alloc: Global, table: &LinkedTable) -> Result<Option<usize>, Memory>
    ensures { IfOk result
        (λ o. MatchOption o (HasNoCycle table.now) (λ i. IsFirstCycle table.now i)) }
{
    if lead_back(table) {
        return Ok(None);
    }
    let ranks = ranks(alloc, table)?;
    for i in 0..table.len() {
        if reaches_itself(alloc, table, &ranks, i)? {
            return Ok(Some(i));
        }
    }
    Ok(None)
}

fn check_names(alloc: Global, networks: &LinkedTable, services: &LinkedTable) -> Result<(), Refusal>
    ensures { NamesAreDefined (record { networks = networks.now; services = services.now }) result }
{
    if let Some(found) = first_undefined(networks) {
        return Err(Refusal::at(alloc, Code::Undefined, found.place, found.name.as_slice()));
    }
    if let Some(found) = first_undefined(services) {
        return Err(Refusal::at(alloc, Code::Undefined, found.place, found.name.as_slice()));
    }
    Ok(())
}

fn check_cycles(alloc: Global, linked: &LinkedTable) -> Result<(), Refusal>
    ensures { CyclesAreAbsent linked.now result }
{
    let table = linked.table();
    match first_cycle(alloc, linked)? {
        Some(index) => Err(Refusal::at(
            alloc,
            Code::Cycle,
            table.place_at(index),
            table.name_at(index),
        )),
        None => Ok(()),
    }
}

/// Whether each name is defined and none reaches itself.
pub fn check_tables(
    alloc: Global,
    networks: &LinkedTable,
    services: &LinkedTable,
) -> Result<(), Refusal>
    ensures { IsChecked (record { networks = networks.now; services = services.now }) result }
{
    check_names(alloc, networks, services)?;
    check_cycles(alloc, networks)?;
    check_cycles(alloc, services)
}
