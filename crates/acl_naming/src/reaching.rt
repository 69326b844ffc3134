ghost use Rattle.std.specs.Prelude.{◌≡◌, ℕ, ◌<◌, ◌↔◌, Bool, true, [], ◌∷◌, None, Err, length, IsSome, IfOk, OnOk};
ghost use Rattle.std.specs.List.{All, list_any};
ghost use Rattle.acl_sets.specs.Ranges.{IsNormal, holds};
ghost use Rattle.acl_naming.specs.Definitions.{index_of};
ghost use Rattle.acl_naming.specs.Reach.{Reaches};
ghost use Rattle.acl_naming.specs.LookupSteps.{AddsAt, AddsReach, AreAdded, Collects, IsRangeOf, IsReach, any_at, any_item, has_number, is_wanted, top_of};

use crate::linking::LinkedTable;
use crate::lookups::Lookup;
use crate::marking::places_behind;
use crate::marks::Marks;
use crate::naming_items::Item;
use crate::tables::Table;
use acl_packet::Family;
use acl_sets::{Range, RangeSet};
use acl_text::Memory;
use std::alloc::Global;

/// What is looked up of a name: addresses of a family, or ports of a protocol.
#[derive(Clone, Copy)]
pub enum Wanted {
    Addresses(Family),
    Ports(u8),
}

pub fn top_of(wanted: Wanted) -> u128
    ensures { result ≡ top_of wanted }
{
    match wanted {
        Wanted::Addresses(Family::V4) => 0xffff_ffff,
        Wanted::Addresses(Family::V6) => u128::MAX,
        Wanted::Ports(_) => 65535,
    }
}

fn range_of(wanted: Wanted, item: &Item) -> Option<Range>
    ensures { IsRangeOf wanted item.now result }
{
    match (wanted, item) {
        (Wanted::Addresses(family), Item::Network(block)) if block.family() == family => {
            Some(block.range())
        }
        (Wanted::Ports(proto), Item::Service(ports)) if ports.proto() == proto => Some(
            ports.range(),
        ),
        _ => None,
    }
}

fn push_item(out: &mut Vec<Range>, wanted: Wanted, item: &Item) -> Result<(), Memory>
    ensures { OnOk result (Collects wanted (λ test. test item.now) out.old.items out.new.items) }
{
    if let Some(range) = range_of(wanted, item) {
        out.push(range)?;
    }
    Ok(())
}

fn push_items(out: &mut Vec<Range>, wanted: Wanted, items: &[Item]) -> Result<(), Memory>
    ensures { OnOk result (Collects wanted (any_item items.now) out.old.items out.new.items) }
{
    for item in items {
        push_item(out, wanted, item)?;
    }
    Ok(())
}

// Puts the ranges of what is wanted in the definition, and in those at the places, behind the others.
fn push_reached(
    out: &mut Vec<Range>,
    table: &Table,
    index: usize,
    places: &[usize],
    wanted: Wanted,
) -> Result<(), Memory>
    requires first { index < length table.now }
    requires within { All (λ j. j < length table.now) places.now }
    ensures { OnOk result (Collects wanted (any_at table.now (index ∷ places.now))
        out.old.items out.new.items) }
{
    push_items(out, wanted, table.items_at(index))?;
    for place in places {
        push_items(out, wanted, table.items_at(*place))?;
    }
    Ok(())
}

// Puts the addresses of an item behind those of their family.
fn push_block(v4: &mut Vec<Range>, v6: &mut Vec<Range>, item: &Item) -> Result<(), Memory>
    ensures v4 { OnOk result (Collects (Wanted.Addresses Family.V4) (λ test. test item.now)
        v4.old.items v4.new.items) }
    ensures v6 { OnOk result (Collects (Wanted.Addresses Family.V6) (λ test. test item.now)
        v6.old.items v6.new.items) }
{
    if let Item::Network(block) = item {
        match block.family() {
            Family::V4 => v4.push(block.range())?,
            Family::V6 => v6.push(block.range())?,
        }
    }
    Ok(())
}

// Most definitions have few items, so this stands where their places are gone through.
#[inline(always)]
fn push_blocks(v4: &mut Vec<Range>, v6: &mut Vec<Range>, items: &[Item]) -> Result<(), Memory>
    ensures v4 { OnOk result (Collects (Wanted.Addresses Family.V4) (any_item items.now)
        v4.old.items v4.new.items) }
    ensures v6 { OnOk result (Collects (Wanted.Addresses Family.V6) (any_item items.now)
        v6.old.items v6.new.items) }
{
    for item in items {
        push_block(v4, v6, item)?;
    }
    Ok(())
}

// Puts the addresses of the definition, and of those at the places, behind those of their family.
fn push_networks(
    v4: &mut Vec<Range>,
    v6: &mut Vec<Range>,
    table: &Table,
    index: usize,
    places: &[usize],
) -> Result<(), Memory>
    requires first { index < length table.now }
    requires within { All (λ j. j < length table.now) places.now }
    ensures v4 { OnOk result (Collects (Wanted.Addresses Family.V4) (any_at table.now (index ∷ places.now))
        v4.old.items v4.new.items) }
    ensures v6 { OnOk result (Collects (Wanted.Addresses Family.V6) (any_at table.now (index ∷ places.now))
        v6.old.items v6.new.items) }
{
    push_blocks(v4, v6, table.items_at(index))?;
    for place in places {
        push_blocks(v4, v6, table.items_at(*place))?;
    }
    Ok(())
}

// Where the definition of the name stands. It is looked for behind the one that was looked up before.
fn find(table: &Table, name: &[u8], marks: &mut Marks) -> Option<usize>
    ensures exact { result ≡ index_of table.now name.now }
    ensures same { marks.new ≡ marks.old }
{
    let index = table.index_near(marks.near(), name)?;
    marks.look_behind(index);
    Some(index)
}

// Puts the addresses of both families that the name of the definition reaches behind others, in one walk.
fn add_addresses_at(
    alloc: Global,
    linked: &LinkedTable,
    index: usize,
    marks: &mut Marks,
    v4: &mut Vec<Range>,
    v6: &mut Vec<Range>,
) -> Result<(), Memory>
    requires { index < length linked.now }
    ensures v4 { OnOk result (AddsAt linked.now index (Wanted.Addresses Family.V4) v4.old.items v4.new.items) }
    ensures v6 { OnOk result (AddsAt linked.now index (Wanted.Addresses Family.V6) v6.old.items v6.new.items) }
{
    let places = places_behind(alloc, linked, index, marks)?;
    push_networks(v4, v6, linked.table(), index, &places)
}

/// Puts the addresses of both families that the name reaches behind others.
pub fn add_addresses(
    alloc: Global,
    linked: &LinkedTable,
    name: &[u8],
    marks: &mut Marks,
    v4: &mut Vec<Range>,
    v6: &mut Vec<Range>,
) -> Result<(), Lookup>
    ensures v4 { OnOk result (AddsReach linked.now name.now (Wanted.Addresses Family.V4)
        v4.old.items v4.new.items) }
    ensures v6 { OnOk result (AddsReach linked.now name.now (Wanted.Addresses Family.V6)
        v6.old.items v6.new.items) }
    ensures unknown { (result ≡ Err Lookup.Unknown) ↔ (index_of linked.now name.now ≡ None) }
    ensures no_port { result ≡ Err Lookup.NoPort → ⊥ }
{
    let Some(index) = find(linked.table(), name, marks) else {
        return Err(Lookup::Unknown);
    };
    add_addresses_at(alloc, linked, index, marks, v4, v6)?;
    Ok(())
}

/// The same, where the marks tell the definitions whose addresses lie among the others already: those are not put there
/// again.
pub fn add_addresses_once(
    alloc: Global,
    linked: &LinkedTable,
    name: &[u8],
    marks: &mut Marks,
    added: &mut Marks,
    v4: &mut Vec<Range>,
    v6: &mut Vec<Range>,
) -> Result<(), Lookup>
    requires { AreAdded linked.now added.old v4.old.items v6.old.items }
    ensures v4 { OnOk result (AddsReach linked.now name.now (Wanted.Addresses Family.V4)
        v4.old.items v4.new.items) }
    ensures v6 { OnOk result (AddsReach linked.now name.now (Wanted.Addresses Family.V6)
        v6.old.items v6.new.items) }
    ensures added { OnOk result (AreAdded linked.now added.new v4.new.items v6.new.items) }
    ensures unknown { (result ≡ Err Lookup.Unknown) ↔ (index_of linked.now name.now ≡ None) }
    ensures no_port { result ≡ Err Lookup.NoPort → ⊥ }
{
    let Some(index) = find(linked.table(), name, marks) else {
        return Err(Lookup::Unknown);
    };
    if added.has(index) {
        return Ok(());
    }
    add_addresses_at(alloc, linked, index, marks, v4, v6)?;
    added.set(index);
    Ok(())
}

/// The ranges of what the name reaches. Its definition is looked for at `near` first, which then tells where it stands.
pub fn ranges_of(
    alloc: Global,
    linked: &LinkedTable,
    wanted: Wanted,
    name: &[u8],
    near: &mut usize,
) -> Result<Vec<Range>, Lookup>
    ensures reached { IfOk result (λ v. IsReach linked.now name.now wanted v.items) }
    ensures unknown { (result ≡ Err Lookup.Unknown) ↔ (index_of linked.now name.now ≡ None) }
    ensures no_port { result ≡ Err Lookup.NoPort → ⊥ }
{
    let table = linked.table();
    let Some(index) = table.index_near(*near, name) else {
        return Err(Lookup::Unknown);
    };
    *near = index;
    let places = places_behind(alloc, linked, index, &mut Marks::new(alloc))?;
    let mut out = Vec::new(alloc);
    push_reached(&mut out, table, index, &places, wanted)?;
    Ok(out)
}
