ghost use Rattle.std.specs.Prelude.{◌≡◌, option_map, IfOk};
ghost use Rattle.acl_text.specs.AddressTexts.{prefix_in};
ghost use Rattle.acl_naming.specs.declared.naming_items.Item.TheVariants.{Network, Service};
ghost use Rattle.acl_naming.specs.ItemWords.{
  item_in,
  name_in,
  network_in,
  service_in,
  service_ports_in,
};

use crate::name_texts::NameText;
use crate::naming_items::{Item, PortsItem, PrefixItem, Reference};
use acl_packet::protocol_number;
use acl_text::{Memory, Place, contains_byte, is_name, read_ports, read_prefix, split_at_byte};
use std::alloc::Global;

/// What a naming file defines.
#[derive(Clone, Copy)]
pub enum NamingKind {
    Networks,
    Services,
}

#[tactic(auto, unfolding(crate::specs::ItemWords::service_ports_in))]
fn read_service_ports(word: &[u8]) -> Option<PortsItem>
    ensures { result ≡ service_ports_in word.now }
{
    let (ports, protocol) = split_at_byte(word, b'/')?;
    let (low, high) = read_ports(ports, b'-')?;
    let proto = protocol_number(protocol)?;
    Some(PortsItem::new(proto, low, high))
}

pub fn read_block(word: &[u8]) -> Option<PrefixItem>
    ensures { result ≡ prefix_in word.now }
{
    let prefix = read_prefix(word)?;
    Some(PrefixItem::new(prefix))
}

fn read_name(alloc: Global, place: Place, word: &[u8]) -> Result<Option<Item>, Memory>
    ensures { IfOk result (λ o. o ≡ name_in place word.now) }
{
    let Some(name) = NameText::read(alloc, word)? else {
        return Ok(None);
    };
    Ok(Some(Item::Name(Reference { place, name })))
}

fn network(word: &[u8]) -> Option<Item>
    ensures { result ≡ option_map Network (prefix_in word.now) }
{
    let block = read_block(word)?;
    Some(Item::Network(block))
}

fn service(word: &[u8]) -> Option<Item>
    ensures { result ≡ option_map Service (service_ports_in word.now) }
{
    let ports = read_service_ports(word)?;
    Some(Item::Service(ports))
}

// A word that is no name is read as a prefix, since no prefix lacks both `.` and `:`.
#[tactic(auto, using(crate::proofs::MarkedWords::named, crate::proofs::MarkedWords::unnamed))]
fn read_network(alloc: Global, place: Place, word: &[u8]) -> Result<Option<Item>, Memory>
    ensures { IfOk result (λ o. o ≡ network_in place word.now) }
{
    if is_name(word) {
        read_name(alloc, place, word)
    } else {
        Ok(network(word))
    }
}

#[tactic(auto, unfolding(crate::specs::ItemWords::service_in))]
fn read_service(alloc: Global, place: Place, word: &[u8]) -> Result<Option<Item>, Memory>
    ensures { IfOk result (λ o. o ≡ service_in place word.now) }
{
    if contains_byte(word, b'/') {
        Ok(service(word))
    } else {
        read_name(alloc, place, word)
    }
}

/// The item of the word, where it is one of the kind.
#[tactic(auto, unfolding(crate::specs::ItemWords::item_in))]
pub fn read_item(
    alloc: Global,
    kind: NamingKind,
    place: Place,
    word: &[u8],
) -> Result<Option<Item>, Memory>
    ensures { IfOk result (λ o. o ≡ item_in kind place word.now) }
{
    match kind {
        NamingKind::Networks => read_network(alloc, place, word),
        NamingKind::Services => read_service(alloc, place, word),
    }
}
