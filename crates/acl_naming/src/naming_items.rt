ghost use Rattle.std.specs.Prelude.{◌≡◌, ℕ, ◌+◌, ◌≤◌};
ghost use Rattle.acl_packet.specs.Addresses.{IsPrefix, has_address, size_of, top_address};
ghost use Rattle.acl_sets.specs.Ranges.{IsRange, inside};
ghost use Rattle.acl_naming.specs.Ports.{has_port, top_port};

use crate::name_texts::NameText;
use acl_packet::{Family, Prefix};
use acl_sets::Range;
use acl_text::Place;
use std::marker::Model;

/// A name that a definition refers to, and the place where it stands.
#[derive(Drop)]
pub struct Reference {
    pub place: Place,
    pub name: NameText,
}

/// A prefix as an item. A contract sees the prefix.
#[derive(Drop)]
pub struct PrefixItem {
    prefix: Prefix,
}

impl Model for PrefixItem {
    ghost use Rattle.acl_packet.specs.declared.addresses.Prefix.{Prefix};
    ghost use Rattle.acl_packet.specs.Addresses.{IsPrefix};

    ghost Value = { Prefix };

    ghost view = { λ b. b.prefix };

    ghost invariant = { λ b. IsPrefix b.prefix };
}

// The highest address of the prefix. Most are those of one host.
fn last_of(prefix: &Prefix) -> u128
    requires { IsPrefix prefix.now }
    ensures { result + 1 ≡ prefix.now.first + size_of prefix.now }
{
    if prefix.len == prefix.family.width() {
        prefix.first
    } else {
        prefix.last()
    }
}

impl PrefixItem {
    pub(crate) fn new(prefix: Prefix) -> PrefixItem
        requires { IsPrefix prefix }
        ensures { result ≡ prefix }
    {
        PrefixItem { prefix }
    }

    pub(crate) fn family(&self) -> Family
        ensures { result ≡ self.now.family }
    {
        self.prefix.family
    }

    /// The addresses of the prefix, as numbers.
    pub(crate) fn range(&self) -> Range
        ensures exact { (x : ℕ) → inside result x ≡ has_address self.now x }
        ensures within { IsRange (top_address self.now.family) result }
    {
        Range {
            low: self.prefix.first,
            high: last_of(&self.prefix),
        }
    }
}

/// Ports of a protocol as an item. A contract sees the protocol and both ends.
#[derive(Drop)]
pub struct PortsItem {
    proto: u8,
    low: u16,
    high: u16,
}

impl Model for PortsItem {
    ghost use Rattle.std.specs.Prelude.{◌≤◌};
    ghost use Rattle.acl_naming.specs.Ports.{Ports};

    ghost Value = { Ports };

    ghost view = { λ p. record { proto = p.proto; low = p.low; high = p.high } };

    ghost invariant = { λ p. p.low ≤ p.high };
}

impl PortsItem {
    pub(crate) fn new(proto: u8, low: u16, high: u16) -> PortsItem
        requires { low ≤ high }
        ensures { result ≡ record { proto = proto; low = low; high = high } }
    {
        PortsItem { proto, low, high }
    }

    pub(crate) fn proto(&self) -> u8
        ensures { result ≡ self.now.proto }
    {
        self.proto
    }

    /// The ports, as numbers.
    pub(crate) fn range(&self) -> Range
        ensures exact { (x : ℕ) → inside result x ≡ has_port self.now x }
        ensures within { IsRange top_port result }
    {
        Range {
            low: u128::from(self.low),
            high: u128::from(self.high),
        }
    }
}

/// What stands in a definition: a name, a prefix of addresses, or ports of a protocol.
#[derive(Drop)]
pub enum Item {
    Name(Reference),
    Network(PrefixItem),
    Service(PortsItem),
}
