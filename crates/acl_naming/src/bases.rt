ghost use Rattle.std.specs.Prelude.{◌≡◌, ◌≢◌, ◌↔◌, ◌≤◌, ℕ, [], true, None, Err, IfOk, OnOk, length};
ghost use Rattle.acl_sets.specs.Ranges.{IsNormal, holds};
ghost use Rattle.acl_naming.specs.Checking.{IsChecked};
ghost use Rattle.acl_naming.specs.ComputableReach.{addresses_reached, ports_reached};
ghost use Rattle.acl_naming.specs.Definitions.{index_of};
ghost use Rattle.acl_naming.specs.LookupSteps.{AddsReach, AreAdded, NoneAreAdded};
ghost use Rattle.acl_packet.specs.Addresses.{top_address};
ghost use Rattle.acl_naming.specs.Ports.{top_port};
ghost use Rattle.acl_naming.specs.NamingFiles.{AddsNetworks, AddsServices};
ghost use Rattle.acl_naming.specs.Reach.{ReachesAddress, ReachesPort, ReachesProtocol};

use crate::checking::check_tables;
use crate::item_words::NamingKind;
use crate::linking::LinkedTable;
use crate::lookups::Lookup;
use crate::marks::Marks;
use crate::naming_files::add_file;
use crate::reaching::{Wanted, add_addresses, add_addresses_once, ranges_of, top_of};
use crate::tables::Table;
use acl_packet::Family;
use acl_sets::{Range, RangeSet};
use acl_text::{Memory, Refusal};
use std::alloc::Global;
use std::marker::Model;

/// The definitions of naming files as they are read. A contract sees the networks and the services, each a list
/// of name, place and items.
#[derive(Drop)]
pub struct Base {
    alloc: Global,
    networks: Table,
    services: Table,
}

impl Model for Base {
    ghost use Rattle.acl_naming.specs.Definitions.{Naming};

    ghost Value = { Naming };

    ghost view = { λ b. record { networks = b.networks; services = b.services } };
}

/// Definitions of which each name is defined and none reaches itself. A contract sees what it sees of a `Base`.
pub struct Checked {
    networks: LinkedTable,
    services: LinkedTable,
}

impl Model for Checked {
    ghost use Rattle.acl_naming.specs.Definitions.{Naming};

    ghost Value = { Naming };

    ghost view = { λ c. record { networks = c.networks; services = c.services } };
}

// Where they are let go, that is one step, whatever they hold.
impl Drop for Checked {
    fn drop(self) {
        let Checked { networks, services } = self;
        drop(networks);
        drop(services);
    }
}

impl Base {
    /// No definitions.
    pub fn new(alloc: Global) -> Base
        ensures { result ≡ record { networks = []; services = [] } }
    {
        Base {
            alloc,
            networks: Table::new(alloc),
            services: Table::new(alloc),
        }
    }
}

/// The base with the network definitions of a naming file, in order.
///
/// The first slip of the file is told: `BadByte`, `BadName`, `NoDefinition`, `BadValue`, `Twice` or `TooMany`.
pub fn read_networks(base: Base, file: u32, bytes: &[u8]) -> Result<Base, Refusal>
    requires { length bytes.now ≤ 4194304 }
    ensures { AddsNetworks file base bytes.now result }
{
    let Base {
        alloc,
        mut networks,
        services,
    } = base;
    add_file(alloc, &mut networks, NamingKind::Networks, file, bytes)?;
    Ok(Base {
        alloc,
        networks,
        services,
    })
}

/// The base with the service definitions of a naming file, in order. Slips are those of `read_networks`.
pub fn read_services(base: Base, file: u32, bytes: &[u8]) -> Result<Base, Refusal>
    requires { length bytes.now ≤ 4194304 }
    ensures { AddsServices file base bytes.now result }
{
    let Base {
        alloc,
        networks,
        mut services,
    } = base;
    add_file(alloc, &mut services, NamingKind::Services, file, bytes)?;
    Ok(Base {
        alloc,
        networks,
        services,
    })
}

/// The same definitions, where each name that stands in them is defined in its kind and none reaches itself.
///
/// Slips: `Undefined` at the first item that is a name defined nowhere, networks before services. Where there is
/// none, `Cycle` at the first definition that reaches itself, in the same order.
pub fn check_base(base: Base) -> Result<Checked, Refusal>
    ensures same { IfOk result (λ c. c ≡ base) }
    ensures exact { IsChecked base result }
{
    let Base {
        alloc,
        networks,
        services,
    } = base;
    let networks = LinkedTable::new(alloc, networks)?;
    let services = LinkedTable::new(alloc, services)?;
    check_tables(alloc, &networks, &services)?;
    Ok(Checked { networks, services })
}

/// The addresses of the family that the name reaches, as numbers.
///
/// `Unknown` exactly where no network has the name; never `NoPort`.

pub fn networks_of(
    alloc: Global,
    base: &Checked,
    family: Family,
    name: &[u8],
) -> Result<RangeSet, Lookup>
    ensures top { IfOk result (λ s. s.top ≡ top_address family) }
    ensures normal { IfOk result (λ s. IsNormal 0 s.top s.ranges) }
    ensures exact { IfOk result (λ s. (x : ℕ) → (holds s.ranges x ≡ true)
        ↔ ReachesAddress base.now.networks name.now family x) }
    ensures computed { IfOk result (λ s.
        s.ranges ≡ addresses_reached base.now.networks family name.now) }
    ensures unknown { (result ≡ Err Lookup.Unknown) ↔ (index_of base.now.networks name.now ≡ None) }
    ensures no_port { result ≡ Err Lookup.NoPort → ⊥ }
{
    let wanted = Wanted::Addresses(family);
    let ranges = ranges_of(alloc, &base.networks, wanted, name, &mut 0)?;
    Ok(RangeSet::from_vec(alloc, top_of(wanted), ranges)?)
}

/// The ports that the name reaches with the protocol.
///
/// `Unknown` exactly where no service has the name; `NoPort` only where the name reaches no ports of the
/// protocol, and a set only where it reaches some.

pub fn ports_of(alloc: Global, base: &Checked, proto: u8, name: &[u8]) -> Result<RangeSet, Lookup>
    ensures top { IfOk result (λ s. s.top ≡ top_port) }
    ensures normal { IfOk result (λ s. IsNormal 0 s.top s.ranges) }
    ensures exact { IfOk result (λ s. (n : ℕ) → (holds s.ranges n ≡ true)
        ↔ ReachesPort base.now.services name.now proto n) }
    ensures computed { IfOk result (λ s.
        s.ranges ≡ ports_reached base.now.services proto name.now) }
    ensures some { IfOk result (λ s. s.ranges ≢ []) }
    ensures unknown { (result ≡ Err Lookup.Unknown) ↔ (index_of base.now.services name.now ≡ None) }
    ensures no_port { result ≡ Err Lookup.NoPort
        → ReachesProtocol base.now.services name.now proto → ⊥ }
    ensures reached { IfOk result (λ s. ReachesProtocol base.now.services name.now proto) }
{
    ports_near(alloc, base, proto, name, &mut 0)
}

/// The same. The name's definition is looked for at `near` first, which then tells where it stands.
pub fn ports_near(
    alloc: Global,
    base: &Checked,
    proto: u8,
    name: &[u8],
    near: &mut usize,
) -> Result<RangeSet, Lookup>
    ensures top { IfOk result (λ s. s.top ≡ top_port) }
    ensures normal { IfOk result (λ s. IsNormal 0 s.top s.ranges) }
    ensures exact { IfOk result (λ s. (n : ℕ) → (holds s.ranges n ≡ true)
        ↔ ReachesPort base.now.services name.now proto n) }
    ensures computed { IfOk result (λ s.
        s.ranges ≡ ports_reached base.now.services proto name.now) }
    ensures some { IfOk result (λ s. s.ranges ≢ []) }
    ensures unknown { (result ≡ Err Lookup.Unknown) ↔ (index_of base.now.services name.now ≡ None) }
    ensures no_port { result ≡ Err Lookup.NoPort
        → ReachesProtocol base.now.services name.now proto → ⊥ }
    ensures reached { IfOk result (λ s. ReachesProtocol base.now.services name.now proto) }
{
    let wanted = Wanted::Ports(proto);
    let ranges = ranges_of(alloc, &base.services, wanted, name, near)?;
    if ranges.is_empty() {
        return Err(Lookup::NoPort);
    }
    Ok(RangeSet::from_vec(alloc, top_of(wanted), ranges)?)
}

/// Puts the addresses of both families that the name reaches behind others.
///
/// `Unknown` exactly where no network has the name; never `NoPort`. The marks are used, whatever they are: where many
/// names are looked up, they are made once.
pub fn add_networks(
    alloc: Global,
    base: &Checked,
    name: &[u8],
    marks: &mut Marks,
    v4: &mut Vec<Range>,
    v6: &mut Vec<Range>,
) -> Result<(), Lookup>
    ensures v4 { OnOk result (AddsReach base.now.networks name.now (Wanted.Addresses Family.V4)
        v4.old.items v4.new.items) }
    ensures v6 { OnOk result (AddsReach base.now.networks name.now (Wanted.Addresses Family.V6)
        v6.old.items v6.new.items) }
    ensures unknown { (result ≡ Err Lookup.Unknown) ↔ (index_of base.now.networks name.now ≡ None) }
    ensures no_port { result ≡ Err Lookup.NoPort → ⊥ }
{
    add_addresses(alloc, &base.networks, name, marks, v4, v6)
}

/// No network has a mark: of none the addresses lie among others.
pub fn begin_networks(base: &Checked, added: &mut Marks) -> Result<(), Memory>
    ensures { OnOk result (NoneAreAdded base.now.networks added.new) }
{
    added.clear(base.networks.len())
}

/// Puts the addresses of both families that the name reaches behind others, as `add_networks` does. Where a mark tells that
/// those of its network lie there, they are not put there again.
pub fn add_networks_once(
    alloc: Global,
    base: &Checked,
    name: &[u8],
    marks: &mut Marks,
    added: &mut Marks,
    v4: &mut Vec<Range>,
    v6: &mut Vec<Range>,
) -> Result<(), Lookup>
    requires { AreAdded base.now.networks added.old v4.old.items v6.old.items }
    ensures v4 { OnOk result (AddsReach base.now.networks name.now (Wanted.Addresses Family.V4)
        v4.old.items v4.new.items) }
    ensures v6 { OnOk result (AddsReach base.now.networks name.now (Wanted.Addresses Family.V6)
        v6.old.items v6.new.items) }
    ensures added { OnOk result (AreAdded base.now.networks added.new v4.new.items v6.new.items) }
    ensures unknown { (result ≡ Err Lookup.Unknown) ↔ (index_of base.now.networks name.now ≡ None) }
    ensures no_port { result ≡ Err Lookup.NoPort → ⊥ }
{
    add_addresses_once(alloc, &base.networks, name, marks, added, v4, v6)
}
