ghost use Rattle.std.specs.Prelude.{◌≡◌, IfOk};
ghost use Rattle.term_boxes.specs.Boxes.{everything};
ghost use Rattle.term_boxes.specs.NumberSets.{up_to};

use crate::number_sets::up_to;
use acl_packet::Family;
use acl_sets::RangeSet;
use acl_text::Memory;
use std::alloc::Global;

/// A set of packets of a family: what it holds along each coordinate, by itself.
///
/// Flags and connections are told by their places, as in `packet_at`.
pub struct PacketBox {
    pub sources: RangeSet,
    pub destinations: RangeSet,
    pub protocols: RangeSet,
    pub source_ports: RangeSet,
    pub destination_ports: RangeSet,
    pub types: RangeSet,
    pub codes: RangeSet,
    pub flags: RangeSet,
    pub connections: RangeSet,
}

// Where a box is let go, that is one step, whatever it holds.
impl Drop for PacketBox {
    fn drop(self) {
        let PacketBox {
            sources,
            destinations,
            protocols,
            source_ports,
            destination_ports,
            types,
            codes,
            flags,
            connections,
        } = self;
        drop(sources);
        drop(destinations);
        drop(protocols);
        drop(source_ports);
        drop(destination_ports);
        drop(types);
        drop(codes);
        drop(flags);
        drop(connections);
    }
}

impl PacketBox {
    /// The box of all packets of the family.
    pub(crate) fn everything(alloc: Global, family: Family) -> Result<PacketBox, Memory>
        ensures { IfOk result (λ b. b ≡ everything family) }
    {
        let protocols = up_to(alloc, 255)?;
        let (sources, destinations) = all_of_both(alloc, family.top_address())?;
        let (source_ports, destination_ports) = all_of_both(alloc, 65535)?;
        let (types, codes) = all_of_both(alloc, 255)?;
        let (flags, connections) = all_states(alloc)?;
        Ok(PacketBox {
            sources,
            destinations,
            protocols,
            source_ports,
            destination_ports,
            types,
            codes,
            flags,
            connections,
        })
    }

    /// The same box once more. Its sets are not copied.
    pub(crate) fn share(&self) -> Result<PacketBox, Memory>
        ensures { IfOk result (λ b. b ≡ self.now) }
    {
        let protocols = self.protocols.share()?;
        let (sources, destinations) = share_both(&self.sources, &self.destinations)?;
        let (source_ports, destination_ports) = share_both(
            &self.source_ports,
            &self.destination_ports,
        )?;
        let (types, codes) = share_both(&self.types, &self.codes)?;
        let (flags, connections) = share_both(&self.flags, &self.connections)?;
        Ok(PacketBox {
            sources,
            destinations,
            protocols,
            source_ports,
            destination_ports,
            types,
            codes,
            flags,
            connections,
        })
    }

    pub(crate) fn with_protocols(self, protocols: RangeSet) -> PacketBox
        ensures { result ≡ record self { protocols = protocols } }
    {
        let mut out = self;
        out.protocols = protocols;
        out
    }

    pub(crate) fn with_source_ports(self, ports: RangeSet) -> PacketBox
        ensures { result ≡ record self { source_ports = ports } }
    {
        let mut out = self;
        out.source_ports = ports;
        out
    }

    pub(crate) fn with_destination_ports(self, ports: RangeSet) -> PacketBox
        ensures { result ≡ record self { destination_ports = ports } }
    {
        let mut out = self;
        out.destination_ports = ports;
        out
    }

    pub(crate) fn with_types(self, types: RangeSet) -> PacketBox
        ensures { result ≡ record self { types = types } }
    {
        let mut out = self;
        out.types = types;
        out
    }

    pub(crate) fn with_codes(self, codes: RangeSet) -> PacketBox
        ensures { result ≡ record self { codes = codes } }
    {
        let mut out = self;
        out.codes = codes;
        out
    }

    pub(crate) fn with_flags(self, flags: RangeSet) -> PacketBox
        ensures { result ≡ record self { flags = flags } }
    {
        let mut out = self;
        out.flags = flags;
        out
    }

    pub(crate) fn with_connections(self, connections: RangeSet) -> PacketBox
        ensures { result ≡ record self { connections = connections } }
    {
        let mut out = self;
        out.connections = connections;
        out
    }
}

// All numbers up to the top, for two coordinates.
fn all_of_both(alloc: Global, top: u128) -> Result<(RangeSet, RangeSet), Memory>
    ensures { IfOk result (λ both. both ≡ (up_to top, up_to top)) }
{
    Ok((up_to(alloc, top)?, up_to(alloc, top)?))
}

/// All flags and all connections.
pub(crate) fn all_states(alloc: Global) -> Result<(RangeSet, RangeSet), Memory>
    ensures { IfOk result (λ both. both ≡ (up_to 63, up_to 3)) }
{
    Ok((up_to(alloc, 63)?, up_to(alloc, 3)?))
}

/// Both sets, each for one place more.
pub(crate) fn share_both(one: &RangeSet, other: &RangeSet) -> Result<(RangeSet, RangeSet), Memory>
    ensures { IfOk result (λ both. both ≡ (one.now, other.now)) }
{
    Ok((one.share()?, other.share()?))
}
