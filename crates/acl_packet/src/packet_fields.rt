ghost use Rattle.std.specs.Prelude.{◌≡◌, ◌↔◌, ◌≤◌, IsTrue, false};
ghost use Rattle.std.specs.List.{list_all};
ghost use Rattle.acl_packet.specs.declared.packet_fields.Field.{Field};
ghost use Rattle.acl_packet.specs.FieldSteps.{is_fitting};
ghost use Rattle.acl_packet.specs.Packets.{fields, has_field, number_of, top_of};

use crate::addresses::Family;
use crate::packets::{Packet, has_ports, is_icmp};

/// The numbers of a packet, beside its addresses, that a filter has sets of.
#[derive(Clone, Copy, PartialEq, Eq)]
pub enum Field {
    Protocol,
    SourcePort,
    DestinationPort,
    IcmpType,
    IcmpCode,
}

/// Each field once.
pub fn fields() -> &'static [Field]
    ensures { result.now ≡ fields }
{
    &[
        Field::Protocol,
        Field::SourcePort,
        Field::DestinationPort,
        Field::IcmpType,
        Field::IcmpCode,
    ]
}

impl Field {
    /// The number that the packet has in the field.
    pub fn number_in(self, packet: &Packet) -> u16
        ensures { result ≡ number_of self packet.now }
    {
        match self {
            Field::Protocol => u16::from(packet.proto),
            Field::SourcePort => packet.sport,
            Field::DestinationPort => packet.dport,
            Field::IcmpType => u16::from(packet.itype),
            Field::IcmpCode => u16::from(packet.icode),
        }
    }

    /// The greatest number of the field.
    pub fn top(self) -> u16
        ensures { result ≡ top_of self }
    {
        match self {
            Field::SourcePort | Field::DestinationPort => 65535,
            Field::Protocol | Field::IcmpType | Field::IcmpCode => 255,
        }
    }

    /// Whether packets of the family and the protocol have the field.
    pub fn is_of(self, family: Family, proto: u8) -> bool
        ensures { result ≡ has_field family self proto }
    {
        match self {
            Field::Protocol => true,
            Field::SourcePort | Field::DestinationPort => has_ports(proto),
            Field::IcmpType | Field::IcmpCode => is_icmp(family, proto),
        }
    }
}

// Whether the packet has the field, or else 0 there.
fn is_fitting(field: Field, packet: &Packet) -> bool
    ensures { result ≡ is_fitting packet.now field }
{
    field.is_of(packet.family, packet.proto) || field.number_in(packet) == 0
}

/// Whether each field that packets of its protocol have not is 0. Each is within its top in any case, by its type.
#[tactic(auto, using(crate::proofs::FieldLaws::absent_law))]
pub(crate) fn are_fitting(packet: &Packet) -> bool
    ensures absent { IsTrue result ↔ ((field : Field) → has_field packet.now.family field packet.now.proto ≡ false
        → number_of field packet.now ≡ 0) }
    ensures numbers { (field : Field) → number_of field packet.now ≤ top_of field }
{
    // read here, the numbers are known to be within their types
    let Packet {
        proto: _proto,
        sport: _sport,
        dport: _dport,
        itype: _itype,
        icode: _icode,
        ..
    } = *packet;
    each_is_fitting(packet)
}

fn each_is_fitting(packet: &Packet) -> bool
    ensures { result ≡ list_all (is_fitting packet.now) fields }
{
    fields().iter().all(|field| is_fitting(*field, packet))
}
