ghost use Rattle.std.specs.Prelude.{◌≡◌};
ghost use Rattle.acl_terms.specs.Options.{passes};
ghost use Rattle.acl_terms.specs.Resolved.{
  addresses_match,
  destination_in,
  either_in,
  has_number,
  has_protocol,
  holds_either,
  matches,
  numbers_match,
  set_in,
  source_in,
};

use crate::options::{Mode, Opt};
use crate::terms::Term;
use acl_packet::{Family, Field, Packet, fields, has_flag};
use acl_sets::RangeSet;

// ---- options

// Whether the packet passes `established` where no connections are known.
fn seems_established(dport_named: bool, packet: &Packet) -> bool
    ensures { result ≡ passes Opt.Established Mode.Stateless dport_named packet.now }
{
    if packet.proto == 6 {
        packet.has_ack_or_rst()
    } else {
        dport_named || 1024 <= packet.dport
    }
}

fn passes(option: Opt, mode: Mode, dport_named: bool, packet: &Packet) -> bool
    ensures { result ≡ passes option mode dport_named packet.now }
{
    match (option, mode) {
        (Opt::Plain, _) => true,
        (Opt::Established | Opt::TcpEstablished, Mode::Stateful) => packet.conn.is_tracked(),
        (Opt::Established, Mode::Stateless) => seems_established(dport_named, packet),
        (Opt::TcpEstablished, Mode::Stateless) => packet.has_ack_or_rst(),
        (Opt::TcpInitial, _) => packet.is_initial(),
        (Opt::Rst, _) => has_flag(packet.flags, 4),
    }
}

// ---- sets

/// The term's sources of the family.
pub fn source_in(family: Family, term: &Term) -> &RangeSet
    ensures { result.now ≡ source_in family term.now }
{
    match family {
        Family::V4 => &term.src4,
        Family::V6 => &term.src6,
    }
}

/// The term's destinations of the family.
pub fn destination_in(family: Family, term: &Term) -> &RangeSet
    ensures { result.now ≡ destination_in family term.now }
{
    match family {
        Family::V4 => &term.dst4,
        Family::V6 => &term.dst6,
    }
}

/// The addresses of the family of which the term asks either side of a packet.
pub fn either_in(family: Family, term: &Term) -> &RangeSet
    ensures { result.now ≡ either_in family term.now }
{
    match family {
        Family::V4 => &term.addr4,
        Family::V6 => &term.addr6,
    }
}

/// The term's set of the field.
pub fn set_in(field: Field, term: &Term) -> &RangeSet
    ensures { result.now ≡ set_in field term.now }
{
    match field {
        Field::Protocol => &term.protos,
        Field::SourcePort => &term.sports,
        Field::DestinationPort => &term.dports,
        Field::IcmpType => &term.itypes,
        Field::IcmpCode => &term.icodes,
    }
}

fn has_protocol(family: Family, term: &Term, proto: u16) -> bool
    ensures { result ≡ has_protocol family term.now proto }
{
    term.protos.contains(u128::from(proto))
        && (term.protos.is_all() || proto != u16::from(family.foreign_number()))
}

fn has_number(family: Family, term: &Term, field: Field, number: u16) -> bool
    ensures { result ≡ has_number family term.now field number }
{
    match field {
        Field::Protocol => has_protocol(family, term, number),
        _ => set_in(field, term).contains(u128::from(number)),
    }
}

fn numbers_match(term: &Term, packet: &Packet) -> bool
    ensures { result ≡ numbers_match packet.now.family term.now packet.now }
{
    fields().iter().all(|field| has_number(packet.family, term, *field, field.number_in(packet)))
}

fn holds_either(set: &RangeSet, first: u128, second: u128) -> bool
    ensures { result ≡ holds_either set.now first second }
{
    set.contains(first) || set.contains(second)
}

fn addresses_match(term: &Term, packet: &Packet) -> bool
    ensures { result ≡ addresses_match packet.now.family term.now packet.now }
{
    source_in(packet.family, term).contains(packet.src)
        && destination_in(packet.family, term).contains(packet.dst)
        && holds_either(either_in(packet.family, term), packet.src, packet.dst)
}

/// Whether the term matches the packet: the family's source and destination hold its addresses, what is asked of
/// either address one of them, the term's set of each field its number there, what is asked of either port one of its
/// ports, and it passes the option. Where protocols are named, none of them is the other family's ICMP.
#[tactic(auto, unfolding(crate::specs::Resolved::matches))]
pub fn matches(term: &Term, mode: Mode, packet: &Packet) -> bool
    ensures { result ≡ matches mode term.now packet.now }
{
    addresses_match(term, packet)
        && numbers_match(term, packet)
        && holds_either(
            &term.ports,
            u128::from(packet.sport),
            u128::from(packet.dport),
        )
        && passes(term.option, mode, term.dport_named, packet)
}
