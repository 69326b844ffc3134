ghost use Rattle.std.specs.Prelude.{◌≡◌, ◌++◌, ◌∷◌, [], IfOk, OnOk};
ghost use Rattle.term_boxes.specs.Bars.{bars, field_bars, port_bars};
ghost use Rattle.term_boxes.specs.Boxes.{everything};
ghost use Rattle.term_boxes.specs.NumberSets.{but_icmp, but_tcp, extension_headers, from_one, without_ports};

use crate::boxes::PacketBox;
use crate::number_sets::{but_icmp, but_tcp, extension_headers, from_one, without_ports};
use acl_packet::Family;
use acl_text::{Items, Memory};
use std::alloc::Global;

// A source port where the protocol has none.
fn source_port_bar(alloc: Global, family: Family) -> Result<PacketBox, Memory>
    ensures { IfOk result (λ b. b
        ≡ record (everything family) { protocols = without_ports; source_ports = from_one 65535 }) }
{
    let protocols = without_ports(alloc)?;
    let ports = from_one(alloc, 65535)?;
    Ok(
        PacketBox::everything(alloc, family)?
            .with_protocols(protocols)
            .with_source_ports(ports),
    )
}

// A destination port there.
fn destination_port_bar(alloc: Global, family: Family) -> Result<PacketBox, Memory>
    ensures { IfOk result (λ b. b
        ≡ record (everything family) { protocols = without_ports; destination_ports = from_one 65535 }) }
{
    let protocols = without_ports(alloc)?;
    let ports = from_one(alloc, 65535)?;
    Ok(
        PacketBox::everything(alloc, family)?
            .with_protocols(protocols)
            .with_destination_ports(ports),
    )
}

// A flag of TCP in another protocol.
fn flag_bar(alloc: Global, family: Family) -> Result<PacketBox, Memory>
    ensures { IfOk result (λ b. b
        ≡ record (everything family) { protocols = but_tcp; flags = from_one 63 }) }
{
    let protocols = but_tcp(alloc)?;
    let flags = from_one(alloc, 63)?;
    Ok(
        PacketBox::everything(alloc, family)?
            .with_protocols(protocols)
            .with_flags(flags),
    )
}

// A type where the protocol is not the family's ICMP.
fn type_bar(alloc: Global, family: Family) -> Result<PacketBox, Memory>
    ensures { IfOk result (λ b. b
        ≡ record (everything family) { protocols = but_icmp family; types = from_one 255 }) }
{
    let protocols = but_icmp(alloc, family)?;
    let types = from_one(alloc, 255)?;
    Ok(
        PacketBox::everything(alloc, family)?
            .with_protocols(protocols)
            .with_types(types),
    )
}

// A code there.
fn code_bar(alloc: Global, family: Family) -> Result<PacketBox, Memory>
    ensures { IfOk result (λ b. b
        ≡ record (everything family) { protocols = but_icmp family; codes = from_one 255 }) }
{
    let protocols = but_icmp(alloc, family)?;
    let codes = from_one(alloc, 255)?;
    Ok(
        PacketBox::everything(alloc, family)?
            .with_protocols(protocols)
            .with_codes(codes),
    )
}

// An extension header for a protocol.
fn header_bar(alloc: Global, family: Family) -> Result<PacketBox, Memory>
    ensures { IfOk result (λ b. b ≡ record (everything family) { protocols = extension_headers }) }
{
    let protocols = extension_headers(alloc)?;
    Ok(PacketBox::everything(alloc, family)?.with_protocols(protocols))
}

fn push_port_bars(alloc: Global, out: &mut Items<PacketBox>, family: Family) -> Result<(), Memory>
    ensures { OnOk result (out.new ≡ out.old ++ port_bars family) }
{
    out.push(source_port_bar(alloc, family)?)?;
    out.push(destination_port_bar(alloc, family)?)
}

fn push_field_bars(alloc: Global, out: &mut Items<PacketBox>, family: Family) -> Result<(), Memory>
    ensures { OnOk result (out.new ≡ out.old ++ field_bars family) }
{
    out.push(flag_bar(alloc, family)?)?;
    out.push(type_bar(alloc, family)?)?;
    out.push(code_bar(alloc, family)?)
}

/// What keeps fields from being those of a packet, as boxes: a port, flags, a type or a code where the protocol has
/// none, and in IPv6 an extension header for a protocol.
#[tactic(auto, unfolding(crate::specs::Bars::bars))]
pub fn bars(alloc: Global, family: Family) -> Result<Items<PacketBox>, Memory>
    ensures { IfOk result (λ bs. bs ≡ bars family) }
{
    let mut out = Items::new(alloc);
    if family == Family::V6 {
        out.push(header_bar(alloc, family)?)?;
    }
    push_port_bars(alloc, &mut out, family)?;
    push_field_bars(alloc, &mut out, family)?;
    Ok(out)
}
