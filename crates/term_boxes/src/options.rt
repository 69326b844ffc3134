ghost use Rattle.std.specs.Prelude.{◌≡◌, ◌≤◌, ◌++◌, ◌∷◌, [], IfOk, OnOk};
ghost use Rattle.acl_terms.specs.Resolved.{in_both};
ghost use Rattle.term_boxes.specs.Boxes.{everything};
ghost use Rattle.term_boxes.specs.NumberSets.{
  ack_or_rst,
  but_tcp,
  neither_ack_nor_rst,
  server_ports,
  tcp,
};
ghost use Rattle.term_boxes.specs.TermBoxes.{established_ports, failing, passing, seeming_established, seeming_new};

use crate::boxes::PacketBox;
use crate::number_sets::{
    ack_or_rst, but_tcp, client_ports, initial, neither_ack_nor_rst, no_rst, not_initial, rst,
    server_ports, tcp, tracked, untracked,
};
use acl_packet::Family;
use acl_sets::RangeSet;
use acl_terms::{Mode, Opt};
use acl_text::{Items, Memory};
use std::alloc::Global;

// ---- what passes

// The destination ports of other protocols than TCP that `established` leaves of a box.
fn established_ports(alloc: Global, ports: &RangeSet, named: bool) -> Result<RangeSet, Memory>
    requires { ports.now.top ≡ 65535 }
    ensures { IfOk result (λ s. s ≡ established_ports named ports.now) }
{
    if named {
        ports.share()
    } else {
        ports.intersect(alloc, &client_ports(alloc)?)
    }
}

// TCP that seems established.
fn established_tcp(alloc: Global, own: &PacketBox) -> Result<PacketBox, Memory>
    requires { own.now.protocols.top ≡ 255 }
    ensures { IfOk result (λ b. b
        ≡ record own.now { protocols = in_both own.now.protocols tcp; flags = ack_or_rst }) }
{
    let protocols = own.protocols.intersect(alloc, &tcp(alloc)?)?;
    let flags = ack_or_rst(alloc)?;
    Ok(own.share()?.with_protocols(protocols).with_flags(flags))
}

// Other protocols that seem so.
fn established_others(alloc: Global, own: &PacketBox, named: bool) -> Result<PacketBox, Memory>
    requires protocols { own.now.protocols.top ≡ 255 }
    requires ports { own.now.destination_ports.top ≡ 65535 }
    ensures { IfOk result (λ b. b ≡ record own.now {
      protocols = in_both own.now.protocols but_tcp;
      destination_ports = established_ports named own.now.destination_ports;
    }) }
{
    let protocols = own.protocols.intersect(alloc, &but_tcp(alloc)?)?;
    let ports = established_ports(alloc, &own.destination_ports, named)?;
    Ok(
        own.share()?
            .with_protocols(protocols)
            .with_destination_ports(ports),
    )
}

fn push_established(
    alloc: Global,
    out: &mut Items<PacketBox>,
    own: &PacketBox,
    named: bool,
) -> Result<(), Memory>
    requires protocols { own.now.protocols.top ≡ 255 }
    requires ports { own.now.destination_ports.top ≡ 65535 }
    ensures { OnOk result (out.new ≡ out.old ++ seeming_established named own.now) }
{
    out.push(established_tcp(alloc, own)?)?;
    out.push(established_others(alloc, own, named)?)
}

/// Adds what the option leaves of the box, which has all flags and all connections.
pub(crate) fn push_passing(
    alloc: Global,
    out: &mut Items<PacketBox>,
    option: Opt,
    mode: Mode,
    named: bool,
    own: PacketBox,
) -> Result<(), Memory>
    requires protocols { own.protocols.top ≡ 255 }
    requires ports { own.destination_ports.top ≡ 65535 }
    ensures { OnOk result (out.new ≡ out.old ++ passing option mode named own) }
{
    match (option, mode) {
        (Opt::Plain, _) => out.push(own),
        (Opt::Established | Opt::TcpEstablished, Mode::Stateful) => out.push(own.with_connections(
            tracked(alloc)?,
        )),
        (Opt::Established, Mode::Stateless) => push_established(alloc, out, &own, named),
        (Opt::TcpEstablished, Mode::Stateless) => out.push(own.with_flags(ack_or_rst(alloc)?)),
        (Opt::TcpInitial, _) => out.push(own.with_flags(initial(alloc)?)),
        (Opt::Rst, _) => out.push(own.with_flags(rst(alloc)?)),
    }
}

// ---- what fails

// TCP that seems to be a new connection.
fn new_tcp(alloc: Global, family: Family) -> Result<PacketBox, Memory>
    ensures { IfOk result (λ b. b
        ≡ record (everything family) { protocols = tcp; flags = neither_ack_nor_rst }) }
{
    let protocols = tcp(alloc)?;
    let flags = neither_ack_nor_rst(alloc)?;
    Ok(
        PacketBox::everything(alloc, family)?
            .with_protocols(protocols)
            .with_flags(flags),
    )
}

// Other protocols that seem so.
fn new_others(alloc: Global, family: Family) -> Result<PacketBox, Memory>
    ensures { IfOk result (λ b. b
        ≡ record (everything family) { protocols = but_tcp; destination_ports = server_ports }) }
{
    let protocols = but_tcp(alloc)?;
    let ports = server_ports(alloc)?;
    Ok(
        PacketBox::everything(alloc, family)?
            .with_protocols(protocols)
            .with_destination_ports(ports),
    )
}

fn push_new(
    alloc: Global,
    out: &mut Items<PacketBox>,
    family: Family,
    named: bool,
) -> Result<(), Memory>
    ensures { OnOk result (out.new ≡ out.old ++ seeming_new family named) }
{
    out.push(new_tcp(alloc, family)?)?;
    if !named {
        out.push(new_others(alloc, family)?)?;
    }
    Ok(())
}

/// Adds the packets of the family that do not pass the option.
pub(crate) fn push_failing(
    alloc: Global,
    out: &mut Items<PacketBox>,
    option: Opt,
    mode: Mode,
    named: bool,
    family: Family,
) -> Result<(), Memory>
    ensures { OnOk result (out.new ≡ out.old ++ failing option mode named family) }
{
    let all = PacketBox::everything(alloc, family)?;
    match (option, mode) {
        (Opt::Plain, _) => Ok(()),
        (Opt::Established | Opt::TcpEstablished, Mode::Stateful) => out.push(all.with_connections(
            untracked(alloc)?,
        )),
        (Opt::Established, Mode::Stateless) => push_new(alloc, out, family, named),
        (Opt::TcpEstablished, Mode::Stateless) => out.push(all.with_flags(neither_ack_nor_rst(
            alloc,
        )?)),
        (Opt::TcpInitial, _) => out.push(all.with_flags(not_initial(alloc)?)),
        (Opt::Rst, _) => out.push(all.with_flags(no_rst(alloc)?)),
    }
}
