ghost use Rattle.std.specs.Prelude.{◌≡◌, ◌++◌, ◌∷◌, [], IfOk, OnOk};
ghost use Rattle.acl_terms.specs.Resolved.{either_in};
ghost use Rattle.term_boxes.specs.Boxes.{everything};
ghost use Rattle.term_boxes.specs.NumberSets.{outside};
ghost use Rattle.term_boxes.specs.TermBoxes.{
  boxes_of,
  failing_addresses,
  failing_boxes,
  failing_ports,
};

use crate::boxes::PacketBox;
use crate::number_sets::outside;
use crate::options::{push_failing, push_passing};
use crate::term_sets::pair_box;
use acl_packet::Family;
use acl_terms::{Mode, Term, either_in, pairs_of};
use acl_text::{Items, Memory};
use std::alloc::Global;

/// The boxes of the packets of the family that the term matches: for each pair of its sides what the option leaves of
/// the sets there. A box may be empty.
#[tactic(auto, unfolding(crate::specs::TermBoxes::boxes_of))]
pub fn boxes_of(
    alloc: Global,
    family: Family,
    mode: Mode,
    term: &Term,
) -> Result<Items<PacketBox>, Memory>
    ensures { IfOk result (λ bs. bs ≡ boxes_of family mode term.now) }
{
    let mut out = Items::new(alloc);
    let pairs = pairs_of(term);
    for pair in pairs {
        let own = pair_box(alloc, family, term, *pair)?;
        push_passing(alloc, &mut out, term.option, mode, term.dport_named, own)?;
    }
    Ok(out)
}

// Neither address is one of those that are asked of either.
fn push_failing_addresses(
    alloc: Global,
    out: &mut Items<PacketBox>,
    family: Family,
    term: &Term,
) -> Result<(), Memory>
    ensures { OnOk result (out.new ≡ out.old ++ failing_addresses family term.now) }
{
    if term.addr_named {
        let addresses = outside(alloc, either_in(family, term))?;
        let mut excluded = PacketBox::everything(alloc, family)?;
        excluded.sources = addresses.share()?;
        excluded.destinations = addresses;
        out.push(excluded)?;
    }
    Ok(())
}

// Neither port is.
fn push_failing_ports(
    alloc: Global,
    out: &mut Items<PacketBox>,
    family: Family,
    term: &Term,
) -> Result<(), Memory>
    ensures { OnOk result (out.new ≡ out.old ++ failing_ports family term.now) }
{
    if term.port_named {
        let ports = outside(alloc, &term.ports)?;
        let mut excluded = PacketBox::everything(alloc, family)?;
        excluded.source_ports = ports.share()?;
        excluded.destination_ports = ports;
        out.push(excluded)?;
    }
    Ok(())
}

/// What keeps packets of the family that are in the term's own sets from being matched, as boxes: what does not pass
/// the option, and where something is asked of either address or of either port, what neither is.
#[tactic(auto, unfolding(crate::specs::TermBoxes::failing_boxes))]
pub fn failing_boxes(
    alloc: Global,
    family: Family,
    mode: Mode,
    term: &Term,
) -> Result<Items<PacketBox>, Memory>
    ensures { IfOk result (λ bs. bs ≡ failing_boxes family mode term.now) }
{
    let mut out = Items::new(alloc);
    push_failing_addresses(alloc, &mut out, family, term)?;
    push_failing_ports(alloc, &mut out, family, term)?;
    push_failing(alloc, &mut out, term.option, mode, term.dport_named, family)?;
    Ok(out)
}
