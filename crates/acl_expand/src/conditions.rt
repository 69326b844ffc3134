ghost use Rattle.std.specs.Prelude.{◌≡◌, ◌+◌, ◌^◌, ◌≤◌, [], ◌∷◌, IfOk, codes};
ghost use Rattle.acl_packet.specs.Addresses.{top_address};
ghost use Rattle.acl_sets.specs.ComputableSets.{cut_all};
ghost use Rattle.acl_sets.specs.Ranges.{IsNormal};
ghost use Rattle.acl_expand.specs.TermRules.{
  client_ports,
  just,
  only_protocol,
  protocols_in,
  tcp_half,
  udp_alone,
  udp_half,
  udp_ports,
  whole,
};

use acl_packet::Family;
use acl_platform::Test;
use acl_sets::{Range, RangeSet};
use acl_terms::{Side, Term, dports_on};
use acl_text::{Bytes, Memory};
use std::alloc::Global;

/// What a rule has beside what its term gives it: the end of its name, its protocols, its destination ports and
/// its test.
#[derive(Drop)]
pub(crate) struct Conditions {
    pub suffix: Bytes,
    pub protos: RangeSet,
    pub dports: RangeSet,
    pub test: Test,
}

const TOP_PROTOCOL: u128 = 255;

const TOP_PORT: u128 = 65535;

fn only_protocol(alloc: Global, number: u8) -> Result<RangeSet, Memory>
    ensures { IfOk result (λ s. s ≡ only_protocol number) }
{
    let number = u128::from(number);
    let range = Range {
        low: number,
        high: number,
    };
    RangeSet::from_ranges(alloc, TOP_PROTOCOL, &[range])
}

fn client_ports(alloc: Global) -> Result<RangeSet, Memory>
    ensures { IfOk result (λ s. s ≡ client_ports) }
{
    let range = Range {
        low: 1024,
        high: TOP_PORT,
    };
    RangeSet::from_ranges(alloc, TOP_PORT, &[range])
}

#[tactic(auto, using(crate::proofs::SetForms::nothing_cut))]
fn without(alloc: Global, set: &RangeSet, number: u8) -> Result<RangeSet, Memory>
    requires top { set.now.top ≡ 255 }
    requires normal { IsNormal 0 set.now.top set.now.ranges }
    ensures top { IfOk result (λ s. s.top ≡ set.now.top) }
    ensures ranges { IfOk result (λ s. s.ranges ≡ cut_all (just number ∷ []) set.now.ranges) }
{
    if set.contains(u128::from(number)) {
        set.subtract(alloc, &only_protocol(alloc, number)?)
    } else {
        set.share()
    }
}

fn protocols_in(alloc: Global, family: Family, term: &Term) -> Result<RangeSet, Memory>
    ensures { IfOk result (λ s. s ≡ protocols_in family term.now) }
{
    if term.protos.is_all() {
        term.protos.share()
    } else {
        without(alloc, &term.protos, family.foreign_number())
    }
}

#[tactic(auto, using(crate::proofs::SideForms::dports_top))]
fn udp_ports(alloc: Global, term: &Term, side: Side) -> Result<RangeSet, Memory>
    ensures { IfOk result (λ s. s ≡ udp_ports term.now side) }
{
    let ports = dports_on(alloc, side, term)?;
    if term.dport_named {
        Ok(ports)
    } else {
        ports.intersect(alloc, &client_ports(alloc)?)
    }
}

/// The term's own protocols and its ports on a side, with a test.
pub(crate) fn whole(
    alloc: Global,
    family: Family,
    term: &Term,
    side: Side,
    test: Test,
) -> Result<Conditions, Memory>
    ensures { IfOk result (λ c. c ≡ whole family term.now side test) }
{
    Ok(Conditions {
        suffix: Bytes::new(alloc),
        protos: protocols_in(alloc, family, term)?,
        dports: dports_on(alloc, side, term)?,
        test,
    })
}

/// Those of `established` over UDP alone.
pub(crate) fn udp_alone(
    alloc: Global,
    family: Family,
    term: &Term,
    side: Side,
) -> Result<Conditions, Memory>
    ensures { IfOk result (λ c. c ≡ udp_alone family term.now side) }
{
    Ok(Conditions {
        suffix: Bytes::new(alloc),
        protos: protocols_in(alloc, family, term)?,
        dports: udp_ports(alloc, term, side)?,
        test: Test::Plain,
    })
}

/// Those of `established` over TCP, where UDP has a rule of its own.
pub(crate) fn tcp_half(alloc: Global, term: &Term, side: Side) -> Result<Conditions, Memory>
    ensures { IfOk result (λ c. c ≡ tcp_half term.now side) }
{
    Ok(Conditions {
        suffix: Bytes::from_slice(alloc, b"-tcp")?,
        protos: only_protocol(alloc, 6)?,
        dports: dports_on(alloc, side, term)?,
        test: Test::AckOrRst,
    })
}

/// Those of `established` over UDP, where TCP has a rule of its own.
pub(crate) fn udp_half(alloc: Global, term: &Term, side: Side) -> Result<Conditions, Memory>
    ensures { IfOk result (λ c. c ≡ udp_half term.now side) }
{
    Ok(Conditions {
        suffix: Bytes::from_slice(alloc, b"-udp")?,
        protos: only_protocol(alloc, 17)?,
        dports: udp_ports(alloc, term, side)?,
        test: Test::Plain,
    })
}
