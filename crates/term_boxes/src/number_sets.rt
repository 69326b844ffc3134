ghost use Rattle.std.specs.Prelude.{◌≡◌, ◌≤◌, IfOk};
ghost use Rattle.acl_sets.specs.Ranges.{IsNormal};
ghost use Rattle.term_boxes.specs.NumberSets.{
  ack_or_rst,
  but_icmp,
  but_tcp,
  client_ports,
  extension_headers,
  from_one,
  initial,
  neither_ack_nor_rst,
  no_rst,
  not_initial,
  outside,
  rst,
  server_ports,
  set_of,
  tcp,
  tracked,
  untracked,
  up_to,
  without_ports,
};

use acl_packet::Family;
use acl_sets::{Range, RangeSet};
use acl_text::Memory;
use std::alloc::Global;

fn run(low: u128, high: u128) -> Range
    ensures { result ≡ record { low = low; high = high } }
{
    Range { low, high }
}

// The set of ranges that are in normal form already.
#[tactic(auto, using(crate::proofs::SideSets::ranges_fit, crate::proofs::SideSets::same_set))]
fn set_of(alloc: Global, top: u128, ranges: &[Range]) -> Result<RangeSet, Memory>
    requires { IsNormal 0 top ranges.now }
    ensures { IfOk result (λ s. s ≡ set_of top ranges.now) }
{
    RangeSet::from_ranges(alloc, top, ranges)
}

/// All numbers up to the top.
pub(crate) fn up_to(alloc: Global, top: u128) -> Result<RangeSet, Memory>
    ensures { IfOk result (λ s. s ≡ up_to top) }
{
    RangeSet::all(alloc, top)
}

/// The numbers up to the set's top that it lacks.
pub(crate) fn outside(alloc: Global, set: &RangeSet) -> Result<RangeSet, Memory>
    ensures { IfOk result (λ s. s ≡ outside set.now) }
{
    RangeSet::all(alloc, set.top())?.subtract(alloc, set)
}

/// All numbers up to the top but 0.
pub(crate) fn from_one(alloc: Global, top: u128) -> Result<RangeSet, Memory>
    requires { 1 ≤ top }
    ensures { IfOk result (λ s. s ≡ from_one top) }
{
    set_of(alloc, top, &[run(1, top)])
}

// ---- protocols

pub(crate) fn tcp(alloc: Global) -> Result<RangeSet, Memory>
    ensures { IfOk result (λ s. s ≡ tcp) }
{
    set_of(alloc, 255, &[run(6, 6)])
}

pub(crate) fn but_tcp(alloc: Global) -> Result<RangeSet, Memory>
    ensures { IfOk result (λ s. s ≡ but_tcp) }
{
    set_of(alloc, 255, &[run(0, 5), run(7, 255)])
}

pub(crate) fn but_icmp(alloc: Global, family: Family) -> Result<RangeSet, Memory>
    ensures { IfOk result (λ s. s ≡ but_icmp family) }
{
    match family {
        Family::V4 => set_of(alloc, 255, &[run(0, 0), run(2, 255)]),
        Family::V6 => set_of(alloc, 255, &[run(0, 57), run(59, 255)]),
    }
}

const WITHOUT_PORTS: [Range; 4] = [
    Range { low: 0, high: 5 },
    Range { low: 7, high: 16 },
    Range { low: 18, high: 131 },
    Range {
        low: 133,
        high: 255,
    },
];

pub(crate) fn without_ports(alloc: Global) -> Result<RangeSet, Memory>
    ensures { IfOk result (λ s. s ≡ without_ports) }
{
    set_of(alloc, 255, &WITHOUT_PORTS)
}

const EXTENSION_HEADERS: [Range; 6] = [
    Range { low: 0, high: 0 },
    Range { low: 43, high: 44 },
    Range { low: 51, high: 51 },
    Range { low: 59, high: 60 },
    Range {
        low: 135,
        high: 135,
    },
    Range {
        low: 139,
        high: 140,
    },
];

pub(crate) fn extension_headers(alloc: Global) -> Result<RangeSet, Memory>
    ensures { IfOk result (λ s. s ≡ extension_headers) }
{
    set_of(alloc, 255, &EXTENSION_HEADERS)
}

// ---- ports

pub(crate) fn client_ports(alloc: Global) -> Result<RangeSet, Memory>
    ensures { IfOk result (λ s. s ≡ client_ports) }
{
    set_of(alloc, 65535, &[run(1024, 65535)])
}

pub(crate) fn server_ports(alloc: Global) -> Result<RangeSet, Memory>
    ensures { IfOk result (λ s. s ≡ server_ports) }
{
    set_of(alloc, 65535, &[run(0, 1023)])
}

// ---- flags and connections, by their places

pub(crate) fn ack_or_rst(alloc: Global) -> Result<RangeSet, Memory>
    ensures { IfOk result (λ s. s ≡ ack_or_rst) }
{
    set_of(alloc, 63, &[run(16, 63)])
}

pub(crate) fn neither_ack_nor_rst(alloc: Global) -> Result<RangeSet, Memory>
    ensures { IfOk result (λ s. s ≡ neither_ack_nor_rst) }
{
    set_of(alloc, 63, &[run(0, 15)])
}

/// Flags that open a connection: SYN is set and ACK is not.
pub(crate) fn initial(alloc: Global) -> Result<RangeSet, Memory>
    ensures { IfOk result (λ s. s ≡ initial) }
{
    set_of(alloc, 63, &[run(8, 15), run(24, 31)])
}

pub(crate) fn not_initial(alloc: Global) -> Result<RangeSet, Memory>
    ensures { IfOk result (λ s. s ≡ not_initial) }
{
    set_of(alloc, 63, &[run(0, 7), run(16, 23), run(32, 63)])
}

pub(crate) fn rst(alloc: Global) -> Result<RangeSet, Memory>
    ensures { IfOk result (λ s. s ≡ rst) }
{
    set_of(alloc, 63, &[run(16, 31), run(48, 63)])
}

pub(crate) fn no_rst(alloc: Global) -> Result<RangeSet, Memory>
    ensures { IfOk result (λ s. s ≡ no_rst) }
{
    set_of(alloc, 63, &[run(0, 15), run(32, 47)])
}

/// Connections that are known, or that a known one asked for.
pub(crate) fn tracked(alloc: Global) -> Result<RangeSet, Memory>
    ensures { IfOk result (λ s. s ≡ tracked) }
{
    set_of(alloc, 3, &[run(2, 3)])
}

pub(crate) fn untracked(alloc: Global) -> Result<RangeSet, Memory>
    ensures { IfOk result (λ s. s ≡ untracked) }
{
    set_of(alloc, 3, &[run(0, 1)])
}
