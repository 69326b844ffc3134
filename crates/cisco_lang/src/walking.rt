ghost use Rattle.std.specs.Prelude.{◌≡◌, length};
ghost use Rattle.acl_packet.specs.Packets.{IsPacket};
ghost use Rattle.acl_rows.specs.RuleParts.{number_holds};
ghost use Rattle.cisco_lang.specs.Walks.{port_holds, flags_hold, entry_holds, ends_hold, ports_hold, icmp_holds, tests_hold, is_entry, verdict_of, decided_by, ending, first_holding, has_entries, walk, items_of, section_outcome, outcome_of};

use crate::documents::{AccessList, Doc, Entry, Flags, Item, Section};
use acl_packet::{Family, Outcome, Packet, Verdict, has_flag};
use acl_rows::{ACK, RST, SYN, number_holds};

#[tactic(auto, unfolding(crate::specs::Walks::items_of))]
pub(crate) fn items_of(family: Family, lists: &[AccessList]) -> &[Item]
    ensures { result.now ≡ items_of family lists.now }
{
    for list in lists {
        if list.family == family {
            return list.items.as_slice();
        }
    }
    &[]
}

#[tactic(auto, unfolding(crate::specs::Walks::walk))]
pub(crate) fn walk(family: Family, items: &[Item], packet: &Packet) -> Outcome
    ensures { result ≡ walk family items.now packet.now }
{
    if !has_entries(items) {
        return Outcome::unlogged(Verdict::Accept);
    }
    match first_holding(items, packet) {
        Some(outcome) => outcome,
        None => ending(family, packet),
    }
}

fn has_entries(items: &[Item]) -> bool
    ensures { result ≡ has_entries items.now }
{
    items.iter().any(|item| is_entry(item))
}

fn is_entry(item: &Item) -> bool
    ensures { result ≡ is_entry item.now }
{
    match item {
        Item::Entry(_) => true,
        Item::Remark(_) => false,
    }
}

#[tactic(auto, unfolding(crate::specs::Walks::first_holding))]
fn first_holding(items: &[Item], packet: &Packet) -> Option<Outcome>
    ensures { result ≡ first_holding items.now packet.now }
{
    for item in items {
        if let Item::Entry(entry) = item {
            if entry_holds(entry, packet) {
                return Some(decided_by(entry));
            }
        }
    }
    None
}

/// What an entry decides that permits, or denies.
pub fn verdict_of(permit: bool) -> Verdict
    ensures { result ≡ verdict_of permit }
{
    if permit {
        Verdict::Accept
    } else {
        Verdict::Deny
    }
}

pub(crate) fn decided_by(entry: &Entry) -> Outcome
    ensures { result ≡ decided_by entry.now }
{
    Outcome {
        verdict: verdict_of(entry.permit),
        logged: entry.log,
    }
}

pub(crate) fn ending(family: Family, packet: &Packet) -> Outcome
    ensures { result ≡ ending family packet.now }
{
    match family {
        Family::V4 => Outcome::unlogged(Verdict::Deny),
        Family::V6 => Outcome::unlogged(verdict_of(packet.is_neighbour_discovery())),
    }
}

pub(crate) fn entry_holds(entry: &Entry, packet: &Packet) -> bool
    ensures { result ≡ entry_holds entry.now packet.now }
{
    ends_hold(entry, packet) && ports_hold(entry, packet) && tests_hold(entry, packet)
}

fn ends_hold(entry: &Entry, packet: &Packet) -> bool
    ensures { result ≡ ends_hold entry.now packet.now }
{
    number_holds(entry.proto, packet.proto)
        && entry.src.contains(packet.src)
        && entry.dst.contains(packet.dst)
}

fn ports_hold(entry: &Entry, packet: &Packet) -> bool
    ensures { result ≡ ports_hold entry.now packet.now }
{
    port_holds(entry.sport, packet.sport) && port_holds(entry.dport, packet.dport)
}

fn icmp_holds(entry: &Entry, packet: &Packet) -> bool
    ensures { result ≡ icmp_holds entry.now packet.now }
{
    number_holds(entry.itype, packet.itype) && number_holds(entry.icode, packet.icode)
}

fn tests_hold(entry: &Entry, packet: &Packet) -> bool
    ensures { result ≡ tests_hold entry.now packet.now }
{
    icmp_holds(entry, packet) && flags_hold(entry.flags, packet.flags)
}

fn port_holds(range: Option<(u16, u16)>, port: u16) -> bool
    ensures { result ≡ port_holds range port }
{
    match range {
        Some((low, high)) => low <= port && port <= high,
        None => true,
    }
}

fn flags_hold(test: Option<Flags>, flags: u8) -> bool
    ensures { result ≡ flags_hold test flags }
{
    match test {
        None => true,
        Some(Flags::Established) => has_flag(flags, ACK) || has_flag(flags, RST),
        Some(Flags::Rst) => has_flag(flags, RST),
        Some(Flags::SynNotAck) => has_flag(flags, SYN) && !has_flag(flags, ACK),
    }
}
