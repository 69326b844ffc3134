ghost use Rattle.std.specs.Prelude.{◌≡◌, ◌==◌};
ghost use Rattle.std.specs.List.{list_any};
ghost use Rattle.acl_rows.specs.RuleParts.{number_holds, set_holds, state_holds};
ghost use Rattle.nft_lang.specs.Walks.{flags_hold, icmp_holds, protocol_holds, tests_hold, rule_holds, policy_verdict, decided_by, first_holding, walk};

use crate::documents::{Flags, Item, Rule};
use acl_packet::{Outcome, Packet, Verdict, has_flag};
use acl_rows::{ACK, RST, SYN, admit_addresses, admit_ports, is_empty, number_holds, state_holds};

pub(crate) fn walk(accept: bool, items: &[Item], packet: &Packet) -> Outcome
    ensures { result ≡ walk accept items.now packet.now }
{
    match first_holding(items, packet) {
        Some(outcome) => outcome,
        None => Outcome::unlogged(policy_verdict(accept)),
    }
}

pub(crate) fn policy_verdict(accept: bool) -> Verdict
    ensures { result ≡ policy_verdict accept }
{
    if accept {
        Verdict::Accept
    } else {
        Verdict::Deny
    }
}

#[tactic(auto, unfolding(crate::specs::Walks::first_holding))]
fn first_holding(items: &[Item], packet: &Packet) -> Option<Outcome>
    ensures { result ≡ first_holding items.now packet.now }
{
    for item in items {
        if let Item::Rule(rule) = item {
            if rule_holds(rule, packet) {
                return Some(decided_by(rule));
            }
        }
    }
    None
}

pub(crate) fn decided_by(rule: &Rule) -> Outcome
    ensures { result ≡ decided_by rule.now }
{
    Outcome {
        verdict: rule.verdict,
        logged: rule.log,
    }
}

pub(crate) fn rule_holds(rule: &Rule, packet: &Packet) -> bool
    ensures { result ≡ rule_holds rule.now packet.now }
{
    protocol_holds(rule, packet)
        && admit_addresses(rule.src.as_slice(), rule.dst.as_slice(), packet)
        && admit_ports(rule.sports.as_slice(), rule.dports.as_slice(), packet)
        && tests_hold(rule, packet)
}

fn protocol_holds(rule: &Rule, packet: &Packet) -> bool
    ensures { result ≡ protocol_holds rule.now packet.now }
{
    rule.family == packet.family && number_holds(rule.proto, packet.proto)
}

fn tests_hold(rule: &Rule, packet: &Packet) -> bool
    ensures { result ≡ tests_hold rule.now packet.now }
{
    icmp_holds(rule, packet)
        && flags_hold(rule.flags, packet.flags)
        && state_holds(rule.state, packet.conn)
}

fn icmp_holds(rule: &Rule, packet: &Packet) -> bool
    ensures { result ≡ icmp_holds rule.now packet.now }
{
    admits_number(rule.itypes.as_slice(), packet.itype)
        && admits_number(rule.icodes.as_slice(), packet.icode)
}

fn admits_number(numbers: &[u8], number: u8) -> bool
    ensures { result ≡ set_holds (λ t n. n == t) numbers.now number }
{
    is_empty(numbers) || any_is_number(numbers, number)
}

fn any_is_number(numbers: &[u8], number: u8) -> bool
    ensures { result ≡ list_any (λ e. number == e) numbers.now }
{
    numbers.iter().any(|wanted| number == *wanted)
}

fn flags_hold(test: Option<Flags>, flags: u8) -> bool
    ensures { result ≡ flags_hold test flags }
{
    match test {
        None => true,
        Some(Flags::Rst) => has_flag(flags, RST),
        Some(Flags::SynNotAck) => has_flag(flags, SYN) && !has_flag(flags, ACK),
    }
}
