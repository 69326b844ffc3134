ghost use Rattle.std.specs.Prelude.{◌≡◌, [], ◌∷◌};
ghost use Rattle.ipt_lang.specs.Walks.{address_holds, chains_walk, ends_hold, flags_hold, go_on, icmp_holds, outcome_so_far, policy_verdict, rule_holds, rules_walk, tests_hold, walk};

use crate::documents::{Act, Chain, Flags, Rule};
use acl_packet::{Outcome, Packet, Prefix, Verdict, has_flag};
use acl_rows::{ACK, RST, SYN, admit_ports, number_holds, state_holds};

pub(crate) fn walk(accept: Option<bool>, chains: &[Chain], packet: &Packet) -> Outcome
    ensures { result ≡ walk accept chains.now packet.now }
{
    at_end(accept, chains_walk(chains, packet, false))
}

/// What is done to a packet at the end of its chains, behind which the policy decides.
pub(crate) fn at_end(accept: Option<bool>, so_far: Outcome) -> Outcome
    ensures { result ≡ go_on so_far (λ logged. outcome_so_far (policy_verdict accept) logged) }
{
    match so_far.verdict {
        Verdict::Left => outcome_so_far(policy_verdict(accept), so_far.logged),
        _ => so_far,
    }
}

fn policy_verdict(accept: Option<bool>) -> Verdict
    ensures { result ≡ policy_verdict accept }
{
    match accept {
        Some(true) => Verdict::Accept,
        Some(false) => Verdict::Deny,
        None => Verdict::Left,
    }
}

/// What a packet has met so far; `Left` while no rule has decided.
pub(crate) fn outcome_so_far(verdict: Verdict, logged: bool) -> Outcome
    ensures { result ≡ outcome_so_far verdict logged }
{
    Outcome { verdict, logged }
}

#[tactic(auto, unfolding(crate::specs::Walks::chains_walk))]
fn chains_walk(chains: &[Chain], packet: &Packet, logged: bool) -> Outcome
    ensures { result ≡ chains_walk chains.now packet.now logged }
{
    let mut logged = logged;
    for chain in chains {
        let behind = rules_walk(chain.rules.as_slice(), packet, logged);
        match behind.verdict {
            Verdict::Left => logged = behind.logged,
            _ => return behind,
        }
    }
    outcome_so_far(Verdict::Left, logged)
}

#[tactic(auto, unfolding(crate::specs::Walks::rules_walk))]
fn rules_walk(rules: &[Rule], packet: &Packet, logged: bool) -> Outcome
    ensures { result ≡ rules_walk rules.now packet.now logged }
{
    let mut logged = logged;
    for rule in rules {
        if rule_holds(rule, packet) {
            match rule.act {
                Act::Decide(verdict) => return outcome_so_far(verdict, logged),
                Act::Log => logged = true,
            }
        }
    }
    outcome_so_far(Verdict::Left, logged)
}

/// What has been decided on a packet that comes to one more rule.
#[tactic(auto, unfolding(crate::specs::Walks::rules_walk))]
pub(crate) fn one_rule_more(so_far: Outcome, rule: &Rule, packet: &Packet) -> Outcome
    ensures { result ≡ go_on so_far (λ logged. rules_walk (rule.now ∷ []) packet.now logged) }
{
    match so_far.verdict {
        Verdict::Left => one_rule(rule, packet, so_far.logged),
        _ => so_far,
    }
}

#[tactic(auto, unfolding(crate::specs::Walks::rules_walk))]
fn one_rule(rule: &Rule, packet: &Packet, logged: bool) -> Outcome
    ensures { result ≡ rules_walk (rule.now ∷ []) packet.now logged }
{
    if !rule_holds(rule, packet) {
        return outcome_so_far(Verdict::Left, logged);
    }
    match rule.act {
        Act::Decide(verdict) => outcome_so_far(verdict, logged),
        Act::Log => outcome_so_far(Verdict::Left, true),
    }
}

fn rule_holds(rule: &Rule, packet: &Packet) -> bool
    ensures { result ≡ rule_holds rule.now packet.now }
{
    ends_hold(rule, packet)
        && admit_ports(rule.sports.as_slice(), rule.dports.as_slice(), packet)
        && tests_hold(rule, packet)
}

fn ends_hold(rule: &Rule, packet: &Packet) -> bool
    ensures { result ≡ ends_hold rule.now packet.now }
{
    number_holds(rule.proto, packet.proto)
        && address_holds(&rule.src, packet.src)
        && address_holds(&rule.dst, packet.dst)
}

fn address_holds(wanted: &Option<Prefix>, address: u128) -> bool
    ensures { result ≡ address_holds wanted.now address }
{
    match wanted {
        Some(prefix) => prefix.contains(address),
        None => true,
    }
}

fn tests_hold(rule: &Rule, packet: &Packet) -> bool
    ensures { result ≡ tests_hold rule.now packet.now }
{
    icmp_holds(rule, packet)
        && flags_hold(rule.flags, packet.flags)
        && state_holds(rule.state, packet.conn)
}

fn icmp_holds(rule: &Rule, packet: &Packet) -> bool
    ensures { result ≡ icmp_holds rule.now packet.now }
{
    number_holds(rule.itype, packet.itype) && number_holds(rule.icode, packet.icode)
}

fn flags_hold(test: Option<Flags>, flags: u8) -> bool
    ensures { result ≡ flags_hold test flags }
{
    match test {
        None => true,
        Some(Flags::Ack) => has_flag(flags, ACK),
        Some(Flags::Rst) => has_flag(flags, RST),
        Some(Flags::SynNotAck) => has_flag(flags, SYN) && !has_flag(flags, ACK),
    }
}
