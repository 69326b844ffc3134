ghost use Rattle.std.specs.Prelude.{◌≡◌};
ghost use Rattle.std.specs.List.{list_all};
ghost use Rattle.acl_sets.specs.Ranges.{holds};
ghost use Rattle.acl_packet.specs.Packets.{fields, number_of};
ghost use Rattle.acl_packet.specs.Outcomes.{unlogged};
ghost use Rattle.acl_target.specs.FilterEndings.{ending_verdict};
ghost use Rattle.acl_platform.specs.Rules.{
  decided_by,
  filter_outcome,
  passes,
  rule_holds,
  set_of,
  sets_hold,
};

use crate::filters::Filter;
use crate::rules::{Rule, Test, set_of};
use acl_packet::{Family, Outcome, Packet, Verdict, fields, has_flag};
use acl_target::Ending;

/// What the filter does with the packet: the first rule that holds it decides, else the ending,
/// without a log.
pub fn filter_outcome(filter: &Filter, packet: &Packet) -> Outcome
    ensures { result ≡ filter_outcome filter.now packet.now }
{
    for rule in filter.rules.as_slice() {
        if rule_holds(rule, packet) {
            return decided_by(rule);
        }
    }
    Outcome::unlogged(ending_verdict(filter.ending, packet))
}

fn rule_holds(rule: &Rule, packet: &Packet) -> bool
    ensures { result ≡ rule_holds rule.now packet.now }
{
    rule.family == packet.family && sets_hold(rule, packet) && passes(rule.test, packet)
}

fn sets_hold(rule: &Rule, packet: &Packet) -> bool
    ensures { result ≡ sets_hold rule.now packet.now }
{
    rule.src.has(packet.src) && rule.dst.has(packet.dst) && numbers_hold(rule, packet)
}

fn numbers_hold(rule: &Rule, packet: &Packet) -> bool
    ensures { result ≡ list_all (λ field. holds (set_of field rule.now).ranges
        (number_of field packet.now)) fields }
{
    fields().iter().all(|field| set_of(*field, rule).contains(u128::from(field.number_in(packet))))
}

fn passes(test: Test, packet: &Packet) -> bool
    ensures { result ≡ passes test packet.now }
{
    match test {
        Test::Plain => true,
        Test::AckOrRst => packet.has_ack_or_rst(),
        Test::SynNotAck => packet.is_initial(),
        Test::Rst => has_flag(packet.flags, 4),
        Test::State => packet.conn.is_tracked(),
    }
}

fn decided_by(rule: &Rule) -> Outcome
    ensures { result ≡ decided_by rule.now }
{
    Outcome {
        verdict: rule.verdict,
        logged: rule.log,
    }
}

fn ending_verdict(ending: Ending, packet: &Packet) -> Verdict
    ensures { result ≡ ending_verdict ending packet.now }
{
    match ending {
        Ending::Accept => Verdict::Accept,
        Ending::Deny => Verdict::Deny,
        Ending::Left => Verdict::Left,
        Ending::Neighbours if packet.family == Family::V6 && packet.is_neighbour_discovery() => {
            Verdict::Accept
        }
        Ending::Neighbours => Verdict::Deny,
    }
}
