ghost use Rattle.std.specs.Prelude.{◌≡◌};
ghost use Rattle.gen_cisco.specs.Limits.{asks_initial, asks_initial_in_ipv6, rule_limit};

use crate::cisco::Cisco;
use acl_packet::Family;
use acl_platform::{Earlier, Feature, Limit, Rule, RuleLimits, Test, names_sctp_ports};

const LONGEST_NAME: usize = 64;

impl RuleLimits for Cisco {
    ghost limit = { rule_limit };

    fn rule_limit(&self, earlier: &Earlier<'_>, rule: &Rule) -> Option<Limit> {
        let place = earlier.count();
        if rule.name.as_slice().len() > LONGEST_NAME {
            Some(Limit::NameLength(place))
        } else if asks_initial_in_ipv6(rule) {
            Some(Limit::Unsupported(place, Feature::TcpInitial))
        } else if names_sctp_ports(rule) {
            Some(Limit::Unsupported(place, Feature::SctpPorts))
        } else {
            None
        }
    }
}

fn asks_initial_in_ipv6(rule: &Rule) -> bool
    ensures { result ≡ asks_initial_in_ipv6 rule.now }
{
    rule.family == Family::V6 && asks_initial(rule.test)
}

fn asks_initial(test: Test) -> bool
    ensures { result ≡ asks_initial test }
{
    matches!(test, Test::SynNotAck)
}
