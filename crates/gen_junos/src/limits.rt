ghost use Rattle.gen_junos.specs.Limits.{rule_limit};

use crate::junos::Junos;
use acl_platform::{Earlier, Feature, Limit, Rule, RuleLimits, names_sctp_ports};

const LONGEST_NAME: usize = 64;

impl RuleLimits for Junos {
    ghost limit = { rule_limit };

    fn rule_limit(&self, earlier: &Earlier<'_>, rule: &Rule) -> Option<Limit> {
        let limit = earlier.name_limit(LONGEST_NAME, rule);
        if limit.is_none() && names_sctp_ports(rule) {
            Some(Limit::Unsupported(earlier.count(), Feature::SctpPorts))
        } else {
            limit
        }
    }
}
