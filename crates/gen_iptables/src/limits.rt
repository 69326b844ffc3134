ghost use Rattle.gen_iptables.specs.Limits.{rule_limit};

use crate::iptables::Iptables;
use acl_platform::{Earlier, Limit, Rule, RuleLimits};

const LONGEST_NAME: usize = 24;

impl RuleLimits for Iptables {
    ghost limit = { rule_limit };

    fn rule_limit(&self, earlier: &Earlier<'_>, rule: &Rule) -> Option<Limit> {
        earlier.name_limit(LONGEST_NAME, rule)
    }
}
