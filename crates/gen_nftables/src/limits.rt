ghost use Rattle.gen_nftables.specs.Limits.{rule_limit};

use crate::nftables::Nftables;
use acl_platform::{Earlier, Limit, Rule, RuleLimits};

const LONGEST_NAME: usize = 128;

impl RuleLimits for Nftables {
    ghost limit = { rule_limit };

    // What a rule may hold beside a name that is too long, a rule of a chain can say.
    fn rule_limit(&self, earlier: &Earlier<'_>, rule: &Rule) -> Option<Limit> {
        if rule.name.as_slice().len() > LONGEST_NAME {
            Some(Limit::NameLength(earlier.count()))
        } else {
            None
        }
    }
}
