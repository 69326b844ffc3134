ghost use Rattle.std.specs.Prelude.{◌≡◌, min};
ghost use Rattle.acl_text.specs.Output.{COUNT_END};
ghost use Rattle.acl_platform.specs.Combinations.{IsSized};
ghost use Rattle.gen_iptables.specs.CountSteps.{
  act_count,
  combination_count,
  rule_count,
};

use crate::groups::count_groups;
use crate::iptables::Iptables;
use crate::rule_rows::{backs_of, fronts_of};
use acl_platform::{Choices, Rule, RuleCount};

impl RuleCount for Iptables {
    ghost entries = { λ i rule. rule_count rule };

    // The rules of the chain, and the jump to it.
    fn count_rule(&self, rule: &Rule) -> u64 {
        combination_count(rule)
            .saturating_mul(act_count(rule.log))
            .saturating_add(1)
    }
}

#[tactic(auto, using(acl_platform::proofs::SoundRules::source_ports_small, acl_platform::proofs::SoundRules::destination_ports_small))]
fn combination_count(rule: &Rule) -> u64
    requires { IsSized rule.now }
    ensures { result ≡ min (combination_count rule.now) COUNT_END }
{
    let behind_ports = backs_of(rule).count();
    let behind_sources = count_groups(&rule.dports).saturating_mul(behind_ports);
    let behind_front = count_groups(&rule.sports).saturating_mul(behind_sources);
    fronts_of(rule).count().saturating_mul(behind_front)
}

fn act_count(log: bool) -> u64
    ensures { result ≡ act_count log }
{
    if log { 2 } else { 1 }
}
