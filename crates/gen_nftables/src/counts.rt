ghost use Rattle.std.specs.Prelude.{◌≡◌, None, min};
ghost use Rattle.acl_text.specs.Output.{COUNT_END};
ghost use Rattle.acl_platform.specs.Combinations.{IsSized};
ghost use Rattle.gen_nftables.specs.CountSteps.{rule_count};
ghost use Rattle.gen_nftables.specs.Sections.{chain_rule, rule_size};

use crate::nftables::Nftables;
use acl_platform::{
    Choices, NumberChoices, Rule, RuleCount, count_numbers, count_written, range_elements,
};

impl RuleCount for Nftables {
    ghost entries = { λ n rule. rule_count rule };

    #[tactic(auto, using(acl_platform::proofs::SoundRules::protocols_small))]
    fn count_rule(&self, rule: &Rule) -> u64 {
        let protocols = NumberChoices { set: &rule.protos };
        protocols.count().saturating_mul(rule_size(rule))
    }
}

// The rule is as great for each of its protocols.
#[tactic(auto, using(acl_platform::proofs::SoundRules::source_ports_small, acl_platform::proofs::SoundRules::destination_ports_small, acl_platform::proofs::SoundRules::types_small, acl_platform::proofs::SoundRules::codes_small))]
fn rule_size(rule: &Rule) -> u64
    requires { IsSized rule.now }
    ensures { result ≡ min (rule_size (chain_rule rule.now None)) COUNT_END }
{
    let src = count_written(&rule.src);
    let dst = count_written(&rule.dst);
    let sports = range_elements(&rule.sports).len() as u64;
    let dports = range_elements(&rule.dports).len() as u64;
    src.saturating_add(dst)
        .saturating_add(sports)
        .saturating_add(dports)
        .saturating_add(count_numbers(range_elements(&rule.itypes)))
        .saturating_add(count_numbers(range_elements(&rule.icodes)))
        .saturating_add(1)
}
