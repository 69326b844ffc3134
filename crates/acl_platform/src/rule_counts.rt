ghost use Rattle.std.specs.Prelude.{◌≡◌, ℕ, min};
ghost use Rattle.std.specs.List.{All, sum_by};
ghost use Rattle.acl_text.specs.Output.{COUNT_END};
ghost use Rattle.acl_platform.specs.declared.rules.Rule.{Rule};
ghost use Rattle.acl_platform.specs.Combinations.{IsSized};

use crate::rules::Rule;

/// How many entries a rule gives, for rules whose sets have the tops of their kind.
pub trait RuleCount {
    ghost entries: { Self → Rule → ℕ };

    /// The number of the rule's entries; a number that does not fit stands at the greatest one that
    /// does.
    fn count_rule(&self, rule: &Rule) -> u64
        requires { IsSized rule.now }
        ensures { result ≡ min (entries self.now rule.now) COUNT_END };
}

/// The number of entries that the rules give; a number that does not fit stands at the greatest one
/// that does.
pub fn count_rules<C: RuleCount>(rules: &[Rule], counts: &C) -> u64
    requires { All IsSized rules.now }
    ensures { result ≡ min (sum_by (C.entries counts.now) rules.now) COUNT_END }
{
    let mut count: u64 = 0;
    for rule in rules {
        count = count.saturating_add(counts.count_rule(rule));
    }
    count
}
