ghost use Rattle.std.specs.Prelude.{◌≡◌, count_by, min};
ghost use Rattle.std.specs.List.{All};
ghost use Rattle.acl_text.specs.Output.{COUNT_END};
ghost use Rattle.acl_platform.specs.Combinations.{IsSized};
ghost use Rattle.std_lang.specs.Walks.{is_entry};
ghost use Rattle.gen_acltool.specs.CountSteps.{rule_count};
ghost use Rattle.gen_acltool.specs.Sections.{list_items};

use acl_platform::{Rule, RuleCount, count_rules};
use acl_rows::is_empty;

/// The number of entries of the list of the rules; a number that does not fit stands at the greatest one
/// that does.
pub(crate) fn list_count(rules: &[Rule]) -> u64
    requires { All IsSized rules.now }
    ensures { result ≡ min (count_by is_entry (list_items rules.now)) COUNT_END }
{
    if is_empty(rules) {
        1
    } else {
        count_rules(rules, &Sources)
    }
}

// A rule, as the entries of its sources.
#[derive(Drop)]
struct Sources;

impl RuleCount for Sources {
    ghost entries = { λ s rule. rule_count rule };

    fn count_rule(&self, rule: &Rule) -> u64 {
        rule.src.count()
    }
}
