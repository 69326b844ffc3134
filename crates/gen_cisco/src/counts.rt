ghost use Rattle.std.specs.Prelude.{◌≡◌, count_by, min};
ghost use Rattle.std.specs.List.{All, list_any};
ghost use Rattle.acl_packet.specs.Addresses.{same_family};
ghost use Rattle.acl_text.specs.Output.{COUNT_END};
ghost use Rattle.acl_platform.specs.Combinations.{IsSized};
ghost use Rattle.cisco_lang.specs.Walks.{is_entry};
ghost use Rattle.gen_cisco.specs.CountSteps.{closing_count, rule_count};
ghost use Rattle.gen_cisco.specs.Sections.{list_items};

use acl_packet::Family;
use acl_platform::{Rule, RuleCount, count_combinations, count_rules};

/// The number of entries of the list of the family; a number that does not fit stands at the
/// greatest one that does. Protocols, types and codes of its rules have to be numbers below 256, ports
/// below 65,536.
pub(crate) fn list_count(family: Family, rules: &[Rule]) -> u64
    requires { All IsSized rules.now }
    ensures { result ≡ min (count_by is_entry (list_items family rules.now)) COUNT_END }
{
    if has_rule(family, rules) {
        count_rules(rules, &InFamily { family })
    } else {
        closing_count(family)
    }
}

/// Whether the list of the family has a rule.
pub(crate) fn has_rule(family: Family, rules: &[Rule]) -> bool
    ensures { result ≡ list_any (λ r. same_family r.family family) rules.now }
{
    rules.iter().any(|rule| rule.family == family)
}

/// Whether the rule is of the family.
pub(crate) fn is_of(family: Family, rule: &Rule) -> bool
    ensures { result ≡ same_family rule.now.family family }
{
    rule.family == family
}

fn closing_count(family: Family) -> u64
    ensures { result ≡ closing_count family }
{
    match family {
        Family::V4 => 1,
        Family::V6 => 3,
    }
}

// A rule, as the entries that it gives the list of a family.
#[derive(Drop)]
struct InFamily {
    family: Family,
}

impl RuleCount for InFamily {
    ghost entries = { λ f rule. rule_count f.family rule };

    fn count_rule(&self, rule: &Rule) -> u64 {
        if is_of(self.family, rule) {
            count_combinations(rule)
        } else {
            0
        }
    }
}
