ghost use Rattle.std.specs.Prelude.{◌≡◌};
ghost use Rattle.std.specs.List.{list_all};
ghost use Rattle.acl_packet.specs.Packets.{fields};
ghost use Rattle.acl_sets.specs.ComputableSets.{is_all};
ghost use Rattle.acl_platform.specs.Rules.{set_of as set_in};
ghost use Rattle.gen_acltool.specs.Limits.{is_plain, rule_limit, says_sources};

use crate::standard::Standard;
use acl_packet::fields;
use acl_platform::{Earlier, Feature, Limit, Rule, RuleLimits, Test, set_of};

const LONGEST_NAME: usize = 64;

impl RuleLimits for Standard {
    ghost limit = { rule_limit };

    fn rule_limit(&self, earlier: &Earlier<'_>, rule: &Rule) -> Option<Limit> {
        let place = earlier.count();
        if rule.name.as_slice().len() > LONGEST_NAME {
            Some(Limit::NameLength(place))
        } else if !says_sources(rule) {
            Some(Limit::Unsupported(place, Feature::MoreThanSources))
        } else {
            None
        }
    }
}

// Whether the rule asks for sources alone.
fn says_sources(rule: &Rule) -> bool
    ensures { result ≡ says_sources rule.now }
{
    rule.dst.is_all() && has_all_numbers(rule) && is_plain(rule.test)
}

// Whether the rule's set of each field is all.
fn has_all_numbers(rule: &Rule) -> bool
    ensures { result ≡ list_all (λ field. is_all (set_in field rule.now)) fields }
{
    fields().iter().all(|field| set_of(*field, rule).is_all())
}

fn is_plain(test: Test) -> bool
    ensures { result ≡ is_plain test }
{
    matches!(test, Test::Plain)
}
