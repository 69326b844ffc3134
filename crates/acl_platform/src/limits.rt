ghost use Rattle.std.specs.Prelude.{◌≡◌, ℕ, List, Option, [], length, min};
ghost use Rattle.std.specs.List.{All, list_any};
ghost use Rattle.std.specs.Str.{bytes_eq};
ghost use Rattle.acl_text.specs.Output.{COUNT_END};
ghost use Rattle.acl_platform.specs.declared.filters.Limit.{Limit};
ghost use Rattle.acl_platform.specs.declared.rules.Rule.{Rule};
ghost use Rattle.acl_platform.specs.Limits.{
  count_limit,
  first_limit,
  is_name_taken,
  name_limit,
  names_sctp_ports,
};
ghost use Rattle.acl_platform.specs.NameSlotSteps.{IsSeen};
ghost use Rattle.acl_platform.specs.Platforms.{judged};

use crate::filters::Limit;
use crate::rules::Rule;
use acl_text::SeenNames;
use std::marker::Model;

const SCTP: u128 = 132;

const MOST_ENTRIES: u64 = 100_000;

/// How a platform judges the rules of a filter.
pub trait RuleLimits {
    ghost limit: { List Rule → Rule → Option Limit };

    /// Why the rule is not taken behind the earlier rules of its filter, whose number is its place.
    fn rule_limit(&self, earlier: &Earlier<'_>, rule: &Rule) -> Option<Limit>
        ensures { result ≡ limit earlier.now rule.now };
}

/// The rules of a filter before one of them. A contract sees the list of these rules.
///
/// Only where the slot of a name was seen are names compared: a filter may have thousands of rules.
#[derive(Drop)]
pub struct Earlier<'a> {
    rules: &'a [Rule],
    names: &'a SeenNames,
}

impl<'a> Model for Earlier<'a> {
    ghost Value = { List Rule };

    ghost view = { λ e. e.rules.now };

    ghost invariant = { λ e. All (IsSeen e.names.now) e.rules.now };
}

impl<'a> Earlier<'a> {
    /// How many rules there are, which is the place of the next.
    pub fn count(&self) -> usize
        ensures { result ≡ length self.now }
    {
        self.rules.len()
    }

    /// Whether one of these rules has the rule's name.
    pub fn have_name_of(&self, rule: &Rule) -> bool
        ensures { result ≡ is_name_taken self.now rule.now }
    {
        is_name_taken(self.rules, self.names, rule)
    }

    /// Why the rule's name is not taken: it is longer than the longest one, or one of these rules has
    /// it.
    pub fn name_limit(&self, longest: usize, rule: &Rule) -> Option<Limit>
        ensures { result ≡ name_limit longest self.now rule.now }
    {
        let place = self.count();
        if rule.name.as_slice().len() > longest {
            Some(Limit::NameLength(place))
        } else if self.have_name_of(rule) {
            Some(Limit::NameClash(place))
        } else {
            None
        }
    }
}

fn is_name_taken(earlier: &[Rule], names: &SeenNames, rule: &Rule) -> bool
    requires { All (IsSeen names.now) earlier.now }
    ensures { result ≡ is_name_taken earlier.now rule.now }
{
    let name = rule.name.as_slice();
    names.may_have(name) && has_name(earlier, name)
}

fn has_name(rules: &[Rule], name: &[u8]) -> bool
    ensures { result ≡ list_any (λ r. bytes_eq r.name name.now) rules.now }
{
    rules.iter().any(|rule| rule.name.as_slice() == name)
}

/// The limit of the first rule that has one.
pub fn first_limit<L: RuleLimits>(limits: &L, rules: &[Rule]) -> Option<Limit>
    ensures { result ≡ first_limit L.limit [] rules.now }
{
    let mut names = SeenNames::new();
    for (place, rule) in rules.iter().enumerate() {
        let earlier = Earlier {
            rules: &rules[..place],
            names: &names,
        };
        let limit = limits.rule_limit(&earlier, rule);
        if limit.is_some() {
            return limit;
        }
        names.add(rule.name.as_slice());
    }
    None
}

/// The count, where it is not above the greatest number of entries. A number of entries that does
/// not fit may stand at the greatest one that does.
pub fn count_in_limit(count: u64) -> Result<u64, Limit>
    ensures { (entries : ℕ) → count ≡ min entries COUNT_END
        → result ≡ judged (count_limit entries) entries }
{
    if count > MOST_ENTRIES {
        Err(Limit::TooManyEntries)
    } else {
        Ok(count)
    }
}

/// Whether the rule names ports, and holds SCTP.
pub fn names_sctp_ports(rule: &Rule) -> bool
    ensures { result ≡ names_sctp_ports rule.now }
{
    rule.protos.contains(SCTP) && !(rule.sports.is_all() && rule.dports.is_all())
}
