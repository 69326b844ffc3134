ghost use Rattle.std.specs.Prelude.{◌≡◌, IsTrue};

use crate::rules::Rule;
use acl_sets::RangeSet;

/// Whether both are the same rules, in the same order.
pub fn are_same(rules: &[Rule], others: &[Rule]) -> bool
    ensures { IsTrue result → rules.now ≡ others.now }
{
    if rules.len() != others.len() {
        return false;
    }
    for (i, rule) in rules.iter().enumerate() {
        if !is_same(rule, &others[i]) {
            return false;
        }
    }
    true
}

// Whether both are the same rule: what is short is looked at first.
fn is_same(rule: &Rule, other: &Rule) -> bool
    ensures { IsTrue result → rule.now ≡ other.now }
{
    has_same_action(rule, other)
        && has_same_sets(rule, other)
        && has_same_note(rule, other)
        && has_same_addresses(rule, other)
}

fn has_same_action(rule: &Rule, other: &Rule) -> bool
    ensures family { IsTrue result → rule.now.family ≡ other.now.family }
    ensures test { IsTrue result → rule.now.test ≡ other.now.test }
    ensures verdict { IsTrue result → rule.now.verdict ≡ other.now.verdict }
    ensures log { IsTrue result → rule.now.log ≡ other.now.log }
{
    rule.family == other.family
        && rule.test == other.test
        && rule.verdict == other.verdict
        && rule.log == other.log
}

fn has_same_note(rule: &Rule, other: &Rule) -> bool
    ensures name { IsTrue result → rule.now.name ≡ other.now.name }
    ensures place { IsTrue result → rule.now.place ≡ other.now.place }
    ensures note { IsTrue result → rule.now.note ≡ other.now.note }
{
    rule.place == other.place
        && rule.name.as_slice() == other.name.as_slice()
        && rule.note.as_slice() == other.note.as_slice()
}

fn has_same_addresses(rule: &Rule, other: &Rule) -> bool
    ensures src { IsTrue result → rule.now.src ≡ other.now.src }
    ensures dst { IsTrue result → rule.now.dst ≡ other.now.dst }
{
    rule.src.is_same(&other.src) && rule.dst.is_same(&other.dst)
}

fn has_same_sets(rule: &Rule, other: &Rule) -> bool
    ensures protos { IsTrue result → rule.now.protos ≡ other.now.protos }
    ensures sports { IsTrue result → rule.now.sports ≡ other.now.sports }
    ensures dports { IsTrue result → rule.now.dports ≡ other.now.dports }
    ensures itypes { IsTrue result → rule.now.itypes ≡ other.now.itypes }
    ensures icodes { IsTrue result → rule.now.icodes ≡ other.now.icodes }
{
    is_same_set(&rule.protos, &other.protos)
        && is_same_set(&rule.sports, &other.sports)
        && is_same_set(&rule.dports, &other.dports)
        && is_same_set(&rule.itypes, &other.itypes)
        && is_same_set(&rule.icodes, &other.icodes)
}

fn is_same_set(set: &RangeSet, other: &RangeSet) -> bool
    ensures { IsTrue result → set.now ≡ other.now }
{
    set.top() == other.top() && set.is_same(other)
}
