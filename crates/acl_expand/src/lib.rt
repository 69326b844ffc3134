//! From the terms of a policy to the rules of a filter.
#![tactic(auto)]

mod conditions;
mod expanding;
mod known_rules;
mod laws;
mod rule_making;
mod slips;
mod target_classes;

pub use expanding::expand;
pub use known_rules::KnownRules;
pub use laws::{alike_targets_have_the_same_rules, filters_decide_as_written};
