//! iptables rules from filters.
#![tactic(auto)]

mod counts;
mod groups;
mod iptables;
mod laws;
mod limits;
mod rule_rows;
mod section_rows;

pub use iptables::Iptables;
pub use laws::{
    a_section_begins_with_its_target, entries_are_rows_that_append, ports_have_one_list_of_groups,
    targets_without_clash_have_different_sections,
};
pub use rule_rows::ChainRules;
pub use section_rows::policy_of;
