//! The rules of a filter and what they do to a packet, the trait of platforms, and what the
//! generators of texts share.
#![tactic(auto)]

mod address_pairs;
mod choices;
mod combinations;
mod elements;
mod family_texts;
mod filtering;
mod filters;
mod kept_texts;
mod laws;
mod limits;
mod numbers;
mod platforms;
mod prefix_lists;
mod remarks;
mod rule_counts;
mod rule_rows;
mod rule_texts;
mod rules;
mod same_rules;
mod section_forms;
mod shared_rules;
mod writing;

pub use address_pairs::{AddressForm, put_address_pairs};
pub use choices::{Choices, NumberChoices, RangeChoices};
pub use combinations::{
    Combination, CombinationForm, count_combinations, put_combinations, put_combinations_by_parts,
};
pub use elements::range_elements;
pub use family_texts::FamilyTexts;
pub use filtering::filter_outcome;
pub use filters::{Feature, Filter, Limit};
pub use laws::{combinations_hold_what_the_sets_hold, sound_rules_have_combinations};
pub use limits::{Earlier, RuleLimits, count_in_limit, first_limit, names_sctp_ports};
pub use numbers::{NumberForm, count_numbers, put_numbers, put_numbers_from};
pub use platforms::{Platform, count_within_limits};
pub use prefix_lists::{ListedPrefixes, count_written};
pub use remarks::{NoteRows, RemarkForm, RemarkRows};
pub use rule_counts::{RuleCount, count_rules};
pub use rule_rows::{RuleForm, put_rules};
pub use rule_texts::RuleTexts;
pub use rules::{Rule, Rules, Test, set_of};
pub use same_rules::are_same;
pub use section_forms::{SectionForm, put_section_by, put_sections_by};
pub use shared_rules::SharedRules;
pub use writing::write_all;
