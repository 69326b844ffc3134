//! nftables rules from filters.
#![tactic(auto)]

mod counts;
mod icmp_sets;
mod laws;
mod limits;
mod nftables;
mod rule_words;
mod section_rows;
mod sets;

pub use laws::{
    a_section_begins_with_its_target, targets_of_different_numbers_have_different_tables,
};
pub use nftables::Nftables;
