//! Cisco IOS access lists from filters.
#![tactic(auto)]

mod cisco;
mod counts;
mod laws;
mod limits;
mod section_rows;

pub use cisco::Cisco;
pub use laws::{a_section_begins_with_its_target, targets_without_clash_have_different_lists};
