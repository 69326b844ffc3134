//! Junos firewall filters from filters.
#![tactic(auto)]

mod condition_rows;
mod counts;
mod junos;
mod laws;
mod limits;
mod section_rows;

pub use junos::Junos;
pub use laws::{a_section_begins_with_its_target, targets_without_clash_have_different_sections};
