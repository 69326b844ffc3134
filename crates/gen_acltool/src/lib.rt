//! The texts that acltool makes of filters: those for iptables-restore, and standard access lists of Cisco IOS.
#![tactic(auto)]

mod counts;
mod limits;
mod list_rows;
mod restored_rows;
mod speedway;
mod speedway_laws;
mod standard;
mod standard_laws;

pub use speedway::Speedway;
pub use speedway_laws::a_section_begins_with_its_target;
pub use standard::Standard;
pub use standard_laws::targets_of_a_policy_have_different_lists;
