//! The filters that targets of a policy ask for, within the limits of their platforms, or the first slip; and their file:
//! filters in, a text of the platform's language out, with a reader of such texts.
#![tactic(auto)]

mod checking;
mod choosing;
mod laws;
mod platforms;
mod reading;
mod rendering;
mod slips;

pub use checking::checked_filter;
pub use choosing::{Choice, chosen_filters};
pub use laws::{
    a_meant_text_is_that_of_the_sections, a_text_has_one_document, fewer_rules_fit,
    taken_filters_are_short,
};
pub use platforms::count_within_limits;
pub use reading::{outcome, sections};
pub use rendering::render;
pub use slips::limit_refusal;
