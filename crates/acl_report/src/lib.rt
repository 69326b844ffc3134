//! The report: what is told of the terms of a policy and of its filters, on standard output.
#![tactic(auto)]

mod conditions;
mod counts;
mod reports;
mod shaded;
mod term_lines;

pub use counts::put_count;
pub use reports::report_terms;
pub use shaded::{ShadedLists, shaded_lists};
pub use term_lines::put_term;
