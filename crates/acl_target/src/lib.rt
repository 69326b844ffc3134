//! Targets: the filters that a policy asks for, what they do at their end, their text, and which of them clash.
#![tactic(auto)]

mod clashes;
mod target_texts;
mod targets;

pub use clashes::clash;
pub use target_texts::{kind_text, put_target};
pub use targets::{Ending, Kind, Target, Targets};
