//! The job of aclgen: from options, day and files to the files of filters and the report, or to the first fault.
#![tactic(auto)]

mod filter_files;
mod filter_paths;
mod laws;
mod planning;
mod preparing;
mod shading;

pub use filter_files::{FilterFile, write_files};
pub use laws::{faults_are_answered, jobs_are_one, jobs_are_there, planned_texts_are_of_sections};
pub use planning::{Work, make_work};
