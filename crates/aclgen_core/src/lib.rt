//! The run of aclgen: from the words of the command line to the files, the report and the ending; and the test load
//! that it can compile: its texts, that they have no fault, and its job in memory.
#![tactic(auto)]

mod acting;
mod compiling;
mod deciding;
mod fault_lines;
mod laws;
mod programs;
mod running;
mod workload_laws;
mod workload_lines;
mod workload_runs;
mod workload_texts;
mod workloads;

pub use acl_run::{Ended, Which, status_of};
pub use laws::sure_runs_end_inside;
pub use programs::{run_status, status_without_words};
pub use running::aclgen;
pub use workload_laws::{workloads_are_loaded, workloads_have_no_fault};
pub use workload_texts::Workload;
pub use workloads::workload;
