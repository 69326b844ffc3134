//! The run of aclcheck: from the words of the command line to the lines on one packet and the ending. What becomes of the
//! packet is told on the targets of a policy, or by a section of a text.
#![tactic(auto)]

mod deciding;
mod laws;
mod lines;
mod policies;
mod program;
mod programs;
mod running;
mod sections;
mod verdicts;

pub use acl_run::{Ended, Which, status_of};
pub use laws::{answers_are_one, outcomes_are_the_policys, sections_answer_as_the_policy};
pub use policies::answer_policy;
pub use programs::{run_status, status_without_words};
pub use running::aclcheck;
pub use sections::answer_section;
