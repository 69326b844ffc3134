//! The run of acltool: from the words of the command line to the text on standard output and the ending. Its commands are
//! `speedway`, the text for iptables-restore; `dead`, what each term decides; and `standard`, Cisco standard lists.
#![tactic(auto)]

mod answering;
mod dead_lines;
mod dead_telling;
mod deciding;
mod laws;
mod listed_targets;
mod listing;
mod program;
mod programs;
mod restored_targets;
mod restoring;
mod running;

pub use acl_run::{Ended, Which, status_of};
pub use dead_telling::tell_dead;
pub use laws::{
    dead_answers_are_one, list_answers_are_one, list_answers_are_there, restored_answers_are_one,
    restored_answers_are_there,
};
pub use listing::list_targets;
pub use programs::{run_status, status_without_words};
pub use restoring::restore;
pub use running::acltool;
