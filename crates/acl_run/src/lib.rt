//! The frame of a run: how a program decides what to do, tells it on its streams, and ends; and the whole of a run that
//! writes no file.
#![tactic(auto)]

mod deciding;
mod endings;
mod finishing;
mod lines;
mod programs;
mod telling;

pub use deciding::{Decision, day_for, decision_on};
pub use endings::{Ended, Which, status_of};
pub use finishing::finish;
pub use programs::Program;
pub use telling::{end_without_words, refuse, report_on, tell_outside};
