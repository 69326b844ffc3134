//! What lies outside the program: files, streams and the clock with the days that it tells, as traits with their meanings,
//! and what is done with any of them: a folder is listed, a whole file is read or written, a day is read or put as text.
#![tactic(auto)]

mod clocks;
mod day_texts;
mod days;
mod look_faults;
mod paths;
mod sinks;
mod trees;
mod whole_files;
mod writing;

pub use clocks::{Clock, ClockFault};
pub use day_texts::{put_day, read_day};
pub use days::Day;
pub use look_faults::{ListFault, ReadFault};
pub use paths::{join_path, with_slash};
pub use sinks::{Sink, WriteFault};
pub use trees::{FileNames, Tree, TreeFault};
pub use whole_files::{listing, read_whole};
pub use writing::write_file;
