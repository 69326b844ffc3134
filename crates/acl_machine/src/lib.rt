//! The files, the streams and the clock of the machine.
#![tactic(auto)]

mod disk;
mod disk_trees;
mod gathered;
mod large_blocks;
mod replacing;
mod std_sinks;
mod system_clocks;
#[cfg(test)]
mod tests;
mod whole_writes;
mod write_counts;

pub use disk_trees::DiskTree;
pub use large_blocks::keep_large_blocks;
pub use std_sinks::StdSink;
pub use system_clocks::SystemClock;
