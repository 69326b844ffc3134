//! Tests of the words, of the workload and of whole runs of the three programs, over files in memory.
//!
//! A library that is tested here is proved once: tests beside its code would have it proved with them again.
#![tactic(auto)]

#[cfg(test)]
mod tests;
