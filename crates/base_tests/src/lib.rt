//! Tests of packets, their texts, other texts, rows, sets and days, and of files, streams and clocks in memory and of the
//! machine.
//!
//! A library that is tested here is proved once: tests beside its code would have it proved with them again.
#![tactic(auto)]

#[cfg(test)]
mod tests;
