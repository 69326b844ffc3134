//! Tests of naming files and policies: how they are read, what their terms match, what shades a term, the filters that terms
//! become, and how a policy is loaded and reported.
//!
//! A library that is tested here is proved once: tests beside its code would have it proved with them again.
#![tactic(auto)]

#[cfg(test)]
mod tests;
