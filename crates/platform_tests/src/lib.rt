//! Tests of the languages, whose texts are read or refused; of what the platforms share, of each platform's generator, and
//! of rendering.
//!
//! A library that is tested here is proved once: tests beside its code would have it proved with them again.
#![tactic(auto)]

#[cfg(test)]
mod tests;
