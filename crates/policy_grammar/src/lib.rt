//! The policy language as a grammar: the texts that a policy may have, their words, and what they mean. Each law says
//! that the reader of policies takes just these texts.
#![tactic(auto)]

mod laws;

pub use laws::{
    just_fitting_policies_are_meant, just_target_lines_are_read, just_texts_are_read,
    printed_words_are_read, slips_stay, texts_are_read, texts_have_lines,
};
