//! The text of a policy: its lines with the files that it includes spliced in, kept as one text with their places, and its
//! words, read one at a time from them, each with its place and how it is meant.
#![tactic(auto)]

mod file_texts;
mod folders;
mod forms;
mod gathering;
mod include_lines;
mod inner_runs;
mod line_places;
mod line_texts;
mod line_words;
mod partial_splices;
mod place_lists;
mod places;
mod policy_words;
mod runs;
mod scanning;
mod short_texts;
mod sources;
mod splicing;
mod stretches;
mod tokens;
mod word_bytes;
mod word_lists;
mod word_texts;

pub use forms::Form;
pub use gathering::{GatherFault, gather};
pub use line_texts::Lines;
pub use policy_words::PolicyWords;
pub use sources::{Sources, label};
pub use stretches::Stretch;
pub use tokens::Token;
pub use word_bytes::WordBytes;
pub use word_lists::{Word, WordList, WordRef, WordsLeft};
