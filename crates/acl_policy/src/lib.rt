//! Policies: from the spliced lines of a policy to its blocks of targets and terms, or the first slip.
#![tactic(auto)]

mod blocks;
mod choices;
mod clashes;
mod clauses;
mod copies;
mod judging;
mod keywords;
mod named_terms;
mod open_terms;
mod policy_parsing;
mod rare_lists;
mod raw_terms;
mod states;
mod target_lines;
mod term_drafts;
mod terms;
mod values;
mod word_judges;
mod word_slips;

pub use acl_target::{Ending, Kind, Target, Targets, put_target};
pub use acl_words::{GatherFault, Sources, Word, WordList, WordRef, WordsLeft, gather, label};
pub use blocks::{Block, Blocks, Policy};
pub use copies::copy_target;
pub use keywords::Keyword;
pub use policy_parsing::parse;
pub use raw_terms::{RawTerm, RawTerms};
pub use values::Takes;
