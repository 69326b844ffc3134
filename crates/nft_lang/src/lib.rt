//! The language of nftables rules: documents, their texts, a strict reader, and what a chain does to a
//! packet.
#![tactic(auto)]

mod chain_rows;
mod documents;
mod nftables;
mod overlaps;
mod rule_drafts;
mod rule_words;
mod scanning;
mod sets;
mod start_drafts;
mod tables_drafts;
mod validity;
mod walking;

pub use acl_rows::{outcome, read_document, sections};
pub use chain_rows::{CommentRow, RuleRow, SectionEnd, TableHead};
pub use documents::{Doc, Flags, Item, Rule, Section};
pub use nftables::Nftables;
pub use rule_words::{FlagTest, PacketFamily, Protocol, RuleEnding, icmp_word};
pub use sets::{ElementSet, PrefixWord, SetKey};
