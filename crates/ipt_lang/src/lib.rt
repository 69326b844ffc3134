//! The language of iptables arguments: documents, their texts, a strict reader, and what a hook's rules
//! do to a packet.
#![tactic(auto)]

mod chain_rows;
mod chain_scans;
mod chains_drafts;
mod documents;
mod iptables;
mod ports;
mod row_scans;
mod rule_drafts;
mod rule_rows;
mod rule_words;
mod scanning;
mod validity;
mod walking;

pub use acl_rows::{outcome, read_document, sections};
pub use chain_rows::{
    ChainHead, ChainName, JumpRow, OfChain, RemarkRow, Remarks, SectionHead, TargetRow,
    default_word, hook_word,
};
pub use chains_drafts::ChainsDraft;
pub use documents::{Act, Chain, Doc, Flags, Rule, Section};
pub use iptables::Iptables;
pub use ports::PortLists;
pub use rule_rows::{RuleBack, RuleFront, RuleRow, RuleSource};
