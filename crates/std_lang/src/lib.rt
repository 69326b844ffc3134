//! The language of standard access lists of Cisco IOS, which have numbers and look at sources alone:
//! documents, their texts, a strict reader, and what a list does to a packet.
#![tactic(auto)]

mod documents;
mod drafts;
mod laws;
mod list_rows;
mod standard;
mod validity;
mod walking;

pub use acl_rows::sections;
pub use documents::{Doc, Entry, Item, Section};
pub use laws::a_text_has_one_document;
pub use list_rows::{EntryRow, ListHead, RemarkRow};
pub use standard::{Standard, outcome, read};
