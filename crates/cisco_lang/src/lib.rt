//! The language of Cisco IOS access lists: documents, their texts, a strict reader, and what a list
//! does to a packet.
#![tactic(auto)]

mod cisco;
mod documents;
mod entry_reading;
mod list_rows;
mod lists_drafts;
mod scanning;
mod validity;
mod walking;

pub use acl_rows::{outcome, read_document, sections};
pub use cisco::Cisco;
pub use documents::{AccessList, Doc, Entry, Flags, Item, Section};
pub use entry_reading::{next_word, take_place};
pub use list_rows::{
    AddressWords, EndWords, EntryBack, EntryFront, EntryHalves, EntryRow, EntryStart, ListEnd,
    ListHead, RemarkRow, SectionHead, action_word,
};
pub use walking::verdict_of;
