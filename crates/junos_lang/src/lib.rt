//! The language of Junos firewall filters: documents, their texts, a strict reader, and what a filter
//! does to a packet.
#![tactic(auto)]

mod condition_rows;
mod conditions;
mod document_rows;
mod documents;
mod filter_rows;
mod filter_taking;
mod filters_drafts;
mod fixed_rows;
mod junos;
mod scanning;
mod term_taking;
mod terms_taking;
mod validity;
mod walking;

pub use acl_rows::{outcome, read_document, sections};
pub use condition_rows::{FromPart, PortSpan, Values};
pub use documents::{Doc, JTerm, JTest, Section};
pub use filter_rows::{NoteRow, SectionEnd, SectionHead, TermEnd, TermHead, ThenRows};
pub use junos::Junos;
