//! The language of texts for iptables-restore and ip6tables-restore: the documents of `ipt_lang` that
//! say a policy, their texts, and a strict reader.
#![tactic(auto)]

mod drafts;
mod laws;
mod restore;
mod restore_rows;

pub use acl_rows::{outcome, sections};
pub use laws::{a_document_has_a_text_in_both_languages, a_text_has_one_document};
pub use restore::{Restore, read_restore};
pub use restore_rows::{ChainDeclaration, CommitRow, SectionHead};
