//! What strict readers and writers of device languages share: pieces with a stated text, rows of
//! words, lenient reading into a draft, the comparison of bytes with a text, the sections of a
//! document with their laws, and the parts of rules that languages have alike.
#![tactic(auto)]

mod apart;
mod comparing;
mod drafts;
mod each_word;
mod family_words;
mod item_lists;
mod languages;
mod laws;
mod line_halves;
mod line_texts;
mod listed;
mod listed_rows;
mod named;
mod pieces;
mod port_ranges;
mod prefix_checks;
mod row_halves;
mod row_words;
mod rows;
mod rule_parts;
mod scanning;

pub use apart::{are_distinct, are_distinct_names};
pub use comparing::{is_text_of, rows_behind};
pub use drafts::{DocumentDraft, Draft, indent_of};
pub use each_word::{EachWord, WordForm};
pub use family_words::{families_of, family_named};
pub use item_lists::{ItemsBehind, OneItem};
pub use languages::{Language, outcome, read_document, sections};
pub use laws::{
    a_document_has_one_text, a_text_has_one_document, joined_documents_keep_outcomes,
    joined_texts_spell_joined_documents, the_empty_text_has_no_section,
};
pub use line_halves::{LineHalves, put_pairs};
pub use listed::{EachListed, Listed, has_none, put_listed};
pub use listed_rows::ListedRows;
pub use named::{Named, have_distinct_names};
pub use pieces::{Address, FreeText, Number, OneWord, Piece, Wildcard, Words, put_words};
pub use port_ranges::{PortRange, RangeWords, are_port_ranges, is_port_range};
pub use prefix_checks::{is_addresses, is_prefix_of};
pub use row_halves::{RowBack, RowFront};
pub use row_words::RowWords;
pub use rows::{AsRows, Each, Row, RowForm, Rows};
pub use rule_parts::{
    ACK, End, LogWord, RST, SYN, admit_addresses, admit_ports, has_port_proto, is_empty, is_proto,
    number_fits, number_holds, state_holds,
};
pub use scanning::{Scan, SectionVerdict, TakenSection, find_section};
