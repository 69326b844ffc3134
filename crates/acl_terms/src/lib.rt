//! Terms: what a term of a policy means for a packet, before any platform is asked.
#![tactic(auto)]

mod addresses;
mod checks;
mod distinct;
mod emptiness;
mod ends;
mod known_addresses;
mod known_protocols;
mod laws;
mod living;
mod matching;
mod new_words;
mod options;
mod ports;
mod protocols;
mod resolving;
mod side_sets;
mod sides;
mod terms;

pub use emptiness::{is_empty_in, is_pair_empty};
pub use known_addresses::KnownAddresses;
pub use laws::{
    empty_terms_match_none, policies_decide_as_written, terms_are_one, terms_are_there,
    terms_live_as_written, terms_match_as_written,
};
pub use living::is_live;
pub use matching::{destination_in, either_in, matches, set_in, source_in};
pub use options::{Mode, Opt};
pub use resolving::{resolve, resolve_with};
pub use side_sets::{dports_on, pairs_of, sports_on};
pub use sides::{Side, SidePair};
pub use terms::{Platforms, Term};
