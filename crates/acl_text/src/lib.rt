//! Bytes, faults, numbers and addresses as text, and the trait of what takes text.
#![tactic(auto)]

mod copying;
mod cursors;
mod cuts;
mod decimals;
mod faults;
mod file_lines;
mod hex_digits;
mod ipv4;
mod ipv4_fronts;
mod ipv4_text;
mod ipv6;
mod ipv6_fronts;
mod ipv6_text;
mod items;
mod laws;
mod names;
mod notes;
mod octets;
mod output;
mod pieces;
mod port_ranges;
mod prefix_fronts;
mod prefixes;
mod refusals;
mod seen_names;
mod short;
mod signed_numbers;
mod text_keys;
mod texts;
mod wholes;
mod words;

pub use acl_packet::{read_number, read_u8, read_u16};
pub use copying::copy_bytes;
pub use cursors::Cursor;
pub use cuts::{ahead, behind, contains_byte, split_at_byte};
pub use decimals::put_number;
pub use faults::{BoxedSlip, Code, Fault, Place, Refusal, Rejection, Slip};
pub use file_lines::Line;
pub use items::Items;
pub use laws::{
    addresses_are_read_again, longest_runs_are_found, numbers_are_read_again,
    prefixes_are_read_again, texts_have_one_number, texts_have_one_prefix,
};
pub use names::{is_digit, is_filter_name, is_letter, is_name, is_name_byte, is_safe_text};
pub use notes::note;
pub use output::{Out, PutFault};
pub use pieces::put_pieces;
pub use port_ranges::read_ports;
pub use prefix_fronts::prefix_front;
pub use prefixes::{
    put_address, put_prefix, put_prefix_between, put_wildcard, read_address, read_prefix,
    read_spelled_prefix,
};
pub use seen_names::SeenNames;
pub use signed_numbers::read_signed;
pub use text_keys::TextKey;
pub use texts::{Bytes, Memory};
pub use wholes::Whole;
pub use words::{is_white, next_word, skip_white};
