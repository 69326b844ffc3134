//! Packets, addresses and verdicts: the words that every layer above shares.
#![tactic(auto)]

mod addresses;
mod decimals;
mod filtering;
mod number_words;
mod packet_fields;
mod packets;

pub use addresses::{Families, Family, Prefix, any_has};
pub use decimals::{read_number, read_u8, read_u16};
pub use filtering::{Hook, Outcome, Verdict};
pub use number_words::{icmp_number, protocol_number};
pub use packet_fields::{Field, fields};
pub use packets::{Conn, Packet, has_flag, has_ports, is_packet};
