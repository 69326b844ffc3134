ghost use Rattle.std.specs.Prelude.{◌≡◌};

use acl_packet::{Families, Family, Prefix};
use acl_text::{Bytes, Items};

/// A test of a packet's TCP flags.
#[derive(Clone, Copy, PartialEq, Eq)]
pub enum Flags {
    /// `established`: ACK or RST is set.
    Established,
    /// `rst`: RST is set.
    Rst,
    /// `match-all +syn -ack`: SYN is set and ACK is clear.
    SynNotAck,
}

/// An entry of a list: what it does, and which packets it holds. A part that is `None` is not
/// written, and holds all. A prefix of length 0 is written `any`.
#[derive(Clone, Copy, PartialEq, Eq)]
pub struct Entry {
    pub permit: bool,
    pub proto: Option<u8>,
    pub src: Prefix,
    pub sport: Option<(u16, u16)>,
    pub dst: Prefix,
    pub dport: Option<(u16, u16)>,
    pub itype: Option<u8>,
    pub icode: Option<u8>,
    pub flags: Option<Flags>,
    pub log: bool,
}

/// A line of a list.
#[derive(Drop)]
pub enum Item {
    Remark(Bytes),
    Entry(Entry),
}

/// An access list.
#[derive(Drop)]
pub struct AccessList {
    pub family: Family,
    pub name: Bytes,
    pub items: Items<Item>,
}

/// What is written for one target: one list, or in a mixed section one for each family.
#[derive(Drop)]
pub struct Section {
    pub name: Bytes,
    pub families: Families,
    pub lists: Items<AccessList>,
}

/// A document: the sections of its text, in order.
pub type Doc = Items<Section>;
