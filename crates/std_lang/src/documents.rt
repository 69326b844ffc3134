use acl_packet::Prefix;
use acl_text::{Bytes, Items};

/// An entry of a list: what it does, and the sources whose packets it holds. A prefix of length 0 is
/// written `any`.
#[derive(Clone, Copy, PartialEq, Eq)]
pub struct Entry {
    pub permit: bool,
    pub src: Prefix,
    pub log: bool,
}

/// A line of a list.
#[derive(Drop)]
pub enum Item {
    Remark(Bytes),
    Entry(Entry),
}

/// What is written for one target: the list of a number.
#[derive(Drop)]
pub struct Section {
    pub number: u8,
    pub items: Items<Item>,
}

/// A document: the sections of its text, in order.
pub type Doc = Items<Section>;
