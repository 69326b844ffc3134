use acl_packet::{Family, Hook, Prefix, Verdict};
use acl_text::{Bytes, Items};

/// A test of a packet's TCP flags.
#[derive(Clone, Copy, PartialEq, Eq)]
pub enum Flags {
    /// `--tcp-flags ACK ACK`: ACK is set.
    Ack,
    /// `--tcp-flags RST RST`: RST is set.
    Rst,
    /// `--tcp-flags SYN,ACK SYN`: SYN is set and ACK is clear.
    SynNotAck,
}

/// What a rule does with the packets that it holds.
#[derive(Clone, Copy, PartialEq, Eq)]
pub enum Act {
    /// Logs the packet, which then goes on to the next rule.
    Log,
    /// Ends the packet's way.
    Decide(Verdict),
}

/// A rule of a chain: which packets it holds, and what it does with them. A part that is `None`,
/// `false` or a list without elements is not written, and holds all.
#[derive(Drop)]
pub struct Rule {
    pub proto: Option<u8>,
    pub src: Option<Prefix>,
    pub dst: Option<Prefix>,
    /// Ranges of ports, both ends included.
    pub sports: Items<(u16, u16)>,
    pub dports: Items<(u16, u16)>,
    pub itype: Option<u8>,
    /// A code of the type; `None` holds each.
    pub icode: Option<u8>,
    pub flags: Option<Flags>,
    /// Whether the packet's connection has to be established or related.
    pub state: bool,
    pub act: Act,
}

/// A chain, to which the hook's chain jumps.
#[derive(Drop)]
pub struct Chain {
    pub remarks: Items<Bytes>,
    /// The name without the hook's letter and the `_` behind it.
    pub name: Bytes,
    pub rules: Items<Rule>,
}

/// What is written for one target: the rules of a hook for packets of a family.
#[derive(Drop)]
pub struct Section {
    pub hook: Hook,
    pub family: Family,
    /// Whether the hook's policy is to accept, else it is to drop; `None` leaves it as it is.
    pub accept: Option<bool>,
    pub chains: Items<Chain>,
}

/// A document: the sections of its text, in order.
pub type Doc = Items<Section>;
