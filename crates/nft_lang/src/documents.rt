use acl_packet::{Families, Family, Hook, Prefix, Verdict};
use acl_text::{Bytes, Items};

/// A test of a packet's TCP flags.
#[derive(Clone, Copy, PartialEq, Eq)]
pub enum Flags {
    /// `tcp flags & rst == rst`: RST is set.
    Rst,
    /// `tcp flags & (syn | ack) == syn`: SYN is set and ACK is clear.
    SynNotAck,
}

/// A rule of a chain: which packets it holds, whether it logs them, and what it decides. A part that
/// is `None`, `false` or a set without elements is not written, and holds all.
pub struct Rule {
    /// The family of the packets, written only where the table is of both.
    pub family: Family,
    pub proto: Option<u8>,
    pub src: Items<Prefix>,
    pub dst: Items<Prefix>,
    /// Ranges of ports, both ends included.
    pub sports: Items<(u16, u16)>,
    pub dports: Items<(u16, u16)>,
    pub itypes: Items<u8>,
    /// Codes of the one type.
    pub icodes: Items<u8>,
    pub flags: Option<Flags>,
    /// Whether the packet's connection has to be established or related.
    pub state: bool,
    pub log: bool,
    pub verdict: Verdict,
}

// Where a rule is let go, that is one step, whatever it holds.
impl Drop for Rule {
    fn drop(self) {
        let Rule {
            family: _,
            proto: _,
            src,
            dst,
            sports,
            dports,
            itypes,
            icodes,
            flags: _,
            state: _,
            log: _,
            verdict: _,
        } = self;
        drop(src);
        drop(dst);
        drop(sports);
        drop(dports);
        drop(itypes);
        drop(icodes);
    }
}

/// A line of a chain.
#[derive(Drop)]
pub enum Item {
    Remark(Bytes),
    Rule(Rule),
}

/// What is written for one target: a table with one base chain, which replaces an older table of its
/// name.
#[derive(Drop)]
pub struct Section {
    pub hook: Hook,
    pub families: Families,
    /// The table's number, which its name ends in.
    pub number: u32,
    pub priority: i32,
    /// Whether the chain's policy is to accept; else it is to drop.
    pub accept: bool,
    pub items: Items<Item>,
}

/// A document: the sections of its text, in order.
pub type Doc = Items<Section>;
