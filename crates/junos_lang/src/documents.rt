use acl_packet::{Family, Prefix, Verdict};
use acl_text::{Bytes, Items};

/// A test of a packet's TCP flags.
#[derive(Clone, Copy, PartialEq, Eq)]
pub enum JTest {
    /// `tcp-established`: ACK or RST is set.
    Established,
    /// `tcp-initial`: SYN is set and ACK is clear.
    Initial,
    /// `tcp-flags "rst"`: RST is set.
    Rst,
}

/// A term of a filter: which packets it holds, and what it does with them. A list without elements
/// is no condition, and is not written.
pub struct JTerm {
    /// The comment before the term.
    pub note: Option<Bytes>,
    pub name: Bytes,
    pub src: Items<Prefix>,
    pub dst: Items<Prefix>,
    pub protos: Items<u8>,
    /// Ranges of ports, from the low one to the high one.
    pub sports: Items<(u16, u16)>,
    pub dports: Items<(u16, u16)>,
    pub itypes: Items<u8>,
    pub icodes: Items<u8>,
    pub test: Option<JTest>,
    pub syslog: bool,
    pub verdict: Verdict,
}

// Where a term is let go, that is one step, whatever it holds.
impl Drop for JTerm {
    fn drop(self) {
        let JTerm {
            note,
            name,
            src,
            dst,
            protos,
            sports,
            dports,
            itypes,
            icodes,
            test: _,
            syslog: _,
            verdict: _,
        } = self;
        drop(note);
        drop(name);
        drop(src);
        drop(dst);
        drop(protos);
        drop(sports);
        drop(dports);
        drop(itypes);
        drop(icodes);
    }
}

/// A filter of a family, as it is written for one target.
#[derive(Drop)]
pub struct Section {
    pub family: Family,
    pub name: Bytes,
    pub terms: Items<JTerm>,
}

/// A document: the sections of its text, in order.
pub type Doc = Items<Section>;
