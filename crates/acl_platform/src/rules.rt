ghost use Rattle.std.specs.Prelude.{◌≡◌};
ghost use Rattle.acl_platform.specs.Rules.{set_of};

use acl_packet::{Family, Field, Verdict};
use acl_sets::{Prefixes, RangeSet};
use acl_text::{Bytes, Items, Place};

/// What a rule asks of a packet besides its sets.
#[derive(Clone, Copy, PartialEq, Eq)]
pub enum Test {
    /// Nothing.
    Plain,
    /// ACK or RST is set.
    AckOrRst,
    /// SYN is set and ACK is clear.
    SynNotAck,
    /// RST is set.
    Rst,
    /// The connection is established or related.
    State,
}

/// A rule of a filter: which packets of a family it holds, and what it does with them.
///
/// It holds a packet where each of its sets and its test does. `place` is that of the term that it
/// comes from, whose comments the note has.
pub struct Rule {
    pub name: Bytes,
    pub place: Place,
    pub note: Bytes,
    pub family: Family,
    pub src: Prefixes,
    pub dst: Prefixes,
    pub protos: RangeSet,
    pub sports: RangeSet,
    pub dports: RangeSet,
    pub itypes: RangeSet,
    pub icodes: RangeSet,
    pub test: Test,
    pub verdict: Verdict,
    pub log: bool,
}

// Where a rule is let go, that is one step, whatever it holds.
impl Drop for Rule {
    fn drop(self) {
        let Rule {
            name,
            place: _,
            note,
            family: _,
            src,
            dst,
            protos,
            sports,
            dports,
            itypes,
            icodes,
            test: _,
            verdict: _,
            log: _,
        } = self;
        drop(name);
        drop(note);
        drop(src);
        drop(dst);
        drop(protos);
        drop(sports);
        drop(dports);
        drop(itypes);
        drop(icodes);
    }
}

/// Rules, in order.
pub type Rules = Items<Rule>;

/// The rule's set of the field.
pub fn set_of(field: Field, rule: &Rule) -> &RangeSet
    ensures { result.now ≡ set_of field rule.now }
{
    match field {
        Field::Protocol => &rule.protos,
        Field::SourcePort => &rule.sports,
        Field::DestinationPort => &rule.dports,
        Field::IcmpType => &rule.itypes,
        Field::IcmpCode => &rule.icodes,
    }
}
