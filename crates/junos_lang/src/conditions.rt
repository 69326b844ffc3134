ghost use Rattle.std.specs.Prelude.{◌≡◌};

use acl_packet::Family;

/// A match condition whose values stand in one row.
#[derive(Clone, Copy, PartialEq, Eq)]
pub enum Condition {
    /// The protocol, in a filter for IPv4.
    Protocol,
    /// The protocol, in a filter for IPv6.
    NextHeader,
    SourcePort,
    DestinationPort,
    IcmpType,
    IcmpCode,
}

impl Condition {
    ghost use Rattle.junos_lang.specs.Texts.{protocol_of};

    /// The condition on the protocol in a filter for the family.
    pub fn protocol_of(family: Family) -> Condition
        ensures { result ≡ protocol_of family }
    {
        match family {
            Family::V4 => Condition::Protocol,
            Family::V6 => Condition::NextHeader,
        }
    }
}
