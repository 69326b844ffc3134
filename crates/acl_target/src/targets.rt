use acl_packet::{Families, Hook};
use acl_text::{Bytes, Items, Place};

/// The platform of a target.
#[derive(Clone, Copy, PartialEq, Eq)]
pub enum Kind {
    Cisco,
    Juniper,
    Iptables,
    Nftables,
}

/// What a filter does with a packet that no rule decides.
#[derive(Clone, Copy, Debug, PartialEq, Eq)]
pub enum Ending {
    Accept,
    Deny,
    /// The packet is left to what stands behind the filter.
    Left,
    /// Neighbour discovery of IPv6 is accepted, all else is denied.
    Neighbours,
}

/// A filter that a policy asks for: the words of a target line with their defaults.
///
/// `place` is that of the keyword `target::`, and `number` counts the target lines of the platform in the
/// policy from 1.
#[derive(Drop)]
pub struct Target {
    pub place: Place,
    pub kind: Kind,
    pub name: Bytes,
    pub families: Families,
    pub hook: Hook,
    pub stateful: bool,
    pub ending: Ending,
    pub priority: i32,
    pub verbose: bool,
    pub number: u32,
}

/// A list of targets.
pub type Targets = Items<Target>;
