ghost use Rattle.acl_naming.specs.ComputableReach.{AddressesAreComputed, PortsAreComputed, ReachIsComputed};
ghost use Rattle.acl_naming.specs.PortLaws.{OrderedPortsAreSome, PortOrderIsKept};

/// A law: a test passes at some item that is reached, as it is computed, exactly where a walk ends at one.
#[tactic(auto, using(crate::proofs::ComputedReachLaws::reach_computed))]
pub fn reach_is_computed()
    ensures { ReachIsComputed }
{}

/// A law: the addresses that are computed are those of a set, and are those that the name reaches.
pub fn addresses_are_computed()
    ensures { AddressesAreComputed }
{}

/// A law: the ports that are computed are those of a set, and are those that the name reaches.
pub fn ports_are_computed()
    ensures { PortsAreComputed }
{}

/// A law: a naming file of services keeps the ports of each item in order, from a low end to a high one.
pub fn port_order_is_kept()
    ensures { PortOrderIsKept }
{}

/// A law: where ports lie in order, a name that reaches ports of a protocol reaches some port.
pub fn ordered_ports_are_some()
    ensures { OrderedPortsAreSome }
{}
