ghost use Rattle.std.specs.Prelude.{◌≡◌};
ghost use Rattle.acl_platform.specs.Features.{feature_word};

use crate::shared_rules::SharedRules;
use acl_packet::{Families, Family, Hook};
use acl_target::{Ending, Kind};
use acl_text::{Bytes, Place};

/// A filter: the data of a target, and the rules that the terms of its block become.
///
/// The first rule that holds a packet decides it, else the ending does.
#[derive(Drop)]
pub struct Filter {
    pub place: Place,
    pub kind: Kind,
    pub name: Bytes,
    pub families: Families,
    pub hook: Hook,
    pub ending: Ending,
    pub priority: i32,
    pub verbose: bool,
    pub number: u32,
    pub rules: SharedRules,
}

/// What a policy can ask for, and not each platform can say.
#[derive(Clone, Copy, PartialEq, Eq)]
pub enum Feature {
    /// The first packets of connections of TCP.
    TcpInitial,
    /// Ports of SCTP.
    SctpPorts,
    /// Anything but sources, of lists that say these alone.
    MoreThanSources,
}

impl Feature {
    /// The word of a policy that asks for it, or of the lists that lack it.
    pub fn word(self) -> &'static [u8]
        ensures { result.now ≡ feature_word self }
    {
        match self {
            Feature::TcpInitial => b"tcp-initial",
            Feature::SctpPorts => b"sctp",
            Feature::MoreThanSources => b"standard",
        }
    }
}

/// Why a platform does not take a filter. The first three name a rule by its place in the list of
/// rules, from 0.
#[derive(Clone, Copy, PartialEq, Eq)]
pub enum Limit {
    /// The rule's name is too long.
    NameLength(usize),
    /// An earlier rule has the rule's name.
    NameClash(usize),
    /// The platform cannot say what the rule holds: this it lacks.
    Unsupported(usize, Feature),
    /// The filter would have more entries than a device is given.
    TooManyEntries,
}
