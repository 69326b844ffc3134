ghost use Rattle.std.specs.Prelude.{◌≡◌};
ghost use Rattle.acl_dead.specs.CoordinateSteps.{coordinates};

use acl_packet::Field;

/// What a packet has a number of.
#[derive(Clone, Copy, PartialEq, Eq)]
pub(crate) enum Coordinate {
    Source,
    Destination,
    Number(Field),
    Flags,
    Connection,
}

/// Each coordinate once, in the order of a packet's numbers.
pub(crate) fn coordinates() -> &'static [Coordinate]
    ensures { result.now ≡ coordinates }
{
    &[
        Coordinate::Source,
        Coordinate::Destination,
        Coordinate::Number(Field::Protocol),
        Coordinate::Number(Field::SourcePort),
        Coordinate::Number(Field::DestinationPort),
        Coordinate::Number(Field::IcmpType),
        Coordinate::Number(Field::IcmpCode),
        Coordinate::Flags,
        Coordinate::Connection,
    ]
}
