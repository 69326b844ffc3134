ghost use Rattle.std.specs.Prelude.{◌≡◌};
ghost use Rattle.acl_dead.specs.SideSteps.{field_side, side_of};

use crate::coordinates::Coordinate;
use acl_packet::Field;
use acl_sets::RangeSet;
use term_boxes::PacketBox;

fn field_side(field: Field, sides: &PacketBox) -> &RangeSet
    ensures { result.now ≡ field_side field sides.now }
{
    match field {
        Field::Protocol => &sides.protocols,
        Field::SourcePort => &sides.source_ports,
        Field::DestinationPort => &sides.destination_ports,
        Field::IcmpType => &sides.types,
        Field::IcmpCode => &sides.codes,
    }
}

/// The side of the box along the coordinate.
pub(crate) fn side_of(coordinate: Coordinate, sides: &PacketBox) -> &RangeSet
    ensures { result.now ≡ side_of coordinate sides.now }
{
    match coordinate {
        Coordinate::Source => &sides.sources,
        Coordinate::Destination => &sides.destinations,
        Coordinate::Number(field) => field_side(field, sides),
        Coordinate::Flags => &sides.flags,
        Coordinate::Connection => &sides.connections,
    }
}
