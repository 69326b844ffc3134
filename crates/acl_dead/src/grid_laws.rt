ghost use Rattle.acl_dead.specs.Laws.{PointsRoundDown};

/// A law: a point that is asked for, rounded down to the values of each axis, comes into no new box.
pub fn points_round_down()
    ensures { PointsRoundDown }
{}
