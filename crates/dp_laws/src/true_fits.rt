ghost use Rattle.dp_laws.specs.TrueFitLaws.{HorizonsHaveATrueFit, FrontsOfVersionOneHaveRoom, RoomIsWithinLimits};

/// A horizon within the limits of a version has a true fit.
pub fn horizons_have_a_true_fit()
    ensures { HorizonsHaveATrueFit }
{}

/// A front has room where it is full or the cells of its joint classes are within their limits, as
/// within the limits of version 1 they always are.
pub fn room_is_within_limits()
    ensures limits { RoomIsWithinLimits }
    ensures version_one { FrontsOfVersionOneHaveRoom }
{}
