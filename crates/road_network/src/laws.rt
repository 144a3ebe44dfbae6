//! Laws of the definitions. Each function exists for its clause and does nothing.
ghost use Rattle.road_network.specs.LimitLaws.{LimitsAgree};
ghost use Rattle.road_network.specs.NearLaws.{CandidatesAreNearest, CandidatesDiffer};

/// The candidates of a point are its k nearest edges within the radius (all of them if there are
/// fewer), each with its snap, ordered by distance and then by edge number.
pub fn candidates_are_nearest()
    ensures { CandidatesAreNearest }
{}

/// The candidates of a point lie on different edges.
pub fn candidates_differ()
    ensures { CandidatesDiffer }
{}

/// A file that has a network within the standard limits, or a fault that does not depend on them, has
/// the same network or fault within the large limits.
pub fn limits_agree()
    ensures { LimitsAgree }
{}
