//! Laws of the definition of a route. Each function exists for its clause and does nothing.
ghost use Rattle.route_rebuild.specs.Laws.{RoutesAreJoined, RoutesAreTheValue};

/// Neighbouring edges of the route of a matched piece join. The lengths of the routes of its pairs add up
/// to those of its edges, minus the parts before the first offset and after the last, plus the moves back.
pub fn routes_are_joined()
    ensures { RoutesAreJoined }
{}

/// The route of a matched piece is the route as a value, and nothing else is.
pub fn routes_are_the_value()
    ensures { RoutesAreTheValue }
{}
