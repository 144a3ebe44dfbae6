//! Laws of the definitions. Each function exists for its clause and does nothing.
ghost use Rattle.polyline_geometry.specs.Nearest.{SnapIsTheNearest};

/// The snap to a line is the snap to its nearest segment, the first of several, with the lengths of
/// the earlier segments added to the offset.
pub fn snap_is_the_nearest()
    ensures { SnapIsTheNearest }
{}
