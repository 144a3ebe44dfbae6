//! The content of a trace file.
ghost use Rattle.std.specs.Prelude.{◌≡◌};
ghost use Rattle.trace_reader.specs.Trace.{point_of_fix};

use plain_list::List;
use polyline_geometry::Point;

/// A measured position in centimetres, and its time in seconds (0 under a header without times).
#[derive(Clone, Copy, Debug, PartialEq, Eq)]
pub struct Fix {
    pub x: i32,
    pub y: i32,
    pub time: u32,
}

impl Fix {
    /// Where the position was measured.
    pub fn point(self) -> Point
        ensures { result ≡ point_of_fix self }
    {
        Point {
            x: self.x,
            y: self.y,
        }
    }
}

/// The positions of consecutive rows with one id.
#[derive(Drop)]
pub struct Trace {
    pub id: u32,
    pub fixes: List<Fix>,
}
