//! Whether positions and traces are ones that a file can have. Other crates of tests use it too.
ghost use Rattle.std.specs.Prelude.{◌↔◌, IsTrue};
ghost use Rattle.std.specs.List.{All};
ghost use Rattle.polyline_geometry.specs.Plane.{InRange};
ghost use Rattle.trace_reader.specs.Trace.{IsLawfulTrace, point_of_fix};

use trace_reader::{Fix, Trace};

/// The greatest coordinate of a position, in cm.
const GREATEST: u32 = 1_000_000_000;

/// Whether a file can have a position with these coordinates.
pub fn is_in_range(x: i32, y: i32) -> bool
    ensures { IsTrue result ↔ InRange (record { x = x; y = y }) }
{
    x.unsigned_abs() <= GREATEST && y.unsigned_abs() <= GREATEST
}

fn are_in_range(fixes: &[Fix]) -> bool
    ensures { IsTrue result ↔ All (λ fix. InRange (point_of_fix fix)) fixes.now }
{
    fixes.iter().all(|fix| is_in_range(fix.x, fix.y))
}

/// Whether a trace has 1 to 100,000 fixes, all in range.
pub fn is_lawful(trace: &Trace) -> bool
    ensures { IsTrue result ↔ IsLawfulTrace trace.now }
{
    1 <= trace.fixes.len() && trace.fixes.len() <= 100_000 && are_in_range(trace.fixes.as_slice())
}

/// Whether all traces are lawful.
pub fn are_lawful(traces: &[Trace]) -> bool
    ensures { IsTrue result ↔ All IsLawfulTrace traces.now }
{
    traces.iter().all(|trace| is_lawful(trace))
}
