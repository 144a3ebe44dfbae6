//! The twin of an edge, which has the same line in the opposite direction. Serves `Entries`; decided
//! by `IsReverse`.
ghost use Rattle.std.specs.Prelude.{◌≡◌, ℕ, ◌≤◌, ◌⊎◌, ◌↔◌, Some, IsTrue, length};
ghost use Rattle.road_network.specs.Net.{HasEdge};
ghost use Rattle.grid_index.specs.inside.Entries.{IsMarked};
ghost use Rattle.grid_index.specs.Runs.{IsNumberedAbove, IsReverse, IsTurned, IsTwin};

use polyline_geometry::Point;
use road_network::{EdgeId, Network};

/// The most arcs out of a node that are searched for a twin. Speed only: any value is right.
const MOST_ARCS: usize = 16;

/// Whether one line is the reverse of another.
fn is_turned(line: &[Point], turned: &[Point]) -> bool
    ensures { IsTrue result ↔ IsTurned line.now turned.now }
{
    if line.len() != turned.len() {
        return false;
    }
    for (place, point) in turned.iter().enumerate() {
        if *point != line[line.len() - 1 - place] {
            return false;
        }
    }
    true
}

/// A twin of an edge with a number above its own, found among the first arcs out of its end node.
fn twin_of(net: &Network, edge: EdgeId) -> Option<EdgeId>
    requires { HasEdge net.now edge.0 }
    ensures { IsTwin net.now edge.0 result × IsNumberedAbove edge.0 result }
{
    net.invariants();
    let (start, line) = (net.from(edge), net.line(edge));
    let arcs = net.arcs(net.to(edge));
    for arc in &arcs[..arcs.len().min(MOST_ARCS)] {
        if arc.to == start && edge < arc.edge && is_turned(line, net.line(arc.edge)) {
            return Some(arc.edge);
        }
    }
    None
}

/// Marks the twin of an edge, if it has one that is not marked yet.
pub(crate) fn take_twin(net: &Network, edge: EdgeId, marks: &mut Vec<bool>) -> Option<EdgeId>
    requires has { HasEdge net.now edge.0 }
    requires marks { length marks.old.items ≡ length net.now.edges }
    ensures twin { IsTwin net.now edge.0 result × IsNumberedAbove edge.0 result }
    ensures marks { length marks.new.items ≡ length net.now.edges }
    ensures marked { (t : ℕ) → IsMarked marks.new.items t
        → IsMarked marks.old.items t ⊎ (result ≡ Some (record { 0 = t })) }
{
    let twin = twin_of(net, edge)?;
    let place = twin.0 as usize;
    if marks[place] {
        return None;
    }
    marks[place] = true;
    Some(twin)
}
