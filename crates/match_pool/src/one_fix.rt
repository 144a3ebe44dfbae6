//! Traces of one position, which are matched to their nearest edge. Serves `find_match`; decided by `match_of`.
ghost use Rattle.std.specs.Prelude.{◌≡◌, ◌*◌, ◌≤◌, [], ◌∷◌, IfOk, length};
ghost use Rattle.polyline_geometry.specs.Plane.{InRange};
ghost use Rattle.road_network.specs.Net.{HasEdge};
ghost use Rattle.trace_match.specs.Match.{match_of};
ghost use Rattle.trace_reader.specs.Trace.{IsLawfulTrace, point_of_fix};
ghost use Rattle.match_pool.specs.inside.OneFix.{nearest_edge, on_edge};

use crate::batch::Batch;
use crate::far::unmatched;
use candidate_search::candidates;
use cost_model::{Params, emission};
use match_text::{MatchedTrace, Routed};
use plain_list::List;
use road_network::Candidate;
use std::alloc::{AllocError, Global};
use trace_match::label_on;
use trace_reader::{Fix, Trace};

/// The edge nearest to a position, if one is within the radius.
fn nearest_edge(batch: &Batch, fix: &Fix) -> Result<Option<Candidate>, AllocError>
    requires { InRange (point_of_fix fix.now) }
    ensures { IfOk result (λ found.
        found ≡ nearest_edge batch.now.net.now batch.now.params.now fix.now) }
{
    let at = fix.point();
    let one = Params {
        k: 1,
        ..*batch.params
    };
    let found = candidates(batch.alloc, batch.net, batch.grid, &one, at)?;
    Ok(found.get(0).copied())
}

/// The list of this item alone.
fn one_item<T>(alloc: Global, item: T) -> Result<List<T>, AllocError>
where
    T: Drop,
    ensures { IfOk result (λ list. list ≡ item ∷ []) }
{
    let mut list = List::new(alloc);
    list.push(item)?;
    Ok(list)
}

/// The match of a trace with this id whose one position lies on this edge.
fn on_edge(batch: &Batch, id: u32, nearest: Candidate) -> Result<MatchedTrace, AllocError>
    requires edge { HasEdge batch.now.net.now nearest.edge.0 }
    requires within { nearest.d2 ≤ batch.now.params.now.radius * batch.now.params.now.radius }
    ensures { IfOk result (λ matched.
        matched ≡ on_edge batch.now.net.now batch.now.params.now id nearest) }
{
    let label = label_on(batch.net, &nearest);
    let piece = Routed {
        first: 0,
        last: 0,
        cost: emission(batch.params, nearest.d2),
        route: one_item(batch.alloc, batch.net.name(nearest.edge))?,
    };
    Ok(MatchedTrace {
        id,
        labels: one_item(batch.alloc, label)?,
        pieces: one_item(batch.alloc, piece)?,
    })
}

/// The match of a trace of one position.
pub(crate) fn match_fix(batch: &Batch, trace: &Trace) -> Result<MatchedTrace, AllocError>
    requires trace { IsLawfulTrace trace.now }
    requires one { length trace.now.fixes ≡ 1 }
    ensures { IfOk result (λ matched.
        matched ≡ match_of batch.now.net.now batch.now.params.now trace.now) }
{
    match nearest_edge(batch, &trace.fixes.as_slice()[0])? {
        Some(nearest) => on_edge(batch, trace.id, nearest),
        None => unmatched(batch.alloc, trace),
    }
}
