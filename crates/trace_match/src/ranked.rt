//! The labels of the positions of a trace. Serves `labels`; decided by `labels_of`.
ghost use Rattle.std.specs.Prelude.{◌≡◌, IfOk};
ghost use Rattle.road_network.specs.Net.{HasEdge};
ghost use Rattle.trace_match.specs.Match.{label_on, labels_of};
ghost use Rattle.trace_match.specs.Ranked.{AreRanked};

use match_text::Label;
use matching::Layer;
use plain_list::List;
use road_network::{Candidate, Network};
use std::alloc::{AllocError, Global};

/// The label of a position on a candidate, with the edge's id in the network file.
pub fn label_on(net: &Network, candidate: &Candidate) -> Label
    requires { HasEdge net.now candidate.now.edge.0 }
    ensures { result ≡ label_on net.now candidate.now }
{
    Label::On {
        edge: net.name(candidate.edge),
        offset: candidate.offset,
        d2: candidate.d2,
    }
}

/// The labels of the positions of a trace, by a rank or none for each layer: that of the chosen candidate, or none.
pub fn labels(
    alloc: Global,
    net: &Network,
    layers: &[Layer],
    ranks: &[Option<u32>],
) -> Result<List<Label>, AllocError>
    requires { AreRanked net.now layers.now ranks.now }
    ensures { IfOk result (λ labels. labels ≡ labels_of net.now layers.now ranks.now) }
{
    let mut labels = Vec::with_capacity(alloc, layers.len())?;
    for (i, layer) in layers.iter().enumerate() {
        match ranks[i] {
            Some(rank) => {
                let candidate = layer.candidates.as_slice()[rank as usize];
                labels.push(label_on(net, &candidate))?;
            }
            None => labels.push(Label::Missing)?,
        }
    }
    Ok(List::from_vec(labels))
}
