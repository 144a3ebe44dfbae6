//! Which edge ids are new. Serves `Draft::add`; decided by `AreNames`.
ghost use Rattle.std.specs.Prelude.{◌≡◌, ◌∷◌, ◌++◌, [], IfErr, IfOk, OnOk, nat_eq, not};
ghost use Rattle.std.specs.List.{list_any};
ghost use Rattle.road_network.specs.inside.EdgeNames.{AreNames, HasNames, is_next, names_of};

use crate::StoredEdge;
use crate::fault::NetworkFault;
use indexmap::IndexSet;
use std::alloc::Global;

/// Whether an id is greater than that of the last edge, or is the first.
fn is_next(edges: &[StoredEdge], name: u32) -> bool
    ensures { result ≡ is_next (names_of edges.now) name }
{
    match edges {
        [.., last] => last.name < name,
        [] => true,
    }
}

/// The ids of these edges as a set.
fn set_of_names(alloc: Global, edges: &[StoredEdge]) -> Result<IndexSet<u32>, NetworkFault>
    ensures set { IfOk result (λ set. HasNames set.keys (names_of edges.now)) }
    ensures memory { IfErr result (λ e. e ≡ NetworkFault.Memory) }
{
    let mut names = IndexSet::new(alloc);
    for edge in edges {
        names.insert(edge.name)?;
    }
    Ok(names)
}

/// Whether no edge has this id; records it if so. While the ids ascend, no set of them is kept, since
/// comparing with the last one decides.
pub(crate) fn note_name(
    alloc: Global,
    names: &mut Option<IndexSet<u32>>,
    edges: &[StoredEdge],
    name: u32,
) -> Result<bool, NetworkFault>
    requires { AreNames names.old (names_of edges.now) }
    ensures new { IfOk result (λ is_new. is_new ≡ not (list_any (nat_eq name) (names_of edges.now))) }
    ensures names { OnOk result (AreNames names.new (names_of edges.now ++ name ∷ [])) }
    ensures memory { IfErr result (λ e. e ≡ NetworkFault.Memory) }
{
    let mut set = match names.take() {
        Some(set) => set,
        None => {
            if is_next(edges, name) {
                return Ok(true);
            }
            set_of_names(alloc, edges)?
        }
    };
    let (_, is_new) = set.insert_full(name)?;
    *names = Some(set);
    Ok(is_new)
}
