//! The search for the row of an origin. Serves `Searcher::row`; decided by `IsRow`.
ghost use Rattle.std.specs.Prelude.{◌≡◌, ◌≤◌, ◌∷◌, [], length, IfOk, OnOk};
ghost use Rattle.road_network.specs.Net.{HasNode};
ghost use Rattle.row_search.specs.inside.Searching.{EndsClean, Leaves};
ghost use Rattle.row_search.specs.inside.Marked.{IsClean, IsSized, KeepsSizes};
ghost use Rattle.bounded_table.specs.Table.{IsRow};

use crate::fans::Fans;
use crate::found_entries::FoundEntries;
use crate::known_rows::KnownRows;
use crate::marks::Marks;
use crate::queue::{Queue, Waiting};
use crate::taking::write_origin;
use bounded_table::Entry;
use bounded_table::label_words::{ORIGIN, distance_in, no_label};
use road_network::{EdgeId, Network, NodeId};
use std::alloc::{AllocError, Global};

/// The labels of one search as words by node number, which nodes may be labelled, the waiting nodes, and the
/// entries found.
///
/// Each labelled node is marked when its edges are tried. The marks give the entries in ascending order, and show
/// what to clear.
///
/// All words are made for one bound: the word of a node without a label is just beyond it.
pub struct Workspace {
    pub(crate) bound: u32,
    pub(crate) merge_limit: u32,
    pub(crate) words: Vec<u64>,
    pub(crate) marks: Marks,
    queue: Queue,
    pub(crate) found: FoundEntries,
}

// By hand, so that the functions that drop one call this.
impl Drop for Workspace {
    fn drop(self) {
        let Workspace {
            bound: _,
            merge_limit: _,
            words: _,
            marks: _,
            queue: _,
            found: _,
        } = self;
    }
}

/// The mean length of an edge, in cm.
pub(crate) fn mean_length(net: &Network) -> u32 {
    let mut total: u64 = 0;
    for e in 0..net.edge_count() {
        total = total.saturating_add(u64::from(net.length(EdgeId(e))));
    }
    let mean = total / u64::from(net.edge_count()).max(1);
    mean.min(u64::from(u32::MAX)) as u32
}

/// By how much the limit of the queue rises, in cm. With this width few nodes become nearer after they were
/// taken, and few nodes are set aside more than once.
fn window(net: &Network, bound: u32) -> u32 {
    mean_length(net).saturating_mul(3).max(bound / 64)
}

/// The distance up to which a node's row is merged, in cm. Within three mean lengths the rows of a few nodes
/// label most nodes of a row; for a small bound, a row is found as quickly by its edges.
fn merge_limit(net: &Network, bound: u32) -> u32 {
    mean_length(net).saturating_mul(3).min(bound / 4)
}

impl Workspace {
    /// Empty arrays for the nodes of a network and a bound.
    pub fn new(alloc: Global, net: &Network, bound: u32) -> Result<Workspace, AllocError>
        requires { bound ≤ 10_000_000 }
        ensures bound { IfOk result (λ w. w.bound ≡ bound) }
        ensures clean { IfOk result (IsClean (length net.now.nodes)) }
    {
        net.invariants();
        let nodes = net.node_count() as usize;
        Ok(Workspace {
            bound,
            merge_limit: merge_limit(net, bound),
            words: vec![in alloc; no_label(bound); nodes]?,
            marks: Marks::new(alloc, nodes)?,
            queue: Queue::new(alloc, window(net, bound)),
            found: FoundEntries::new(alloc),
        })
    }

    /// Leaves a waiting node, unless it has become nearer since: by its row, if it is near and its row is known, and
    /// otherwise by every edge out of it.
    fn leave<K: KnownRows>(
        &mut self,
        fans: &Fans<'_>,
        known: &K,
        next: Waiting,
    ) -> Result<(), AllocError>
        requires known { K.table known.now ≡ record { network = fans.now; bound = self.old.bound } }
        requires next { HasNode fans.now next.node × (next.distance ≤ 10_000_000) }
        requires sized { IsSized (length fans.now.nodes) self.old }
        ensures leaves { OnOk result (Leaves fans.now (next ∷ []) self.old self.new) }
        ensures sized { KeepsSizes self.old self.new }
    {
        fans.invariants();
        let node = NodeId(next.node);
        if distance_in(self.words[next.node as usize]) != next.distance {
            return Ok(());
        }
        if next.distance < self.merge_limit
            && let Some(row) = known.known_row(node)
        {
            self.merge(row, next.distance);
            return Ok(());
        }
        self.marks.mark(node);
        let words = self.words.as_mut_slice();
        let fan = fans.fan(node);
        if fan.is_whole {
            return self.queue.try_fan(words, next.distance, fan);
        }
        self.queue.try_arcs(words, next.distance, fans.arcs(node))
    }

    /// The entries of the row of an origin. After `Err` the arrays must be cleared.
    ///
    /// First every node within the bound is labelled. A node waits again each time that it becomes nearer. When none
    /// waits, every edge within the bound has been tried from its node's last distance. Taking near nodes first makes
    /// that rare.
    pub fn entries<K: KnownRows>(
        &mut self,
        alloc: Global,
        fans: &Fans<'_>,
        known: &K,
        origin: NodeId,
    ) -> Result<Vec<Entry>, AllocError>
        requires known { K.table known.now ≡ record { network = fans.now; bound = self.old.bound } }
        requires origin { HasNode fans.now origin.0 }
        requires clean { IsClean (length fans.now.nodes) self.old }
        ensures row { IfOk result (λ entries.
            IsRow fans.now self.old.bound origin.0 (record { origin = origin.0; entries = entries.items })) }
        ensures clean { EndsClean result self.old self.new }
    {
        fans.invariants();
        self.words[origin.0 as usize] = ORIGIN;
        self.queue.start(origin.0)?;
        while let Some(next) = self.queue.take()? {
            self.leave(fans, known, next)?;
        }
        let mut entries = self.take_entries(alloc)?;
        write_origin(entries.as_mut_slice(), origin);
        Ok(entries)
    }

    /// Clears the arrays after an interrupted search, in time linear in the number of nodes.
    pub fn clear(&mut self)
        requires { IsSized (length self.old.words.items) self.old }
        ensures bound { self.new.bound ≡ self.old.bound }
        ensures clean { IsClean (length self.old.words.items) self.new }
    {
        self.words.fill(no_label(self.bound));
        self.marks.clear();
        self.queue.clear();
    }
}
