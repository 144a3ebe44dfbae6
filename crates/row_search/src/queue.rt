//! The waiting nodes, in a near list and a far one. Serves the search; decided by `waiting`. Speed only: a search
//! is right for any order of the nodes, since every edge out of a labelled node was tried from its distance, or the
//! node waits with it.
ghost use Rattle.std.specs.Prelude.{◌≡◌, ◌≤◌, ◌∷◌, [], ℕ, length, IfOk, MatchOption, OnOk};
ghost use Rattle.std.specs.List.{All};
ghost use Rattle.std.specs.List.Sorted.{IsPermutation};
ghost use Rattle.row_search.specs.inside.Fans.{arcs_in};
ghost use Rattle.bounded_table.specs.LabelWords.{IsTriable};
ghost use Rattle.row_search.specs.inside.Underway.{after_arcs};

use crate::fans::Fan;
use crate::waiting_list::WaitingList;
use road_network::Arc;
use std::alloc::{AllocError, Global};
use std::marker::Model;
use std::mem;

/// A node that waits at a distance in cm.
#[derive(Clone, Copy)]
pub struct Waiting {
    pub distance: u32,
    pub node: u32,
}

/// Waiting nodes. Those below a limit are taken in order of arrival; the others are set aside until
/// none is left, and then the limit rises.
///
/// The nodes in `near` before the place `head` have been taken.
pub struct Queue {
    near: WaitingList,
    head: usize,
    far: WaitingList,
    limit: u32,
    window: u32,
}

// By hand, so that the functions that drop one call this.
impl Drop for Queue {
    fn drop(self) {
        let Queue {
            near: _,
            head: _,
            far: _,
            limit: _,
            window: _,
        } = self;
    }
}

impl Model for Queue {
    ghost use Rattle.std.specs.Prelude.{List};
    ghost use Rattle.row_search.specs.declared.queue.Waiting.{Waiting};

    ghost Value = { List Waiting };

    ghost use Rattle.row_search.specs.inside.QueueInside.{waiting, IsHeadInside};

    ghost view = { waiting };

    ghost invariant = { IsHeadInside };
}

impl Queue {
    /// An empty queue. The limit rises by `window` (in cm) each time. Allocates nothing.
    pub fn new(alloc: Global, window: u32) -> Queue
        ensures { result ≡ [] }
    {
        Queue {
            near: WaitingList::new(alloc),
            head: 0,
            far: WaitingList::new(alloc),
            limit: window,
            window,
        }
    }

    /// Starts with a node that waits at distance 0, and with the least limit.
    pub fn start(&mut self, node: u32) -> Result<(), AllocError>
        requires { self.old ≡ [] }
        ensures { OnOk result (self.new ≡ record { distance = 0; node = node } ∷ []) }
    {
        self.limit = self.window;
        self.head = 0;
        self.near.clear();
        self.near.push(Waiting { distance: 0, node })
    }

    /// Takes the next node below the limit. If there is none, the limit rises, and the first node that was set
    /// aside is taken. `None` if no node waits.
    // Inlined, so that the search keeps the places of the lists in registers.
    #[inline(always)]
    pub fn take(&mut self) -> Result<Option<Waiting>, AllocError>
        ensures { IfOk result (λ next. MatchOption next ((self.old ≡ []) × (self.new ≡ []))
            (λ x. IsPermutation self.old (x ∷ self.new))) }
    {
        while self.head < self.near.len() {
            let next = self.near.at(self.head);
            self.head += 1;
            if next.distance < self.limit {
                return Ok(Some(next));
            }
            self.far.push(next)?;
        }
        mem::swap(&mut self.near, &mut self.far);
        self.far.clear();
        self.limit = self.limit.saturating_add(self.window);
        self.head = 0;
        if self.near.len() == 0 {
            return Ok(None);
        }
        self.head = 1;
        Ok(Some(self.near.at(0)))
    }

    /// Tries the arcs of a fan, as [`Queue::try_arcs`] does, without a loop.
    #[inline(always)]
    pub fn try_fan(&mut self, words: &mut [u64], distance: u32, fan: &Fan) -> Result<(), AllocError>
        requires arcs { All (IsTriable (length words.old)) (arcs_in fan.now) }
        requires distance { distance ≤ 10_000_000 }
        ensures tries { OnOk result ((bound : ℕ) → record { words = words.new; queue = self.new }
            ≡ after_arcs bound distance (arcs_in fan.now) (record { words = words.old; queue = self.old })) }
        ensures count { length words.new ≡ length words.old }
    {
        self.near.try_fan(words, distance, fan)
    }

    /// Tries arcs from a distance: if one gives its end a better label, that is written, and the end waits if
    /// it becomes nearer.
    #[inline(always)]
    pub fn try_arcs(
        &mut self,
        words: &mut [u64],
        distance: u32,
        arcs: &[Arc],
    ) -> Result<(), AllocError>
        requires arcs { All (IsTriable (length words.old)) arcs.now }
        requires distance { distance ≤ 10_000_000 }
        ensures tries { OnOk result ((bound : ℕ) → record { words = words.new; queue = self.new }
            ≡ after_arcs bound distance arcs.now (record { words = words.old; queue = self.old })) }
        ensures count { length words.new ≡ length words.old }
    {
        self.near.try_arcs(words, distance, arcs)
    }

    /// Empties the queue.
    pub fn clear(&mut self)
        ensures { self.new ≡ [] }
    {
        self.head = 0;
        self.near.clear();
        self.far.clear();
    }
}
