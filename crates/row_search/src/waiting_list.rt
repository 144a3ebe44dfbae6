//! A list of nodes that wait, to which the arcs of a node append without a branch. Serves the queue.
ghost use Rattle.std.specs.Prelude.{◌≡◌, ◌≤◌, ◌<◌, ◌+◌, ◌++◌, ◌∷◌, [], ℕ, length, slice_get, take, Some, OnOk};
ghost use Rattle.std.specs.List.{All};
ghost use Rattle.row_search.specs.inside.Fans.{arcs_in};
ghost use Rattle.bounded_table.specs.LabelWords.{IsTriable};
ghost use Rattle.row_search.specs.inside.Underway.{RelaxesArc, after_arc, after_arcs};

use crate::fans::{FAN_ARCS, Fan};
use crate::free_places::make_places;
use crate::queue::Waiting;
use bounded_table::label_words::{distance_in, least_word, step_by};
use road_network::Arc;
use std::alloc::{AllocError, Global};
use std::marker::Model;

const FREE: Waiting = Waiting {
    distance: 0,
    node: 0,
};

/// A list of nodes that wait: the first `count` places. The others are free.
pub struct WaitingList {
    places: Vec<Waiting>,
    count: usize,
}

// By hand, so that the functions that drop one call this.
impl Drop for WaitingList {
    fn drop(self) {
        let WaitingList {
            places: _,
            count: _,
        } = self;
    }
}

impl Model for WaitingList {
    ghost use Rattle.std.specs.Prelude.{List};
    ghost use Rattle.row_search.specs.declared.queue.Waiting.{Waiting};

    ghost Value = { List Waiting };

    ghost use Rattle.row_search.specs.inside.QueueInside.{listed, IsCountInside};

    ghost view = { listed };

    ghost invariant = { IsCountInside };
}

/// Tries an arc from a distance in cm: where it gives its end a better label, that is written. Whether the end
/// becomes nearer, and so has to wait as `item`.
///
/// One comparison is with both the bound and the label that is there, since no word is beyond that of no label.
/// Nothing branches on labels: which arcs give better ones cannot be predicted.
fn relax(words: &mut [u64], distance: u32, arc: Arc, item: &mut Waiting) -> bool
    requires arc { IsTriable (length words.old) arc }
    requires distance { distance ≤ 10_000_000 }
    ensures relaxes { RelaxesArc distance arc words.old words.new result item.new }
    ensures count { length words.new ≡ length words.old }
{
    let word = least_word(distance) + step_by(arc);
    let before = words[arc.to.0 as usize];
    words[arc.to.0 as usize] = word.min(before);
    *item = Waiting {
        distance: distance_in(word),
        node: arc.to.0,
    };
    distance_in(word) < distance_in(before)
}

/// Tries an arc from a distance in cm. If its end becomes nearer, that is appended to the first `count` places. The
/// result is how many items there are then.
#[inline(always)]
fn try_arc(
    words: &mut [u64],
    distance: u32,
    arc: Arc,
    places: &mut [Waiting],
    count: usize,
) -> usize
    requires arc { IsTriable (length words.old) arc }
    requires distance { distance ≤ 10_000_000 }
    requires room { count < length places.old }
    ensures tries { (bound : ℕ) → record { words = words.new; queue = take result places.new }
        ≡ after_arc bound distance arc (record { words = words.old; queue = take count places.old }) }
    ensures sizes { (length words.new ≡ length words.old) × (count ≤ result) × (result ≤ count + 1) }
{
    let nearer = relax(words, distance, arc, &mut places[count]);
    count + usize::from(nearer)
}

/// Tries the arcs of a fan, as [`try_arcs`] does, without a loop.
#[inline(always)]
fn try_fan(
    words: &mut [u64],
    distance: u32,
    fan: &Fan,
    places: &mut [Waiting],
    count: usize,
) -> usize
    requires arcs { All (IsTriable (length words.old)) (arcs_in fan.now) }
    requires distance { distance ≤ 10_000_000 }
    requires room { count + FAN_ARCS ≤ length places.old }
    ensures tries { (bound : ℕ) → record { words = words.new; queue = take result places.new }
        ≡ after_arcs bound distance (arcs_in fan.now) (record { words = words.old; queue = take count places.old }) }
    ensures sizes { (length words.new ≡ length words.old) × (count ≤ result) × (result ≤ length places.new) }
{
    let one = try_arc(words, distance, fan.first, places, count);
    let two = try_arc(words, distance, fan.second, places, one);
    let three = try_arc(words, distance, fan.third, places, two);
    try_arc(words, distance, fan.fourth, places, three)
}

/// Tries arcs from a distance in cm. The nodes that become nearer are appended to the first `count` places, and
/// the result is how many items there are then.
fn try_arcs(
    words: &mut [u64],
    distance: u32,
    arcs: &[Arc],
    places: &mut [Waiting],
    count: usize,
) -> usize
    requires arcs { All (IsTriable (length words.old)) arcs.now }
    requires distance { distance ≤ 10_000_000 }
    requires room { count + length arcs.now ≤ length places.old }
    ensures tries { (bound : ℕ) → record { words = words.new; queue = take result places.new }
        ≡ after_arcs bound distance arcs.now (record { words = words.old; queue = take count places.old }) }
    ensures sizes { (length words.new ≡ length words.old) × (count ≤ result) × (result ≤ length places.new) }
{
    let mut end = count;
    for tried in 0..arcs.len() {
        end = try_arc(words, distance, arcs[tried], places, end);
    }
    end
}

impl WaitingList {
    /// The empty list. Takes no memory.
    pub fn new(alloc: Global) -> WaitingList
        ensures { result ≡ [] }
    {
        WaitingList {
            places: Vec::new(alloc),
            count: 0,
        }
    }

    /// How many items there are.
    pub fn len(&self) -> usize
        ensures { result ≡ length self.now }
    {
        self.count
    }

    /// The item at a place.
    pub fn at(&self, place: usize) -> Waiting
        requires { place < length self.now }
        ensures { slice_get self.now place ≡ Some result }
    {
        self.places[place]
    }

    /// Appends an item.
    pub fn push(&mut self, item: Waiting) -> Result<(), AllocError>
        ensures { OnOk result (self.new ≡ self.old ++ item ∷ []) }
    {
        make_places(&mut self.places, self.count + 1, FREE)?;
        self.places[self.count] = item;
        self.count += 1;
        Ok(())
    }

    /// Tries the arcs of a fan from a distance in cm, and appends the nodes that become nearer.
    #[inline(always)]
    pub fn try_fan(&mut self, words: &mut [u64], distance: u32, fan: &Fan) -> Result<(), AllocError>
        requires arcs { All (IsTriable (length words.old)) (arcs_in fan.now) }
        requires distance { distance ≤ 10_000_000 }
        ensures tries { OnOk result ((bound : ℕ) → record { words = words.new; queue = self.new }
            ≡ after_arcs bound distance (arcs_in fan.now) (record { words = words.old; queue = self.old })) }
        ensures count { length words.new ≡ length words.old }
        ensures more { length self.old ≤ length self.new }
    {
        make_places(&mut self.places, self.count + FAN_ARCS, FREE)?;
        let places = self.places.as_mut_slice();
        self.count = try_fan(words, distance, fan, places, self.count);
        Ok(())
    }

    /// Tries arcs from a distance in cm, and appends the nodes that become nearer.
    #[inline(always)]
    pub fn try_arcs(
        &mut self,
        words: &mut [u64],
        distance: u32,
        arcs: &[Arc],
    ) -> Result<(), AllocError>
        requires arcs { All (IsTriable (length words.old)) arcs.now }
        requires distance { distance ≤ 10_000_000 }
        ensures tries { OnOk result ((bound : ℕ) → record { words = words.new; queue = self.new }
            ≡ after_arcs bound distance arcs.now (record { words = words.old; queue = self.old })) }
        ensures count { length words.new ≡ length words.old }
        ensures more { length self.old ≤ length self.new }
    {
        make_places(&mut self.places, self.count + arcs.len(), FREE)?;
        let places = self.places.as_mut_slice();
        self.count = try_arcs(words, distance, arcs, places, self.count);
        Ok(())
    }

    /// Takes all items out.
    pub fn clear(&mut self)
        ensures { self.new ≡ [] }
    {
        self.count = 0;
    }
}
