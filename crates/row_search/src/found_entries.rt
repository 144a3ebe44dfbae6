//! A list of entries, to which those of labelled nodes are appended without a branch. Serves `Workspace::entries`;
//! decided by `TakesNodes`.
ghost use Rattle.std.specs.Prelude.{◌≡◌, ◌<◌, ◌≤◌, ◌+◌, ◌*◌, [], length, nat_lt, slice_set, take, IfOk, OnOk};
ghost use Rattle.bounded_table.specs.LabelWords.{no_label, word_at};
ghost use Rattle.row_search.specs.inside.Labels.{edge_entry_by};
ghost use Rattle.row_search.specs.inside.Marked.{TakesMarked, TakesNodes, listing};
ghost use Rattle.row_search.specs.inside.Octets.{IsOctet};

use crate::free_places::make_places;
use crate::marks::marked_octets;
use bounded_table::Entry;
use bounded_table::label_words::{distance_in, no_label};
use road_network::{EdgeId, NodeId};
use std::alloc::{AllocError, Global};
use std::marker::Model;

const FREE: Entry = Entry {
    node: NodeId(0),
    distance: 0,
    last: None,
};

/// The entry of a node by the word of its label, if the label has a last edge.
fn edge_entry_by(node: NodeId, word: u64) -> Entry
    ensures { result ≡ edge_entry_by node.0 word }
{
    Entry {
        node,
        distance: distance_in(word),
        last: Some(EdgeId((word & 0xffff_ffff) as u32)),
    }
}

/// The entries found so far: the first `count` places. The others are free.
pub struct FoundEntries {
    places: Vec<Entry>,
    count: usize,
}

// By hand, so that the functions that drop one call this.
impl Drop for FoundEntries {
    fn drop(self) {
        let FoundEntries {
            places: _,
            count: _,
        } = self;
    }
}

impl Model for FoundEntries {
    ghost use Rattle.std.specs.Prelude.{List};
    ghost use Rattle.bounded_table.specs.declared.table_row.Entry.{Entry};

    ghost Value = { List Entry };

    ghost use Rattle.row_search.specs.inside.FoundInside.{found_in, IsFoundInside};

    ghost view = { found_in };

    ghost invariant = { IsFoundInside };
}

/// Removes the label of a node, and writes its entry to a place, as if the label had a last edge. Returns whether
/// the node had a label: no word is beyond that of no label.
fn take_node(words: &mut [u64], bound: u32, node: usize, place: &mut Entry) -> bool
    requires bound { bound ≤ 10_000_000 }
    requires node { (node < length words.old) × (node ≤ 1_000_000_000) }
    ensures words { words.new ≡ slice_set words.old node (no_label bound) }
    ensures place { place.new ≡ edge_entry_by node (word_at bound words.old node) }
    ensures labelled { result ≡ nat_lt (word_at bound words.old node) (no_label bound) }
{
    let word = words[node];
    words[node] = no_label(bound);
    *place = edge_entry_by(NodeId(node as u32), word);
    word < no_label(bound)
}

/// Nodes next to each other by number: eight, or the last ones.
#[derive(Clone, Copy)]
struct Octet {
    first: usize,
    nodes: usize,
}

/// Removes the labels of an octet of nodes, and puts their entries after the first `count` places. The result is
/// how many entries there are then.
///
/// Nothing branches on labels: the next entry overwrites that of a node without a label.
// Inlined, so that an octet of just eight nodes is no loop.
#[inline(always)]
fn take_octet(
    words: &mut [u64],
    bound: u32,
    octet: Octet,
    places: &mut [Entry],
    count: usize,
) -> usize
    requires words { (bound ≤ 10_000_000) × (length words.old ≤ 1_000_000_000) }
    requires octet { IsOctet (length words.old) octet }
    requires room { count + 8 ≤ length places.old }
    ensures takes { TakesNodes bound octet.first (octet.first + 8)
        words.old (take count places.old) words.new (take result places.new) }
    ensures room { result ≤ count + 8 }
{
    let mut end = count;
    for k in 0..octet.nodes {
        let labelled = take_node(words, bound, octet.first + k, &mut places[end]);
        end += usize::from(labelled);
    }
    end
}

/// Takes the octet from a node on, as [`take_octet`] does. The last octet of a network may have fewer than eight nodes.
// Not inlined, so that its eight nodes have all registers.
#[inline(never)]
fn take_octet_at(
    words: &mut [u64],
    bound: u32,
    first: usize,
    places: &mut [Entry],
    count: usize,
) -> usize
    requires words { (bound ≤ 10_000_000) × (length words.old ≤ 1_000_000_000) }
    requires room { count + 8 ≤ length places.old }
    ensures takes { TakesNodes bound first (first + 8)
        words.old (take count places.old) words.new (take result places.new) }
    ensures room { result ≤ count + 8 }
{
    let left = words.len().saturating_sub(first);
    if left >= 8 {
        take_octet(words, bound, Octet { first, nodes: 8 }, places, count)
    } else {
        take_octet(words, bound, Octet { first, nodes: left }, places, count)
    }
}

/// The 64 octets of a region, in a search within a bound.
#[derive(Clone, Copy)]
struct Region {
    number: usize,
    bound: u32,
}

/// Removes the labels of the marked octets of a region and their marks, and puts the entries after the first `count`
/// places. The result is how many entries there are then.
///
/// The only branch on marks is the end of the loop.
fn take_octets(
    words: &mut [u64],
    octets: &mut [u8],
    places: &mut [Entry],
    region: Region,
    count: usize,
) -> usize
    requires words { (region.bound ≤ 10_000_000) × (length words.old ≤ 1_000_000_000) }
    requires octets { ((region.number + 1) * 64 ≤ length octets.old) × (length octets.old ≤ 1_000_000_000) }
    requires room { count + 512 ≤ length places.old }
    ensures takes { TakesMarked region.bound (region.number * 512) ((region.number + 1) * 512)
        (listing words.old octets.old (take count places.old)) (listing words.new octets.new (take result places.new)) }
    ensures room { result ≤ length places.new }
{
    let mut end = count;
    let mut octet = region.number * 64;
    let mut marked = marked_octets(octets, region.number);
    while marked != 0 {
        let unmarked = marked.trailing_zeros();
        octet += unmarked as usize;
        octets[octet] = 0;
        end = take_octet_at(words, region.bound, octet * 8, places, end);
        octet += 1;
        marked = marked >> unmarked >> 1;
    }
    end
}

impl FoundEntries {
    /// No entries. Takes no memory.
    pub fn new(alloc: Global) -> FoundEntries
        ensures { result ≡ [] }
    {
        FoundEntries {
            places: Vec::new(alloc),
            count: 0,
        }
    }

    /// Removes the labels of the marked octets of a region and their marks, and appends the entries.
    pub fn take_region(
        &mut self,
        words: &mut [u64],
        octets: &mut [u8],
        bound: u32,
        region: usize,
    ) -> Result<(), AllocError>
        requires words { (bound ≤ 10_000_000) × (length words.old ≤ 1_000_000_000) }
        requires octets { ((region + 1) * 64 ≤ length octets.old) × (length octets.old ≤ 1_000_000_000) }
        ensures { OnOk result (TakesMarked bound (region * 512) ((region + 1) * 512)
            (listing words.old octets.old self.old) (listing words.new octets.new self.new)) }
    {
        make_places(&mut self.places, self.count.saturating_add(512), FREE)?;
        let places = self.places.as_mut_slice();
        let region = Region {
            number: region,
            bound,
        };
        self.count = take_octets(words, octets, places, region, self.count);
        Ok(())
    }

    /// A copy that has just the entries, and no free places.
    pub fn to_vec(&self, alloc: Global) -> Result<Vec<Entry>, AllocError>
        ensures { IfOk result (λ entries. entries.items ≡ self.now) }
    {
        Vec::from_slice(alloc, &self.places.as_slice()[..self.count])
    }

    /// Removes all entries.
    pub fn clear(&mut self)
        ensures { self.new ≡ [] }
    {
        self.count = 0;
    }
}
