//! Whether a row is the table's, by the words of its labels: one comparison tells of an edge whether it is relaxed.
//! Serves `RowChecker` and `Searcher::check`; decided by `IsRow`.
ghost use Rattle.std.specs.Prelude.{◌≡◌, ◌<◌, ◌≤◌, ◌+◌, ◌^◌, ◌↔◌, ◌&&◌, if◌then◌else◌, length, false, IsTrue};
ghost use Rattle.std.specs.List.{All};
ghost use Rattle.road_network.specs.Net.{HasNode};
ghost use Rattle.bounded_table.specs.inside.Given.{IsGiven};
ghost use Rattle.bounded_table.specs.LabelWords.{low_of, word_of};
ghost use Rattle.bounded_table.specs.Spread.{FitsIn, IsBlank, IsSpread, LabelsOnly, NoneLabelled, Spreads};
ghost use Rattle.bounded_table.specs.Table.{IsRow, RisesFrom};
ghost use Rattle.bounded_table.specs.inside.Tally.{IsEnough, IsTally, is_met};
ghost use Rattle.bounded_table.specs.LabelWords.{IsTriable};

use crate::label_words::{least_word, no_label, step_by, word_of};
use crate::table_row::{Entry, Row};
use road_network::{Arc, EdgeId, Network, NodeId};

/// Whether a row is the row of an origin, with an array of words that is blank before and after. Allocates nothing.
pub fn is_row(net: &Network, bound: u32, words: &mut [u64], origin: NodeId, row: &Row) -> bool
    requires origin { HasNode net.now origin.0 }
    requires blank { IsBlank (length net.now.nodes) bound words.old }
    ensures row { IsTrue result ↔ IsRow net.now bound origin.0 row.now }
    ensures blank { IsBlank (length net.now.nodes) bound words.new }
{
    net.invariants();
    row.invariants();
    row.origin() == origin && gives_all(net, bound, words, row.entries())
}

/// What arcs tell by the words of the nodes where they end.
#[derive(Clone, Copy)]
struct Tally {
    /// How many of them give the label there.
    given: usize,
    /// Whether one of them is neither relaxed nor leads beyond the bound.
    short: bool,
}

const NOTHING: Tally = Tally {
    given: 0,
    short: false,
};

/// Smaller nodes are padded to this many arcs: a loop that mostly takes equally many turns is well predicted. Speed
/// only: any value is right.
const FEW_ARCS: usize = 4;

/// Whether a row of this network and bound may have an entry.
fn fits(net: &Network, bound: u32, x: &Entry) -> bool
    ensures { IsTrue result ↔ FitsIn net.now bound x.now }
{
    x.node.0 < net.node_count() && x.distance <= bound
}

/// The word of a label, raised by one. So no label by an edge has the word of no label.
fn raised(distance: u32, last: Option<EdgeId>) -> u64
    requires { distance ≤ 10_000_000 }
    ensures word { result ≡ word_of distance last + 1 }
    ensures low { low_of last < 2 ^ 32 }
{
    word_of(distance, last) + 1
}

/// Whether a row may have all entries, and the edges out of their nodes are relaxed and give all labels but
/// the origin's.
fn gives_all(net: &Network, bound: u32, words: &mut [u64], entries: &[Entry]) -> bool
    requires rising { RisesFrom 0 entries.now }
    requires blank { IsBlank (length net.now.nodes) bound words.old }
    ensures given { IsTrue result ↔ IsGiven net.now bound entries.now }
    ensures blank { IsBlank (length net.now.nodes) bound words.new }
{
    let good = spread_and_count(net, bound, words, entries);
    take_away(bound, words, entries);
    good
}

/// The answer of `gives_all`, with the words of the entries left in the array.
fn spread_and_count(net: &Network, bound: u32, words: &mut [u64], entries: &[Entry]) -> bool
    requires rising { RisesFrom 0 entries.now }
    requires blank { IsBlank (length net.now.nodes) bound words.old }
    ensures given { IsTrue result ↔ IsGiven net.now bound entries.now }
    ensures only { LabelsOnly bound entries.now words.new }
{
    spread(net, bound, words, entries) && are_given(net, bound, words, entries)
}

/// Writes the words of the entries, up to the first that a row cannot have.
fn spread(net: &Network, bound: u32, words: &mut [u64], entries: &[Entry]) -> bool
    requires rising { RisesFrom 0 entries.now }
    requires blank { IsBlank (length net.now.nodes) bound words.old }
    ensures { Spreads net.now bound entries.now result words.new }
{
    net.invariants();
    for x in entries {
        if !fits(net, bound, x) {
            return false;
        }
        words[x.node.0 as usize] = raised(x.distance, x.last);
    }
    true
}

/// Adds to a tally what an arc tells, by the raised least word of the distance where it begins.
///
/// Nothing branches on labels: which arcs give them cannot be predicted.
fn look(words: &[u64], base: u64, arc: Arc, counts: bool, tally: Tally) -> Tally
    requires end { arc.to.0 < length words.now }
    requires fits { (base ≤ 2 ^ 60) × (arc.length ≤ 100_000_000) }
    requires room { tally.given < 2 ^ 63 }
    ensures given { result.given ≡ tally.given + (if counts && is_met words.now base arc then 1 else 0) }
    ensures short { (result.short ≡ false) ↔ ((tally.short ≡ false) × IsEnough words.now base arc) }
{
    let word = base + step_by(arc);
    let there = words[arc.to.0 as usize];
    Tally {
        given: tally.given + usize::from(counts & (word == there)),
        short: tally.short | (word < there),
    }
}

/// What few arcs tell. Where there are fewer than [`FEW_ARCS`], the last one is looked at again, which does not
/// count.
fn tally_few(words: &[u64], base: u64, arcs: &[Arc]) -> Tally
    requires few { (0 < length arcs.now) × (length arcs.now ≤ FEW_ARCS) }
    requires base { base ≤ 2 ^ 60 }
    requires arcs { All (IsTriable (length words.now)) arcs.now }
    ensures { IsTally words.now base arcs.now result }
{
    let last = arcs.len() - 1;
    let mut tally = NOTHING;
    for tried in 0..FEW_ARCS {
        tally = look(words, base, arcs[tried.min(last)], tried <= last, tally);
    }
    tally
}

/// What each of any number of arcs tells.
fn tally_each(words: &[u64], base: u64, arcs: &[Arc]) -> Tally
    requires base { base ≤ 2 ^ 60 }
    requires arcs { All (IsTriable (length words.now)) arcs.now }
    ensures { IsTally words.now base arcs.now result }
{
    let mut tally = NOTHING;
    for arc in arcs {
        tally = look(words, base, *arc, true, tally);
    }
    tally
}

/// What the arcs of a node tell.
fn tally_arcs(words: &[u64], base: u64, arcs: &[Arc]) -> Tally
    requires base { base ≤ 2 ^ 60 }
    requires arcs { All (IsTriable (length words.now)) arcs.now }
    ensures { IsTally words.now base arcs.now result }
{
    if 0 < arcs.len() && arcs.len() <= FEW_ARCS {
        tally_few(words, base, arcs)
    } else {
        tally_each(words, base, arcs)
    }
}

/// Whether the edges out of all entries' nodes are relaxed, and give all labels but the origin's.
fn are_given(net: &Network, bound: u32, words: &[u64], entries: &[Entry]) -> bool
    requires bound { bound ≤ 10_000_000 }
    requires rising { RisesFrom 0 entries.now }
    requires fits { All (FitsIn net.now bound) entries.now }
    requires words { (length words.now ≡ length net.now.nodes) × IsSpread bound entries.now words.now }
    ensures { IsTrue result ↔ IsGiven net.now bound entries.now }
{
    net.invariants();
    let mut total = NOTHING;
    for x in entries {
        let tally = tally_arcs(words, least_word(x.distance) + 1, net.arcs(x.node));
        total = Tally {
            given: total.given + tally.given,
            short: total.short | tally.short,
        };
    }
    !total.short && total.given + 1 == entries.len()
}

/// Takes the labels of the entries' nodes out.
fn take_away(bound: u32, words: &mut [u64], entries: &[Entry])
    requires bound { bound ≤ 10_000_000 }
    requires only { LabelsOnly bound entries.now words.old }
    ensures { NoneLabelled bound words.new }
{
    let none = no_label(bound);
    for x in entries {
        let node = x.node.0 as usize;
        if node < words.len() {
            words[node] = none;
        }
    }
}
