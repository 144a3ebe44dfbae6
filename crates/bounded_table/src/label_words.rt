//! Labels in eight bytes. Serves the check by words, and searches; decided by `label_in_word`.
ghost use Rattle.std.specs.Prelude.{◌≡◌, ◌≤◌, ◌/◌, ◌^◌};
ghost use Rattle.bounded_table.specs.LabelWords.{no_label, word_by, word_of};

use road_network::{Arc, EdgeId};

/// The word of an origin: distance 0 and no last edge.
pub const ORIGIN: u64 = 0xffff_ffff;

/// The word of a label: its distance in the high half, its last edge in the low half. Of two words the
/// smaller is the better label: nearer, or as near by an earlier last edge.
pub fn word_by(distance: u32, e: EdgeId) -> u64
    ensures { result ≡ word_by distance e.0 }
{
    u64::from(distance) << 32 | u64::from(e.0)
}

/// The least word of a distance.
pub fn least_word(distance: u32) -> u64
    ensures { result ≡ word_by distance 0 }
{
    u64::from(distance) << 32
}

/// The word of a node without a label: the least of all words beyond the bound.
///
/// So a word below a node's word is both within the bound and better than the node's label.
pub fn no_label(bound: u32) -> u64
    requires { bound ≤ 10_000_000 }
    ensures { result ≡ no_label bound }
{
    least_word(bound + 1)
}

/// The word of an arc's length and edge. Its sum with the least word of the distance at the arc's start is
/// the word of the new label.
pub fn step_by(arc: Arc) -> u64
    ensures { result ≡ word_by arc.length arc.edge.0 }
{
    word_by(arc.length, arc.edge)
}

/// The word of a label by its parts.
pub fn word_of(distance: u32, last: Option<EdgeId>) -> u64
    ensures { result ≡ word_of distance last }
{
    match last {
        Some(e) => word_by(distance, e),
        None => word_by(distance, EdgeId(0xffff_ffff)),
    }
}

/// The distance in a word. For a node without a label it is just beyond the bound.
pub fn distance_in(word: u64) -> u32
    ensures { result ≡ word / 2 ^ 32 }
{
    (word >> 32) as u32
}
