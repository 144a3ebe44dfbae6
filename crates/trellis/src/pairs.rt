//! A memory of lookups in rows, which saves repeated lookups of a pair of nodes. Serves `arrival_cost`;
//! decided by `distance_in`.
ghost use Rattle.std.specs.Prelude.{◌≡◌, IfSome};
ghost use Rattle.bounded_table.specs.Table.{IsNearRow};
ghost use Rattle.trellis.specs.Pairs.{IsTold, TellsPair, TellsReached, distance_in, pairs_of, reached_by};

use bounded_table::Row;
use road_network::{Network, NodeId};
use std::alloc::{AllocError, Global};
use std::marker::Model;

/// How many pairs are remembered. If several pairs share a place, the last one stays. Speed only: any value is
/// right.
const PLACES: usize = 2_048;

/// What the row of one node says of another: its distance, or that it is not listed.
#[derive(Clone, Copy)]
struct Told {
    origin: u32,
    node: u32,
    distance: Option<u32>,
}

/// A row of a node within some bound.
#[derive(Clone, Copy)]
pub(crate) struct NearRow<'a> {
    pub origin: NodeId,
    pub row: &'a Row,
    /// In cm; the row's bound is no shorter.
    pub reach: u32,
}

/// What is told of the walks to a node.
#[derive(Clone, Copy)]
pub(crate) enum Reached {
    /// The least walk has this length, in cm.
    At(u32),
    /// No walk is within the bound.
    Nowhere,
    /// The row does not list the node, and may not reach as far as the bound.
    Further,
}

impl Reached {
    /// What a row within the whole bound tells.
    fn within(distance: Option<u32>) -> Reached
        ensures { result ≡ reached_by distance }
    {
        match distance {
            Some(distance) => Reached::At(distance),
            None => Reached::Nowhere,
        }
    }
}

/// Pairs of nodes of a network, as its rows within a bound list them.
pub struct PairMemory<'n> {
    network: &'n Network,
    bound: u32,
    places: Vec<Option<Told>>,
}

// By hand, so that the functions that drop one call this.
impl<'n> Drop for PairMemory<'n> {
    fn drop(self) {
        let PairMemory {
            network: _,
            bound: _,
            places: _,
        } = self;
    }
}

impl<'n> Model for PairMemory<'n> {
    ghost use Rattle.bounded_table.specs.Table.{BoundedTable};
    ghost use Rattle.trellis.specs.inside.PairsInside.{shown_pairs, AreTold};

    ghost Value = { BoundedTable };

    ghost view = { shown_pairs };

    ghost invariant = { AreTold };
}

impl<'n> PairMemory<'n> {
    /// An empty memory without room. Allocates nothing.
    pub fn new(alloc: Global, network: &'n Network, bound: u32) -> PairMemory<'n>
        ensures { result ≡ pairs_of network.now bound }
    {
        PairMemory {
            network,
            bound,
            places: Vec::new(alloc),
        }
    }

    /// Makes room for the pairs, if there is none yet. The clause promises only that the memory is still of
    /// the same network and bound: room saves lookups, and changes no distance.
    pub fn make_room(&mut self, alloc: Global) -> Result<(), AllocError>
        ensures { self.new ≡ self.old }
    {
        if self.places.len() == 0 {
            self.places = vec![in alloc; None; PLACES]?;
        }
        Ok(())
    }

    /// What this place remembers of a pair, if it is that pair.
    fn remembered(&self, place: usize, origin: u32, node: u32) -> Option<Option<u32>>
        ensures { IfSome result (TellsPair self.now origin node) }
    {
        match self.places.get(place) {
            Some(Some(told)) if told.origin == origin && told.node == node => Some(told.distance),
            _ => None,
        }
    }

    /// What a row tells of a node, or what the memory tells of it and the row's origin. Then the row is not read.
    pub(crate) fn reached(&mut self, near: &NearRow, node: NodeId) -> Reached
        requires { IsNearRow self.old.network near.now.reach self.old.bound near.now.origin.0 near.now.row.now }
        ensures told { TellsReached self.old near.now node.0 result }
        ensures whole { near.now.reach ≡ self.old.bound → IsTold result }
        ensures same { self.new ≡ self.old }
    {
        let origin = near.origin.0;
        let place = (origin as usize * 31 + node.0 as usize) % PLACES;
        if let Some(distance) = self.remembered(place, origin, node.0) {
            return Reached::within(distance);
        }
        let distance = look(near.row, node);
        if distance.is_none() && near.reach < self.bound {
            return Reached::Further;
        }
        if place < self.places.len() {
            self.places[place] = Some(Told {
                origin,
                node: node.0,
                distance,
            });
        }
        Reached::within(distance)
    }
}

/// The distance of a node in this row, by a lookup.
fn look(row: &Row, node: NodeId) -> Option<u32>
    ensures { result ≡ distance_in row.now node.0 }
{
    match row.find(node) {
        Some(entry) => Some(entry.distance),
        None => None,
    }
}
