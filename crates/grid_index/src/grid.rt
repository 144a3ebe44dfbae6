//! The grid of a network. Serves candidate searches; decided by `IsGrid`.
ghost use Rattle.std.specs.Prelude.{◌≡◌, ℕ, ◌*◌, ◌≤◌, IfOk, IsTrue, MatchOption, flat_map};
ghost use Rattle.std.specs.List.{All, Contains};
ghost use Rattle.polyline_geometry.specs.declared.plane.Point.{Point as Place};
ghost use Rattle.polyline_geometry.specs.Plane.{InRange};
ghost use Rattle.polyline_geometry.specs.Boxes.{InSquare};
ghost use Rattle.road_network.specs.declared.EdgeId.{EdgeId as EdgeOf};
ghost use Rattle.road_network.specs.Net.{HasEdge};
ghost use Rattle.grid_index.specs.Cells.{HasCell, cell};
ghost use Rattle.grid_index.specs.GridOf.{AreHits, ContainsNear, HasNoneWithin, IsGrid, runs_at};
ghost use Rattle.grid_index.specs.NearestCell.{HasNoneNearer, IsNearestCell};
ghost use Rattle.grid_index.specs.Runs.{IsBoxDistance, IsRun, edges_of_run};
ghost use Rattle.grid_index.specs.Rising.{AreRising};

use crate::cells::{Cells, shifted};
use crate::entries::Layout;
use crate::extent::Extent;
use crate::nearest_cell::{cell_distance2, distance2_in_cell};
use crate::runs::Run;
use crate::size::{room_for, runs_expected, width_bits_for};
use crate::table::{Disc, Table};
use plain_list::List;
use polyline_geometry::Point;
use road_network::{EdgeId, Network};
use std::alloc::{AllocError, Global};
use std::marker::Model;

/// A grid of a network. Contracts see the network, the side of a cell in cm, the runs at each cell,
/// and the wide runs.
pub struct Grid<'n> {
    net: &'n Network,
    table: Table,
    /// Contains the lines of the network.
    extent: Extent,
}

// By hand, so that the functions that drop one call this.
impl<'n> Drop for Grid<'n> {
    fn drop(self) {
        let Grid {
            net: _,
            table: _,
            extent: _,
        } = self;
    }
}

impl<'n> Model for Grid<'n> {
    ghost use Rattle.grid_index.specs.GridOf.{GridOf};

    ghost Value = { GridOf };

    ghost use Rattle.grid_index.specs.inside.Inside.{shown, IsKept};

    ghost view = { shown };

    ghost invariant = { IsKept };
}

/// The edges in a list, each once and by ascending number.
fn in_order(mut edges: Vec<EdgeId>) -> Vec<EdgeId>
    ensures rising { AreRising result.items }
    ensures keeps { (e : EdgeOf) → Contains edges.items e → Contains result.items e }
    ensures no_others { (e : EdgeOf) → Contains result.items e → Contains edges.items e }
{
    edges.sort_unstable();
    edges.dedup();
    edges
}

/// The edges of these runs.
fn edges_of(alloc: Global, runs: &[Run]) -> Result<Vec<EdgeId>, AllocError>
    ensures { IfOk result (λ edges. edges.items ≡ flat_map edges_of_run runs.now) }
{
    let mut edges = Vec::new(alloc);
    for run in runs {
        edges.push(run.edge)?;
        if let Some(twin) = run.twin() {
            edges.push(twin)?;
        }
    }
    Ok(edges)
}

impl<'n> Grid<'n> {
    /// The grid of a network with cells of this side, in cm.
    pub fn build(alloc: Global, net: &'n Network, side: u32) -> Result<Grid<'n>, AllocError>
        requires some { 1 ≤ side }
        requires few { side ≤ 1_000_000 }
        ensures network { IfOk result (λ grid. grid.net ≡ net.now) }
        ensures side { IfOk result (λ grid. grid.side ≡ side) }
    {
        let runs = runs_expected(net);
        let width_bits = width_bits_for(runs);
        let layout = Layout {
            side,
            width: 1 << width_bits,
            width_bits,
            room: room_for(runs),
        };
        let table = Table::of(alloc, net, layout)?;
        let extent = Extent::of(net);
        Ok(Grid { net, table, extent })
    }

    /// Does nothing: its clause states the invariants of every grid.
    pub fn invariants(&self)
        ensures { IsGrid self.now }
    {
        let _ = &self.table;
    }

    /// The squared distance from the centre of a square with half side `reach` to a corner, in cm².
    fn corner_distance2(&self, reach: u32) -> u64
        requires { reach ≤ self.now.side }
        ensures { result ≡ 2 * reach * reach }
    {
        let reach = u64::from(reach.min(self.table.layout.side));
        2 * reach * reach
    }

    /// Runs near a point: at least one for each segment whose box has a point inside the square with half
    /// side `reach` and within `far2`.
    fn hits(&self, alloc: Global, p: Point, reach: u32, far2: u64) -> Result<Vec<Run>, AllocError>
        requires p_in { InRange p }
        requires reach { reach ≤ self.now.side }
        ensures { IfOk result (λ runs. AreHits self.now p reach far2 runs.items) }
    {
        let cells = Cells::of_square(p, reach, self.table.layout.side);
        let mut found = Vec::new(alloc);
        self.table.gather_wide(&mut found, p, far2)?;
        self.table.gather(&mut found, cells, Disc { at: p, far2 })?;
        Ok(found)
    }

    /// Whether the square around a point with half side `reach` lies outside the box of the whole network,
    /// so that no segment is near. Visits no cell.
    pub fn is_far(&self, p: Point, reach: u32) -> bool
        requires p_in { InRange p }
        requires reach { reach ≤ self.now.side }
        ensures { IsTrue result → HasNoneWithin self.now.net p reach }
    {
        self.extent.is_apart(p, reach)
    }

    /// The columns and rows of at least the cells that the square around a point with half side `reach` meets.
    pub fn cells_near(&self, p: Point, reach: u32) -> Cells
        requires p_in { InRange p }
        requires reach { reach ≤ self.now.side }
        ensures { (q : Place) → InSquare p reach q
            → HasCell result (cell self.now.side q.x) (cell self.now.side q.y) }
    {
        Cells::of_square(p, reach, self.table.layout.side)
    }

    /// The column of the cell that contains a point.
    pub fn column_of(&self, p: Point) -> u32
        requires p_in { InRange p }
        ensures { result ≡ cell self.now.side p.x }
    {
        shifted(p.x) / self.table.layout.side
    }

    /// The row of the cell that contains a point.
    pub fn row_of(&self, p: Point) -> u32
        requires p_in { InRange p }
        ensures { result ≡ cell self.now.side p.y }
    {
        shifted(p.y) / self.table.layout.side
    }

    /// The runs at the cell in a column and a row. Each segment whose box meets the cell has a run there, or a wide one.
    pub fn runs_at(&self, column: u32, row: u32) -> &[Run]
        ensures { result.now ≡ runs_at self.now column row }
    {
        self.table.runs_at(column, row)
    }

    /// The runs that are in no cell, since their box meets too many.
    pub fn wide_runs(&self) -> &[Run]
        ensures { result.now ≡ self.now.wide }
    {
        self.table.wide.as_slice()
    }

    /// The squared distance from p to the nearest point of a run's box, in cm², if that point lies
    /// in the cell of this column and row.
    pub fn distance2_in_cell(&self, run: &Run, p: Point, column: u32, row: u32) -> Option<u64>
        requires run { IsRun self.now.net run.now }
        requires p_in { InRange p }
        ensures { MatchOption result (IsNearestCell self.now.side p run.now column row → ⊥)
            (λ d2. IsNearestCell self.now.side p run.now column row × IsBoxDistance run.now p d2) }
    {
        distance2_in_cell(run, p, column, row, self.table.layout.side)
    }

    /// A lower bound, in cm², on the squared distance from p to the boxes whose nearest point lies in
    /// the cell of this column and row.
    pub fn cell_distance2(&self, p: Point, column: u32, row: u32) -> u64
        requires p_in { InRange p }
        ensures { HasNoneNearer self.now.net self.now.side p column row result }
    {
        cell_distance2(p, column, row, self.table.layout.side)
    }

    /// Edges near a point, each once and by ascending number: all edges with a segment whose box meets the
    /// square with half side `reach` around it, and maybe others.
    pub fn near(&self, alloc: Global, p: Point, reach: u32) -> Result<List<EdgeId>, AllocError>
        requires p_in { InRange p }
        requires reach { reach ≤ self.now.side }
        ensures edges { IfOk result (All (λ e. HasEdge self.now.net e.0)) }
        ensures rising { IfOk result AreRising }
        ensures complete { IfOk result (ContainsNear self.now.net p reach) }
    {
        let far2 = self.corner_distance2(reach);
        let runs = self.hits(alloc, p, reach, far2)?;
        let edges = edges_of(alloc, runs.as_slice())?;
        Ok(List::from_vec(in_order(edges)))
    }
}
