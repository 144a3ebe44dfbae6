//! Visits the runs near a position, cell by cell from its own cell outwards. Serves `candidates`; decided by
//! `HasSeenCell`.
ghost use Rattle.std.specs.Prelude.{◌≡◌, ◌<◌, OnOk};
ghost use Rattle.polyline_geometry.specs.Plane.{InRange};
ghost use Rattle.road_network.specs.Net.{Net};
ghost use Rattle.grid_index.specs.Runs.{IsBoxDistance, IsRun};
ghost use Rattle.candidate_search.specs.inside.Best.{AreBest, HasSeen, HasSeenCell, HasSeenRow, HasSeenRows, HasSeenWide, IsLimit, IsNearestOfTwin, Steps};

use crate::best::{NearEdge, limit_for, take_near, take_pair};
use crate::wanted::Search;
use grid_index::{Cells, Grid, Run};
use polyline_geometry::{NearSegments, distance2, nearest_in_box, nearest_segments};
use road_network::{EdgeId, Network};
use std::alloc::AllocError;

/// What a visit of cells looks for, and where.
#[derive(Clone, Copy)]
pub(crate) struct Look<'a, 'n> {
    pub(crate) net: &'a Network,
    pub(crate) grid: &'a Grid<'n>,
    pub(crate) search: Search,
}

/// The nearest segment of the twin of a run: the last of the nearest, counted from the end of the
/// run's line.
fn nearest_of_twin(net: &Network, run: Run, twin: EdgeId, near: NearSegments) -> NearEdge
    requires run { IsRun net.now run }
    requires last { near.last < run.end }
    ensures { IsNearestOfTwin net.now run twin near result }
{
    net.invariants();
    NearEdge {
        edge: twin,
        segment: (net.line(run.edge).len() - 2 - near.last) as u32,
        d2: near.d2,
    }
}

/// Measures the segments of a run, for its own edge and for the twin, up to a limit.
// Not inlined, so that the loop over the runs of a cell has only the test of their boxes.
#[inline(never)]
fn measure_run(
    net: &Network,
    found: &mut Vec<NearEdge>,
    search: Search,
    run: Run,
    limit: u64,
) -> Result<(), AllocError>
    requires run { IsRun net.now run }
    requires limit { IsLimit search found.old.items limit }
    requires best { AreBest net.now search found.old.items }
    ensures steps { OnOk result (Steps net.now search found.old.items found.new.items) }
    ensures seen { OnOk result (HasSeen net.now search found.new.items run) }
{
    net.invariants();
    let (first, end) = (run.first as usize, run.end as usize);
    let Some(near) = nearest_segments(net.line(run.edge), first, end, search.at, limit) else {
        return Ok(());
    };
    let own = NearEdge {
        edge: run.edge,
        segment: near.first as u32,
        d2: near.d2,
    };
    match run.twin() {
        None => take_near(found, search, own),
        Some(twin) => take_pair(found, search, own, nearest_of_twin(net, run, twin, near)),
    }
}

/// Visits a run, given the distance to its box: its segments are measured if the box is near enough.
fn look_at_box(
    net: &Network,
    found: &mut Vec<NearEdge>,
    search: Search,
    run: Run,
    d2: u64,
) -> Result<(), AllocError>
    requires run { IsRun net.now run }
    requires d2 { IsBoxDistance run search.at d2 }
    requires best { AreBest net.now search found.old.items }
    ensures steps { OnOk result (Steps net.now search found.old.items found.new.items) }
    ensures seen { OnOk result (HasSeen net.now search found.new.items run) }
{
    net.invariants();
    let limit = limit_for(found.as_slice(), search);
    if d2 >= limit {
        return Ok(());
    }
    measure_run(net, found, search, run, limit)
}

/// Visits a run.
fn look_at_run(
    net: &Network,
    found: &mut Vec<NearEdge>,
    search: Search,
    run: Run,
) -> Result<(), AllocError>
    requires run { IsRun net.now run }
    requires best { AreBest net.now search found.old.items }
    ensures steps { OnOk result (Steps net.now search found.old.items found.new.items) }
    ensures seen { OnOk result (HasSeen net.now search found.new.items run) }
{
    let place = nearest_in_box(run.low, run.high, search.at);
    look_at_box(net, found, search, run, distance2(search.at, place))
}

/// Visits the runs that are in no cell.
pub(crate) fn look_at_wide(look: Look<'_, '_>, found: &mut Vec<NearEdge>) -> Result<(), AllocError>
    requires network { look.grid.now.net ≡ look.net.now }
    requires best { AreBest look.net.now look.search found.old.items }
    ensures steps { OnOk result (Steps look.entry.net.now look.entry.search found.old.items found.new.items) }
    ensures seen { OnOk result (HasSeenWide look.entry.net.now look.entry.grid.now look.entry.search found.new.items) }
{
    look.grid.invariants();
    let runs = look.grid.wide_runs();
    for run in runs {
        look_at_run(look.net, found, look.search, *run)?;
    }
    Ok(())
}

/// Visits the runs of a cell, if it is near enough. A run is visited only in the cell of its nearest
/// point, so that it is visited once.
fn look_at_cell(
    look: Look<'_, '_>,
    found: &mut Vec<NearEdge>,
    column: u32,
    row: u32,
) -> Result<(), AllocError>
    requires network { look.grid.now.net ≡ look.net.now }
    requires best { AreBest look.net.now look.search found.old.items }
    ensures steps { OnOk result (Steps look.entry.net.now look.entry.search found.old.items found.new.items) }
    ensures seen { OnOk result (HasSeenCell look.entry.net.now look.entry.grid.now look.entry.search found.new.items column row) }
{
    look.grid.invariants();
    look.net.invariants();
    let runs = look.grid.runs_at(column, row);
    if runs.is_empty() {
        return Ok(());
    }
    if look.grid.cell_distance2(look.search.at, column, row)
        >= limit_for(found.as_slice(), look.search)
    {
        return Ok(());
    }
    for run in runs {
        if let Some(d2) = look
            .grid
            .distance2_in_cell(run, look.search.at, column, row)
        {
            look_at_box(look.net, found, look.search, *run, d2)?;
        }
    }
    Ok(())
}

/// Visits the cells of a row in a range of columns.
fn look_at_columns(
    look: Look<'_, '_>,
    found: &mut Vec<NearEdge>,
    left: u32,
    right: u32,
    row: u32,
) -> Result<(), AllocError>
    requires network { look.grid.now.net ≡ look.net.now }
    requires best { AreBest look.net.now look.search found.old.items }
    ensures steps { OnOk result (Steps look.entry.net.now look.entry.search found.old.items found.new.items) }
    ensures seen { OnOk result
        (HasSeenRow look.entry.net.now look.entry.grid.now look.entry.search found.new.items left right row) }
{
    for column in left..right {
        look_at_cell(look, found, column, row)?;
    }
    Ok(())
}

/// Visits the cells of a row, the position's own column first.
fn look_at_row(
    look: Look<'_, '_>,
    found: &mut Vec<NearEdge>,
    cells: Cells,
    row: u32,
) -> Result<(), AllocError>
    requires network { look.grid.now.net ≡ look.net.now }
    requires best { AreBest look.net.now look.search found.old.items }
    ensures steps { OnOk result (Steps look.entry.net.now look.entry.search found.old.items found.new.items) }
    ensures seen { OnOk result (HasSeenRow look.entry.net.now look.entry.grid.now look.entry.search found.new.items cells.left
        cells.right row) }
{
    let own = look.grid.column_of(look.search.at);
    let next = own.saturating_add(1);
    look_at_cell(look, found, own, row)?;
    look_at_columns(look, found, next, cells.right, row)?;
    look_at_columns(look, found, cells.left, own, row)
}

/// Visits the rows of cells in a range.
fn look_at_rows(
    look: Look<'_, '_>,
    found: &mut Vec<NearEdge>,
    cells: Cells,
    bottom: u32,
    top: u32,
) -> Result<(), AllocError>
    requires network { look.grid.now.net ≡ look.net.now }
    requires best { AreBest look.net.now look.search found.old.items }
    ensures steps { OnOk result (Steps look.entry.net.now look.entry.search found.old.items found.new.items) }
    ensures seen { OnOk result
        (HasSeenRows look.entry.net.now look.entry.grid.now look.entry.search found.new.items cells bottom top) }
{
    for row in bottom..top {
        look_at_row(look, found, cells, row)?;
    }
    Ok(())
}

/// Visits cells, those of the position's own row first.
pub(crate) fn look_at_cells(
    look: Look<'_, '_>,
    found: &mut Vec<NearEdge>,
    cells: Cells,
) -> Result<(), AllocError>
    requires network { look.grid.now.net ≡ look.net.now }
    requires best { AreBest look.net.now look.search found.old.items }
    ensures steps { OnOk result (Steps look.entry.net.now look.entry.search found.old.items found.new.items) }
    ensures seen { OnOk result
        (HasSeenRows look.entry.net.now look.entry.grid.now look.entry.search found.new.items cells cells.bottom cells.top) }
{
    let own = look.grid.row_of(look.search.at);
    let next = own.saturating_add(1);
    look_at_row(look, found, cells, own)?;
    look_at_rows(look, found, cells, next, cells.top)?;
    look_at_rows(look, found, cells, cells.bottom, own)
}
