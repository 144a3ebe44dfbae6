//! The table of a grid: the runs at the slots of the cells that they meet. Serves `Grid`; decided by
//! `IsTableOf`.
ghost use Rattle.std.specs.Prelude.{◌≡◌, ◌+◌, All, length, map, OnOk, IfOk};
ghost use Rattle.polyline_geometry.specs.Plane.{InRange};
ghost use Rattle.road_network.specs.Net.{Net};
ghost use Rattle.grid_index.specs.GridOf.{runs_at};
ghost use Rattle.grid_index.specs.Runs.{HasCorners};
ghost use Rattle.grid_index.specs.inside.Table.{Appends, AppendsOne, Gathers, HasParts, IsTableOf, grid_of};

use crate::cells::Cells;
use crate::entries::{Entries, Entry, Layout};
use crate::runs::Run;
use crate::starts::starts_of;
use polyline_geometry::Point;
use road_network::Network;
use std::alloc::{AllocError, Global};

/// After this many entries, the memory of those that were read is returned. Speed only: any value is right.
const BLOCK: usize = 512;

/// The places within a distance of a point.
#[derive(Clone, Copy)]
pub(crate) struct Disc {
    pub(crate) at: Point,
    /// The squared distance, in cm².
    pub(crate) far2: u64,
}

/// The runs of a network by slot.
pub(crate) struct Table {
    pub(crate) layout: Layout,
    /// Where the runs of each slot begin in `members`, and the end of the last.
    starts: Vec<u32>,
    members: Vec<Run>,
    /// The runs whose box meets too many cells.
    pub(crate) wide: Vec<Run>,
}

// By hand, so that the functions that drop one call this.
impl Drop for Table {
    fn drop(self) {
        let Table {
            layout: _,
            starts: _,
            members: _,
            wide: _,
        } = self;
    }
}

/// The runs of entries. The memory of the entries is returned while the runs are stored.
fn runs_of(alloc: Global, entries: Vec<Entry>) -> Result<Vec<Run>, AllocError>
    ensures { IfOk result (λ runs. runs.items ≡ map (λ x. x.run) entries.items) }
{
    let mut runs = Vec::with_capacity(alloc, entries.len())?;
    let mut left = entries;
    left.reverse();
    while let Some(entry) = left.pop() {
        runs.push(entry.run)?;
        if left.len() % BLOCK == 0 {
            left.shrink_to_fit();
        }
    }
    Ok(runs)
}

/// Appends a run if its box has a point within squared distance `far2` from p.
fn append_one(found: &mut Vec<Run>, run: Run, p: Point, far2: u64) -> Result<(), AllocError>
    requires p_in { InRange p }
    requires corners { HasCorners run }
    ensures { OnOk result (AppendsOne p far2 found.old.items found.new.items run) }
{
    if run.distance2(p) <= far2 {
        found.push(run)?;
    }
    Ok(())
}

/// Appends the near ones of these runs.
fn append_near(found: &mut Vec<Run>, runs: &[Run], p: Point, far2: u64) -> Result<(), AllocError>
    requires p_in { InRange p }
    requires corners { All HasCorners runs.now }
    ensures { OnOk result
        (Appends p far2 found.old.items found.new.items runs.now (length runs.now)) }
{
    for run in runs {
        append_one(found, *run, p, far2)?;
    }
    Ok(())
}

impl Table {
    /// The table of a network.
    pub(crate) fn of(alloc: Global, net: &Network, layout: Layout) -> Result<Table, AllocError>
        ensures layout { IfOk result (λ table. table.layout ≡ layout) }
        ensures table { IfOk result (IsTableOf net.now) }
    {
        let mut entries = Entries::of(alloc, net, layout)?;
        entries.sort_by_slot();
        let slots = layout.width * layout.width;
        let starts = starts_of(alloc, entries.at_slots.as_slice(), slots)?;
        let Entries { at_slots, wide } = entries;
        let members = runs_of(alloc, at_slots)?;
        Ok(Table {
            layout,
            starts,
            members,
            wide,
        })
    }

    /// The runs at the cell of a column and a row.
    pub(crate) fn runs_at(&self, column: u32, row: u32) -> &[Run]
        requires { HasParts self.now }
        ensures { (net : Net) → result.now ≡ runs_at (grid_of net self.now) column row }
    {
        let slot = self.layout.slot(column, row) as usize;
        &self.members[self.starts[slot] as usize..self.starts[slot + 1] as usize]
    }

    /// Appends the near ones among the wide runs.
    pub(crate) fn gather_wide(
        &self,
        found: &mut Vec<Run>,
        p: Point,
        far2: u64,
    ) -> Result<(), AllocError>
        requires p_in { InRange p }
        requires corners { All HasCorners self.now.wide.items }
        ensures { OnOk result (Appends p far2 found.old.items found.new.items self.now.wide.items
            (length self.now.wide.items)) }
    {
        append_near(found, self.wide.as_slice(), p, far2)
    }

    /// Appends the near ones among the runs at the cells of some columns of a row.
    fn gather_row(
        &self,
        found: &mut Vec<Run>,
        cells: Cells,
        row: u32,
        disc: Disc,
    ) -> Result<(), AllocError>
        requires parts { HasParts self.now }
        requires at_in { InRange disc.at }
        ensures { (net : Net) → OnOk result (Gathers (grid_of net self.now) disc.at disc.far2 found.old.items
            found.new.items cells.left cells.right row (row + 1)) }
    {
        for column in cells.left..cells.right {
            append_near(found, self.runs_at(column, row), disc.at, disc.far2)?;
        }
        Ok(())
    }

    /// Appends the near ones among the runs at cells.
    pub(crate) fn gather(
        &self,
        found: &mut Vec<Run>,
        cells: Cells,
        disc: Disc,
    ) -> Result<(), AllocError>
        requires parts { HasParts self.now }
        requires at_in { InRange disc.at }
        ensures { (net : Net) → OnOk result (Gathers (grid_of net self.now) disc.at disc.far2 found.old.items
            found.new.items cells.left cells.right cells.bottom cells.top) }
    {
        for row in cells.bottom..cells.top {
            self.gather_row(found, cells, row, disc)?;
        }
        Ok(())
    }
}
