//! Takes the labels of a search out as entries, by ascending node number. Serves `Workspace::entries`; decided by
//! `ListsLabels`.
ghost use Rattle.std.specs.Prelude.{ℕ, ◌≡◌, ◌≢◌, ◌<◌, ◌≤◌, ◌+◌, ◌*◌, [], length, Some, IfOk, OnOk};
ghost use Rattle.bounded_table.specs.Closed.{origin_label};
ghost use Rattle.row_search.specs.inside.Marked.{AllMarked, IsSized, KeepsSizes, NoneBeyond, Takes, edge_labels_of};
ghost use Rattle.row_search.specs.inside.Searching.{EndsClean, ListsLabels};
ghost use Rattle.bounded_table.specs.Table.{RisesFrom, label_in};
ghost use Rattle.bounded_table.specs.declared.table_row.Label.{Label};

use crate::dijkstra::Workspace;
use bounded_table::{Entry, place_between};
use road_network::NodeId;
use std::alloc::{AllocError, Global};

impl Workspace {
    /// Takes the labels of a region of 64 octets of 8 nodes: those of its marked octets.
    fn take_octets(&mut self, region: usize) -> Result<(), AllocError>
        requires region { (region + 1) * 64 ≤ length self.old.marks.octets.items }
        requires sized { IsSized (length self.old.words.items) self.old }
        ensures takes { OnOk result (Takes (region * 512) ((region + 1) * 512) self.old self.new) }
        ensures sized { KeepsSizes self.old self.new }
    {
        let octets = self.marks.octets.as_mut_slice();
        self.found
            .take_region(self.words.as_mut_slice(), octets, self.bound, region)
    }

    /// Takes the labels of a region, if it is marked.
    fn take_region(&mut self, region: usize) -> Result<(), AllocError>
        requires region { region < length self.old.marks.regions.items }
        requires sized { IsSized (length self.old.words.items) self.old }
        ensures takes { OnOk result (Takes (region * 512) ((region + 1) * 512) self.old self.new) }
        ensures sized { KeepsSizes self.old self.new }
    {
        let mark = self.marks.regions[region];
        if mark == 0 {
            return Ok(());
        }
        self.take_octets(region)?;
        self.marks.regions[region] = 0;
        Ok(())
    }

    /// Takes the labels of a sector of 8 regions: those of its marked regions.
    fn take_sector(&mut self, sector: usize) -> Result<(), AllocError>
        requires sector { (sector + 1) * 8 ≤ length self.old.marks.regions.items }
        requires sized { IsSized (length self.old.words.items) self.old }
        ensures takes { OnOk result (Takes (sector * 4_096) ((sector + 1) * 4_096) self.old self.new) }
        ensures sized { KeepsSizes self.old self.new }
    {
        if self.marks.no_region_in(sector) {
            return Ok(());
        }
        for region in sector * 8..(sector + 1) * 8 {
            self.take_region(region)?;
        }
        Ok(())
    }

    /// Removes the labels and returns them as entries, by ascending node number, as if each had a last edge. The 64
    /// sectors of an area are looked at only if it is marked.
    pub(crate) fn take_entries(&mut self, alloc: Global) -> Result<Vec<Entry>, AllocError>
        requires sized { IsSized (length self.old.words.items) self.old }
        requires marked { AllMarked self.old.bound self.old.words.items self.old.marks
            × NoneBeyond self.old.bound self.old.words.items }
        requires none_waiting { self.old.queue ≡ [] }
        ensures entries { IfOk result (λ entries. ListsLabels (edge_labels_of self.old) entries.items) }
        ensures clean { EndsClean result self.old self.new }
    {
        self.found.clear();
        let mut sector = 0;
        while sector < self.marks.regions.len() / 8 {
            if sector % 64 == 0 && self.marks.areas[sector / 64] == 0 {
                sector += 64;
            } else {
                self.take_sector(sector)?;
                sector += 1;
            }
        }
        self.marks.areas.fill(0);
        self.found.to_vec(alloc)
    }
}

/// Writes the entry of an origin anew: at distance 0, and without a last edge.
// No other entry has no last edge. So entries are taken without a test for this.
pub(crate) fn write_origin(entries: &mut [Entry], origin: NodeId)
    requires rising { RisesFrom 0 entries.old }
    requires listed { (l : Label) × (label_in entries.old origin.0 ≡ Some l) }
    ensures rising { RisesFrom 0 entries.new }
    ensures own { label_in entries.new origin.0 ≡ Some origin_label }
    ensures others { (v : ℕ) → v ≢ origin.0 → label_in entries.new v ≡ label_in entries.old v }
{
    let place = place_between(entries, 0, entries.len(), origin).unwrap();
    entries[place] = Entry {
        node: origin,
        distance: 0,
        last: None,
    };
}
