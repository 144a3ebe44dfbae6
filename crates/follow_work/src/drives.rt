//! The open drives of a stream, and the counts of all of them. Serves `streams`; decided by `drive_lines`.
ghost use Rattle.std.specs.Prelude.{◌≡◌, ◌+◌, ◌++◌, ◌∷◌, ◌<◌, ◌^◌, [], List as ListOf, IfOk, OnOk, length};
ghost use Rattle.cost_model.specs.Options.{IsAccepted};
ghost use Rattle.polyline_geometry.specs.Plane.{InRange};
ghost use Rattle.program_frame.specs.Jobs.{IsBounded, position_count};
ghost use Rattle.trace_match.specs.Setting.{Setting};
ghost use Rattle.trace_reader.specs.Trace.{IsLawfulTrace, point_of_fix};
ghost use Rattle.trace_sessions.specs.Drives.{is_full_of, is_idle, no_drives};
ghost use Rattle.trace_sessions.specs.Sessions.{Pair};
ghost use Rattle.trace_sessions.specs.StreamText.{fragment_points, points_in};
ghost use Rattle.trace_sessions.specs.declared.sessions.SessionFault.TheVariants.{Memory};
ghost use Rattle.follow_work.specs.inside.DrivesDone.{AreAny, Drove, EndsAll, EndsDrive, HasDrives, HaveDriveOf, HaveRoomFor, IsAtFleet, TakesAll, DrivesTakePosition, ending_of};

use crate::rows::open_rows;
use crate::times::Times;
use plain_list::List;
use program_frame::Tally;
use row_search::NearRows;
use std::alloc::{AllocError, Global};
use trace_match::Matcher;
use trace_reader::{Fix, Trace};
use trace_sessions::{SessionFault, Sessions};

// The sessions and the newest times of the open drives, in the order of their first positions, the greatest time of all
// positions, and rows for all drives. The traces of the tally are the drives that ended.
#[derive(Drop)]
pub(crate) struct Drives<'m> {
    alloc: Global,
    clock: u32,
    sessions: Sessions<'m>,
    times: Times,
    rows: NearRows<'m>,
    tally: Tally,
}

// Sessions with the drive, and with room for the position, refuse only for want of memory.
fn memory_fault(fault: SessionFault) -> AllocError
    requires { fault ≡ Memory }
{
    match fault {
        SessionFault::Memory => AllocError,
        SessionFault::TooLong(_) | SessionFault::NotOpen(_) => unreachable!(),
    }
}

impl<'m> Drives<'m> {
    // No drives yet.
    pub(crate) fn open(alloc: Global, matcher: &'m Matcher<'m>) -> Result<Self, AllocError>
        requires { IsAccepted matcher.now.params }
        ensures { IfOk result (λ drives. IsAtFleet matcher.now drives [] no_drives) }
    {
        let rows = open_rows(alloc, matcher)?;
        let sessions = Sessions::open(alloc, matcher.network(), matcher.grid(), matcher.params());
        Ok(Drives {
            alloc,
            clock: 0,
            sessions,
            times: Times::new(alloc),
            rows,
            tally: Tally::NONE,
        })
    }

    // Ends the drive of the id.
    fn end(&mut self, id: u32, into: &mut List<u8>) -> Result<(), AllocError>
        requires { HasDrives self.old (HaveDriveOf id) }
        ensures { OnOk result ((on : Setting) (ended drives : ListOf Pair)
            → Drove on self.old ended drives
            → EndsDrive on ended drives id self.old self.new into.old into.new) }
    {
        match self.sessions.end_trace(id, &mut self.rows, into) {
            Ok(pieces) => {
                self.times.remove(id);
                self.tally.traces += 1;
                self.tally.pieces += pieces;
                Ok(())
            }
            Err(fault) => Err(memory_fault(fault)),
        }
    }

    // Ends the drives whose newest position is more than this many seconds older than the clock. Looks at no other.
    fn end_idle(&mut self, idle: u32, into: &mut List<u8>) -> Result<(), AllocError>
        requires { HasDrives self.old AreAny }
        ensures { OnOk result ((on : Setting) (ended drives : ListOf Pair)
            → Drove on self.old ended drives
            → EndsAll on ended drives (is_idle idle self.old.clock) self.old self.new into.old into.new) }
    {
        let ids = self.times.idle_ids(self.alloc, idle, self.clock)?;
        for id in ids.as_slice() {
            self.end(*id, into)?;
        }
        Ok(())
    }

    // Ends the drive of the id if it has as many positions as a drive may have.
    fn end_full(&mut self, id: u32, into: &mut List<u8>) -> Result<(), AllocError>
        requires { HasDrives self.old AreAny }
        ensures { OnOk result ((on : Setting) (ended drives : ListOf Pair)
            → Drove on self.old ended drives
            → EndsAll on ended drives (is_full_of id) self.old self.new into.old into.new) }
    {
        let Some(count) = self.sessions.length(id) else {
            return Ok(());
        };
        if count < 100_000 {
            return Ok(());
        }
        self.end(id, into)
    }

    // Takes the next position of the id's drive, or the first of a new one.
    fn take_fix(&mut self, id: u32, fix: Fix, into: &mut List<u8>) -> Result<(), AllocError>
        requires place { InRange (point_of_fix fix) }
        requires drives { HasDrives self.old (HaveRoomFor id) }
        requires few { self.old.tally.points + 1 < 2 ^ 62 }
        ensures { OnOk result ((on : Setting) (ended drives : ListOf Pair)
            → Drove on self.old ended drives
            → DrivesTakePosition on ended drives id fix self.old self.new into.old into.new) }
    {
        match self.sessions.stream_fix(id, fix, &mut self.rows, into) {
            Ok(pieces) => {
                self.tally.points += 1;
                self.tally.pieces += pieces;
                self.times.note(id, fix.time)
            }
            Err(fault) => Err(memory_fault(fault)),
        }
    }

    // Takes a position: ends the drives that are idle at it, and that of its id if it is full.
    fn take_row(
        &mut self,
        idle: u32,
        id: u32,
        fix: Fix,
        into: &mut List<u8>,
    ) -> Result<(), AllocError>
        requires place { InRange (point_of_fix fix) }
        requires drives { HasDrives self.old AreAny }
        requires few { self.old.tally.points + 1 < 2 ^ 62 }
        ensures { OnOk result (TakesAll idle ((id, fix) ∷ []) self.old self.new into.old into.new) }
    {
        self.clock = self.clock.max(fix.time);
        self.end_idle(idle, into)?;
        self.end_full(id, into)?;
        self.take_fix(id, fix, into)
    }

    // Takes the positions of a fragment.
    fn take_fragment(
        &mut self,
        idle: u32,
        trace: &Trace,
        into: &mut List<u8>,
    ) -> Result<(), AllocError>
        requires trace { IsLawfulTrace trace.now }
        requires drives { HasDrives self.old AreAny }
        requires few { self.old.tally.points + length trace.now.fixes < 2 ^ 62 }
        ensures { OnOk result
            (TakesAll idle (fragment_points trace.now) self.old self.new into.old into.new) }
    {
        for fix in trace.fixes.as_slice() {
            self.take_row(idle, trace.id, *fix, into)?;
        }
        Ok(())
    }

    // Takes the positions of fragments, and ends the drives that are idle at one of them.
    pub(crate) fn take_fragments(
        &mut self,
        idle: u32,
        traces: &[Trace],
        into: &mut List<u8>,
    ) -> Result<(), AllocError>
        requires traces { IsBounded traces.now }
        requires drives { HasDrives self.old AreAny }
        requires few { self.old.tally.points + position_count traces.now < 2 ^ 62 }
        ensures { OnOk result
            (TakesAll idle (points_in traces.now) self.old self.new into.old into.new) }
    {
        for trace in traces {
            self.take_fragment(idle, trace, into)?;
        }
        Ok(())
    }

    // Ends all drives, and appends the total line.
    pub(crate) fn finish(&mut self, into: &mut List<u8>) -> Result<(), AllocError>
        requires { HasDrives self.old AreAny }
        ensures { (on : Setting) (ended drives : ListOf Pair)
            → Drove on self.old ended drives
            → OnOk result (into.new ≡ into.old ++ ending_of on ended drives) }
    {
        let open = self.sessions.count();
        let pieces = self.sessions.close_all(&mut self.rows, into)?;
        self.rows.invariants();
        let tally = Tally {
            traces: self.tally.traces + open,
            points: self.tally.points,
            pieces: self.tally.pieces + pieces,
        };
        tally.append_line(u64::from(self.rows.count()), into)
    }
}
