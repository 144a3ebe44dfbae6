//! A stream of positions of many traces, whose lines are written as they become certain. Serves `streams`; decided
//! by `stream_lines` and `closing_lines`.
ghost use Rattle.std.specs.Prelude.{◌≡◌, ◌++◌, ◌∷◌, [], List as ListOf, OnOk, OnErr, length};
ghost use Rattle.std.specs.List.{concat};
ghost use Rattle.polyline_geometry.specs.Plane.{InRange};
ghost use Rattle.bounded_table.specs.Rows.{AreRowsOf, AsksOnly};
ghost use Rattle.online_commit.specs.Session.{AsksFinished};
ghost use Rattle.trace_reader.specs.Trace.{IsLawfulTrace, point_of_fix};
ghost use Rattle.trace_sessions.specs.Calls.{IsEmpty};
ghost use Rattle.trace_sessions.specs.ItemText.{AddsPrefix, AreItemsOf};
ghost use Rattle.trace_sessions.specs.Sessions.{AsksClosed, IsSessionOf, RepresentsPairs, Pair};
ghost use Rattle.trace_sessions.specs.StreamText.{fragment_points, led_by};
ghost use Rattle.trace_sessions.specs.Streaming.{AsksSome, AsksStream, CanStream, EndsSessions, EndsId, EndsOne, Streams};
ghost use Rattle.trace_sessions.specs.inside.SessionsInside.{CanEnd};
ghost use Rattle.trace_sessions.specs.inside.StreamingInside.{heading, lines_of_items};

use super::{SessionFault, Sessions};
use crate::following::{count_pieces, write_rest, write_step};
use crate::items::{Writer, write_lead};
use arrivals::Arrivals;
use bounded_table::Rows;
use match_text::write_trace;
use online_commit::{Item, Online};
use plain_list::List;
use std::alloc::AllocError;
use trace_reader::{Fix, Trace};

impl<'n> Sessions<'n> {
    // Appends the lines of a position that follows this many others of its id.
    fn write_point(
        &self,
        id: u32,
        point: u32,
        items: &[Item],
        into: &mut List<u8>,
    ) -> Result<(), AllocError>
        requires { AreItemsOf self.now.network items.now }
        ensures ok { OnOk result
            (into.new ≡ into.old ++ concat (lines_of_items self.now.network id point items.now)) }
        ensures err { OnErr result
            (AddsPrefix into.old (concat (lines_of_items self.now.network id point items.now)) into.new) }
    {
        write_heading(id, point, into)?;
        let by = Writer {
            alloc: self.alloc,
            net: self.net,
        };
        write_step(&by, Some(id), point, items, into)
    }

    /// Takes the next position of the id, as by [`Sessions::feed`], appends its lines, and returns how many pieces
    /// it closed. `TooLong` means that the id already has 100,000 positions; then nothing is changed. After `Memory`,
    /// either nothing is changed, or the position is taken and a prefix of its lines is appended.
    pub fn stream_fix<R: Rows>(
        &mut self,
        id: u32,
        fix: Fix,
        rows: &mut R,
        into: &mut List<u8>,
    ) -> Result<u64, SessionFault>
        requires rows { AreRowsOf (R.state rows.old) self.old.network self.old.params.bound }
        requires place { InRange (point_of_fix fix) }
        requires can { CanStream self.old 1 }
        ensures streams { (pairs : ListOf Pair) → RepresentsPairs self.old pairs
            → Streams self.old pairs ((id, fix) ∷ []) self.new into.old into.new result }
        ensures asks { AsksStream self.old ((id, fix) ∷ [])
            (R.state rows.old) result (R.state rows.new) }
    {
        self.invariants();
        let point = self.points(id);
        let items = self.feed(id, fix, rows)?;
        self.write_point(id, point, items.as_slice(), into)?;
        Ok(count_pieces(items.as_slice()))
    }

    /// Takes the positions of a fragment of a trace, each as by [`Sessions::feed`], appends their lines, and
    /// returns how many pieces they closed. `TooLong` means that the id had 100,000 positions before one of them;
    /// the lines of the positions before it are appended then. After `Memory`, the sessions have some of the
    /// positions, and the lines of these are appended, those of the last one maybe only in part.
    pub fn stream<R: Rows>(
        &mut self,
        trace: &Trace,
        rows: &mut R,
        into: &mut List<u8>,
    ) -> Result<u64, SessionFault>
        requires rows { AreRowsOf (R.state rows.old) self.old.network self.old.params.bound }
        requires trace { IsLawfulTrace trace.now }
        requires can { CanStream self.old (length trace.now.fixes) }
        ensures streams { (pairs : ListOf Pair) → RepresentsPairs self.old pairs
            → Streams self.old pairs (fragment_points trace.now) self.new into.old into.new result }
        ensures asks { AsksStream self.old (fragment_points trace.now)
            (R.state rows.old) result (R.state rows.new) }
    {
        self.invariants();
        let mut pieces = 0;
        for fix in trace.fixes.as_slice() {
            let count = self.stream_fix(trace.id, *fix, rows, into)?;
            pieces += count;
        }
        Ok(pieces)
    }

    /// Ends the trace of the id: appends its last lines, removes its session, and returns how many pieces it closed; the
    /// others keep their order. `NotOpen` means that the id has no session; then nothing is changed. After `Memory`, the
    /// session is gone, and a prefix of the lines is appended. Takes the time of the items.
    ///
    /// Rows become known as by [`Online::finish`] on the positions of this id.
    pub fn end_trace<R: Rows>(
        &mut self,
        id: u32,
        rows: &mut R,
        into: &mut List<u8>,
    ) -> Result<u64, SessionFault>
        requires rows { AreRowsOf (R.state rows.old) self.old.network self.old.params.bound }
        requires can { CanStream self.old 0 }
        ensures ends { (pairs : ListOf Pair) → RepresentsPairs self.old pairs
            → EndsId self.old pairs id self.new into.old into.new result }
        ensures asks { AsksClosed self.old id (R.state rows.old) (R.state rows.new) }
    {
        self.invariants();
        let Some(session) = self.sessions.remove(id) else {
            return Err(SessionFault::NotOpen(id));
        };
        let by = Writer {
            alloc: self.alloc,
            net: self.net,
        };
        let pieces = end_session(&by, id, session, rows, into)?;
        Ok(pieces)
    }

    /// Ends all traces, in order of first appearance: appends their last lines, and returns how many
    /// pieces they closed. Afterwards there are no sessions, even on `Err`; network and options stay.
    /// On `Err`, a prefix of the lines is appended. Takes the time of the items of each trace.
    pub fn close_all<R: Rows>(
        &mut self,
        rows: &mut R,
        into: &mut List<u8>,
    ) -> Result<u64, AllocError>
        requires rows { AreRowsOf (R.state rows.old) self.old.network self.old.params.bound }
        requires can { CanStream self.old 0 }
        ensures ends { (pairs : ListOf Pair) → RepresentsPairs self.old pairs
            → EndsSessions self.old pairs into.old into.new result }
        ensures none { IsEmpty self.old.network self.old.params self.new }
        ensures asks { (pairs : ListOf Pair) → RepresentsPairs self.old pairs
            → AsksOnly (R.state rows.old) (R.state rows.new) (AsksSome self.old pairs) }
    {
        self.invariants();
        let none = Arrivals::new(self.alloc);
        let mut sessions = std::mem::replace(&mut self.sessions, none);
        let by = Writer {
            alloc: self.alloc,
            net: self.net,
        };
        let mut pieces = 0;
        while let Some((id, session)) = sessions.take_first() {
            let count = end_session(&by, id, session, rows, into)?;
            pieces += count;
        }
        Ok(pieces)
    }
}

// Appends the line that begins the trace, before its first position.
fn write_heading(id: u32, point: u32, into: &mut List<u8>) -> Result<(), AllocError>
    ensures ok { OnOk result (into.new ≡ into.old ++ concat (led_by id (heading id point))) }
    ensures err { OnErr result
        (AddsPrefix into.old (concat (led_by id (heading id point))) into.new) }
{
    if point > 0 {
        return Ok(());
    }
    write_lead(Some(id), into)?;
    write_trace(id, into)
}

// Ends the session of the id, and appends its last lines.
fn end_session<R: Rows>(
    by: &Writer,
    id: u32,
    session: Online,
    rows: &mut R,
    into: &mut List<u8>,
) -> Result<u64, AllocError>
    requires rows { AreRowsOf (R.state rows.old) by.now.net.now session.params.bound }
    requires can { CanEnd by.now.net.now session id }
    ensures ends { (fixes : ListOf Fix) → IsSessionOf by.now.net.now session.entry.params session.entry fixes
        → EndsOne by.now.net.now session.entry.params (id, fixes) into.old into.new result }
    ensures asks { AsksFinished session.entry (R.state rows.old) (R.state rows.new) }
{
    by.net.invariants();
    let mut session = session;
    let items = session.finish(rows)?;
    write_rest(by, Some(id), id, items.as_slice(), into)?;
    Ok(count_pieces(items.as_slice()))
}
