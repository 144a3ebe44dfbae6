//! Many sessions at once. Serves those who follow interleaved traces; decided by `TakesFix` and `ClosesSession`.
ghost use Rattle.std.specs.Prelude.{◌≡◌, ◌<◌, ◌⊎◌, List, [], None, nat_eq, length, slice_get, IfOk, IfErr, IfSome, OnErr};
ghost use Rattle.std.specs.Map.{keys_of, lookup};
ghost use Rattle.polyline_geometry.specs.Plane.{InRange};
ghost use Rattle.bounded_table.specs.Rows.{AreRowsOf};
ghost use Rattle.cost_model.specs.Options.{IsAccepted};
ghost use Rattle.road_network.specs.Net.{IsLawful};
ghost use Rattle.trace_match.specs.Ground.{IsGridFor};
ghost use Rattle.trace_reader.specs.Trace.{point_of_fix};
ghost use Rattle.online_commit.specs.Session.{AsksFed, AsksFinished, CanFeed, Session, fed_position_count};
ghost use Rattle.trace_sessions.specs.declared.sessions.SessionFault.TheVariants.{Memory, NotOpen};
ghost use Rattle.trace_sessions.specs.Sessions.{AsksClosed, AsksFedTo, ClosesSession, IsCloseFault, RepresentsPairs, Pair, RefusesFix, TakesFix, length_of};
ghost use Rattle.trace_sessions.specs.inside.SessionsInside.{FeedsAt, FinishesAt, session_at, session_in};

use arrivals::Arrivals;
use bounded_table::Rows;
use cost_model::Params;
use grid_index::Grid;
use matching::Layer;
use online_commit::{Item, Online};
use plain_list::List;
use road_network::Network;
use std::alloc::{AllocError, Global};
use std::marker::Model;
use trace_match::layer;
use trace_reader::Fix;

mod streaming;

/// Why a call of [`Sessions`] did not do all of its work. `feed` and `close` changed nothing then; `stream` and
/// `stream_fix` may have taken positions, and `end_trace` has removed a session if memory ran out.
#[derive(Clone, Copy, Debug, PartialEq, Eq)]
pub enum SessionFault {
    /// The id already has 100,000 positions.
    TooLong(u32),
    /// The id has no session.
    NotOpen(u32),
    /// Out of memory.
    Memory,
}

impl From<AllocError> for SessionFault {
    ghost from_gives = { λ _ fault. fault ≡ Memory };

    fn from(_: AllocError) -> SessionFault {
        SessionFault::Memory
    }
}

/// The sessions of traces whose points are interleaved, one for each id. A contract sees the sessions
/// by id; `RepresentsPairs` says which ids and positions they represent.
pub struct Sessions<'n> {
    alloc: Global,
    net: &'n Network,
    grid: &'n Grid<'n>,
    params: Params,
    sessions: Arrivals<Online<'n>>,
}

// By hand, so that the functions that drop one call this.
impl<'n> Drop for Sessions<'n> {
    fn drop(self) {
        let Sessions {
            alloc: _,
            net: _,
            grid: _,
            params: _,
            sessions: _,
        } = self;
    }
}

impl<'n> Model for Sessions<'n> {
    ghost use Rattle.trace_sessions.specs.Sessions.{SessionsState};
    ghost use Rattle.trace_sessions.specs.inside.SessionsInside.{shown_sessions, AreSessionsKept};

    ghost Value = { SessionsState };

    ghost view = { shown_sessions };

    ghost invariant = { AreSessionsKept };
}

// Feeds the session of the id, or else this newly opened one, which is kept if it took the position.
fn feed_session<'n, R: Rows>(
    sessions: &mut Arrivals<Online<'n>>,
    id: u32,
    opened: Online<'n>,
    layer: Layer,
    rows: &mut R,
) -> Result<List<Item>, AllocError>
    requires rows { let s = session_at sessions.old id opened in
        AreRowsOf (R.state rows.old) s.network s.params.bound }
    requires layer { CanFeed (session_at sessions.old id opened) layer }
    ensures fed { IfOk result (FeedsAt sessions.old id opened.entry layer sessions.new) }
    ensures err { OnErr result (sessions.new ≡ sessions.old) }
    ensures asks { AsksFed (session_at sessions.old id opened.entry) layer
        (R.state rows.old) result (R.state rows.new) }
{
    match sessions.get_mut(id) {
        Some(session) => session.feed(layer, rows),
        None => {
            let mut session = opened;
            let items = session.feed(layer, rows)?;
            sessions.insert(id, session)?;
            Ok(items)
        }
    }
}

// Finishes the session of the id and removes it.
fn finish_session<'n, R: Rows>(
    sessions: &mut Arrivals<Online<'n>>,
    id: u32,
    rows: &mut R,
) -> Result<List<Item>, SessionFault>
    requires rows { IfSome (lookup (nat_eq id) sessions.old)
        (λ s. AreRowsOf (R.state rows.old) s.network s.params.bound) }
    ensures finished { IfOk result (FinishesAt sessions.old id sessions.new) }
    ensures fault { IfErr result (λ fault. (fault ≡ Memory)
        ⊎ ((fault ≡ NotOpen id) × (lookup (nat_eq id) sessions.old ≡ None))) }
    ensures err { OnErr result (sessions.new ≡ sessions.old) }
    ensures asks { (d : Session) → AsksFinished (session_at sessions.old id d)
        (R.state rows.old) (R.state rows.new) }
{
    let Some(session) = sessions.get_mut(id) else {
        return Err(SessionFault::NotOpen(id));
    };
    let items = session.finish(rows)?;
    sessions.remove(id);
    Ok(items)
}

impl<'n> Sessions<'n> {
    /// No sessions. `grid` is of this network, with cells of at least the radius. Allocates nothing.
    pub fn open(alloc: Global, net: &'n Network, grid: &'n Grid<'n>, p: &Params) -> Sessions<'n>
        requires { IsGridFor net.now p.now grid.now }
        ensures network { result.network ≡ net.now }
        ensures params { result.params ≡ p.now }
        ensures none { RepresentsPairs result [] }
    {
        Sessions {
            alloc,
            net,
            grid,
            params: *p,
            sessions: Arrivals::new(alloc),
        }
    }

    /// The network.
    pub fn network(&self) -> &'n Network
        ensures { result.now ≡ self.now.network }
    {
        self.net
    }

    /// The options.
    pub fn params(&self) -> &Params
        ensures { result.now ≡ self.now.params }
    {
        &self.params
    }

    /// The number of ids with a session.
    pub fn count(&self) -> u64
        ensures { (pairs : List Pair) → RepresentsPairs self.now pairs → result ≡ length pairs }
    {
        self.sessions.len() as u64
    }

    /// The id whose session is at this index, from 0, in order of first appearance. Takes time for each session
    /// after that one.
    pub fn id_at(&self, place: u64) -> Option<u32>
        ensures { (pairs : List Pair) → RepresentsPairs self.now pairs
            → result ≡ slice_get (keys_of pairs) place }
    {
        self.sessions.id_at(place as usize)
    }

    /// The number of positions of the id, or `None` if it has no session.
    pub fn length(&self, id: u32) -> Option<u32>
        ensures { (pairs : List Pair) → RepresentsPairs self.now pairs → result ≡ length_of pairs id }
    {
        match self.sessions.get(id) {
            Some(session) => Some(session.count()),
            None => None,
        }
    }

    // The invariants of sessions.
    fn invariants(&self)
        ensures lawful { IsLawful self.now.network }
        ensures accepted { IsAccepted self.now.params }
    {
        self.net.invariants();
    }

    // The number of positions of the id, 0 if it has no session.
    fn points(&self, id: u32) -> u32
        ensures { result ≡ fed_position_count (session_in self.now id) }
    {
        match self.sessions.get(id) {
            Some(session) => session.count(),
            None => 0,
        }
    }

    /// Takes the next position of the id, whose session is opened by its first position, and returns the items that
    /// it commits. `TooLong` means that the id already has 100,000 positions; on a fault the sessions are
    /// unchanged.
    ///
    /// Rows become known as by [`Online::feed`] on the positions of this id.
    pub fn feed<R: Rows>(
        &mut self,
        id: u32,
        fix: Fix,
        rows: &mut R,
    ) -> Result<List<Item>, SessionFault>
        requires rows { AreRowsOf (R.state rows.old) self.old.network self.old.params.bound }
        requires place { InRange (point_of_fix fix) }
        ensures fed { IfOk result (TakesFix self.old id fix self.new) }
        ensures refused { IfErr result (RefusesFix self.old id self.new) }
        ensures asks { AsksFedTo self.old id fix (R.state rows.old) result (R.state rows.new) }
    {
        if self.points(id) >= 100_000 {
            return Err(SessionFault::TooLong(id));
        }
        let layer = layer(self.alloc, self.net, self.grid, &self.params, &fix)?;
        let opened = Online::open(self.alloc, self.net, &self.params);
        let items = feed_session(&mut self.sessions, id, opened, layer, rows)?;
        Ok(items)
    }

    /// Ends the trace of the id, returns the remaining items, and removes its session; the others
    /// keep their order. `NotOpen` means that the id has no session; on a fault the sessions are
    /// unchanged. Takes the time of the items, however many sessions there are.
    ///
    /// Rows become known as by [`Online::finish`] on the positions of this id.
    pub fn close<R: Rows>(&mut self, id: u32, rows: &mut R) -> Result<List<Item>, SessionFault>
        requires rows { AreRowsOf (R.state rows.old) self.old.network self.old.params.bound }
        ensures closed { IfOk result (ClosesSession self.old id self.new) }
        ensures fault { IfErr result (IsCloseFault self.old id) }
        ensures err { OnErr result (self.new ≡ self.old) }
        ensures asks { AsksClosed self.old id (R.state rows.old) (R.state rows.new) }
    {
        finish_session(&mut self.sessions, id, rows)
    }
}
