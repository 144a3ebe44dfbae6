//! The session. Serves those who follow a trace; decided by `FeedsLayer` and `IsFinished`.
ghost use Rattle.std.specs.Prelude.{◌≡◌, ◌+◌, ◌<◌, ◌^◌, [], ◌++◌, IfOk, OnErr, OnOk, length};
ghost use Rattle.bounded_table.specs.Rows.{AreRowsOf, AsksOnly};
ghost use Rattle.cost_model.specs.Options.{IsAccepted};
ghost use Rattle.matching.specs.PieceSteps.{AsksIn};
ghost use Rattle.online_commit.specs.Session.{AsksFed, AsksFinished, CanFeed, FeedsLayer, IsFinished, RepresentsLayers, no_points_of, fed_position_count};
ghost use Rattle.online_commit.specs.inside.Steps.{EndsBefore, TakesAnew};
ghost use Rattle.online_commit.specs.inside.Pieces.{session_of, whole_of};

use crate::closing::closing_items;
use crate::feeding::{begin, next_cells};
use crate::items::Item;
use crate::letting_go::go_on;
use crate::open_piece::{OpenPiece, no_piece, piece_alone};
use bounded_table::Rows;
use cost_model::Params;
use plain_list::List;
use road_network::Network;
use std::alloc::{AllocError, Global};
use std::marker::Model;
use trellis::Layer;

/// A session of one trace. A contract sees the network, the options, and the positions of the open piece;
/// `RepresentsLayers` says which positions the session represents.
pub struct Online<'n> {
    net: &'n Network,
    params: Params,
    piece: OpenPiece,
}

// By hand, so that the functions that drop one call this.
impl<'n> Drop for Online<'n> {
    fn drop(self) {
        let Online {
            net: _,
            params: _,
            piece: _,
        } = self;
    }
}

impl<'n> Model for Online<'n> {
    ghost use Rattle.online_commit.specs.Session.{Session};
    ghost use Rattle.online_commit.specs.inside.SessionInside.{shown_session, IsSessionKept};

    ghost Value = { Session };

    ghost view = { shown_session };

    ghost invariant = { IsSessionKept };
}

/// Appends items.
fn append_items(items: &mut List<Item>, more: List<Item>) -> Result<(), AllocError>
    ensures { OnOk result (items.new ≡ items.old ++ more) }
{
    for item in more.into_vec() {
        items.push(item)?;
    }
    Ok(())
}

/// The position after the last one of the piece.
fn end_of(piece: &OpenPiece) -> u32
    requires { piece.now.tail.first + length piece.now.tail.layers.items < 2 ^ 32 }
    ensures { result ≡ piece.now.tail.first + length piece.now.tail.layers.items }
{
    piece.tail.first + piece.tail.layers.len() as u32
}

/// Closes the open piece, if there is one, before a position that does not continue it, and begins anew with the
/// position.
fn begin_anew<R: Rows>(
    net: &Network,
    p: &Params,
    rows: &mut R,
    piece: &mut OpenPiece,
    layer: Layer,
) -> Result<List<Item>, AllocError>
    requires rows { AreRowsOf (R.state rows.old) net.now p.now.bound }
    requires before { EndsBefore (session_of net.now p.now piece.old) layer }
    ensures taken { IfOk result (TakesAnew (session_of net.now p.now piece.old) layer (session_of net.now p.now piece.new)) }
    ensures err { OnErr result (whole_of piece.new ≡ whole_of piece.old) }
    ensures asks { AsksOnly (R.state rows.old) (R.state rows.new)
        (AsksIn net.now p.now piece.old.layers.items piece.old.tables.items) }
{
    net.invariants();
    let mut items = closing_items(net, p, rows, piece)?;
    let (begun, more) = begin(piece.tail.alloc, p, end_of(piece), layer)?;
    append_items(&mut items, more)?;
    *piece = piece_alone(begun);
    Ok(items)
}

impl<'n> Online<'n> {
    /// A session of no positions, with accepted options. Allocates nothing.
    pub fn open(alloc: Global, net: &'n Network, p: &Params) -> Online<'n>
        requires { IsAccepted p.now }
        ensures opened { result ≡ no_points_of net.now p.now }
        ensures stands { RepresentsLayers result [] }
    {
        Online {
            net,
            params: *p,
            piece: no_piece(alloc, 0),
        }
    }

    /// The network.
    pub fn network(&self) -> &'n Network
        ensures { result.now ≡ self.now.network }
    {
        self.net
    }

    /// The options.
    pub fn params(&self) -> &Params
        ensures { result.now ≡ self.now.params }
    {
        &self.params
    }

    /// The number of positions taken since the session was opened or finished.
    pub fn count(&self) -> u32
        ensures { result ≡ fed_position_count self.now }
    {
        end_of(&self.piece)
    }

    /// Takes the next position, and returns the items that it commits, in the order of the positions. `Err` means
    /// out of memory; then the position was not taken.
    ///
    /// Only rows that the positions with this one ask for become known, even on `Err`. On `Ok`, all of them are
    /// known that the positions without this one do not ask for.
    pub fn feed<R: Rows>(&mut self, layer: Layer, rows: &mut R) -> Result<List<Item>, AllocError>
        requires rows { AreRowsOf (R.state rows.old) self.old.network self.old.params.bound }
        requires layer { CanFeed self.old layer }
        ensures fed { IfOk result (FeedsLayer self.old layer self.new) }
        ensures err { OnErr result (self.new ≡ self.old) }
        ensures asks { AsksFed self.old layer (R.state rows.old) result (R.state rows.new) }
    {
        self.net.invariants();
        let next = next_cells(self.net, &self.params, rows, &self.piece, &layer)?;
        match next {
            Some(cells) => go_on(&mut self.piece, layer, cells),
            None => begin_anew(self.net, &self.params, rows, &mut self.piece, layer),
        }
    }

    /// Ends the trace, and returns the remaining items. Then the session is as newly opened. `Err` means out of
    /// memory; then the session is unchanged. Only rows that the positions ask for become known, even on `Err`.
    pub fn finish<R: Rows>(&mut self, rows: &mut R) -> Result<List<Item>, AllocError>
        requires rows { AreRowsOf (R.state rows.old) self.old.network self.old.params.bound }
        ensures finished { IfOk result (IsFinished self.old self.new) }
        ensures err { OnErr result (self.new ≡ self.old) }
        ensures asks { AsksFinished self.old (R.state rows.old) (R.state rows.new) }
    {
        let items = closing_items(self.net, &self.params, rows, &self.piece)?;
        self.piece = no_piece(self.piece.tail.alloc, 0);
        Ok(items)
    }
}
