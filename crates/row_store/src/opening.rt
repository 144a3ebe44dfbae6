//! Views that are opened at first need. Serves `Reader`; decided by `IsViewOf`.
ghost use Rattle.std.specs.Prelude.{◌≡◌, ◌↔◌, ◌<◌, IfOk, IfSome, IsOk, OnErr, OnOk, length};
ghost use Rattle.road_network.specs.Net.{HasNode};
ghost use Rattle.bounded_table.specs.Table.{IsRow};
ghost use Rattle.row_store.specs.Sights.{row_seen, IsTable};
ghost use Rattle.row_store.specs.Store.{IsSeen, Sees, SeesRow, is_seen};
ghost use Rattle.row_store.specs.inside.Views.{Agreed, CanLook, Fills, HasOpenRow, IsOpen, IsViewOf, seen_of};

use crate::sight::Sight;
use crate::view::View;
use crate::vouched::VouchedSlots;
use crate::whole_rows::share_whole;
use bounded_table::Row;
use road_network::NodeId;
use row_search::Fans;
use std::alloc::AllocError;

/// Opens the view of these slots, if it is not open.
fn open_view<'s>(
    view: &mut Option<View<'s>>,
    slots: &'s VouchedSlots<'s>,
    fans: &'s Fans<'s>,
) -> Result<(), AllocError>
    requires view { IfSome view.old (IsViewOf slots.now) }
    requires fans { fans.now ≡ slots.now.network }
    requires some { 0 < length slots.now.network.nodes }
    ensures view { IfSome view.new (IsViewOf slots.now) }
    ensures open { OnOk result (IsOpen slots.now view.new) }
    ensures same { seen_of slots.now view.new ≡ seen_of slots.now view.old }
    ensures again { IsOpen slots.now view.old → IsOk result }
{
    if view.is_none() {
        let opened = View::open(slots, fans)?;
        *view = Some(opened);
    }
    Ok(())
}

/// Whether a row was seen in the slot of node n. Allocates nothing.
pub fn knows_in(view: &Option<View<'_>>, _slots: &VouchedSlots<'_>, n: NodeId) -> bool
    requires view { IfSome view.now (IsViewOf _slots.now) }
    requires node { HasNode _slots.now.network n.0 }
    ensures { result ≡ is_seen (seen_of _slots.now view.now) n.0 }
{
    match view {
        Some(view) => view.knows(n),
        None => false,
    }
}

/// Sees the row in the slot of n, as `Reader::look` returns it.
pub fn look_in<'s>(
    view: &mut Option<View<'s>>,
    slots: &'s VouchedSlots<'s>,
    fans: &'s Fans<'s>,
    n: NodeId,
) -> Result<Sight<'s>, AllocError>
    requires { CanLook slots.now fans.now n.0 view.old }
    ensures view { IfSome view.new (IsViewOf slots.now) }
    ensures seen { IfOk result (λ s. Sees (seen_of slots.now view.old) n.0 (row_seen s) (seen_of slots.now view.new)) }
    ensures table { IfOk result (λ s. IsTable s ↔ IsRow slots.now.network slots.now.bound n.0 (row_seen s)) }
    ensures err { OnErr result (seen_of slots.now view.new ≡ seen_of slots.now view.old) }
    ensures again { IsSeen (seen_of slots.now view.old) n.0 → IsOk result }
{
    open_view(view, slots, fans)?;
    let Some(view) = view else { unreachable!() };
    view.look(n)
}

/// Offers a row to the slot of n, as `Reader::offer` does.
pub fn offer_in<'s>(
    view: &mut Option<View<'s>>,
    slots: &'s VouchedSlots<'s>,
    fans: &'s Fans<'s>,
    n: NodeId,
    row: Row,
) -> Result<&'s Row, AllocError>
    requires { CanLook slots.now fans.now n.0 view.old }
    ensures view { IfSome view.new (IsViewOf slots.now) }
    ensures seen { IfOk result (λ r. Sees (seen_of slots.now view.old) n.0 r.now (seen_of slots.now view.new)) }
    ensures err { OnErr result (seen_of slots.now view.new ≡ seen_of slots.now view.old) }
    ensures again { IsSeen (seen_of slots.now view.old) n.0 → IsOk result }
{
    open_view(view, slots, fans)?;
    let Some(view) = view else { unreachable!() };
    view.offer(n, row)
}

/// Offers the row of n to the slot of n, as `Reader::offer_right` does.
pub fn offer_right_in<'s>(
    view: &mut Option<View<'s>>,
    slots: &'s VouchedSlots<'s>,
    fans: &'s Fans<'s>,
    n: NodeId,
    row: Row,
) -> Result<&'s Row, AllocError>
    requires view { CanLook slots.now fans.now n.0 view.old }
    requires right { IsRow slots.now.network slots.now.bound n.0 row }
    ensures view { IfSome view.new (IsViewOf slots.now) }
    ensures seen { IfOk result (λ r. Sees (seen_of slots.now view.old) n.0 r.now (seen_of slots.now view.new)) }
    ensures err { OnErr result (seen_of slots.now view.new ≡ seen_of slots.now view.old) }
    ensures again { IsSeen (seen_of slots.now view.old) n.0 → IsOk result }
{
    open_view(view, slots, fans)?;
    let Some(view) = view else { unreachable!() };
    view.offer_right(n, row)
}

/// Has the row of n at hand: the one in its slot, or another where that is foreign.
pub fn fill_in<'s>(
    view: &mut Option<View<'s>>,
    slots: &'s VouchedSlots<'s>,
    fans: &'s Fans<'s>,
    n: NodeId,
) -> Result<(), AllocError>
    requires { CanLook slots.now fans.now n.0 view.old }
    ensures view { IfSome view.new (IsViewOf slots.now) }
    ensures fills { Fills (seen_of slots.now view.old) n.0 result (seen_of slots.now view.new) }
    ensures row { OnOk result (HasOpenRow n.0 view.new) }
    ensures again { SeesRow (seen_of slots.now view.old) n.0 → IsOk result }
{
    open_view(view, slots, fans)?;
    let Some(view) = view else { unreachable!() };
    view.fill(n)
}

/// Has the row of n at hand, as `fill_in` does. If it is seen for the first time, and is the row of n within the bound of
/// the table too, it fills the slot of n there.
pub fn fill_both<'s>(
    view: &mut Option<View<'s>>,
    slots: &'s VouchedSlots<'s>,
    table: &'s VouchedSlots<'s>,
    fans: &'s Fans<'s>,
    n: NodeId,
) -> Result<(), AllocError>
    requires look { CanLook slots.now fans.now n.0 view.old }
    requires table { HasNode table.now.network n.0 }
    ensures view { IfSome view.new (IsViewOf slots.now) }
    ensures fills { Fills (seen_of slots.now view.old) n.0 result (seen_of slots.now view.new) }
    ensures row { OnOk result (HasOpenRow n.0 view.new) }
    ensures again { SeesRow (seen_of slots.now view.old) n.0 → IsOk result }
{
    let known = knows_in(view, slots, n);
    fill_in(view, slots, fans, n)?;
    if known {
        return Ok(());
    }
    share_whole(table, n, lend_from(view, slots, n))
}

/// The row of n, which is at hand.
pub fn lend_from<'a>(view: &'a Option<View<'_>>, _slots: &VouchedSlots<'_>, n: NodeId) -> &'a Row
    requires view { IfSome view.now (IsViewOf _slots.now) }
    requires row { HasOpenRow n.0 view.now }
    ensures { IsRow _slots.now.network _slots.now.bound n.0 result.now }
{
    match view {
        Some(view) => view.lend(n),
        None => unreachable!(),
    }
}

/// The row that two views of the same slots show for node n. Allocates nothing.
pub fn agree_in<'s>(
    a: &mut Option<View<'s>>,
    b: &mut Option<View<'s>>,
    _slots: &VouchedSlots<'_>,
    n: NodeId,
) -> &'s Row
    requires a { IfSome a.old (IsViewOf _slots.now) × IsSeen (seen_of _slots.now a.old) n.0 }
    requires b { IfSome b.old (IsViewOf _slots.now) × IsSeen (seen_of _slots.now b.old) n.0 }
    requires node { HasNode _slots.now.network n.0 }
    ensures views { IfSome a.new (IsViewOf _slots.now) × IfSome b.new (IsViewOf _slots.now) }
    ensures agree { Agreed _slots.now n.0 result.now a.old a.new × Agreed _slots.now n.0 result.now b.old b.new }
{
    let Some(mine) = a else { unreachable!() };
    let Some(theirs) = b else { unreachable!() };
    mine.compare(theirs, n);
    mine.seen(n)
}
