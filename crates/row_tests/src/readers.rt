//! What readers of one store see of a row that was found, and of rows that were offered, in either slot.
ghost use Rattle.std.specs.Prelude.{◌≡◌, IfSome, IsSome};
ghost use Rattle.road_network.specs.Net.{HasNode};

use crate::small::{TWO_EDGES, entry, offered, wrong};
use bounded_table::{Entry, Row, Rows};
use plain_list::List;
use road_network::{NodeId, read_network};
use row_store::{Reader, RowStore, Sight, agree, agree_near};
use std::alloc::{AllocError, Global};

/// A bound within which the row of node 1 has a second entry, and a third of which it has none.
const BOUND: u32 = 15_000;

/// The second entry of the row of node 1.
fn right() -> Option<Entry> {
    Some(entry(2, 10_000, Some(1)))
}

fn has_second(row: &Row, second: Option<Entry>) -> bool {
    row.entries().get(1).copied() == second
}

/// Whether a row is seen with this second entry, and as foreign unless it is the row of node 1.
fn is_seen(sight: Sight<'_>, second: Option<Entry>) -> bool {
    match sight {
        Sight::Table(row) => second == right() && has_second(row, second),
        Sight::Foreign(row) => second != right() && has_second(row, second),
    }
}

/// Whether rows give the row of node 1.
fn give_right<R: Rows>(rows: &mut R) -> Result<bool, AllocError>
    requires { HasNode (R.state rows.old).network 1 }
{
    Ok(has_second(rows.row(NodeId(1))?, right()))
}

/// Whether both readers see the row with this second entry, agree on it, and give the right one.
fn see<'s>(
    a: &mut Reader<'s>,
    b: &mut Reader<'s>,
    second: Option<Entry>,
) -> Result<bool, AllocError>
    requires node { HasNode a.old.store.network 1 }
    requires store { a.old.store ≡ b.old.store }
{
    let first = is_seen(a.look(NodeId(1))?, second);
    let both = is_seen(b.look(NodeId(1))?, second) && first;
    let agreed = has_second(agree(a, b, NodeId(1)), second);
    Ok(both && agreed && give_right(a)? && give_right(b)?)
}

/// Whether a reader that looks after others sees the row with this second entry, and gives the right one.
fn see_late(store: &RowStore<'_>, second: Option<Entry>) -> Result<bool, AllocError>
    requires { HasNode store.now.network 1 }
{
    let mut late = store.reader()?;
    Ok(is_seen(late.look(NodeId(1))?, second) && give_right(&mut late)?)
}

fn find_and_see(store: &RowStore<'_>) -> Result<bool, AllocError>
    requires { HasNode store.now.network 1 }
{
    let mut a = store.reader()?;
    let mut b = store.reader()?;
    let seen = !a.known(NodeId(1)) && see(&mut a, &mut b, right())?;
    Ok(seen && see_late(store, right())?)
}

fn offer_and_see(store: &RowStore<'_>, row: Row, second: Option<Entry>) -> Result<bool, AllocError>
    requires node { HasNode store.now.network 1 }
    requires origin { row.origin ≡ 1 }
{
    let mut a = store.reader()?;
    let mut b = store.reader()?;
    a.offer(NodeId(1), row)?;
    let seen = see(&mut a, &mut b, second)?;
    Ok(seen && see_late(store, second)? && see_late(store, second)?)
}

/// Whether a reader that has given the row of node 1 sees it in its slot and gives it once more. It is proved that neither
/// of these calls can fail.
fn find_and_give_again(store: &RowStore<'_>) -> Result<bool, AllocError>
    requires { HasNode store.now.network 1 }
{
    let mut reader = store.reader()?;
    reader.ask(NodeId(1))?;
    let Ok(sight) = reader.look(NodeId(1)) else {
        unreachable!()
    };
    let Sight::Table(_) = sight else {
        return Ok(false);
    };
    let Ok(row) = reader.ask(NodeId(1)) else {
        unreachable!()
    };
    Ok(has_second(row, right()))
}

/// Whether readers see the row that the first finds, and the first gives it twice.
fn see_found(alloc: Global) -> Option<bool> {
    let net = read_network(alloc, TWO_EDGES).ok()?;
    if net.node_count() < 2 {
        return None;
    }
    let store = RowStore::open(alloc, &net, 300_000).ok()?;
    let twice = RowStore::open(alloc, &net, 300_000).ok()?;
    Some(find_and_see(&store).ok()? && find_and_give_again(&twice).ok()?)
}

/// Whether readers see the row of node 1 with this second entry after the first has offered it.
fn see_offered(alloc: Global, second: Option<Entry>) -> Option<bool> {
    let Ok(Some(row)) = offered(alloc, second) else {
        return None;
    };
    let net = read_network(alloc, TWO_EDGES).ok()?;
    if net.node_count() < 2 {
        return None;
    }
    let store = RowStore::open(alloc, &net, 300_000).ok()?;
    offer_and_see(&store, row, second).ok()
}

/// Whether a row is seen in the near slot with this second entry, and as foreign unless it is the near row of node 1.
fn is_seen_near(sight: Sight<'_>, second: Option<Entry>) -> bool {
    match sight {
        Sight::Table(row) => second.is_none() && has_second(row, None),
        Sight::Foreign(row) => second.is_some() && has_second(row, second),
    }
}

/// Whether two readers see the row with this second entry in the near slot of node 1, agree on it, and give the near row,
/// and then the row.
fn see_near<'s>(
    a: &mut Reader<'s>,
    b: &mut Reader<'s>,
    second: Option<Entry>,
) -> Result<bool, AllocError>
    requires node { HasNode a.old.store.network 1 × IsSome a.old.store.near }
    requires bound { a.old.store.bound ≡ BOUND }
    requires store { a.old.store ≡ b.old.store }
{
    let first = is_seen_near(a.look_near(NodeId(1))?, second);
    let both = is_seen_near(b.look_near(NodeId(1))?, second) && first;
    let agreed = has_second(agree_near(a, b, NodeId(1)), second);
    let near = has_second(a.near_row(NodeId(1), 5_000)?, None);
    let far = has_second(a.near_row(NodeId(1), 5_001)?, right());
    Ok(both && agreed && near && far && give_right(a)? && give_right(b)?)
}

/// Whether a near row that was offered, or else found, is seen by three readers, and a fourth one that finds the row
/// first needs no near row.
fn offer_near_and_see(
    store: &RowStore<'_>,
    row: Option<Row>,
    second: Option<Entry>,
) -> Result<bool, AllocError>
    requires node { HasNode store.now.network 1 × IsSome store.now.near }
    requires bound { store.now.bound ≡ BOUND }
    requires origin { IfSome row (λ row. row.origin ≡ 1) }
{
    let mut a = store.reader()?;
    let mut b = store.reader()?;
    if let Some(row) = row {
        a.offer_near(NodeId(1), row)?;
    }
    let seen = see_near(&mut a, &mut b, second)?;
    let mut late = store.reader()?;
    let seen = seen && is_seen_near(late.look_near(NodeId(1))?, second);
    let mut c = store.reader()?;
    let whole = has_second(c.row(NodeId(1))?, right());
    Ok(seen && whole && has_second(c.near_row(NodeId(1), 5_000)?, right()))
}

/// Whether two readers see the near row of node 1, or the one with this second entry that the first has offered.
fn see_offered_near(alloc: Global, second: Option<Entry>) -> Option<bool> {
    let row = match second {
        Some(_) => Some(offered(alloc, second).ok()??),
        None => None,
    };
    let net = read_network(alloc, TWO_EDGES).ok()?;
    if net.node_count() < 2 {
        return None;
    }
    let store = RowStore::open_near(alloc, &net, BOUND).ok()?;
    offer_near_and_see(&store, row, second).ok()
}

/// A row of node n that is not the node's.
fn strange_row(alloc: Global, n: u32) -> Result<Option<Row>, AllocError> {
    let mut entries = List::new(alloc);
    entries.push(entry(0, 5, Some(0)))?;
    entries.push(entry(n, 0, None))?;
    Ok(Row::of(NodeId(n), entries))
}

/// How many entries the table's row of node n has after a reader has found its near row, and another has offered this
/// row of two entries.
fn table_entries(store: &RowStore<'_>, n: u32, strange: Row) -> Result<usize, AllocError>
    requires node { HasNode store.now.network n × IsSome store.now.near }
    requires bound { store.now.bound ≡ BOUND }
    requires origin { strange.origin ≡ n }
{
    let mut a = store.reader()?;
    a.near_row(NodeId(n), 5_000)?;
    let mut b = store.reader()?;
    Ok(b.offer(NodeId(n), strange)?.entries().len())
}

/// The same in a store of its own.
fn table_entries_of(alloc: Global, n: u32) -> Option<usize> {
    let strange = strange_row(alloc, n).ok()??;
    let net = read_network(alloc, TWO_EDGES).ok()?;
    if net.node_count() <= n || strange.origin().0 != n {
        return None;
    }
    let store = RowStore::open_near(alloc, &net, BOUND).ok()?;
    table_entries(&store, n, strange).ok()
}

// No edge leaves node 2, and an edge of 10,000 cm leaves node 1.
#[test]
fn a_near_row_that_leaves_nothing_out_fills_both_slots(rt: HostRuntime) {
    assert!(rt;
        table_entries_of(rt.alloc(), 2) == Some(1),
        "the row is there before the strange one"
    );
    assert!(rt;
        table_entries_of(rt.alloc(), 1) == Some(2),
        "the near row is not the row"
    );
}

#[test]
fn a_near_row_and_a_row_are_shared_side_by_side(rt: HostRuntime) {
    assert!(rt;
        see_offered_near(rt.alloc(), None) == Some(true),
        "the near row is found"
    );
    assert!(rt;
        see_offered_near(rt.alloc(), right()) == Some(true),
        "a row within the whole bound is offered"
    );
    for second in wrong() {
        if second.is_some() {
            assert!(rt;
                see_offered_near(rt.alloc(), second) == Some(true),
                "a wrong row is offered"
            );
        }
    }
}

#[test]
fn all_readers_see_one_row(rt: HostRuntime) {
    assert!(rt; see_found(rt.alloc()) == Some(true), "a row that is found");
    assert!(rt;
        see_offered(rt.alloc(), right()) == Some(true),
        "the right row is offered"
    );
    for second in wrong() {
        assert!(rt;
            see_offered(rt.alloc(), second) == Some(true),
            "a wrong row is offered"
        );
    }
}
