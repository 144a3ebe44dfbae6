//! The lines of the output of a session. Serves those who follow traces; decided by `item_lines`.
ghost use Rattle.std.specs.Prelude.{◌≡◌, ◌++◌, OnOk, OnErr};
ghost use Rattle.std.specs.List.{concat};
ghost use Rattle.trace_sessions.specs.ItemText.{AreItemsOf, IsItemOf, item_line, item_lines, lead_of};
ghost use Rattle.trace_sessions.specs.inside.StreamingInside.{KeepsFront};

use itoa::write_digits;
use match_text::{Label, write_label, write_piece};
use online_commit::Item;
use plain_list::List;
use road_network::Network;
use std::alloc::{AllocError, Global};
use trace_match::{label_on, routed};

/// What lines of items are written with: the network whose ids they have.
#[derive(Clone, Copy)]
pub struct Writer<'a> {
    pub alloc: Global,
    pub net: &'a Network,
}

/// Appends the lines of these items, each after the id and a space if there is an id. On `Err`, `into`
/// is unchanged.
///
/// A line takes one append, or two with an id; that of a piece takes one more for each edge of its route.
pub fn write_items(
    alloc: Global,
    net: &Network,
    id: Option<u32>,
    items: &[Item],
    into: &mut List<u8>,
) -> Result<(), AllocError>
    requires { AreItemsOf net.now items.now }
    ensures ok { OnOk result (into.new ≡ into.old ++ concat (item_lines net.now id items.now)) }
    ensures err { OnErr result (into.new ≡ into.old) }
{
    let len = into.len();
    let written = append_items(alloc, net, id, items, into);
    if written.is_err() {
        into.truncate(len);
    }
    written
}

// Appends the lines of these items. On `Err`, some of them may remain at the end.
fn append_items(
    alloc: Global,
    net: &Network,
    id: Option<u32>,
    items: &[Item],
    into: &mut List<u8>,
) -> Result<(), AllocError>
    requires { AreItemsOf net.now items.now }
    ensures ok { OnOk result (into.new ≡ into.old ++ concat (item_lines net.now id items.now)) }
    ensures err { OnErr result (KeepsFront into.old into.new) }
{
    for item in items {
        write_lead(id, into)?;
        write_item(alloc, net, item, into)?;
    }
    Ok(())
}

/// Appends the id and a space, or nothing. On `Err`, `into` is unchanged.
pub fn write_lead(id: Option<u32>, into: &mut List<u8>) -> Result<(), AllocError>
    ensures ok { OnOk result (into.new ≡ into.old ++ lead_of id) }
    ensures err { OnErr result (into.new ≡ into.old) }
{
    let Some(id) = id else {
        return Ok(());
    };
    let mut lead = [b' '; 24];
    let start = write_digits(u64::from(id), &mut lead, 23);
    into.extend_from_slice(&lead[start..])
}

// Appends the line of the item. On `Err`, `into` is unchanged.
fn write_item(
    alloc: Global,
    net: &Network,
    item: &Item,
    into: &mut List<u8>,
) -> Result<(), AllocError>
    requires { IsItemOf net.now item.now }
    ensures ok { OnOk result (into.new ≡ into.old ++ item_line net.now item.now) }
    ensures err { OnErr result (into.new ≡ into.old) }
{
    match item {
        Item::At { index, candidate } => {
            write_label(u64::from(*index), label_on(net, candidate), into)
        }
        Item::Missing(index) => write_label(u64::from(*index), Label::Missing, into),
        Item::Closed { piece, route } => {
            let piece = routed(alloc, net, *piece, route.as_slice())?;
            write_piece(&piece, into)
        }
    }
}
