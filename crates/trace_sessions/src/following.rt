//! A trace that is followed position by position. Serves `follow`; decided by `follow_text`.
ghost use Rattle.std.specs.Prelude.{◌≡◌, ◌++◌, true, IfOk, OnOk, OnErr};
ghost use Rattle.std.specs.List.{concat};
ghost use Rattle.bounded_table.specs.Rows.{AreRowsOf, AsksFor};
ghost use Rattle.trace_match.specs.Match.{asks};
ghost use Rattle.trace_reader.specs.Trace.{IsLawfulTrace};
ghost use Rattle.trace_sessions.specs.FollowText.{fix_line};
ghost use Rattle.trace_sessions.specs.Following.{IsFollowed, pieces_among};
ghost use Rattle.trace_sessions.specs.ItemText.{AddsPrefix, AreItemsOf};
ghost use Rattle.trace_sessions.specs.inside.StreamingInside.{rest_lines, step_lines, KeepsFront};

use crate::basis::Basis;
use crate::items::{Writer, write_items, write_lead};
use bounded_table::Rows;
use decimal_text::write_unsigned;
use match_text::{write_end, write_trace};
use online_commit::{Item, Online};
use plain_list::List;
use std::alloc::{AllocError, Global};
use trace_match::layer;
use trace_reader::Trace;

/// Appends the follow text of a trace, and returns the number of pieces of its match. Exactly the rows
/// that the trace asks for become known; on `Err`, only some of them.
///
/// `rows` are of this network and the bound of these options. Each position is matched as it comes: the candidates
/// are found for one position at a time, and kept for the positions of the open piece. `Err` means out of memory;
/// then `into` is unchanged, and what was known is still known.
pub fn follow_trace<R: Rows>(
    alloc: Global,
    on: &Basis,
    rows: &mut R,
    trace: &Trace,
    into: &mut List<u8>,
) -> Result<u64, AllocError>
    requires rows { AreRowsOf (R.state rows.old) on.now.net.now on.now.params.now.bound }
    requires trace { IsLawfulTrace trace.now }
    ensures followed { IfOk result
        (IsFollowed on.now.net.now on.now.params.now trace.now into.old into.new) }
    ensures err { OnErr result (into.new ≡ into.old) }
    ensures asks { AsksFor (R.state rows.old)
        (λ v. asks on.now.net.now on.now.params.now trace.now v ≡ true) result (R.state rows.new) }
{
    let len = into.len();
    let followed = append_followed(alloc, on, rows, trace, into);
    if followed.is_err() {
        into.truncate(len);
    }
    followed
}

// Appends the follow text of a trace. On `Err`, a part of it may remain at the end.
fn append_followed<R: Rows>(
    alloc: Global,
    on: &Basis,
    rows: &mut R,
    trace: &Trace,
    into: &mut List<u8>,
) -> Result<u64, AllocError>
    requires rows { AreRowsOf (R.state rows.old) on.now.net.now on.now.params.now.bound }
    requires trace { IsLawfulTrace trace.now }
    ensures followed { IfOk result
        (IsFollowed on.now.net.now on.now.params.now trace.now into.old into.new) }
    ensures err { OnErr result (KeepsFront into.old into.new) }
    ensures asks { AsksFor (R.state rows.old)
        (λ v. asks on.now.net.now on.now.params.now trace.now v ≡ true) result (R.state rows.new) }
{
    on.net.invariants();
    write_trace(trace.id, into)?;
    let by = Writer { alloc, net: on.net };
    let mut session = Online::open(alloc, on.net, on.params);
    let mut pieces = 0;
    for fix in trace.fixes.as_slice() {
        let point = session.count();
        let layer = layer(alloc, on.net, on.grid, on.params, fix)?;
        let items = session.feed(layer, rows)?;
        write_step(&by, None, point, items.as_slice(), into)?;
        pieces += count_pieces(items.as_slice());
    }
    let items = session.finish(rows)?;
    write_rest(&by, None, trace.id, items.as_slice(), into)?;
    Ok(pieces + count_pieces(items.as_slice()))
}

/// Appends the line `fix I` of a position and the lines of its items, each after the lead and a space if there is a
/// lead. On `Err`, a prefix of them may remain at the end.
pub fn write_step(
    by: &Writer,
    lead: Option<u32>,
    point: u32,
    items: &[Item],
    into: &mut List<u8>,
) -> Result<(), AllocError>
    requires { AreItemsOf by.now.net.now items.now }
    ensures ok { OnOk result
        (into.new ≡ into.old ++ concat (step_lines by.now.net.now lead point items.now)) }
    ensures err { OnErr result
        (AddsPrefix into.old (concat (step_lines by.now.net.now lead point items.now)) into.new) }
{
    write_lead(lead, into)?;
    write_fix(point, into)?;
    write_items(by.alloc, by.net, lead, items, into)
}

/// Appends the line `finish`, the lines of the remaining items, and the line that ends the trace,
/// each after the lead and a space if there is a lead. On `Err`, a prefix of them may remain at the end.
pub fn write_rest(
    by: &Writer,
    lead: Option<u32>,
    id: u32,
    items: &[Item],
    into: &mut List<u8>,
) -> Result<(), AllocError>
    requires { AreItemsOf by.now.net.now items.now }
    ensures ok { OnOk result
        (into.new ≡ into.old ++ concat (rest_lines by.now.net.now lead id items.now)) }
    ensures err { OnErr result
        (AddsPrefix into.old (concat (rest_lines by.now.net.now lead id items.now)) into.new) }
{
    write_lead(lead, into)?;
    into.extend_from_slice(b"finish\n")?;
    write_items(by.alloc, by.net, lead, items, into)?;
    write_lead(lead, into)?;
    write_end(id, into)
}

// Appends the line `fix I`. On `Err`, a prefix of it may remain at the end.
fn write_fix(point: u32, into: &mut List<u8>) -> Result<(), AllocError>
    ensures ok { OnOk result (into.new ≡ into.old ++ fix_line point) }
    ensures err { OnErr result (AddsPrefix into.old (fix_line point) into.new) }
{
    into.extend_from_slice(b"fix ")?;
    write_unsigned(u64::from(point), into)?;
    into.extend_from_slice(b"\n")
}

/// How many of these items are pieces.
pub fn count_pieces(items: &[Item]) -> u64
    ensures { result ≡ pieces_among items.now }
{
    items
        .iter()
        .filter(|item| matches!(item, Item::Closed { .. }))
        .count() as u64
}
