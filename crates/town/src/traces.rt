//! The trace file of a town. Serves the command `town`; decided by `traces_text`.
ghost use Rattle.std.specs.Prelude.{◌≡◌, ◌≤◌, ◌+◌, ◌-ℤ◌, ◌++◌, pos, false, IfOk, OnOk};
ghost use Rattle.std.specs.List.{flat_map};
ghost use Rattle.town.specs.Corners.{IsInTown, is_border};
ghost use Rattle.town.specs.Draws.{state_after};
ghost use Rattle.town.specs.Traces.{fix_line, fix_near, street_fixes, start_corner, town_trace, trace_lines, traces_text, walk_fixes, way_from};

use crate::corner::{Corner, Heading, Spot};
use crate::draw::Draw;
use decimal_text::{write_signed, write_unsigned};
use plain_list::List;
use std::alloc::{AllocError, Global};

// How many streets a trace covers.
const STREETS: u32 = 10;

// How far along a street its two positions lie, in cm.
const FIRST: u32 = 2_500;

const SECOND: u32 = 7_500;

// How far a position may lie from its spot, in cm in each direction.
const SPREAD: u32 = 1_000;

// The coordinate of a position, from that of its spot and a drawn number.
fn near(coordinate: u32, drawn: u32) -> i32
    requires { (coordinate ≤ 1_000_000) × (drawn ≤ 2_000) }
    ensures { result ≡ pos (coordinate + drawn) -ℤ pos 1_000 }
{
    (coordinate + drawn) as i32 - SPREAD as i32
}

// Appends the line of a position near a spot.
#[tactic(auto, unfolding(crate::specs::Draws::state_after))]
fn append_fix(id: u32, spot: Spot, draw: &mut Draw, into: &mut List<u8>) -> Result<(), AllocError>
    requires { (spot.x ≤ 1_000_000) × (spot.y ≤ 1_000_000) }
    ensures line { OnOk result
        (into.new ≡ into.old ++ fix_line id (fix_near spot draw.old)) }
    ensures draws { draw.new ≡ state_after 2 draw.old }
{
    let x = near(spot.x, draw.below(2 * SPREAD + 1));
    let y = near(spot.y, draw.below(2 * SPREAD + 1));
    write_unsigned(u64::from(id), into)?;
    into.extend_from_slice(b",")?;
    write_signed(x, into)?;
    into.extend_from_slice(b",")?;
    write_signed(y, into)?;
    into.extend_from_slice(b"\n")
}

// Appends the lines of the two positions of a street.
#[tactic(auto, unfolding(crate::specs::Draws::state_after))]
fn append_street(
    n: u32,
    id: u32,
    corner: Corner,
    way: Heading,
    draw: &mut Draw,
    into: &mut List<u8>,
) -> Result<(), AllocError>
    requires { (n ≤ 100) × IsInTown n corner × (is_border n corner way ≡ false) }
    ensures lines { OnOk result (into.new
        ≡ into.old ++ flat_map (fix_line id) (street_fixes corner way draw.old)) }
    ensures draws { OnOk result (draw.new ≡ state_after 4 draw.old) }
{
    append_fix(id, corner.along(n, way, FIRST), draw, into)?;
    append_fix(id, corner.along(n, way, SECOND), draw, into)
}

// Draws the next direction at a corner.
fn draw_way(n: u32, corner: Corner, draw: &mut Draw) -> Heading
    requires { (2 ≤ n) × IsInTown n corner }
    ensures way { result ≡ way_from n corner draw.old }
    ensures open { is_border n corner result ≡ false }
    ensures draws { draw.new ≡ state_after 1 draw.old }
{
    corner.turned(n, Heading::from_number(draw.below(4)))
}

// Draws the corner where a trace starts.
#[tactic(auto, unfolding(crate::specs::Draws::state_after))]
fn draw_start(n: u32, draw: &mut Draw) -> Corner
    requires { 1 ≤ n }
    ensures corner { result ≡ start_corner n draw.old }
    ensures inside { IsInTown n result }
    ensures draws { draw.new ≡ state_after 2 draw.old }
{
    let row = draw.below(n);
    let column = draw.below(n);
    Corner { row, column }
}

// Appends the lines of a trace.
fn append_trace(n: u32, id: u32, draw: &mut Draw, into: &mut List<u8>) -> Result<(), AllocError>
    requires { (2 ≤ n) × (n ≤ 100) }
    ensures lines { OnOk result
        (into.new ≡ into.old ++ trace_lines (town_trace n id draw.old)) }
    ensures draws { OnOk result (draw.new ≡ state_after 52 draw.old) }
{
    let mut corner = draw_start(n, draw);
    for _ in 0..STREETS {
        let way = draw_way(n, corner, draw);
        append_street(n, id, corner, way, draw, into)?;
        corner = corner.next(n, way);
    }
    Ok(())
}

/// A trace file of `t` walks through a town of `n` rows and `n` columns, over ten streets each. The
/// seed determines all of it.
pub fn town_traces(alloc: Global, n: u32, t: u32, seed: u32) -> Result<List<u8>, AllocError>
    requires side { (2 ≤ n) × (n ≤ 100) }
    requires count { (1 ≤ t) × (t ≤ 2_000) }
    ensures { IfOk result (λ bytes. bytes ≡ traces_text n t seed) }
{
    let mut text = List::new(alloc);
    text.extend_from_slice(b"trace,x,y\n")?;
    let mut draw = Draw::new(u64::from(seed));
    for id in 0..t {
        append_trace(n, id, &mut draw, &mut text)?;
    }
    Ok(text)
}
