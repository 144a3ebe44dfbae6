//! The network file of a town. Serves the command `town`; decided by `network_text`.
ghost use Rattle.std.specs.Prelude.{◌≡◌, ◌≤◌, ◌+◌, ◌*◌, ◌++◌, length, IfOk, OnOk};
ghost use Rattle.decimal_text.specs.Number.{decimal};
ghost use Rattle.town.specs.Corners.{IsInTown};
ghost use Rattle.town.specs.Network.{edge_line, network_text, place_text, street_lines, street_to};

use crate::corner::{Corner, Heading};
use decimal_text::write_unsigned;
use plain_list::List;
use std::alloc::{AllocError, Global};

// Appends a number and the byte after it.
fn append_number(number: u32, behind: &[u8], into: &mut List<u8>) -> Result<(), AllocError>
    ensures { OnOk result (into.new ≡ into.old ++ decimal number ++ behind.now) }
{
    write_unsigned(u64::from(number), into)?;
    into.extend_from_slice(behind)
}

// Appends the position of a corner, and the byte after it.
fn append_place(
    n: u32,
    corner: Corner,
    behind: &[u8],
    into: &mut List<u8>,
) -> Result<(), AllocError>
    requires { (n ≤ 100) × IsInTown n corner }
    ensures { OnOk result (into.new ≡ into.old ++ place_text corner ++ behind.now) }
{
    let spot = corner.spot(n);
    append_number(spot.x, b" ", into)?;
    append_number(spot.y, behind, into)
}

// Appends the line of an edge.
fn append_edge(
    n: u32,
    edge: u32,
    from: Corner,
    to: Corner,
    into: &mut List<u8>,
) -> Result<(), AllocError>
    requires { (n ≤ 100) × IsInTown n from × IsInTown n to }
    ensures { OnOk result (into.new ≡ into.old ++ edge_line n edge from to) }
{
    append_number(edge, b",", into)?;
    append_number(from.node_id(n), b",", into)?;
    append_number(to.node_id(n), b",", into)?;
    append_place(n, from, b";", into)?;
    append_place(n, to, b"\n", into)
}

// Appends the lines of the street in this direction, if there is one: an edge with this number, and
// the next edge back. Returns the next free number.
fn append_street(
    n: u32,
    edge: u32,
    corner: Corner,
    way: Heading,
    into: &mut List<u8>,
) -> Result<u32, AllocError>
    requires inside { (n ≤ 100) × IsInTown n corner }
    requires few { edge ≤ 100_000 }
    ensures text { OnOk result
        (into.new ≡ into.old ++ street_lines n edge (street_to n corner way)) }
    ensures next { IfOk result (λ next. next ≡ edge + 2 * length (street_to n corner way)) }
{
    if corner.is_border(n, way) {
        return Ok(edge);
    }
    let other = corner.next(n, way);
    append_edge(n, edge, corner, other, into)?;
    append_edge(n, edge + 1, other, corner, into)?;
    Ok(edge + 2)
}

/// The network file of a town of `n` rows and `n` columns: for each corner, row by row, the edge to
/// the east and the edge back, then the same to the north. Ids count from 0.
pub fn town_network(alloc: Global, n: u32) -> Result<List<u8>, AllocError>
    requires { (2 ≤ n) × (n ≤ 100) }
    ensures { IfOk result (λ bytes. bytes ≡ network_text n) }
{
    let mut text = List::new(alloc);
    text.extend_from_slice(b"edge,from,to,line\n")?;
    let mut edge = 0;
    for number in 0..n * n {
        let corner = Corner::at(n, number);
        edge = append_street(n, edge, corner, Heading::East, &mut text)?;
        edge = append_street(n, edge, corner, Heading::North, &mut text)?;
    }
    Ok(text)
}
