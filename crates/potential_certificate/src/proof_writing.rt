//! The lines of a proof, written. Serves `write_certificate`; decided by `proof_text`.
ghost use Rattle.std.specs.Prelude.{◌≡◌, ◌++◌, length, take, OnErr, OnOk};
ghost use Rattle.std.specs.List.{concat, flat_map};
ghost use Rattle.potential_certificate.specs.CertificateText.{cell_word, layer_line, point_line, position_lines, pointer_word, proof_text};
ghost use Rattle.potential_certificate.specs.inside.Words.{cells_text};

use crate::proof::TraceProof;
use decimal_text::{write_unsigned, write_worded};
use match_text::{Label, Routed, write_end, write_label, write_piece, write_trace};
use plain_list::List;
use std::alloc::AllocError;
use trellis::{Cell, Potentials};

/// Appends the lines of the proof. On `Err`, some of them may remain at the end.
pub fn append_proof(proof: &TraceProof, into: &mut List<u8>) -> Result<(), AllocError>
    ensures ok { OnOk result (into.new ≡ into.old ++ proof_text proof.now) }
    ensures err { OnErr result (take (length into.old) into.new ≡ into.old) }
{
    write_trace(proof.id, into)?;
    append_points(
        proof.ranks.as_slice(),
        proof.tables.as_slice(),
        proof.pieces.as_slice(),
        into,
    )?;
    write_end(proof.id, into)
}

// Appends the lines of the positions and of the pieces. On `Err`, some may remain at the end.
fn append_points(
    ranks: &[Option<u32>],
    tables: &[Potentials],
    pieces: &[Routed],
    into: &mut List<u8>,
) -> Result<(), AllocError>
    ensures ok { OnOk result (into.new ≡ into.old
        ++ concat (position_lines 0 ranks.now tables.now pieces.now)) }
    ensures err { OnErr result (take (length into.old) into.new ≡ into.old) }
{
    let mut unwritten = pieces;
    for (point, rank) in ranks.iter().enumerate() {
        let Some(table) = tables.get(point) else {
            return Ok(());
        };
        append_point(point as u64, *rank, table, into)?;
        if let [piece, rest @ ..] = unwritten {
            if piece.last as usize == point {
                write_piece(piece, into)?;
                unwritten = rest;
            }
        }
    }
    Ok(())
}

// Appends the line of a position. On `Err`, a part of it may remain at the end.
fn append_point(
    point: u64,
    rank: Option<u32>,
    table: &Potentials,
    into: &mut List<u8>,
) -> Result<(), AllocError>
    ensures ok { OnOk result (into.new ≡ into.old ++ point_line point rank table.now) }
    ensures err { OnErr result (take (length into.old) into.new ≡ into.old) }
{
    match rank {
        None => write_label(point, Label::Missing, into),
        Some(rank) => append_layer(point, rank, table.as_slice(), into),
    }
}

// Appends the line of a position with candidates. On `Err`, a part of it may remain at the end.
fn append_layer(
    point: u64,
    rank: u32,
    cells: &[Cell],
    into: &mut List<u8>,
) -> Result<(), AllocError>
    ensures ok { OnOk result (into.new ≡ into.old ++ layer_line point rank cells.now) }
    ensures err { OnErr result (take (length into.old) into.new ≡ into.old) }
{
    write_worded(b"layer ", point, into)?;
    write_worded(b" rank ", u64::from(rank), into)?;
    into.extend_from_slice(b" cells")?;
    append_cells(cells, into)?;
    into.extend_from_slice(b"\n")
}

// Appends each cell after a space. On `Err`, some of them may remain at the end.
fn append_cells(cells: &[Cell], into: &mut List<u8>) -> Result<(), AllocError>
    ensures ok { OnOk result (into.new ≡ into.old ++ cells_text cells.now) }
    ensures err { OnErr result (take (length into.old) into.new ≡ into.old) }
{
    for cell in cells {
        into.extend_from_slice(b" ")?;
        append_cell(*cell, into)?;
    }
    Ok(())
}

// Appends a cell. On `Err`, a part of it may remain at the end.
fn append_cell(cell: Cell, into: &mut List<u8>) -> Result<(), AllocError>
    ensures ok { OnOk result (into.new ≡ into.old ++ cell_word cell) }
    ensures err { OnErr result (take (length into.old) into.new ≡ into.old) }
{
    let Some(cost) = cell.cost else {
        return into.extend_from_slice(b"-");
    };
    write_unsigned(cost, into)?;
    append_pointer(cell.from, into)
}

// Appends `<` and the rank at the previous position, or nothing.
fn append_pointer(pointer: Option<u32>, into: &mut List<u8>) -> Result<(), AllocError>
    ensures ok { OnOk result (into.new ≡ into.old ++ pointer_word pointer) }
    ensures err { OnErr result (into.new ≡ into.old) }
{
    let Some(rank) = pointer else {
        return Ok(());
    };
    write_worded(b"<", u64::from(rank), into)
}
