//! The proof of a match, made by copying. Serves all who write certificates.
ghost use Rattle.std.specs.Prelude.{◌≡◌, IfOk};

use crate::proof::TraceProof;
use match_text::Routed;
use plain_list::List;
use std::alloc::{AllocError, Global};
use trellis::{Potentials, Solved};

/// The proof of the trace with this id: a copy of the ranks and tables of its match and of its
/// routed pieces.
pub fn certify(
    alloc: Global,
    id: u32,
    solved: &Solved,
    pieces: &[Routed],
) -> Result<TraceProof, AllocError>
    ensures { IfOk result (λ proof. proof ≡ record
        { id = id; ranks = solved.now.ranks; tables = solved.now.tables; pieces = pieces.now }) }
{
    let mut ranks = List::new(alloc);
    ranks.extend_from_slice(solved.ranks.as_slice())?;
    let tables = copy_tables(alloc, solved.tables.as_slice())?;
    let pieces = copy_pieces(alloc, pieces)?;
    Ok(TraceProof {
        id,
        ranks,
        tables,
        pieces,
    })
}

fn copy_tables(alloc: Global, tables: &[Potentials]) -> Result<List<Potentials>, AllocError>
    ensures { IfOk result (λ copies. copies ≡ tables.now) }
{
    let mut copies = List::from_vec(Vec::with_capacity(alloc, tables.len())?);
    for table in tables {
        copies.push(copy_table(alloc, table)?)?;
    }
    Ok(copies)
}

fn copy_table(alloc: Global, table: &Potentials) -> Result<Potentials, AllocError>
    ensures { IfOk result (λ copy. copy ≡ table.now) }
{
    let mut cells = List::new(alloc);
    cells.extend_from_slice(table.as_slice())?;
    Ok(Potentials::of(cells))
}

fn copy_pieces(alloc: Global, pieces: &[Routed]) -> Result<List<Routed>, AllocError>
    ensures { IfOk result (λ copies. copies ≡ pieces.now) }
{
    let mut copies = List::from_vec(Vec::with_capacity(alloc, pieces.len())?);
    for piece in pieces {
        copies.push(copy_piece(alloc, piece)?)?;
    }
    Ok(copies)
}

fn copy_piece(alloc: Global, piece: &Routed) -> Result<Routed, AllocError>
    ensures { IfOk result (λ copy. copy ≡ piece.now) }
{
    let mut route = List::new(alloc);
    route.extend_from_slice(piece.route.as_slice())?;
    Ok(Routed {
        route,
        first: piece.first,
        last: piece.last,
        cost: piece.cost,
    })
}
