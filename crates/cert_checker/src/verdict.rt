//! The verdict on a certificate.

/// The conditions of a certificate. The numbers are those of the definition.
#[derive(Clone, Copy, Debug, PartialEq, Eq)]
pub enum Condition {
    /// A rank and a table for each position, of the size of its candidates.
    Candidates = 1,
    /// The cells of the first position of a piece.
    FirstCost = 2,
    /// No cell costs more than a way to it.
    Relaxed = 3,
    /// Each live cell has the cost of the way that its pointer names.
    Tight = 4,
    /// Each pointer names the first way of its cost.
    Pointer = 5,
    /// The chosen ranks of a piece, and its cost.
    Chosen = 6,
    /// Where pieces begin and end.
    Break = 7,
    /// The rows that the costs rely on.
    Row = 8,
    /// The route of a piece.
    Route = 9,
    /// The number and the ids of the traces.
    Trace = 10,
}

/// Whether a certificate proves the match.
#[derive(Clone, Copy, Debug, PartialEq, Eq)]
pub enum Verdict {
    Proved,
    /// The first failing condition, the number of its trace, and the index of the position, row or trace where it
    /// fails.
    Refused {
        condition: Condition,
        trace: u64,
        place: u64,
    },
}

/// What is found of a certificate. It says of a refusal by Row whether a row is bad or missing.
#[derive(Clone, Copy, Debug, PartialEq, Eq)]
pub enum Finding {
    /// The index of the first bad row.
    BadRow(u64),
    /// All rows are right, and this is the verdict.
    Judged(Verdict),
}
