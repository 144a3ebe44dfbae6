//! The parts of a certificate.
ghost use Rattle.std.specs.Prelude.{◌≡◌, ◌⊎◌, MatchResult};
ghost use Rattle.potential_certificate.specs.inside.AddedPoint.{with_last_point, with_last_rank};

use bounded_table::Row;
use match_text::Routed;
use plain_list::List;
use std::alloc::AllocError;
use trellis::Potentials;

/// The evidence for the match of one trace, right or not.
pub struct TraceProof {
    /// The id of the trace.
    pub id: u32,
    /// The chosen rank of each position; `None` if the position has no candidate.
    pub ranks: List<Option<u32>>,
    /// The cells of each position within its piece; empty if the position has no candidate.
    pub tables: List<Potentials>,
    /// The pieces in order, with the ids of their edges.
    pub pieces: List<Routed>,
}

// By hand, so that the functions that drop one call this.
impl Drop for TraceProof {
    fn drop(self) {
        let TraceProof {
            id: _,
            ranks: _,
            tables: _,
            pieces: _,
        } = self;
    }
}

impl TraceProof {
    /// Adds a position with its rank and its cells. On `Err`, its rank alone may have been added.
    pub(crate) fn add_point(
        &mut self,
        rank: Option<u32>,
        table: Potentials,
    ) -> Result<(), AllocError>
        ensures { MatchResult result (λ _. self.new ≡ with_last_point self.old rank table)
            (λ _. (self.new ≡ self.old) ⊎ (self.new ≡ with_last_rank self.old rank)) }
    {
        self.ranks.push(rank)?;
        self.tables.push(table)
    }
}

/// The proofs of traces, in the order of the traces, and the rows of the bounded table.
#[derive(Drop)]
pub struct Certificate {
    pub proofs: List<TraceProof>,
    pub rows: List<Row>,
}
