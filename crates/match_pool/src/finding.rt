//! The match of a trace by a reader, for some traces without their layers. Serves `work_on`; decided by
//! `match_of`.
ghost use Rattle.std.specs.Prelude.{◌≡◌, true, IfOk};
ghost use Rattle.bounded_table.specs.Rows.{AsksFor};
ghost use Rattle.row_store.specs.Store.{rows_state};
ghost use Rattle.trace_match.specs.Match.{asks, match_of};
ghost use Rattle.trace_reader.specs.Trace.{IsLawfulTrace};
ghost use Rattle.match_pool.specs.Working.{IsReaderFor};

use crate::answer::match_one;
use crate::batch::Batch;
use crate::far::{is_surely_far, unmatched};
use crate::one_fix::match_fix;
use match_text::MatchedTrace;
use row_store::Reader;
use std::alloc::AllocError;
use trace_reader::Trace;

/// The match of a trace of the batch. Exactly the rows that it asks for become known.
pub fn find_match<'s>(
    batch: &Batch,
    reader: &mut Reader<'s>,
    trace: &Trace,
) -> Result<MatchedTrace, AllocError>
    requires reader { IsReaderFor batch.now.net.now batch.now.params.now reader.old }
    requires trace { IsLawfulTrace trace.now }
    ensures matched { IfOk result
        (λ matched. matched ≡ match_of batch.now.net.now batch.now.params.now trace.now) }
    ensures asks { AsksFor (rows_state reader.old)
        (λ v. asks batch.now.net.now batch.now.params.now trace.now v ≡ true) result (rows_state reader.new) }
{
    if trace.fixes.len() == 1 {
        return match_fix(batch, trace);
    }
    if is_surely_far(batch, trace)? {
        return unmatched(batch.alloc, trace);
    }
    let answer = match_one(
        batch.alloc,
        batch.net,
        batch.grid,
        batch.params,
        reader,
        trace,
    )?;
    Ok(answer.matched)
}
