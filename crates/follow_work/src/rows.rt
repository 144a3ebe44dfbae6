//! Rows for matching along traces. Serves the jobs of `follow` and `streams`; decided by `no_rows`.
ghost use Rattle.std.specs.Prelude.{◌≡◌, IfOk};
ghost use Rattle.bounded_table.specs.Rows.{no_rows};

use row_search::NearRows;
use std::alloc::{AllocError, Global};
use trace_match::Matcher;

/// Rows of the network of a matcher within the bound of its options, for matching along traces. No node is known.
pub(crate) fn open_rows<'n>(
    alloc: Global,
    matcher: &Matcher<'n>,
) -> Result<NearRows<'n>, AllocError>
    ensures { IfOk result
        (λ rows. rows ≡ no_rows matcher.now.network matcher.now.params.bound) }
{
    let bound = matcher.params().bound;
    NearRows::open(alloc, matcher.network(), bound, matcher.near_reach())
}
