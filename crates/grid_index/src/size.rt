//! How large a table is for a network. Serves `Grid::build`; the sizes decide the cost of a look and the
//! memory, and no result.
ghost use Rattle.std.specs.Prelude.{◌≤◌};

use road_network::{EdgeId, Network};

/// A map of more runs has room for entries of runs that meet many cells. Speed only: any value is right.
const LARGE: u64 = 1_000_000;

/// About how many runs the lines of a network have: one for each edge, and one for each 16 points.
/// Twins have the same runs, so on two-way streets there are half as many.
pub(crate) fn runs_expected(net: &Network) -> u64 {
    let mut runs = 0_u64;
    for number in 0..net.edge_count() {
        let points = net.line(EdgeId(number)).len() as u64;
        runs = runs.saturating_add(points / 16).saturating_add(1);
    }
    runs
}

/// The number of slots in a row of the table, as a power of 2, so that there are about as many slots
/// as runs.
pub(crate) fn width_bits_for(runs: u64) -> u32
    ensures { result ≤ 15 }
{
    (runs / 2).isqrt().clamp(1, 16_384).ilog2().min(14) + 1
}

/// The number of entries up to which runs of many cells are entered at them: about twice as many as
/// those of other runs. A small map has no room, since it has few such runs, and takes no more memory.
pub(crate) fn room_for(runs: u64) -> u64 {
    if runs <= LARGE {
        0
    } else {
        runs.saturating_mul(2)
    }
}
