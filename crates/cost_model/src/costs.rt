//! What a position and a route cost. Serves `trellis` and `cert_checker`; decided by `emission` and `transition`.
ghost use Rattle.std.specs.Prelude.{◌≡◌, ◌*◌, ◌≤◌};
ghost use Rattle.cost_model.specs.Options.{IsAccepted};
ghost use Rattle.cost_model.specs.Costs.{emission, transition, PointCostIsBounded};

use crate::params::Params;

/// The scaled cost of a candidate whose squared distance from its position is `d2` cm²: the greatest whole number
/// of at most `1000·d2 / (2·sigma²)`.
#[tactic(auto, using(crate::proofs::Bounds::emission_small))]
pub fn emission(p: &Params, d2: u64) -> u64
    requires options { IsAccepted p.now }
    requires within { d2 ≤ p.now.radius * p.now.radius }
    ensures value { result ≡ emission p.now d2 }
    ensures small { result ≤ 5_000_000_000_000 }
{
    let sigma = u64::from(p.sigma);
    // By default the divisor is known, and the compiler needs no division.
    if sigma == 1000 {
        d2 / 2000
    } else {
        d2 * 1000 / (2 * (sigma * sigma))
    }
}

/// The scaled cost of a route of this length in cm between two positions at this straight distance in cm: the
/// greatest whole number of at most `1000·|route - straight| / beta`.
#[tactic(auto, using(crate::proofs::Bounds::transition_small))]
pub fn transition(p: &Params, route: u32, straight: u32) -> u64
    requires options { IsAccepted p.now }
    ensures value { result ≡ transition p.now route straight }
    ensures small { route ≤ 210_000_000 → straight ≤ 2_828_427_124 → result ≤ 2_828_427_124_000 }
{
    let difference = u64::from(route.abs_diff(straight));
    // By default the scale and beta cancel out. A division would take longer than the rest of the call.
    if p.beta == 1000 {
        difference
    } else {
        difference * 1000 / u64::from(p.beta)
    }
}

/// A law, with nothing to run: one position adds at most 7,900,000,000,000 to the cost of a sequence, if its
/// candidate is within the radius, its route at most 210,000,000 and its straight distance at most 2,828,427,124.
pub fn point_cost_is_bounded()
    ensures { PointCostIsBounded }
{}
