//! The options of a match with their ranges and defaults. Serves every command; decided by `IsAccepted`.
ghost use Rattle.std.specs.Prelude.{◌≡◌, ◌↔◌, IsOk, IfOk, IfErr};
ghost use Rattle.cost_model.specs.Faults.{IsFirstFault};
ghost use Rattle.cost_model.specs.Options.{IsAccepted};

/// The options of a match. [`Params::check`] tests their ranges.
#[derive(Clone, Copy, PartialEq, Eq, Debug)]
pub struct Params {
    /// The most candidates of one position.
    pub k: u32,
    /// How far a candidate may lie from its position, in cm.
    pub radius: u32,
    /// The standard deviation of a position's distance from its road, in cm.
    pub sigma: u32,
    /// The scale of the difference between a route and the straight distance, in cm.
    pub beta: u32,
    /// The greatest length of a walk between two candidates, in cm.
    pub bound: u32,
    /// How many workers match side by side.
    pub workers: u32,
    /// The greatest move back along one edge that counts as a direct route of length 0, in cm.
    pub back: u32,
    /// The greatest difference of the times of two positions of one piece, in seconds.
    pub gap: u32,
}

/// The range of a value.
#[derive(Clone, Copy)]
pub struct ValueRange {
    /// The least value.
    pub least: u32,
    /// The greatest value.
    pub most: u32,
}

/// The option that is out of its range.
#[derive(Clone, Copy, PartialEq, Eq, Debug)]
pub enum ParamFault {
    KRange,
    RadiusRange,
    SigmaRange,
    BetaRange,
    BoundRange,
    WorkersRange,
    BackRange,
}

impl Params {
    pub const K_RANGE: ValueRange = ValueRange { least: 1, most: 32 };

    pub const RADIUS_RANGE: ValueRange = ValueRange {
        least: 1,
        most: 100_000,
    };

    pub const SIGMA_RANGE: ValueRange = ValueRange {
        least: 1,
        most: 100_000,
    };

    pub const BETA_RANGE: ValueRange = ValueRange {
        least: 1,
        most: 1_000_000,
    };

    pub const BOUND_RANGE: ValueRange = ValueRange {
        least: 0,
        most: 10_000_000,
    };

    pub const WORKERS_RANGE: ValueRange = ValueRange { least: 1, most: 64 };

    pub const BACK_RANGE: ValueRange = ValueRange {
        least: 0,
        most: 100_000,
    };

    pub const GAP_RANGE: ValueRange = ValueRange {
        least: 0,
        most: u32::MAX,
    };

    /// The options of words that give none.
    pub const DEFAULT: Params = Params {
        k: 8,
        radius: 10_000,
        sigma: 1_000,
        beta: 1_000,
        bound: 300_000,
        workers: 4,
        back: 0,
        gap: u32::MAX,
    };

    /// The same options, if each is in its range. Where several are not, the first in the order of
    /// the fields is the fault.
    pub fn check(self) -> Result<Params, ParamFault>
        ensures accepted { IsOk result ↔ IsAccepted self }
        ensures ok { IfOk result IsAccepted }
        ensures unchanged { IfOk result (λ accepted. accepted ≡ self) }
        ensures fault { IfErr result (IsFirstFault self) }
    {
        if !(Params::K_RANGE.least..=Params::K_RANGE.most).contains(&self.k) {
            return Err(ParamFault::KRange);
        }
        if !(Params::RADIUS_RANGE.least..=Params::RADIUS_RANGE.most).contains(&self.radius) {
            return Err(ParamFault::RadiusRange);
        }
        if !(Params::SIGMA_RANGE.least..=Params::SIGMA_RANGE.most).contains(&self.sigma) {
            return Err(ParamFault::SigmaRange);
        }
        if !(Params::BETA_RANGE.least..=Params::BETA_RANGE.most).contains(&self.beta) {
            return Err(ParamFault::BetaRange);
        }
        if self.bound > Params::BOUND_RANGE.most {
            return Err(ParamFault::BoundRange);
        }
        if !(Params::WORKERS_RANGE.least..=Params::WORKERS_RANGE.most).contains(&self.workers) {
            return Err(ParamFault::WorkersRange);
        }
        if self.back > Params::BACK_RANGE.most {
            return Err(ParamFault::BackRange);
        }
        Ok(self)
    }
}
