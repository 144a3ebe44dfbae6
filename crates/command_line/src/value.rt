//! The values that are given as numbers. Serves `read_options` and `WordsFault`; decided by
//! `range_of`.
ghost use Rattle.std.specs.Prelude.{◌≡◌};
ghost use Rattle.command_line.specs.Values.{name_of, range_of};

use cost_model::{Params, ValueRange};

/// A value that is given as a number. An option of every command has the name of its field of
/// `Params`, and an argument the name in the usage line.
#[derive(Clone, Copy, Debug)]
pub enum ValueName {
    K,
    Radius,
    Sigma,
    Beta,
    Bound,
    Workers,
    Back,
    Gap,
    /// After how many seconds without a row a drive of a stream ends.
    Idle,
    /// How many rows and columns a town has.
    N,
    /// How many traces a town has.
    T,
    /// The seed of a generated town.
    Seed,
}

/// In seconds.
const IDLE_RANGE: ValueRange = ValueRange {
    least: 1,
    most: u32::MAX,
};

impl ValueName {
    /// The options that every command takes, in the order in which they are read.
    pub const OPTIONS: [ValueName; 8] = [
        ValueName::K,
        ValueName::Radius,
        ValueName::Sigma,
        ValueName::Beta,
        ValueName::Bound,
        ValueName::Workers,
        ValueName::Back,
        ValueName::Gap,
    ];

    /// The name. An option is given after `--` and its name.
    pub fn name(self) -> &'static str
        ensures { result.now ≡ name_of self }
    {
        match self {
            ValueName::K => "k",
            ValueName::Radius => "radius",
            ValueName::Sigma => "sigma",
            ValueName::Beta => "beta",
            ValueName::Bound => "bound",
            ValueName::Workers => "workers",
            ValueName::Back => "back",
            ValueName::Gap => "gap",
            ValueName::Idle => "idle",
            ValueName::N => "N",
            ValueName::T => "T",
            ValueName::Seed => "SEED",
        }
    }

    /// The range; for an option of every command in the unit of its field of `Params`.
    pub fn range(self) -> ValueRange
        ensures { result ≡ range_of self }
    {
        match self {
            ValueName::K => Params::K_RANGE,
            ValueName::Radius => Params::RADIUS_RANGE,
            ValueName::Sigma => Params::SIGMA_RANGE,
            ValueName::Beta => Params::BETA_RANGE,
            ValueName::Bound => Params::BOUND_RANGE,
            ValueName::Workers => Params::WORKERS_RANGE,
            ValueName::Back => Params::BACK_RANGE,
            ValueName::Gap => Params::GAP_RANGE,
            ValueName::Idle => IDLE_RANGE,
            ValueName::N => ValueRange {
                least: 2,
                most: 100,
            },
            ValueName::T => ValueRange {
                least: 1,
                most: 2_000,
            },
            ValueName::Seed => ValueRange {
                least: 0,
                most: u32::MAX,
            },
        }
    }
}
