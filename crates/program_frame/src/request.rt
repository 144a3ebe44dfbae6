//! What a command is asked for. Serves the commands.
ghost use Rattle.std.specs.Prelude.{◌≡◌};

use cost_model::Params;
use road_network::NetworkLimits;

/// What a command is asked for: its files, as the words name them, the limits of their network, and the
/// options.
#[derive(Clone, Copy)]
pub struct Request<F> {
    pub files: F,
    pub limits: NetworkLimits,
    pub options: Params,
}

impl<F> Request<F> {
    /// These files, within these limits and by these options.
    pub fn new(files: F, limits: NetworkLimits, options: Params) -> Self
        ensures files { result.files ≡ files }
        ensures limits { result.limits ≡ limits }
        ensures options { result.options ≡ options }
    {
        Request {
            files,
            limits,
            options,
        }
    }
}
