//! The value of a name on the command line. Serves `read_command`; decided by `options_of`.
ghost use Rattle.std.specs.Prelude.{◌≡◌, IfOk, option_map};
ghost use Rattle.cost_model.specs.Options.{IsAccepted, IsWithin};
ghost use Rattle.command_line.specs.inside.Given.{given_for};
ghost use Rattle.command_line.specs.Options.{option_of, options_of};
ghost use Rattle.command_line.specs.inside.Halves.{limits_of, model_of};
ghost use Rattle.command_line.specs.Values.{name_of, range_of, value_of};

use crate::fault::WordsFault;
use crate::value::ValueName;
use clap::ArgMatches;
use cost_model::Params;
use decimal_text::parse_unsigned;

/// The text given for a name.
pub fn text_of<'a>(found: &ArgMatches<'a>, name: &str) -> Option<&'a str>
    ensures { option_map (λ text. text.now) result ≡ given_for found.now name.now }
{
    found.get_str(name)
}

/// The options that the words give, and defaults for the others.
#[tactic(auto, using(crate::proofs::Halves::in_halves))]
pub fn read_options(found: &ArgMatches) -> Result<Params, WordsFault>
    ensures value { result ≡ options_of (given_for found.now) }
    ensures accepted { IfOk result IsAccepted }
{
    let params = read_model(found)?;
    read_limits(found, params)
}

// The options that decide which roads and costs a point has, and defaults for the others.
#[tactic(auto, unfolding(crate::specs::inside::Halves::model_of))]
fn read_model(found: &ArgMatches) -> Result<Params, WordsFault>
    ensures value { result ≡ model_of (given_for found.now) }
    ensures accepted { IfOk result IsAccepted }
{
    let default = Params::DEFAULT;
    Ok(Params {
        k: read_option(found, ValueName::K, default.k)?,
        radius: read_option(found, ValueName::Radius, default.radius)?,
        sigma: read_option(found, ValueName::Sigma, default.sigma)?,
        beta: read_option(found, ValueName::Beta, default.beta)?,
        ..default
    })
}

// The options that limit walks, workers and pieces, and defaults for the others.
#[tactic(auto, unfolding(crate::specs::inside::Halves::limits_of))]
fn read_limits(found: &ArgMatches, model: Params) -> Result<Params, WordsFault>
    requires { IsAccepted model }
    ensures value { result ≡ limits_of (given_for found.now) model }
    ensures accepted { IfOk result IsAccepted }
{
    let default = Params::DEFAULT;
    Ok(Params {
        bound: read_option(found, ValueName::Bound, default.bound)?,
        workers: read_option(found, ValueName::Workers, default.workers)?,
        back: read_option(found, ValueName::Back, default.back)?,
        gap: read_option(found, ValueName::Gap, default.gap)?,
        ..model
    })
}

/// The value of an option, or its default.
pub fn read_option(found: &ArgMatches, name: ValueName, default: u32) -> Result<u32, WordsFault>
    requires { IsWithin (range_of name).least (range_of name).most default }
    ensures value { result ≡ option_of name default (given_for found.now) }
    ensures range { IfOk result (IsWithin (range_of name).least (range_of name).most) }
{
    match text_of(found, name.name()) {
        Some(text) => read_value(name, text),
        None => Ok(default),
    }
}

/// The value that a text gives for this name.
#[tactic(auto, unfolding(crate::specs::Values::value_of))]
pub fn read_value(name: ValueName, text: &str) -> Result<u32, WordsFault>
    ensures value { result ≡ value_of name text.now }
    ensures range { IfOk result (IsWithin (range_of name).least (range_of name).most) }
{
    let range = name.range();
    match parse_unsigned(text.as_bytes(), u64::from(range.most)) {
        Ok(value) if value >= u64::from(range.least) => Ok(value as u32),
        _ => Err(WordsFault::BadValue(name)),
    }
}
