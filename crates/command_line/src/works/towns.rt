//! `town N T SEED`. Serves `read_work` and `program`; decided by `town_kind`.
ghost use Rattle.std.specs.Prelude.{◌≡◌, IfOk};
ghost use Rattle.std.specs.Result.{result_map_both};
ghost use Rattle.cost_model.specs.Options.{IsWithin};
ghost use Rattle.command_line.specs.inside.Given.{given_for};
ghost use Rattle.command_line.specs.Work.{AreNumbersWithin, plain_work};
ghost use Rattle.command_line.specs.Values.{name_of, range_of};
ghost use Rattle.command_line.specs.works.Town.{argument_of, town_kind};

use crate::fault::WordsFault;
use crate::read::{read_value, text_of};
use crate::syntax::Form;
use crate::value::ValueName;
use crate::work::{TownNumbers, Work};
use clap::ArgMatches;

/// The syntax of the command.
pub const FORM: Form = Form {
    name: "town",
    options: &[],
    arguments: &["N", "T", "SEED"],
};

// The value of an argument.
fn read_argument(found: &ArgMatches, name: ValueName) -> Result<u32, WordsFault>
    ensures value { result ≡ argument_of name (given_for found.now (name_of name)) }
    ensures range { IfOk result (IsWithin (range_of name).least (range_of name).most) }
{
    match text_of(found, name.name()) {
        Some(text) => read_value(name, text),
        None => Err(WordsFault::Usage),
    }
}

/// The work, with the numbers from the command line.
#[tactic(auto, unfolding(crate::specs::works::Town::town_of))]
pub fn read_town<'a>(found: &ArgMatches<'a>) -> Result<Work<'a>, WordsFault>
    ensures value { result_map_both plain_work (λ fault. fault) result
        ≡ town_kind.work (given_for found.now) }
    ensures within { IfOk result AreNumbersWithin }
{
    Ok(Work::Town(TownNumbers {
        side: read_argument(found, ValueName::N)?,
        traces: read_argument(found, ValueName::T)?,
        seed: read_argument(found, ValueName::Seed)?,
    }))
}
