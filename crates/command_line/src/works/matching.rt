//! `match NET TRACES [--table FILE]`. Serves `read_work` and `program`; decided by `match_kind`.
ghost use Rattle.std.specs.Prelude.{◌≡◌, IfOk};
ghost use Rattle.std.specs.Result.{result_map_both};
ghost use Rattle.command_line.specs.inside.Given.{given_for};
ghost use Rattle.command_line.specs.Work.{AreNumbersWithin, plain_work};
ghost use Rattle.command_line.specs.works.Match.{match_kind};

use crate::fault::WordsFault;
use crate::read::text_of;
use crate::syntax::Form;
use crate::work::{MatchFiles, Work};
use clap::ArgMatches;

/// The syntax of the command.
pub const FORM: Form = Form {
    name: "match",
    options: &["table"],
    arguments: &["NET", "TRACES"],
};

/// The work, with the names from the command line.
pub fn read_match<'a>(found: &ArgMatches<'a>) -> Result<Work<'a>, WordsFault>
    ensures value { result_map_both plain_work (λ fault. fault) result
        ≡ match_kind.work (given_for found.now) }
    ensures within { IfOk result AreNumbersWithin }
{
    match (text_of(found, "NET"), text_of(found, "TRACES")) {
        (Some(network), Some(traces)) => Ok(Work::Match(MatchFiles {
            network,
            traces,
            table: text_of(found, "table"),
        })),
        _ => Err(WordsFault::Usage),
    }
}
