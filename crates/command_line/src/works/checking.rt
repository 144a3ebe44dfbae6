//! `check NET TRACES CERT`. Serves `read_work` and `program`; decided by `check_kind`.
ghost use Rattle.std.specs.Prelude.{◌≡◌, IfOk};
ghost use Rattle.std.specs.Result.{result_map_both};
ghost use Rattle.command_line.specs.inside.Given.{given_for};
ghost use Rattle.command_line.specs.Work.{AreNumbersWithin, plain_work};
ghost use Rattle.command_line.specs.works.Check.{check_kind};

use crate::fault::WordsFault;
use crate::read::text_of;
use crate::syntax::Form;
use crate::work::{CheckFiles, Work};
use clap::ArgMatches;

/// The syntax of the command.
pub const FORM: Form = Form {
    name: "check",
    options: &[],
    arguments: &["NET", "TRACES", "CERT"],
};

/// The work, with the names from the command line.
pub fn read_check<'a>(found: &ArgMatches<'a>) -> Result<Work<'a>, WordsFault>
    ensures value { result_map_both plain_work (λ fault. fault) result
        ≡ check_kind.work (given_for found.now) }
    ensures within { IfOk result AreNumbersWithin }
{
    match (
        text_of(found, "NET"),
        text_of(found, "TRACES"),
        text_of(found, "CERT"),
    ) {
        (Some(network), Some(traces), Some(certificate)) => Ok(Work::Check(CheckFiles {
            network,
            traces,
            certificate,
        })),
        _ => Err(WordsFault::Usage),
    }
}
