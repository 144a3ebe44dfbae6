//! `table NET`. Serves `read_work` and `program`; decided by `table_kind`.
ghost use Rattle.std.specs.Prelude.{◌≡◌};
ghost use Rattle.std.specs.Result.{result_map_both};
ghost use Rattle.command_line.specs.inside.Given.{given_for};
ghost use Rattle.command_line.specs.Work.{plain_work};
ghost use Rattle.command_line.specs.works.Table.{table_kind};

use crate::fault::WordsFault;
use crate::read::text_of;
use crate::syntax::Form;
use crate::work::{TableFiles, Work};
use clap::ArgMatches;

/// The syntax of the command.
pub const FORM: Form = Form {
    name: "table",
    options: &[],
    arguments: &["NET"],
};

/// The work, with the name from the command line.
pub fn read_table<'a>(found: &ArgMatches<'a>) -> Result<Work<'a>, WordsFault>
    ensures { result_map_both plain_work (λ fault. fault) result
        ≡ table_kind.work (given_for found.now) }
{
    match text_of(found, "NET") {
        Some(network) => Ok(Work::Table(TableFiles { network })),
        None => Err(WordsFault::Usage),
    }
}
