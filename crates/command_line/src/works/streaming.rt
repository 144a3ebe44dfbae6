//! `streams NET TRACES [--idle S]`. Serves `read_work` and `program`; decided by `streams_kind`.
ghost use Rattle.std.specs.Prelude.{◌≡◌, IfOk};
ghost use Rattle.std.specs.Result.{result_map_both};
ghost use Rattle.command_line.specs.inside.Given.{given_for};
ghost use Rattle.command_line.specs.Work.{AreNumbersWithin, plain_work};
ghost use Rattle.command_line.specs.works.Streams.{streams_kind};

use crate::fault::WordsFault;
use crate::read::read_option;
use crate::syntax::Form;
use crate::value::ValueName;
use crate::work::{StreamFiles, TraceFiles, Work};
use crate::works::trace_files::file_names;
use clap::ArgMatches;

/// The syntax of the command.
pub const FORM: Form = Form {
    name: "streams",
    options: &["idle"],
    arguments: &["NET", "TRACES"],
};

/// After how many seconds without a row a drive ends, if the words do not say: no two times of a file
/// are further apart, so that no drive ends before the file does.
const DEFAULT_IDLE: u32 = u32::MAX;

/// The work, with the names and the number from the command line.
pub fn read_streams<'a>(found: &ArgMatches<'a>) -> Result<Work<'a>, WordsFault>
    ensures value { result_map_both plain_work (λ fault. fault) result
        ≡ streams_kind.work (given_for found.now) }
    ensures within { IfOk result AreNumbersWithin }
{
    let TraceFiles { network, traces } = file_names(found)?;
    let idle = read_option(found, ValueName::Idle, DEFAULT_IDLE)?;
    Ok(Work::Streams(StreamFiles {
        network,
        traces,
        idle,
    }))
}
