//! `follow` and `prove`, each with `NET TRACES`. Serves `read_work` and `program`; decided by
//! `trace_files_kind`.
ghost use Rattle.std.specs.Prelude.{◌≡◌, IfOk, codes};
ghost use Rattle.std.specs.Result.{result_map_both};
ghost use Rattle.command_line.specs.inside.Given.{given_for};
ghost use Rattle.command_line.specs.Work.{AreNumbersWithin, plain_work};
ghost use Rattle.command_line.specs.works.TraceFiles.{file_names, follow_kind, prove_kind};

use crate::fault::WordsFault;
use crate::read::text_of;
use crate::syntax::Form;
use crate::work::{TraceFiles, Work};
use clap::ArgMatches;

/// The syntax of `follow`.
pub const FOLLOW: Form = Form {
    name: "follow",
    options: &[],
    arguments: &["NET", "TRACES"],
};

/// The syntax of `prove`.
pub const PROVE: Form = Form {
    name: "prove",
    options: &[],
    arguments: &["NET", "TRACES"],
};

/// The names that the words give for `NET` and `TRACES`.
pub fn file_names<'a>(found: &ArgMatches<'a>) -> Result<TraceFiles<'a>, WordsFault>
    ensures { result_map_both (λ names. (names.network.now, names.traces.now)) (λ fault. fault) result
        ≡ file_names (given_for found.now) }
{
    match (text_of(found, "NET"), text_of(found, "TRACES")) {
        (Some(network), Some(traces)) => Ok(TraceFiles { network, traces }),
        _ => Err(WordsFault::Usage),
    }
}

/// The work of `follow`.
pub fn read_follow<'a>(found: &ArgMatches<'a>) -> Result<Work<'a>, WordsFault>
    ensures value { result_map_both plain_work (λ fault. fault) result
        ≡ follow_kind.work (given_for found.now) }
    ensures within { IfOk result AreNumbersWithin }
{
    Ok(Work::Follow(file_names(found)?))
}

/// The work of `prove`.
pub fn read_prove<'a>(found: &ArgMatches<'a>) -> Result<Work<'a>, WordsFault>
    ensures value { result_map_both plain_work (λ fault. fault) result
        ≡ prove_kind.work (given_for found.now) }
    ensures within { IfOk result AreNumbersWithin }
{
    Ok(Work::Prove(file_names(found)?))
}
