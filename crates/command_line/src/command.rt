//! The command that the words ask for. Serves `run`; decided by `command_of`.
ghost use Rattle.std.specs.Prelude.{◌≡◌, ◌≢◌, ◌⊎◌, map, string_bytes, Ok, Err, IfOk, IfErr};
ghost use Rattle.std.specs.Result.{result_map_both};
ghost use Rattle.clap.specs.Words.{kind_of, subcommand_rows_of};
ghost use Rattle.cost_model.specs.Options.{IsAccepted};
ghost use Rattle.command_line.specs.inside.Given.{given_for};
ghost use Rattle.command_line.specs.Syntax.{all_kinds};
ghost use Rattle.command_line.specs.Work.{AreNumbersWithin, plain, plain_work};
ghost use Rattle.command_line.specs.Words.{command_named, command_of, entered_of, work_of};

use crate::fault::WordsFault;
use crate::read::read_options;
use crate::syntax::program;
use crate::work::{Command, Work};
use crate::works::checking::read_check;
use crate::works::matching::read_match;
use crate::works::streaming::read_streams;
use crate::works::table::read_table;
use crate::works::towns::read_town;
use crate::works::trace_files::{read_follow, read_prove};
use clap::ArgMatches;
use clap::error::ErrorKind;
use std::alloc::Global;

/// The command that the words ask for. The program's name is not among the words. `Memory` may come
/// in place of any other answer.
pub fn read_command<'a>(alloc: Global, words: &'a [String]) -> Result<Command<'a>, WordsFault>
    ensures ok { IfOk result
        (λ command. command_of (map string_bytes words.now) ≡ Ok (plain command)) }
    ensures err { IfErr result (λ fault. (fault ≡ WordsFault.Memory)
        ⊎ (command_of (map string_bytes words.now) ≡ Err fault)) }
    ensures accepted { IfOk result (λ command. IsAccepted command.options) }
    ensures within { IfOk result (λ command. AreNumbersWithin command.work) }
{
    let matches = match program(alloc)?.try_get_matches_from(words) {
        Ok(matches) => matches,
        Err(error) => return Err(refusal_of(&error)),
    };
    command_in(&matches)
}

// The kind of a refusal does not matter, except whether it was out of memory.
fn refusal_of(error: &clap::Error) -> WordsFault
    ensures memory { kind_of error.now ≡ ErrorKind.OutOfMemory → result ≡ WordsFault.Memory }
    ensures usage { kind_of error.now ≢ ErrorKind.OutOfMemory → result ≡ WordsFault.Usage }
    ensures either { (result ≡ WordsFault.Memory) ⊎ (result ≡ WordsFault.Usage) }
{
    match error.kind() {
        ErrorKind::OutOfMemory => WordsFault::Memory,
        _ => WordsFault::Usage,
    }
}

fn command_in<'a>(matches: &ArgMatches<'a>) -> Result<Command<'a>, WordsFault>
    ensures value { result_map_both plain (λ fault. fault) result
        ≡ entered_of (subcommand_rows_of matches.now) }
    ensures accepted { IfOk result (λ command. IsAccepted command.options) }
    ensures within { IfOk result (λ command. AreNumbersWithin command.work) }
{
    match matches.subcommand() {
        Some((name, found)) => command_named(name, found),
        None => Err(WordsFault::Usage),
    }
}

#[tactic(auto, unfolding(crate::specs::Words::command_named))]
fn command_named<'a>(name: &str, found: &ArgMatches<'a>) -> Result<Command<'a>, WordsFault>
    ensures value { result_map_both plain (λ fault. fault) result
        ≡ command_named name.now (given_for found.now) }
    ensures accepted { IfOk result (λ command. IsAccepted command.options) }
    ensures within { IfOk result (λ command. AreNumbersWithin command.work) }
{
    let options = read_options(found)?;
    let work = read_work(name, found)?;
    Ok(Command { work, options })
}

fn read_work<'a>(name: &str, found: &ArgMatches<'a>) -> Result<Work<'a>, WordsFault>
    ensures value { result_map_both plain_work (λ fault. fault) result
        ≡ work_of all_kinds name.now (given_for found.now) }
    ensures within { IfOk result AreNumbersWithin }
{
    match name {
        "match" => read_match(found),
        "follow" => read_follow(found),
        "streams" => read_streams(found),
        "prove" => read_prove(found),
        "check" => read_check(found),
        "table" => read_table(found),
        "town" => read_town(found),
        _ => Err(WordsFault::Usage),
    }
}
