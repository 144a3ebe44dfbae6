//! The top call: the work of the words, the error line, and the status. Serves `main`; decided
//! by `Promises`.
ghost use Rattle.std.specs.Prelude.{Ok, option_map};
ghost use Rattle.command_line.specs.Work.{AreNumbersWithin, plain};
ghost use Rattle.cost_model.specs.Options.{IsAccepted};
ghost use Rattle.program_frame.specs.Performs.{Performs};
ghost use Rattle.program_frame.specs.Promises.{Promises};
ghost use Rattle.program_run.specs.RunLines.{PromisesWithin, run_lines};
ghost use Rattle.program_run.specs.Words.{asked_plan, command_plan, match_files_plan};

use check_work::check_traces;
use command_line::{Command, MatchFiles, Work, read_command};
use edge_io::{Shelf, Sink};
use follow_work::{follow_traces, stream_traces};
use match_pool::Gate;
use match_work::{Env, match_town, match_traces, match_with_table};
use program_frame::{Refusal, Request, Stop, refuse_fault, report};
use prove_work::prove_traces;
use road_network::NetworkLimits;
use std::alloc::Global;
use std::thread::Threads;
use table_work::write_table;

/// A program: the limits within which it takes networks, and what its workers need of outside.
#[derive(Clone, Copy)]
pub struct Program<'a, R, G> {
    pub limits: NetworkLimits,
    pub env: Env<'a, R, G>,
}

// The work of `match`, with a table file or without one.
fn match_files<R: Threads + Sync, G: Gate, S: Shelf, K: Sink>(
    env: &Env<'_, R, G>,
    request: &Request<MatchFiles<'_>>,
    shelf: &mut S,
    out: &mut K,
) -> Result<(), Stop>
    requires { IsAccepted request.now.options }
    ensures { Performs (Ok (match_files_plan request.now.limits request.now.files.network.now
        request.now.files.traces.now (option_map (λ name. name.now) request.now.files.table)
        request.now.options))
        (S.state shelf.old) (S.state shelf.new) (K.state out.old) (K.state out.new) result }
{
    match request.files.table {
        None => match_traces(env, request, shelf, out),
        Some(table) => match_with_table(env, request, table, shelf, out),
    }
}

// The work of a command; leaves the error output alone.
fn perform<R: Threads + Sync, G: Gate, S: Shelf, K: Sink>(
    program: &Program<'_, R, G>,
    command: Command<'_>,
    shelf: &mut S,
    out: &mut K,
) -> Result<(), Stop>
    requires options { IsAccepted command.options }
    requires within { AreNumbersWithin command.work }
    ensures { Performs (Ok (command_plan program.now.limits (plain command.entry)))
        (S.state shelf.old) (S.state shelf.new) (K.state out.old) (K.state out.new) result }
{
    let limits = program.limits;
    let env = &program.env;
    let alloc = env.alloc;
    let options = command.options;
    match command.work {
        Work::Match(files) => {
            let request = Request::new(files, limits, options);
            match_files(env, &request, shelf, out)
        }
        Work::Follow(files) => {
            let request = Request::new(files, limits, options);
            follow_traces(alloc, &request, shelf, out)
        }
        Work::Streams(files) => {
            let request = Request::new(files, limits, options);
            stream_traces(alloc, &request, shelf, out)
        }
        Work::Prove(files) => {
            let request = Request::new(files, limits, options);
            prove_traces(alloc, &request, shelf, out)
        }
        Work::Check(files) => {
            let request = Request::new(files, limits, options);
            check_traces(env.rt, alloc, &request, shelf, out)
        }
        Work::Table(files) => {
            let request = Request::new(files, limits, options);
            write_table(alloc, &request, shelf, out)
        }
        Work::Town(numbers) => match_town(env, numbers, options, out),
    }
}

/// Runs the command that the words ask for, for a network file within the program's limits, and writes the reason
/// of an early end to the error output. The status is 0 if the run is done, 1 when out of memory, 2 if the
/// words are refused, 3 if a file was not read, 4 if a write failed, 5 if the network is refused, 6 the
/// traces, 7 the certificate, 8 if a table or certificate is too long, 9 if the table file is refused. The
/// gate is called for each trace that is matched.
pub fn run_within<R: Threads + Sync, G: Gate, S: Shelf, K: Sink, E: Sink>(
    program: &Program<'_, R, G>,
    words: &[String],
    shelf: &mut S,
    out: &mut K,
    err: &mut E,
) -> u8
    ensures { PromisesWithin program.now.limits words.now (S.state shelf.old) (S.state shelf.new)
        (K.state out.old) (K.state out.new) (E.state err.old) (E.state err.new) result }
{
    let alloc = program.env.alloc;
    match read_command(alloc, words) {
        Ok(command) => {
            let ended = perform(program, command, shelf, out);
            report(&ended, err)
        }
        Err(fault) => {
            let refused = Err(refuse_fault(alloc, Refusal::Words, &fault));
            report(&refused, err)
        }
    }
}

/// [`run_within`] the standard limits of a network: the whole program `fmm`.
pub fn run<R: Threads + Sync, G: Gate, S: Shelf, K: Sink, E: Sink>(
    rt: &R,
    alloc: Global,
    words: &[String],
    shelf: &mut S,
    out: &mut K,
    err: &mut E,
    gate: &G,
) -> u8
    ensures { Promises run_lines (asked_plan words.now) (S.state shelf.old) (S.state shelf.new)
        (K.state out.old) (K.state out.new) (E.state err.old) (E.state err.new) result }
{
    let program = Program {
        limits: NetworkLimits::Standard,
        env: Env { rt, alloc, gate },
    };
    run_within(&program, words, shelf, out, err)
}
