//! `run` through the adapters of the shipped program, over any files and streams; decided by `WritesOutcome`.
ghost use Rattle.edge_io.specs.Files.{lookup};
ghost use Rattle.program_run.specs.OverStreams.{LeavesOutcome, WritesOutcome};
ghost use Rattle.program_run.specs.Words.{asked_plan};

use crate::top::run;
use edge_io::{FileShelf, FileSource, NamedFiles, StreamSink};
use match_pool::{Gate, OpenGate};
use match_work::Env;
use plain_list::List;
use std::alloc::Global;
use std::io::Write;
use std::thread::Threads;

/// Runs the program over the files of a source and two streams. Returns the status and the streams.
pub fn run_over<R: Threads + Sync, G: Gate, F: FileSource + Drop, W: Write + Drop, X: Write + Drop>(
    env: &Env<'_, R, G>,
    words: &[String],
    files: F,
    out: W,
    err: X,
) -> (u8, W, X)
    ensures { WritesOutcome (asked_plan words.now) (F.holds files)
        (W.contents out) (W.contents result.1) (X.contents err) (X.contents result.2) result.0 }
{
    let mut shelf = FileShelf::new(env.alloc, files);
    let mut out = StreamSink::new(out);
    let mut err = StreamSink::new(err);
    let status = run(
        env.rt, env.alloc, words, &mut shelf, &mut out, &mut err, env.gate,
    );
    (status, out.into_stream(), err.into_stream())
}

/// [`run_over`] named files and two vectors. Returns the status and what was written to each output.
pub fn run_over_bytes<R: Threads + Sync>(
    rt: &R,
    alloc: Global,
    words: &[String],
    files: &[(List<u8>, List<u8>)],
) -> (u8, Vec<u8>, Vec<u8>)
    ensures { LeavesOutcome (asked_plan words.now) (lookup files.now)
        result.1.items result.2.items result.0 }
{
    let env = Env {
        rt,
        alloc,
        gate: &OpenGate,
    };
    let files = NamedFiles(files);
    run_over(&env, words, files, Vec::new(alloc), Vec::new(alloc))
}
