//! How the work of a command ends, and its error line. Serves `run`; decided by `Promises`.
ghost use Rattle.std.specs.Prelude.{◌≡◌, IsOk};
ghost use Rattle.edge_io.specs.Sink.{Puts};
ghost use Rattle.program_frame.specs.Stops.{IsRefusalOr, IsStarved, Reports, line_of_result, refusal_status, status_after, stop_line, stop_status, stop_status_after};

use edge_io::{Put, Sink};
use plain_list::List;
use std::alloc::{AllocError, Global};

/// A file that a command reads.
#[derive(Clone, Copy)]
pub enum File {
    Network,
    Table,
    Traces,
    Certificate,
}

/// What can be refused.
#[derive(Clone, Copy)]
pub enum Refusal {
    Words,
    Network,
    Traces,
    Certificate,
    TooLong,
    Table,
}

/// Why the work of a command ended early.
#[derive(Drop)]
pub enum Stop {
    /// The words or a file were refused, with this line.
    Refused(Refusal, List<u8>),
    NoMemory,
    /// Reading this file failed.
    Unread(File),
    /// Writing to the output failed.
    Unwritten,
}

impl From<AllocError> for Stop {
    ghost use Rattle.program_frame.specs.declared.stop.Stop.TheVariants.{NoMemory};

    ghost from_gives = { λ _ stop. stop ≡ NoMemory };

    fn from(_error: AllocError) -> Stop {
        Stop::NoMemory
    }
}

impl Refusal {
    fn status(self) -> u8
        ensures { result ≡ refusal_status self }
    {
        match self {
            Refusal::Words => 2,
            Refusal::Network => 5,
            Refusal::Traces => 6,
            Refusal::Certificate => 7,
            Refusal::TooLong => 8,
            Refusal::Table => 9,
        }
    }
}

impl Stop {
    fn line(&self) -> &[u8]
        ensures { result.now ≡ stop_line self.now }
    {
        match self {
            Stop::Refused(_, line) => line.as_slice(),
            Stop::NoMemory => b"fmm: out of memory\n",
            Stop::Unread(File::Network) => b"fmm: cannot read network\n",
            Stop::Unread(File::Table) => b"fmm: cannot read table\n",
            Stop::Unread(File::Traces) => b"fmm: cannot read traces\n",
            Stop::Unread(File::Certificate) => b"fmm: cannot read certificate\n",
            Stop::Unwritten => b"fmm: write failed\n",
        }
    }

    fn status(&self) -> u8
        ensures { result ≡ stop_status self.now }
    {
        match self {
            Stop::Refused(refusal, _) => refusal.status(),
            Stop::NoMemory => 1,
            Stop::Unread(_) => 3,
            Stop::Unwritten => 4,
        }
    }
}

// Writes the line of an early end to the error output.
fn say<E: Sink>(ended: &Result<(), Stop>, err: &mut E) -> Put
    ensures put { Puts (E.state err.old) (E.state err.new) (line_of_result ended.now) result }
    ensures quiet { IsOk ended.now → result ≡ Put.All }
{
    match ended {
        Ok(()) => Put::All,
        Err(stop) => err.put(stop.line()),
    }
}

// The status of a run that ended this way, after this put of its line.
fn status_after(ended: &Result<(), Stop>, put: Put) -> u8
    ensures { result ≡ status_after ended.now put }
{
    match ended {
        Ok(()) => 0,
        Err(stop) => stop_status_after(stop, put),
    }
}

fn stop_status_after(stop: &Stop, put: Put) -> u8
    ensures { result ≡ stop_status_after stop.now put }
{
    match (put, stop) {
        (Put::All, _) => stop.status(),
        (Put::Failed, _) | (Put::NoMemory, Stop::Unwritten) => 4,
        (Put::NoMemory, _) => 1,
    }
}

/// Writes the line of an early end to the error output, and returns the status of the run.
pub fn report<E: Sink>(ended: &Result<(), Stop>, err: &mut E) -> u8
    ensures { Reports (E.state err.old) (E.state err.new) ended.now result }
{
    let put = say(ended, err);
    status_after(ended, put)
}

/// Reports on the error output that the run was out of memory before it began, and returns the status.
pub fn end_without_memory<E: Sink>(err: &mut E) -> u8
    ensures { IsStarved (E.state err.old) (E.state err.new) result }
{
    let ended = Err(Stop::NoMemory);
    report(&ended, err)
}

/// The early end for a refusal with this line.
pub fn refuse(alloc: Global, refusal: Refusal, line: &[u8]) -> Stop
    ensures { IsRefusalOr refusal line.now result }
{
    let mut copy = List::new(alloc);
    match copy.extend_from_slice(line) {
        Ok(()) => Stop::Refused(refusal, copy),
        Err(_) => Stop::NoMemory,
    }
}
