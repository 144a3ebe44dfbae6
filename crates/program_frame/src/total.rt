//! The counts of the total line. Serves the jobs; decided by `total_line`.
ghost use Rattle.std.specs.Prelude.{◌≡◌, ◌+◌, ◌++◌, ◌<◌, ◌^◌, length, OnOk};
ghost use Rattle.program_frame.specs.Jobs.{position_count};

use decimal_text::write_worded;
use plain_list::List;
use std::alloc::AllocError;
use trace_reader::Trace;

/// The numbers of traces, positions and pieces so far.
#[derive(Clone, Copy)]
pub struct Tally {
    pub traces: u64,
    pub points: u64,
    pub pieces: u64,
}

// How many positions the traces have.
fn count_points(traces: &[Trace]) -> u64
    requires { position_count traces.now < 2 ^ 63 }
    ensures { result ≡ position_count traces.now }
{
    traces.iter().map(|trace| trace.fixes.len() as u64).sum()
}

impl Tally {
    ghost use Rattle.program_frame.specs.Total.{AddsCounts, CountsFit, total_line};

    pub const NONE: Tally = Tally {
        traces: 0,
        points: 0,
        pieces: 0,
    };

    /// Counts these traces and this many pieces.
    pub fn add(&mut self, traces: &[Trace], pieces: u64)
        requires { CountsFit traces.now pieces self.old }
        ensures { AddsCounts traces.now pieces self.old self.new }
    {
        self.traces += traces.len() as u64;
        self.points += count_points(traces);
        self.pieces += pieces;
    }

    /// Appends the total line of a run that asked for the rows of this many nodes.
    pub fn append_line(self, rows: u64, into: &mut List<u8>) -> Result<(), AllocError>
        ensures { OnOk result
            (into.new ≡ into.old ++ total_line self.traces self.points self.pieces rows) }
    {
        write_worded(b"total traces ", self.traces, into)?;
        write_worded(b" points ", self.points, into)?;
        write_worded(b" pieces ", self.pieces, into)?;
        write_worded(b" rows ", rows, into)?;
        into.extend_from_slice(b"\n")
    }
}
