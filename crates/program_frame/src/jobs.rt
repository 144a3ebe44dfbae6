//! What a job does with the traces of a file. Serves `work_traces`; decided by `traces_give`.
ghost use Rattle.std.specs.Prelude.{◌≡◌, ◌++◌, Bool, List as ListOf, OnOk};
ghost use Rattle.trace_reader.specs.declared.trace.Trace.{Trace};
ghost use Rattle.program_frame.specs.Jobs.{CanTake, HasTaken, JobText, TakesMore};

use crate::stop::Stop;
use plain_list::List;
use std::alloc::{AllocError, Global};
use trace_reader::Trace;

/// The processing of a file's traces, which come batch by batch.
pub trait Job {
    /// The text that the job makes of the traces.
    ghost text: { Self → JobText };

    /// The job has taken these traces.
    ghost has: { Self → ListOf Trace → Type 0 };

    /// The text is written after each read of the file, instead of after each full batch.
    ghost each_read: { Bool };

    /// Whether the text is written after each read.
    fn puts_each_read(&self) -> bool
        ensures { result ≡ each_read };

    /// Takes more traces, and appends their text. If the job refuses one of them, it appends the
    /// text up to that trace, and returns the refusal.
    fn take(&mut self, alloc: Global, traces: &[Trace], into: &mut List<u8>) -> Result<(), Stop>
        requires { CanTake (has self.old) traces.now }
        ensures text { text self.new ≡ text self.old }
        ensures takes { TakesMore (text self.old) (has self.old) (has self.new)
            traces.now into.old into.new result };

    /// Appends the text that follows that of all traces.
    fn finish(&mut self, alloc: Global, into: &mut List<u8>) -> Result<(), AllocError>
        requires { HasTaken (has self.old) }
        ensures { (taken : ListOf Trace) → has self.old taken
            → OnOk result (into.new ≡ into.old ++ (text self.old).ending taken) };
}
