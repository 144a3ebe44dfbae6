//! The job of `streams` where drives end. Serves `stream_traces`; decided by `drives_job`.
ghost use Rattle.std.specs.Prelude.{◌≡◌, [], true, IfOk};
ghost use Rattle.cost_model.specs.Options.{IsAccepted};
ghost use Rattle.follow_work.specs.Drives.{drives_job};
ghost use Rattle.follow_work.specs.inside.DrivesDone.{HasDriven};

use crate::drives::Drives;
use plain_list::List;
use program_frame::{Job, Stop};
use std::alloc::{AllocError, Global};
use trace_match::Matcher;
use trace_reader::Trace;

// Passes the positions of fragments to drives, which end after this many seconds.
#[derive(Drop)]
pub(crate) struct DriveJob<'m> {
    matcher: &'m Matcher<'m>,
    idle: u32,
    drives: Drives<'m>,
}

impl<'m> DriveJob<'m> {
    pub(crate) fn open(
        alloc: Global,
        matcher: &'m Matcher<'m>,
        idle: u32,
    ) -> Result<Self, AllocError>
        requires { IsAccepted matcher.now.params }
        ensures text { IfOk result (λ job. ⟦<DriveJob<'m> as Job>⟧.text job ≡ drives_job matcher.now idle) }
        ensures begun { IfOk result (λ job. ⟦<DriveJob<'m> as Job>⟧.has job []) }
    {
        let drives = Drives::open(alloc, matcher)?;
        Ok(DriveJob {
            matcher,
            idle,
            drives,
        })
    }
}

impl<'m> Job for DriveJob<'m> {
    ghost text = { λ job. drives_job job.matcher.now job.idle };

    ghost has = { λ job traces. HasDriven job.matcher.now job.idle job.drives traces };

    ghost each_read = { true };

    // The lines of a position are written as soon as the row after it was read.
    fn puts_each_read(&self) -> bool {
        true
    }

    fn take(&mut self, _alloc: Global, traces: &[Trace], into: &mut List<u8>) -> Result<(), Stop> {
        self.drives.take_fragments(self.idle, traces, into)?;
        Ok(())
    }

    fn finish(&mut self, _alloc: Global, into: &mut List<u8>) -> Result<(), AllocError> {
        self.drives.finish(into)
    }
}
