//! Traces read from chunks of a file, and passed to a job batch by batch. Serves `work_traces`; decided
//! by `bytes_give`.
ghost use Rattle.std.specs.Prelude.{◌≡◌, ◌≤◌, ◌<◌, ◌^◌, [], true, IfOk, OnOk, length, drop};
ghost use Rattle.trace_reader.specs.Reader.{StandsFor};
ghost use Rattle.program_frame.specs.inside.BatchSteps.{PutsBefore};
ghost use Rattle.program_frame.specs.Jobs.{HasTaken, JobText};

use crate::fault_line::refuse_fault;
use crate::jobs::Job;
use crate::stop::{Refusal, Stop};
use crate::texts::put_text;
use edge_io::Sink;
use plain_list::List;
use std::alloc::Global;
use trace_reader::{Trace, TraceFault, TraceReader};

// The number of traces in a batch. Speed only: any value is right.
const BATCH: usize = 256;

/// The traces of a file that is read in chunks: the closed traces that the job has not taken yet.
pub struct Batches<J: Drop> {
    reader: TraceReader,
    waiting: List<Trace>,
    job: J,
}

// By hand, so that the functions that drop one call this.
impl<J: Drop> Drop for Batches<J> {
    fn drop(self) {
        let Batches {
            reader: _,
            waiting: _,
            job: _,
        } = self;
    }
}

// Puts the text before a refusal of the job.
fn put_before<K: Sink>(out: &mut K, text: &[u8], stop: Stop) -> Stop
    ensures { PutsBefore (K.state out.old) (K.state out.new) text.now stop result }
{
    if let Stop::Refused(_, _) = &stop {
        if let Err(unput) = put_text(out, text) {
            return unput;
        }
    }
    stop
}

// The rest of a chunk after this many bytes.
fn behind(chunk: &[u8], taken: usize) -> &[u8]
    requires { taken ≤ length chunk.now }
    ensures { result.now ≡ drop taken chunk.now }
{
    &chunk[taken..]
}

impl<J: Job + Drop> Batches<J> {
    ghost use Rattle.program_frame.specs.inside.BatchSteps.{FinishesBatches, HoldsTraces, IsReadyForChunk, PutsEnding, Refuses, TakesNextChunk, TakesFront, Writes, WritesRead};

    /// The state before the first read.
    pub fn open(alloc: Global, job: J) -> Batches<J>
        ensures stands { StandsFor result.reader [] }
        ensures waiting { result.waiting ≡ [] }
        ensures job { result.job ≡ job }
    {
        Batches {
            reader: TraceReader::open(alloc),
            waiting: List::new(alloc),
            job,
        }
    }

    // Passes all waiting traces to the job, and writes their text.
    fn write<K: Sink>(&mut self, alloc: Global, out: &mut K) -> Result<(), Stop>
        requires { HoldsTraces J.text J.has self.old (K.state out.old) }
        ensures text { J.text self.new.job ≡ J.text self.old.job }
        ensures reader { self.new.reader ≡ self.old.reader }
        ensures writes { Writes J.text J.has self.old self.new
            (K.state out.old) (K.state out.new) result }
    {
        if self.waiting.as_slice().is_empty() {
            return Ok(());
        }
        let mut text = List::new(alloc);
        match self.job.take(alloc, self.waiting.as_slice(), &mut text) {
            Ok(()) => put_text(out, text.as_slice())?,
            Err(stop) => return Err(put_before(out, text.as_slice(), stop)),
        }
        self.waiting.truncate(0);
        Ok(())
    }

    // Writes the waiting traces, which were closed before a fault, and refuses the file for the fault.
    fn refuse<K: Sink>(&mut self, alloc: Global, fault: TraceFault, out: &mut K) -> Stop
        requires { HoldsTraces J.text J.has self.old (K.state out.old) }
        ensures text { J.text self.new.job ≡ J.text self.old.job }
        ensures refuses { Refuses J.text J.has self.old
            (K.state out.old) (K.state out.new) fault result }
    {
        if let TraceFault::Memory = fault {
            return Stop::NoMemory;
        }
        match self.write(alloc, out) {
            Ok(()) => refuse_fault(alloc, Refusal::Traces, &fault),
            Err(stop) => stop,
        }
    }

    // Takes bytes of a chunk until a batch of traces waits, writes the batch, and returns how many bytes
    // were taken.
    fn take_some<K: Sink>(
        &mut self,
        alloc: Global,
        chunk: &[u8],
        out: &mut K,
    ) -> Result<usize, Stop>
        requires ready { IsReadyForChunk J.text J.has self.old (K.state out.old) }
        requires sizes { (1 ≤ length chunk.now) × (length chunk.now < 2 ^ 32) }
        ensures text { J.text self.new.job ≡ J.text self.old.job }
        ensures some { IfOk result (λ taken. (1 ≤ taken) × (taken ≤ length chunk.now)) }
        ensures takes { TakesFront J.text J.has self.old self.new
            (K.state out.old) (K.state out.new) chunk.now result }
    {
        let room = (BATCH - self.waiting.len()) as u32;
        match self.reader.feed_some(chunk, room, &mut self.waiting) {
            Ok(taken) if self.waiting.len() < BATCH => Ok(taken as usize),
            Ok(taken) => {
                self.write(alloc, out)?;
                Ok(taken as usize)
            }
            Err(fault) => Err(self.refuse(alloc, fault, out)),
        }
    }

    // Writes the waiting traces if the job wants its text after each read.
    fn write_read<K: Sink>(&mut self, alloc: Global, out: &mut K) -> Result<(), Stop>
        requires { IsReadyForChunk J.text J.has self.old (K.state out.old) }
        ensures text { J.text self.new.job ≡ J.text self.old.job }
        ensures writes { WritesRead J.text J.has self.old self.new
            (K.state out.old) (K.state out.new) result }
        ensures none_waits { J.each_read ≡ true → OnOk result (self.new.waiting ≡ []) }
    {
        if !self.job.puts_each_read() {
            return Ok(());
        }
        self.write(alloc, out)
    }

    /// Takes the next chunk of the file. Writes each batch of traces that it fills. If the job wants its text after
    /// each read, then writes all that wait, so no text waits for the next read.
    pub fn take_chunk<K: Sink>(
        &mut self,
        alloc: Global,
        chunk: &[u8],
        out: &mut K,
    ) -> Result<(), Stop>
        requires ready { IsReadyForChunk J.text J.has self.old (K.state out.old) }
        requires short { length chunk.now < 2 ^ 32 }
        ensures text { J.text self.new.job ≡ J.text self.old.job }
        ensures takes { TakesNextChunk J.text J.has self.old self.new
            (K.state out.old) (K.state out.new) chunk.now result }
        ensures none_waits { J.each_read ≡ true → OnOk result (self.new.waiting ≡ []) }
    {
        let mut rest = chunk;
        while !rest.is_empty() {
            let taken = self.take_some(alloc, rest, out)?;
            rest = behind(rest, taken);
        }
        self.write_read(alloc, out)
    }

    // Writes the text that follows that of all traces.
    fn put_ending<K: Sink>(&mut self, alloc: Global, out: &mut K) -> Result<(), Stop>
        requires { HasTaken (J.has self.old.job) }
        ensures { PutsEnding (J.text self.old.job) (J.has self.old.job)
            (K.state out.old) (K.state out.new) result }
    {
        let mut text = List::new(alloc);
        self.job.finish(alloc, &mut text)?;
        put_text(out, text.as_slice())
    }

    /// Takes the end of the file. Writes the waiting traces and the text that follows that of all traces.
    pub fn finish<K: Sink>(&mut self, alloc: Global, out: &mut K) -> Result<(), Stop>
        requires { IsReadyForChunk J.text J.has self.old (K.state out.old) }
        ensures { FinishesBatches J.text J.has self.old (K.state out.old) (K.state out.new) result }
    {
        if let Err(fault) = self.reader.finish(&mut self.waiting) {
            return Err(self.refuse(alloc, fault, out));
        }
        self.write(alloc, out)?;
        self.put_ending(alloc, out)
    }
}
