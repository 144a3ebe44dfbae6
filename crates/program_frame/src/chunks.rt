//! A trace file in chunks. Serves every function that reads one; decided by `NextChunk`.
ghost use Rattle.std.specs.Prelude.{◌≡◌, ◌+◌, ◌-◌, ◌≤◌, [], min};
ghost use Rattle.program_frame.specs.Chunks.{MayReadOn, NextChunk};
ghost use Rattle.program_frame.specs.Refusals.{trace_limit};

use crate::stop::{File, Stop};
use edge_io::{Shelf, Taken};
use std::alloc::Global;

// The most bytes of a trace file.
const TRACE_LIMIT: u64 = 1_099_511_627_776;

/// The most bytes of one read.
pub const CHUNK: u64 = 65_536;

/// A trace file that is read chunk by chunk: the chunk of the last read, and the place after it.
#[derive(Drop)]
pub struct Chunks {
    pub at: u64,
    pub bytes: Vec<u8>,
}

impl Chunks {
    /// The state before the first read.
    pub fn open(alloc: Global) -> Chunks
        ensures { result.at ≡ 0 }
    {
        Chunks {
            at: 0,
            bytes: Vec::new(alloc),
        }
    }

    /// How many bytes the next read asks for: at most to the first byte above the limit.
    pub fn wanted(&self) -> u32
        requires { self.now.at ≤ trace_limit + 1 }
        ensures { result ≡ min (trace_limit + 1 - self.now.at) 65_536 }
    {
        (TRACE_LIMIT + 1 - self.at).min(CHUNK) as u32
    }

    /// Reads the next chunk. False at the end of the file, and after the first byte above the limit. Nothing is
    /// read after the first fault, since the bytes so far must have none.
    pub fn next<S: Shelf>(&mut self, shelf: &mut S, name: &str) -> Result<bool, Stop>
        requires { MayReadOn name.now (S.state shelf.old) self.old.at }
        ensures { NextChunk name.now (S.state shelf.old) (S.state shelf.new)
            self.old.at self.new.at self.new.bytes.items result }
    {
        self.bytes.truncate(0);
        if self.at > TRACE_LIMIT {
            return Ok(false);
        }
        let most = self.wanted();
        match shelf.read(name, self.at, &mut self.bytes, most) {
            Taken::Got(count) => {
                self.at += u64::from(count);
                Ok(true)
            }
            Taken::End => Ok(false),
            Taken::Failed => Err(Stop::Unread(File::Traces)),
            Taken::NoMemory => Err(Stop::NoMemory),
        }
    }
}
