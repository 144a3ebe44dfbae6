//! A sink in memory whose puts fail on request. Serves tests; decided by `Takes`.
ghost use Rattle.std.specs.Prelude.{◌≡◌, Some};
ghost use Rattle.edge_io.specs.Memory.{BytesInMemory, Takes, fails_next, new_bytes, state_of_bytes};
ghost use Rattle.edge_io.specs.Sink.{Puts};

use crate::{Put, Sink};
use plain_list::List;
use std::alloc::Global;
use std::marker::Model;

/// A sink in memory. Contracts see what was written.
pub struct MemorySink {
    // the numbers of the puts that fail
    fail: List<u64>,
    calls: u64,
    bytes: Vec<u8>,
    pub(crate) faults: u64,
}

// By hand, so that the functions that drop one call this.
impl Drop for MemorySink {
    fn drop(self) {
        let MemorySink {
            fail: _,
            calls: _,
            bytes: _,
            faults: _,
        } = self;
    }
}

impl Model for MemorySink {
    ghost Value = { BytesInMemory };

    ghost view = { λ s. record {
      bytes = s.bytes.items;
      faults = s.faults;
      script = record { fail = s.fail; calls = s.calls };
    } };
}

impl MemorySink {
    /// An empty sink. The puts whose numbers (from 1) are in `fail` fail.
    pub fn new(alloc: Global, fail: List<u64>) -> Self
        ensures { result ≡ new_bytes fail }
    {
        MemorySink {
            fail,
            calls: 0,
            bytes: Vec::new(alloc),
            faults: 0,
        }
    }

    /// What was written.
    pub fn bytes(&self) -> &[u8]
        ensures { result.now ≡ self.now.bytes }
    {
        self.bytes.as_slice()
    }
}

impl Sink for MemorySink {
    ghost state = { state_of_bytes };

    /// Fails if this put's number is listed; then the first half of the text was written.
    fn put(&mut self, text: &[u8]) -> Put
        ensures puts { Puts (state_of_bytes self.old) (state_of_bytes self.new) text.now result }
        ensures takes { Takes (fails_next self.old.script) text.now self.old self.new result }
    {
        self.calls = self.calls.saturating_add(1);
        if self.fail.as_slice().contains(&self.calls) {
            let half = &text[..text.len() / 2];
            return match self.bytes.extend_from_slice(half) {
                Ok(()) => {
                    self.faults = self.faults.saturating_add(1);
                    Put::Failed
                }
                Err(_) => Put::NoMemory,
            };
        }
        match self.bytes.extend_from_slice(text) {
            Ok(()) => Put::All,
            Err(_) => Put::NoMemory,
        }
    }
}
