//! A shelf in memory whose calls fail on request. Serves tests; decided by `Serves`.
ghost use Rattle.std.specs.Prelude.{◌≡◌, ◌≤◌, ◌-◌, ◌^◌, min};
ghost use Rattle.edge_io.specs.Files.{lookup};
ghost use Rattle.edge_io.specs.Memory.{FilesInMemory, Serves, ServesFile, fails_next, files_after, new_files, state_of_files};
ghost use Rattle.edge_io.specs.Shelf.{Grows, Reads, ReadsFile};

use crate::named_files::find;
use crate::noting::fail_read;
use crate::{Shelf, Taken};
use plain_list::List;
use std::alloc::Global;
use std::marker::Model;

/// A shelf of files in memory. Contracts see their bytes.
pub struct MemoryShelf {
    alloc: Global,
    files: List<(List<u8>, List<u8>)>,
    // the numbers of the calls that fail
    fail: List<u64>,
    calls: u64,
    // the most bytes that a call gives
    drip: u32,
    pub(crate) failed: List<List<u8>>,
}

// By hand, so that the functions that drop one call this.
impl Drop for MemoryShelf {
    fn drop(self) {
        let MemoryShelf {
            alloc: _,
            files: _,
            fail: _,
            calls: _,
            drip: _,
            failed: _,
        } = self;
    }
}

impl Model for MemoryShelf {
    ghost Value = { FilesInMemory };

    ghost view = { λ s. record {
      files = s.files;
      failed = s.failed;
      script = record { fail = s.fail; calls = s.calls };
      most = s.drip;
    } };

    ghost invariant = { λ s. 1 ≤ s.drip };
}

impl MemoryShelf {
    /// A shelf of these files, by name and bytes. The calls whose numbers (from 1) are in `fail` fail. If
    /// a name occurs twice, its first file counts.
    pub fn new(alloc: Global, files: List<(List<u8>, List<u8>)>, fail: List<u64>) -> Self
        ensures { result ≡ new_files files fail (2 ^ 32 - 1) }
    {
        Self::drip(alloc, files, fail, u32::MAX)
    }

    /// As `new`, but no call returns more than `most` bytes.
    pub fn drip(
        alloc: Global,
        files: List<(List<u8>, List<u8>)>,
        fail: List<u64>,
        most: u32,
    ) -> Self
        requires { 1 ≤ most }
        ensures { result ≡ new_files files fail most }
    {
        MemoryShelf {
            alloc,
            files,
            fail,
            calls: 0,
            drip: most,
            failed: List::new(alloc),
        }
    }
}

impl Shelf for MemoryShelf {
    ghost state = { state_of_files };

    /// Fails if this call's number is listed or the name is unknown. Otherwise returns the bytes of the
    /// file from the place on, up to the limit of one call.
    fn read(&mut self, name: &str, at: u64, into: &mut Vec<u8>, most: u32) -> Taken
        requires { 1 ≤ most }
        ensures grows { Grows most into.old.items into.new.items result }
        ensures bytes { Reads (state_of_files self.old).holds name.now at
            into.old.items into.new.items result }
        ensures serves { Serves (fails_next self.old.script) (lookup self.old.files name.now)
            at (min most self.old.most) result }
        ensures after { self.new ≡ files_after result name.now self.old }
    {
        self.calls = self.calls.saturating_add(1);
        if self.fail.as_slice().contains(&self.calls) {
            return fail_read(self.alloc, &mut self.failed, name);
        }
        match find(self.files.as_slice(), name.as_bytes()) {
            None => fail_read(self.alloc, &mut self.failed, name),
            Some(bytes) => append_part(bytes.as_slice(), at, into, most.min(self.drip)),
        }
    }
}

// Appends at most `most` bytes of a file from a place on.
fn append_part(file: &[u8], at: u64, into: &mut Vec<u8>, most: u32) -> Taken
    requires { 1 ≤ most }
    ensures grows { Grows most into.old.items into.new.items result }
    ensures bytes { ReadsFile file.now at into.old.items into.new.items result }
    ensures serves { ServesFile file.now at most result }
{
    let Some(rest) = file.get(at as usize..) else {
        return Taken::End;
    };
    if rest.is_empty() {
        return Taken::End;
    }
    let count = rest.len().min(most as usize);
    match into.extend_from_slice(&rest[..count]) {
        Ok(()) => Taken::Got(count as u32),
        Err(_) => Taken::NoMemory,
    }
}
