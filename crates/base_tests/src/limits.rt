//! What the last reads before a limit ask for.
use crate::shelves::file_a;
use edge_io::{MemoryShelf, Shelf, Taken};
use plain_list::List;
use program_frame::{Chunks, File, read_file};
use std::alloc::{AllocError, Global};

// A shelf that records where each read begins, and how many bytes it asks for.
struct AskedShelf {
    inner: MemoryShelf,
    asked: List<(u64, u32)>,
}

// By hand, so that the functions that drop one call this.
impl Drop for AskedShelf {
    fn drop(self) {
        let AskedShelf { inner: _, asked: _ } = self;
    }
}

impl Shelf for AskedShelf {
    ghost state = { λ s. ⟦<MemoryShelf as Shelf>⟧.state s.inner };

    fn read(&mut self, name: &str, at: u64, into: &mut Vec<u8>, most: u32) -> Taken {
        let _ = self.asked.push((at, most)).is_ok();
        self.inner.read(name, at, into, most)
    }
}

// A file `a` of nine bytes, of which a read gives at most four.
fn nine_bytes(alloc: Global) -> Result<AskedShelf, AllocError> {
    let files = file_a(alloc, b"123456789")?;
    Ok(AskedShelf {
        inner: MemoryShelf::drip(alloc, files, List::new(alloc), 4),
        asked: List::new(alloc),
    })
}

fn is_read_up_to_seven(alloc: Global, shelf: &mut AskedShelf) -> bool {
    let Ok(bytes) = read_file(alloc, &mut *shelf, File::Network, "a", 6) else {
        return false;
    };
    bytes.as_slice() == b"1234567".as_slice()
        && shelf.asked.as_slice() == [(0, 7), (4, 3)].as_slice()
}

const SIX_BEFORE_THE_LIMIT: u64 = 1_099_511_627_770;

fn asks_for_seven_more(alloc: Global) -> bool {
    let chunks = Chunks {
        at: SIX_BEFORE_THE_LIMIT,
        bytes: Vec::new(alloc),
    };
    chunks.wanted() == 7
}

fn stops_above_limit(alloc: Global) -> bool {
    match nine_bytes(alloc) {
        Ok(mut shelf) => is_read_up_to_seven(alloc, &mut shelf),
        Err(_) => false,
    }
}

#[test]
fn the_last_read_ends_one_byte_above_the_limit(rt: HostRuntime) {
    assert!(rt; stops_above_limit(rt.alloc()));
}

#[test]
fn traces_are_read_to_one_byte_above_their_limit(rt: HostRuntime) {
    assert!(rt; asks_for_seven_more(rt.alloc()));
}
