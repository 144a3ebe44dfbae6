//! A set of named files. Serves every program that reads; decided by `Reads` and `shelf_after`.
ghost use Rattle.std.specs.Prelude.{◌≡◌, ◌≤◌, ◌^◌};
ghost use Rattle.edge_io.specs.Shelf.{Grows, Reads, shelf_after};
ghost use Rattle.edge_io.specs.State.{ShelfState};

/// The answer of a read.
#[derive(Clone, Copy)]
pub enum Taken {
    /// This many bytes were appended, at least one.
    Got(u32),
    /// The file has no byte at or after this place.
    End,
    /// The read failed, and its name was recorded.
    Failed,
    /// Out of memory for the bytes, or for the name of a failed read.
    NoMemory,
}

/// A set of named files. Their contents do not change.
pub trait Shelf {
    /// The contents of the files, if contracts may see them, and the names of the failed reads.
    ghost state: { Self → ShelfState };

    /// Appends bytes of a file from the place `at` on, at least one and at most `most`.
    /// The call may return fewer bytes than the file has, so read a file by calling again after the
    /// bytes that came, until `Taken::End`.
    fn read(&mut self, name: &str, at: u64, into: &mut Vec<u8>, most: u32) -> Taken
        requires some { 1 ≤ most }
        requires place { at ≤ 2 ^ 40 }
        ensures grows { Grows most into.old.items into.new.items result }
        ensures bytes { Reads (state self.old).holds name.now at
            into.old.items into.new.items result }
        ensures state { state self.new ≡ shelf_after result name.now (state self.old) };
}
