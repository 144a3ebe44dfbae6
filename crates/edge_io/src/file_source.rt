//! Where the files of a shelf come from. Serves `FileShelf`; decided by `IsOpenAt`.
ghost use Rattle.std.specs.Prelude.{ℕ, List, Option, None, IfOk};
ghost use Rattle.edge_io.specs.Source.{IsOpenAt};

use std::io::{Read, Seek, SeekFrom};
use std::rt::Files;
use std::{fs, io};

/// Files that are opened by name and read from a place on.
pub trait FileSource {
    type File: Read + Drop;

    /// The contents of the files, if contracts may see them.
    ghost holds: { Self → Option (List ℕ → Option (List ℕ)) };

    /// Opens the file of this name at the place `at`.
    fn open_at(&self, name: &str, at: u64) -> io::Result<Self::File>
        ensures { IfOk result (λ file. IsOpenAt (holds self.now) name.now at
            (Self.File.remaining file)) };
}

// The files of a runtime, by path. Contracts see nothing of their contents.
impl<R: Files> FileSource for R {
    type File = R::File;

    ghost holds = { λ _. None };

    fn open_at(&self, name: &str, at: u64) -> io::Result<R::File> {
        let mut file = fs::open(self, name)?;
        if at > 0 {
            file.seek(SeekFrom::Start(at))?;
        }
        Ok(file)
    }
}
