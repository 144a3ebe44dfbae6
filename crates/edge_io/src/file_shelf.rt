//! The files of a runtime or in memory. Serves the program's `main`; decided by the clauses of
//! `Shelf::read`, for any source of files.
ghost use Rattle.std.specs.Prelude.{◌≡◌, ◌+◌, ◌≤◌, ◌^◌, length, IfOk, IfErr, IsTrue, OnOk};
ghost use Rattle.std.specs.Option.{ForSome};
ghost use Rattle.std.specs.Io.{ReadsAtMost};
ghost use Rattle.std.specs.Io.KnownBytes.{ReadConsumes};
ghost use Rattle.edge_io.specs.Source.{IsBrought, IsOpenAt, IsReadOn};
ghost use Rattle.edge_io.specs.State.{new_shelf};

use crate::noting::fail_read;
use crate::{FileSource, Shelf, Taken};
use plain_list::List;
use std::alloc::{AllocError, Global};
use std::io;
use std::io::{ErrorKind, Read};

/// The files of a source, which is a runtime or [`NamedFiles`](crate::NamedFiles). Reading a missing file is a
/// failed read.
///
/// The file read last stays open at the place where that read ended, and a read from there continues
/// without a seek. So a pipe can be read from its start, and a file that is replaced during a read
/// keeps its old content. Any other place or name is opened anew.
#[derive(Drop)]
pub struct FileShelf<R: FileSource + Drop> {
    alloc: Global,
    source: R,
    current: Option<OpenFile<R::File>>,
    failed: List<List<u8>>,
    // Empty before the first read.
    buffer: Vec<u8>,
    ghost is_open: { ForSome current (λ left.
        IsOpenAt (R.holds source) left.name left.at (R.File.remaining left.file)) },
}

// The most bytes of one read.
const BUFFER: usize = 65_536;

// An open file and its position.
struct OpenFile<F: Drop> {
    name: List<u8>,
    at: u64,
    file: F,
}

// By hand, so that the functions that drop one call this.
impl<F: Drop> Drop for OpenFile<F> {
    fn drop(self) {
        let OpenFile {
            name: _,
            at: _,
            file: _,
        } = self;
    }
}

impl<F: Drop> OpenFile<F> {
    // Whether a read of this name from this place on continues here.
    fn is_at(&self, name: &str, at: u64) -> bool
        ensures { IsTrue result → (self.now.at ≡ at) × (self.now.name ≡ name.now) }
    {
        self.at == at && self.name.as_slice() == name.as_bytes()
    }
}

impl<F: Read + Drop> OpenFile<F> {
    // Appends what one read returns, and moves on by as many bytes.
    fn append(&mut self, buffer: &mut [u8], into: &mut Vec<u8>) -> io::Result<usize>
        requires { self.old.at ≤ 2 ^ 40 }
        ensures ok { IfOk result (IsReadOn (F.remaining self.old.file) (F.remaining self.new.file)
            into.old.items into.new.items (length buffer.old)) }
        ensures err { IfErr result (λ _. into.new.items ≡ into.old.items) }
        ensures name { self.new.name ≡ self.old.name }
        ensures at { IfOk result (λ n. self.new.at ≡ self.old.at + n) }
    {
        let count = read_again(&mut self.file, buffer)?;
        self.at += count as u64;
        into.extend_from_slice(&buffer[..count])?;
        Ok(count)
    }
}

impl<R: FileSource + Drop> FileShelf<R> {
    /// The files of this source: for a runtime, those that it reaches.
    pub fn new(alloc: Global, source: R) -> Self
        ensures { ⟦<FileShelf<R> as Shelf>⟧.state result ≡ new_shelf (R.holds source) }
    {
        FileShelf {
            alloc,
            source,
            current: None,
            failed: List::new(alloc),
            buffer: Vec::new(alloc),
        }
    }

    // Appends what one read of a file returns, and returns the number of bytes. The open file is left
    // positioned after them. After an error nothing is appended.
    fn append(&mut self, name: &str, at: u64, into: &mut Vec<u8>, most: u32) -> io::Result<usize>
        requires some { 1 ≤ most }
        requires place { at ≤ 2 ^ 40 }
        ensures ok { IfOk result (IsBrought (R.holds self.old.source) name.now at
            into.old.items into.new.items most) }
        ensures err { IfErr result (λ _. into.new.items ≡ into.old.items) }
        ensures failed { self.new.failed ≡ self.old.failed }
        ensures source { self.new.source ≡ self.old.source }
    {
        let mut file = self.open_at(name, at)?;
        make_room(&mut self.buffer)?;
        let wanted = self.buffer.len().min(most as usize);
        let count = file.append(&mut self.buffer[..wanted], into)?;
        self.current = Some(file);
        Ok(count)
    }

    // The file of the name at this place: the open one if the last read ended here.
    fn open_at(&mut self, name: &str, at: u64) -> io::Result<OpenFile<R::File>>
        ensures file { IfOk result (λ file. (file.name ≡ name.now) × (file.at ≡ at)
            × IsOpenAt (R.holds self.old.source) name.now at (R.File.remaining file.file)) }
        ensures failed { self.new.failed ≡ self.old.failed }
        ensures source { self.new.source ≡ self.old.source }
    {
        if let Some(left) = self.current.take() {
            if left.is_at(name, at) {
                return Ok(left);
            }
        }
        let mut copy = List::new(self.alloc);
        copy.extend_from_slice(name.as_bytes())?;
        let file = self.source.open_at(name, at)?;
        Ok(OpenFile {
            name: copy,
            at,
            file,
        })
    }
}

// Makes room for one read, if there is none.
fn make_room(buffer: &mut Vec<u8>) -> Result<(), AllocError>
    ensures { OnOk result (1 ≤ length buffer.new.items) }
{
    if buffer.is_empty() {
        buffer.resize(BUFFER, 0)?;
    }
    Ok(())
}

/// Reads once, and again if a signal interrupted the read, which took no bytes then. Returns how many
/// bytes came.
pub fn read_again<F: Read>(file: &mut F, buffer: &mut [u8]) -> io::Result<usize>
    ensures bound { ReadsAtMost result buffer.new }
    ensures bytes { ReadConsumes (F.remaining file.old) (F.remaining file.new) result buffer.new }
{
    for _ in 0..u64::MAX {
        match file.read(buffer) {
            Err(error) if error.kind() == ErrorKind::Interrupted => {}
            result => return result,
        }
    }
    Err(io::Error::from(ErrorKind::Interrupted))
}

impl<R: FileSource + Drop> Shelf for FileShelf<R> {
    ghost state = { λ s. record { holds = R.holds s.source; failed = s.failed } };

    fn read(&mut self, name: &str, at: u64, into: &mut Vec<u8>, most: u32) -> Taken {
        match self.append(name, at, into, most) {
            Ok(0) => Taken::End,
            Ok(count) => Taken::Got(count as u32),
            Err(error) if error.kind() == ErrorKind::OutOfMemory => Taken::NoMemory,
            Err(_) => fail_read(self.alloc, &mut self.failed, name),
        }
    }
}
