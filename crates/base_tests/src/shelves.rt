//! Shelves and sinks, in memory and real ones.
use edge_io::{
    FileShelf, FileSource, MemoryShelf, MemorySink, NamedFiles, Put, Shelf, Sink, StreamSink,
    Taken, read_again,
};
use plain_list::List;
use std::alloc::{AllocError, Global};
use std::io::{BufWriter, ErrorKind, Read, Write};
use std::{fs, io};

fn list<T: Copy>(alloc: Global, items: &[T]) -> Result<List<T>, AllocError> {
    let mut list = List::new(alloc);
    list.extend_from_slice(items)?;
    Ok(list)
}

// The file `a` alone.
pub fn file_a(alloc: Global, bytes: &[u8]) -> Result<List<(List<u8>, List<u8>)>, AllocError> {
    let file = (list(alloc, b"a")?, list(alloc, bytes)?);
    let mut files = List::new(alloc);
    files.push(file)?;
    Ok(files)
}

// What a read gave: the count of bytes, 0 at the end, or one of these.
const FAILED: i64 = -1;

const NO_MEMORY: i64 = -2;

// Reads as a caller does that knows the trait alone.
fn read<S: Shelf>(shelf: &mut S, name: &str, at: u32, into: &mut Vec<u8>) -> i64 {
    match shelf.read(name, u64::from(at), into, 2) {
        Taken::Got(count) => i64::from(count),
        Taken::End => 0,
        Taken::Failed => FAILED,
        Taken::NoMemory => NO_MEMORY,
    }
}

// Whether each read gives its count, and all of them together these bytes.
fn gives<S: Shelf>(
    alloc: Global,
    shelf: &mut S,
    reads: &[(&'static str, u32, i64)],
    bytes: &[u8],
) -> bool {
    let mut into = Vec::new(alloc);
    for (name, at, given) in reads {
        if read(shelf, name, *at, &mut into) != *given {
            return false;
        }
    }
    into.as_slice() == bytes
}

fn failing_shelf(alloc: Global, fail: &[u64]) -> Result<MemoryShelf, AllocError> {
    let files = file_a(alloc, b"xyz")?;
    Ok(MemoryShelf::new(alloc, files, list(alloc, fail)?))
}

fn dripping_shelf(alloc: Global, most: u32) -> Result<MemoryShelf, AllocError> {
    let files = file_a(alloc, b"xyz")?;
    Ok(MemoryShelf::drip(alloc, files, List::new(alloc), most.max(1)))
}

// The same of a shelf in memory, if there is memory for it.
fn memory_gives(
    alloc: Global,
    shelf: Result<MemoryShelf, AllocError>,
    reads: &[(&'static str, u32, i64)],
    bytes: &[u8],
) -> bool {
    match shelf {
        Ok(mut shelf) => gives(alloc, &mut shelf, reads, bytes),
        Err(_) => false,
    }
}

#[test]
fn a_shelf_in_memory_brings_a_file_in_parts(rt: HostRuntime) {
    let reads = [
        ("a", 0, 2),
        ("a", 2, 1),
        ("a", 3, 0),
        ("b", 0, FAILED),
        ("a", 0, FAILED),
        ("a", 1, 2),
    ];
    let alloc = rt.alloc();
    assert!(rt; memory_gives(alloc, failing_shelf(alloc, &[5]), &reads, b"xyzyz"));
}

#[test]
fn a_dripping_shelf_gives_no_more_than_its_most(rt: HostRuntime) {
    let reads = [("a", 0, 1), ("a", 2, 1), ("a", 3, 0)];
    let alloc = rt.alloc();
    assert!(rt; memory_gives(alloc, dripping_shelf(alloc, 1), &reads, b"xz"));
}

// Puts as a caller does that knows the trait alone.
fn put<K: Sink>(sink: &mut K, text: &[u8]) -> Put {
    sink.put(text)
}

fn failing_sink(alloc: Global, fail: &[u64]) -> Result<MemorySink, AllocError> {
    Ok(MemorySink::new(alloc, list(alloc, fail)?))
}

fn fails_at_first(sink: &mut MemorySink) -> bool {
    matches!(put(&mut *sink, b"abcd"), Put::Failed)
        && sink.bytes() == b"ab".as_slice()
        && matches!(put(&mut *sink, b"wxyz"), Put::All)
        && sink.bytes() == b"abwxyz".as_slice()
}

fn writes_half(sink: Result<MemorySink, AllocError>) -> bool {
    match sink {
        Ok(mut sink) => fails_at_first(&mut sink),
        Err(_) => false,
    }
}

#[test]
fn a_put_that_fails_writes_half_and_is_counted(rt: HostRuntime) {
    assert!(rt; writes_half(failing_sink(rt.alloc(), &[1])));
}

fn are_written(rt: &HostRuntime) -> bool {
    fs::write(rt, "here", "xyz").is_ok() && fs::write(rt, "other", "uvw").is_ok()
}

// The file `here` is read from its start on as it was opened, whatever takes its name meanwhile.
fn is_read_on(rt: &HostRuntime, shelf: &mut FileShelf<HostRuntime>) -> bool {
    let reads = [
        ("here", 2, 1),
        ("here", 3, 0),
        ("here", 1, 2),
        ("gone", 0, FAILED),
        ("gone", 3, FAILED),
    ];
    gives(rt.alloc(), &mut *shelf, &[("here", 0, 2)], b"xy")
        && fs::rename(rt, "other", "here").is_ok()
        && gives(rt.alloc(), &mut *shelf, &reads, b"zvw")
}

#[test]
fn a_real_file_is_read_on_where_it_is_open(rt: HostRuntime) {
    assert!(rt; are_written(&rt));
    let mut shelf = FileShelf::new(rt.alloc(), rt);
    assert!(rt; is_read_on(&rt, &mut shelf));
}

// The file `a` is read in parts, at its end, behind it and again from a place within; `b` is missing.
fn is_read_in_parts<F: FileSource + Drop>(alloc: Global, source: F) -> bool {
    let reads = [
        ("a", 0, 2),
        ("a", 2, 1),
        ("a", 3, 0),
        ("a", 9, 0),
        ("a", 1, 2),
        ("b", 0, FAILED),
        ("b", 3, FAILED),
    ];
    let mut shelf = FileShelf::new(alloc, source);
    gives(alloc, &mut shelf, &reads, b"xyzyz")
}

fn are_named_files_read(alloc: Global) -> bool {
    match file_a(alloc, b"xyz") {
        Ok(files) => is_read_in_parts(alloc, NamedFiles(files.as_slice())),
        Err(_) => false,
    }
}

#[test]
fn named_files_are_read_like_real_ones(rt: HostRuntime) {
    assert!(rt; are_named_files_read(rt.alloc()));
    assert!(rt; fs::write(&rt, "a", "xyz").is_ok());
    assert!(rt; is_read_in_parts(rt.alloc(), rt));
}

// A reader whose first reads are interrupted.
#[derive(Drop)]
struct Interrupted {
    times: u32,
}

impl Read for Interrupted {
    fn read(&mut self, buffer: &mut [u8]) -> io::Result<usize> {
        if self.times == 0 {
            return Ok(buffer.len());
        }
        self.times -= 1;
        Err(io::Error::from(ErrorKind::Interrupted))
    }
}

#[test]
fn an_interrupted_read_is_tried_again(rt: HostRuntime) {
    let mut buffer = [0u8; 3];
    let count = read_again(&mut Interrupted { times: 2 }, &mut buffer);
    assert!(rt; matches!(count, Ok(3)));
}

// Whether the file `there` has this text after the put.
fn is_flushed<K: Sink>(rt: &HostRuntime, sink: &mut K, text: &[u8], whole: &str) -> bool {
    if !matches!(put(sink, text), Put::All) {
        return false;
    }
    match fs::read_to_string(rt, "there") {
        Ok(written) => written.as_str() == whole,
        Err(_) => false,
    }
}

fn writes_through(rt: &HostRuntime) -> bool {
    let Ok(file) = fs::create(rt, "there") else {
        return false;
    };
    let Ok(stream) = BufWriter::new(rt.alloc(), file) else {
        return false;
    };
    let mut sink = StreamSink::new(stream);
    is_flushed(rt, &mut sink, b"ab", "ab") && is_flushed(rt, &mut sink, b"c", "abc")
}

#[test]
fn a_stream_is_flushed_after_each_text(rt: HostRuntime) {
    assert!(rt; writes_through(&rt));
}

// A stream whose first writes are interrupted, and which then takes a byte at a time.
#[derive(Drop)]
struct SlowStream {
    interrupts: u32,
    bytes: Vec<u8>,
}

impl Write for SlowStream {
    fn write(&mut self, text: &[u8]) -> io::Result<usize> {
        if self.interrupts > 0 {
            self.interrupts -= 1;
            return Err(io::Error::from(ErrorKind::Interrupted));
        }
        match text {
            [first, ..] => {
                self.bytes.push(*first)?;
                Ok(1)
            }
            [] => Ok(0),
        }
    }

    fn flush(&mut self) -> io::Result<()> {
        Ok(())
    }
}

fn writes_slowly(alloc: Global) -> bool {
    let mut sink = StreamSink::new(SlowStream {
        interrupts: 2,
        bytes: Vec::new(alloc),
    });
    matches!(put(&mut sink, b"abc"), Put::All)
        && sink.into_stream().bytes.as_slice() == b"abc".as_slice()
}

#[test]
fn an_interrupted_write_is_tried_again(rt: HostRuntime) {
    assert!(rt; writes_slowly(rt.alloc()));
}
