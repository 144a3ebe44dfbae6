//! Ends a run over files in memory.
use crate::texts::list;
use edge_io::{MemoryShelf, MemorySink, Shelf};
use match_pool::Gate;
use match_work::Env;
use plain_list::List;
use program_run::run;
use std::alloc::{AllocError, Global};
use std::thread::Threads;

fn files(alloc: Global, all: &[(&str, &[u8])]) -> Result<List<(List<u8>, List<u8>)>, AllocError> {
    let mut files = List::new(alloc);
    for (name, bytes) in all {
        let file = (list(alloc, name.as_bytes())?, list(alloc, bytes)?);
        files.push(file)?;
    }
    Ok(files)
}

/// A shelf of these files, whose reads of these numbers fail, and which give so many bytes at most.
pub fn shelf(
    alloc: Global,
    all: &[(&str, &[u8])],
    fail: &[u64],
    most: u32,
) -> Result<MemoryShelf, AllocError> {
    let files = files(alloc, all)?;
    let fail = list(alloc, fail)?;
    Ok(MemoryShelf::drip(alloc, files, fail, most.max(1)))
}

/// A sink whose puts of these numbers fail.
pub fn sink(alloc: Global, fail: &[u64]) -> Result<MemorySink, AllocError> {
    Ok(MemorySink::new(alloc, list(alloc, fail)?))
}

pub fn words(alloc: Global, all: &[&str]) -> Result<Vec<String>, AllocError> {
    let mut words = Vec::new(alloc);
    for word in all {
        words.push(String::from_str(alloc, word)?)?;
    }
    Ok(words)
}

/// How a run ended.
pub struct Ended {
    pub status: u8,
    pub out: MemorySink,
    pub err: MemorySink,
}

// By hand, so that the functions that drop one call this.
impl Drop for Ended {
    fn drop(self) {
        let Ended {
            status: _,
            out: _,
            err: _,
        } = self;
    }
}

impl Ended {
    pub fn is(&self, status: u8, out: &[u8], err: &[u8]) -> bool {
        self.status == status && self.out.bytes() == out && self.err.bytes() == err
    }

    /// It ended with this status and line, and with a beginning of the text of another run.
    pub fn is_cut(&self, status: u8, line: &[u8], whole: &Ended) -> bool {
        self.status == status
            && self.err.bytes() == line
            && whole.out.bytes().starts_with(self.out.bytes())
    }

    pub fn is_same(&self, whole: &Ended) -> bool {
        self.is(whole.status, whole.out.bytes(), whole.err.bytes())
    }
}

/// Ends the run of these words over a shelf, where the puts of these numbers on out and on err fail.
pub fn run_to_end<R: Threads + Sync, S: Shelf, G: Gate>(
    env: &Env<'_, R, G>,
    all: &[&str],
    shelf: &mut S,
    puts: [&[u64]; 2],
) -> Result<Ended, AllocError> {
    let words = words(env.alloc, all)?;
    let mut out = sink(env.alloc, puts[0])?;
    let mut err = sink(env.alloc, puts[1])?;
    let status = run(
        env.rt, env.alloc, &words, shelf, &mut out, &mut err, env.gate,
    );
    Ok(Ended { status, out, err })
}
