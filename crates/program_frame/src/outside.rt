//! What a program reaches outside: its words, the real files and its output. Serves each program's `main`; decided
//! by `AreUnused`, `AreWordsOf` and `IsStarved`.
ghost use Rattle.std.specs.Prelude.{◌≡◌, IfOk, IfErr, IfSome, OnOk, map, string_bytes};
ghost use Rattle.program_frame.specs.Outside.{AreUnused, AreWordsOf};
ghost use Rattle.program_frame.specs.Stops.{IsStarved};

use crate::arguments::{Arguments, read_words};
use crate::stop::end_without_memory;
use edge_io::{FileShelf, FileSource, Shelf, Sink, StreamSink};
use std::alloc::Global;
use std::io::Write;

/// The words after a program's name, the real files, and the stream of its output.
#[derive(Drop)]
pub struct Outside<R: FileSource + Drop, W: Write + Drop> {
    pub words: Vec<String>,
    pub shelf: FileShelf<R>,
    pub out: StreamSink<W>,
}

impl<R: FileSource + Drop, W: Write + Drop> Outside<R, W> {
    /// The words of these arguments, these files and this stream. If a word is invalid UTF-8, there are no words,
    /// which is a faulty command line. `Err` has the status of a run that was out of memory before it began, after
    /// the put of its line on the error output.
    pub fn open<A: Arguments, E: Sink>(
        alloc: Global,
        arguments: &A,
        files: R,
        out: W,
        err: &mut E,
    ) -> Result<Outside<R, W>, u8>
        ensures words { IfOk result (λ to. IfSome (A.given arguments.now) (λ given.
            AreWordsOf given (map string_bytes to.words.items))) }
        ensures ok { IfOk result (λ to. AreUnused (R.holds files) (W.contents out)
            (⟦<FileShelf<R> as Shelf>⟧.state to.shelf) (⟦<StreamSink<W> as Sink>⟧.state to.out)) }
        ensures quiet { OnOk result (err.new ≡ err.old) }
        ensures err { IfErr result (IsStarved (E.state err.old) (E.state err.new)) }
    {
        let Ok(words) = read_words(alloc, arguments) else {
            return Err(end_without_memory(err));
        };
        Ok(Outside {
            words,
            shelf: FileShelf::new(alloc, files),
            out: StreamSink::new(out),
        })
    }
}
