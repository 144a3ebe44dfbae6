//! How much each read of `run` and of `live` asks for, and that nothing is read after the first fault.
use crate::commands::{CERTIFICATE, FAULTY, ID_TWICE, ONE_TRACE, TABLE};
use crate::ended::{run_to_end, shelf, sink, words};
use crate::texts::many_traces;
use decimal_text::write_unsigned;
use edge_io::{MemoryShelf, Shelf, Taken};
use live_pipeline::live;
use match_pool::OpenGate;
use match_work::Env;
use plain_list::List;
use row_tests::small::TWO_EDGES;
use std::alloc::{AllocError, Global};
use std::sync::Wait;
use std::thread::Threads;

// A run, and its calls for the shelf: the file, the place, and the most bytes that each asks for.
#[derive(Clone, Copy)]
struct Case<'a> {
    shows: &'static str,
    words: &'static [&'static str],
    network: &'static [u8],
    traces: &'a [u8],
    calls: &'static [u8],
}

// Runs of `run`.
static CASES: [Case<'static>; 11] = [
    Case {
        shows: "match",
        words: &["match", "net", "tra"],
        network: TWO_EDGES,
        traces: ONE_TRACE,
        calls: b"net 0 65536\nnet 60 65536\ntra 0 65536\ntra 33 65536\n",
    },
    Case {
        shows: "traces are read no further than their first fault",
        words: &["match", "net", "tra"],
        network: TWO_EDGES,
        traces: FAULTY,
        calls: b"net 0 65536\nnet 60 65536\ntra 0 65536\n",
    },
    Case {
        shows: "no traces after a refused network",
        words: &["match", "net", "tra"],
        network: ID_TWICE,
        traces: ONE_TRACE,
        calls: b"net 0 65536\nnet 75 65536\n",
    },
    Case {
        shows: "no file after refused words",
        words: &["match", "net", "tra", "--k", "33"],
        network: TWO_EDGES,
        traces: ONE_TRACE,
        calls: b"",
    },
    Case {
        shows: "a table",
        words: &["match", "net", "tra", "--table", "tab"],
        network: TWO_EDGES,
        traces: ONE_TRACE,
        calls: b"net 0 65536\nnet 60 65536\ntab 0 65536\ntab 74 65536\ntra 0 65536\ntra 33 65536\n",
    },
    Case {
        shows: "no traces after a refused table",
        words: &["match", "net", "tra", "--table", "cert"],
        network: TWO_EDGES,
        traces: ONE_TRACE,
        calls: b"net 0 65536\nnet 60 65536\ncert 0 65536\ncert 235 65536\n",
    },
    Case {
        shows: "follow",
        words: &["follow", "net", "tra"],
        network: TWO_EDGES,
        traces: FAULTY,
        calls: b"net 0 65536\nnet 60 65536\ntra 0 65536\n",
    },
    Case {
        shows: "streams",
        words: &["streams", "net", "tra"],
        network: TWO_EDGES,
        traces: FAULTY,
        calls: b"net 0 65536\nnet 60 65536\ntra 0 65536\n",
    },
    Case {
        shows: "prove",
        words: &["prove", "net", "tra"],
        network: TWO_EDGES,
        traces: FAULTY,
        calls: b"net 0 65536\nnet 60 65536\ntra 0 65536\n",
    },
    Case {
        shows: "check",
        words: &["check", "net", "tra", "cert"],
        network: TWO_EDGES,
        traces: ONE_TRACE,
        calls: b"net 0 65536\nnet 60 65536\ntra 0 65536\ntra 33 65536\ncert 0 65536\ncert 235 65536\n",
    },
    Case {
        shows: "no certificate after refused traces",
        words: &["check", "net", "tra", "cert"],
        network: TWO_EDGES,
        traces: FAULTY,
        calls: b"net 0 65536\nnet 60 65536\ntra 0 65536\n",
    },
];

// Runs of `live`.
static LIVE_CASES: [Case<'static>; 4] = [
    Case {
        shows: "live",
        words: &["net", "tra"],
        network: TWO_EDGES,
        traces: ONE_TRACE,
        calls: b"net 0 65536\nnet 60 65536\ntra 0 65536\ntra 33 65536\n",
    },
    Case {
        shows: "live traces are read no further than their first fault",
        words: &["net", "tra"],
        network: TWO_EDGES,
        traces: FAULTY,
        calls: b"net 0 65536\nnet 60 65536\ntra 0 65536\n",
    },
    Case {
        shows: "no live traces after a refused network",
        words: &["net", "tra"],
        network: ID_TWICE,
        traces: ONE_TRACE,
        calls: b"net 0 65536\nnet 75 65536\n",
    },
    Case {
        shows: "no file after refused words of live",
        words: &["net", "tra", "--k", "33"],
        network: TWO_EDGES,
        traces: ONE_TRACE,
        calls: b"",
    },
];

// Appends the line of a call.
fn append_call(calls: &mut List<u8>, name: &str, at: u64, most: u32) -> Result<(), AllocError> {
    calls.extend_from_slice(name.as_bytes())?;
    calls.extend_from_slice(b" ")?;
    write_unsigned(at, calls)?;
    calls.extend_from_slice(b" ")?;
    write_unsigned(u64::from(most), calls)?;
    calls.extend_from_slice(b"\n")
}

// A shelf that records its calls. A call that finds no memory for its line is left out.
struct RecordingShelf {
    inner: MemoryShelf,
    calls: List<u8>,
}

// By hand, so that the functions that drop one call this.
impl Drop for RecordingShelf {
    fn drop(self) {
        let RecordingShelf { inner: _, calls: _ } = self;
    }
}

impl Shelf for RecordingShelf {
    ghost state = { λ s. ⟦<MemoryShelf as Shelf>⟧.state s.inner };

    fn read(&mut self, name: &str, at: u64, into: &mut Vec<u8>, most: u32) -> Taken {
        let _ = append_call(&mut self.calls, name, at, most).is_ok();
        self.inner.read(name, at, into, most)
    }
}

fn recording_shelf(alloc: Global, it: &Case<'_>) -> Result<RecordingShelf, AllocError> {
    let files = [
        ("net", it.network),
        ("tra", it.traces),
        ("tab", TABLE),
        ("cert", CERTIFICATE),
    ];
    Ok(RecordingShelf {
        inner: shelf(alloc, &files, &[], u32::MAX)?,
        calls: List::new(alloc),
    })
}

fn has_calls<R: Threads + Sync>(rt: &R, alloc: Global, it: &Case<'_>) -> bool {
    let Ok(mut shelf) = recording_shelf(alloc, it) else {
        return false;
    };
    let gate = &OpenGate;
    run_to_end(&Env { rt, alloc, gate }, it.words, &mut shelf, [&[], &[]]).is_ok()
        && shelf.calls.as_slice() == it.calls
}

#[test]
fn nothing_is_read_after_a_fault(rt: HostRuntime) {
    for it in &CASES {
        assert!(rt; has_calls(&rt, rt.alloc(), it), "{}", it.shows);
    }
}

// The shelf after a run of `live`.
fn shelf_after<R: Threads + Wait + Sync>(
    rt: &R,
    alloc: Global,
    it: &Case<'_>,
) -> Result<RecordingShelf, AllocError> {
    let shelf = recording_shelf(alloc, it)?;
    let words = words(alloc, it.words)?;
    let mut out = sink(alloc, &[])?;
    let mut err = sink(alloc, &[])?;
    let (_, shelf) = live(rt, alloc, &words, shelf, &mut out, &mut err);
    Ok(shelf)
}

fn has_live_calls<R: Threads + Wait + Sync>(rt: &R, alloc: Global, it: &Case<'_>) -> bool {
    match shelf_after(rt, alloc, it) {
        Ok(shelf) => shelf.calls.as_slice() == it.calls,
        Err(_) => false,
    }
}

// A reader that asks for more after the chunk of the fault would wait on an open pipe.
#[test]
fn live_reads_nothing_after_a_fault(rt: HostRuntime) {
    for it in &LIVE_CASES {
        assert!(rt; has_live_calls(&rt, rt.alloc(), it), "{}", it.shows);
    }
}

const LONG: &[u8] = b"net 0 65536\nnet 60 65536\ntra 0 65536\ntra 65536 65536\ntra 70900 65536\n";

fn is_read_by_chunks<R: Threads + Sync>(rt: &R, alloc: Global) -> bool {
    let Ok(traces) = many_traces(alloc, 6_000) else {
        return false;
    };
    let it = Case {
        shows: "long traces",
        words: &["match", "net", "tra"],
        network: TWO_EDGES,
        traces: traces.as_slice(),
        calls: LONG,
    };
    has_calls(rt, alloc, &it)
}

#[test]
fn long_files_are_read_by_chunks(rt: HostRuntime) {
    assert!(rt; is_read_by_chunks(&rt, rt.alloc()));
}
