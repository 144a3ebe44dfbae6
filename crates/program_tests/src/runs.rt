//! Runs of `run` with failing reads and puts, and the text that they then give.
use crate::commands::{FAULTY, MATCH, NONE, Run, TWO_TRACES, Trouble, end};
use crate::texts::{list, many_texts, many_traces};
use plain_list::List;
use std::alloc::{AllocError, Global};
use std::thread::Threads;

// Half of the two texts.
const ONE_TEXT: &[u8] =
    b"trace 1\nat 0 edge 10 offset 1000 d2 0\npiece 0 0 cost 0 route 10\nend 1\n";

const TWO_TEXTS: &[u8] =
    b"trace 1\nat 0 edge 10 offset 1000 d2 0\npiece 0 0 cost 0 route 10\nend 1\ntrace 2\nat 0 edge 10 offset 1000 d2 0\npiece 0 0 cost 0 route 10\nend 2\n";

// A run with trouble, and the status, the text and the line that it must give.
#[derive(Clone, Copy)]
struct Case<'a> {
    run: Run<'a>,
    trouble: Trouble<'a>,
    status: u8,
    out: &'a [u8],
    err: &'a [u8],
}

const TWO: Run<'static> = Run {
    traces: TWO_TRACES,
    ..MATCH
};

static CASES: [Case<'static>; 7] = [
    Case {
        run: Run {
            shows: "the first call for the network fails",
            ..TWO
        },
        trouble: Trouble {
            reads: &[1],
            ..NONE
        },
        status: 3,
        out: b"",
        err: b"fmm: cannot read network\n",
    },
    Case {
        run: Run {
            shows: "the first call for the traces fails",
            ..TWO
        },
        trouble: Trouble {
            reads: &[3],
            ..NONE
        },
        status: 3,
        out: b"",
        err: b"fmm: cannot read traces\n",
    },
    Case {
        run: Run {
            shows: "the traces are read no further than the chunk with the fault",
            traces: FAULTY,
            ..MATCH
        },
        trouble: Trouble {
            reads: &[4],
            ..NONE
        },
        status: 6,
        out: TWO_TEXTS,
        err: b"traces line 5 field 2: bad number\n",
    },
    Case {
        run: Run {
            shows: "traces that are held are read no further than the chunk with the fault",
            words: &["prove", "net", "tra"],
            traces: FAULTY,
            ..MATCH
        },
        trouble: Trouble {
            reads: &[4],
            ..NONE
        },
        status: 6,
        out: b"",
        err: b"traces line 5 field 2: bad number\n",
    },
    Case {
        run: Run {
            shows: "the certificate is read behind the traces",
            words: &["check", "net", "tra", "tra"],
            ..TWO
        },
        trouble: Trouble {
            reads: &[5],
            ..NONE
        },
        status: 3,
        out: b"",
        err: b"fmm: cannot read certificate\n",
    },
    Case {
        run: Run {
            shows: "the put of a text fails after half of it",
            ..TWO
        },
        trouble: Trouble {
            puts: [&[1], &[]],
            ..NONE
        },
        status: 4,
        out: ONE_TEXT,
        err: b"fmm: write failed\n",
    },
    Case {
        run: Run {
            shows: "the put of a refusal fails after half of it",
            traces: FAULTY,
            ..MATCH
        },
        trouble: Trouble {
            puts: [&[], &[1]],
            ..NONE
        },
        status: 4,
        out: TWO_TEXTS,
        err: b"traces line 5 fie",
    },
];

fn is_as_wanted<R: Threads + Sync>(rt: &R, alloc: Global, case: &Case<'_>) -> bool {
    match end(rt, alloc, &case.run, case.trouble) {
        Ok(ended) => ended.is(case.status, case.out, case.err),
        Err(_) => false,
    }
}

#[test]
fn failed_calls_show_in_the_status(rt: HostRuntime) {
    for case in &CASES {
        assert!(rt; is_as_wanted(&rt, rt.alloc(), case), "{}", case.run.shows);
    }
}

// A network of more than 65,536 bytes comes with two calls, and its end with the third.
fn is_long_network_cut<R: Threads + Sync>(rt: &R, alloc: Global) -> bool {
    let Ok(long) = many_traces(alloc, 6_000) else {
        return false;
    };
    let case = Case {
        run: Run {
            network: long.as_slice(),
            ..TWO
        },
        trouble: Trouble {
            reads: &[3],
            ..NONE
        },
        status: 3,
        out: b"",
        err: b"fmm: cannot read network\n",
    };
    is_as_wanted(rt, alloc, &case)
}

#[test]
fn a_long_network_is_read_in_chunks(rt: HostRuntime) {
    assert!(rt; is_long_network_cut(&rt, rt.alloc()));
}

// Whether this text is written before this call for the shelf fails.
fn is_cut_after<R: Threads + Sync>(
    rt: &R,
    alloc: Global,
    it: &Run<'_>,
    call: u64,
    text: &[u8],
) -> bool {
    let trouble = Trouble {
        reads: &[call],
        ..NONE
    };
    match end(rt, alloc, it, trouble) {
        Ok(ended) => ended.is(3, text, b"fmm: cannot read traces\n"),
        Err(_) => false,
    }
}

// Whether of so many traces exactly the first are written before this call for the shelf fails.
fn are_traces_cut<R: Threads + Sync>(
    rt: &R,
    alloc: Global,
    traces: u64,
    call: u64,
    written: u64,
) -> bool {
    let (Ok(long), Ok(texts)) = (many_traces(alloc, traces), many_texts(alloc, written, b"")) else {
        return false;
    };
    let it = Run {
        traces: long.as_slice(),
        ..MATCH
    };
    is_cut_after(rt, alloc, &it, call, texts.as_slice())
}

// Of 600 traces, in one chunk, two batches are written before the fourth call, which is to tell the end
// of the file. Of 6,000 traces, in two chunks, it is 23 batches before the fifth call.
#[test]
fn whole_batches_are_written(rt: HostRuntime) {
    for (traces, call, written) in [(600, 4, 512), (6_000, 5, 5_888)] {
        assert!(rt;
            are_traces_cut(&rt, rt.alloc(), traces, call, written),
            "{traces}"
        );
    }
}

fn fault_before_many(alloc: Global) -> Result<List<u8>, AllocError> {
    let more = many_traces(alloc, 6_000)?;
    let mut long = list(alloc, FAULTY)?;
    long.extend_from_slice(more.as_slice())?;
    Ok(long)
}

// The fault is in the first chunk, so the second is not read.
fn is_fault_said_first<R: Threads + Sync>(rt: &R, alloc: Global) -> bool {
    let Ok(long) = fault_before_many(alloc) else {
        return false;
    };
    let case = Case {
        run: Run {
            traces: long.as_slice(),
            ..MATCH
        },
        trouble: Trouble {
            reads: &[4],
            ..NONE
        },
        status: 6,
        out: TWO_TEXTS,
        err: b"traces line 5 field 2: bad number\n",
    };
    is_as_wanted(rt, alloc, &case)
}

#[test]
fn nothing_is_read_behind_a_fault(rt: HostRuntime) {
    assert!(rt; is_fault_said_first(&rt, rt.alloc()));
}
