//! Trace files in chunks, and their faults.
ghost use Rattle.std.specs.Prelude.{◌<◌};

use plain_list::List;
use std::alloc::Global;
use trace_reader::{Fix, Trace, TraceFault, TraceReader};

// A file, its traces up to the first fault, each with its id and its positions, and the line of the fault.
struct Case {
    shows: &'static str,
    file: &'static [u8],
    traces: &'static [(u32, &'static [Fix])],
    fault: &'static [u8],
}

const UNTIMED: &[Fix] = &[
    Fix {
        x: 1000,
        y: 300,
        time: 0,
    },
    Fix {
        x: 9000,
        y: -300,
        time: 0,
    },
];

const TIMED: &[Fix] = &[
    Fix {
        x: 1000,
        y: 300,
        time: 0,
    },
    Fix {
        x: 9000,
        y: -300,
        time: 60,
    },
];

const ORIGIN: &[Fix] = &[Fix {
    x: 0,
    y: 0,
    time: 0,
}];

const EAST: &[Fix] = &[Fix {
    x: 1000,
    y: 0,
    time: 0,
}];

static CASES: [Case; 9] = [
    Case {
        shows: "blanks, an empty line and no last line end",
        file: b"trace,x,y\r\n 7 ,\t1000, 300\r\n\r\n7,9000,-300",
        traces: &[(7, UNTIMED)],
        fault: b"",
    },
    Case {
        shows: "times",
        file: b"trace,x,y,time\n7,1000,300,0\n7,9000,-300,60\n",
        traces: &[(7, TIMED)],
        fault: b"",
    },
    Case {
        shows: "an id that returns",
        file: b"trace,x,y\n1,0,0\n2,0,0\n1,0,0\n",
        traces: &[(1, ORIGIN), (2, ORIGIN), (1, ORIGIN)],
        fault: b"",
    },
    Case {
        shows: "a header alone",
        file: b"trace,x,y\n",
        traces: &[],
        fault: b"",
    },
    Case {
        shows: "an empty file",
        file: b"",
        traces: &[],
        fault: b"traces: bad header\n",
    },
    Case {
        shows: "a fault that remains",
        file: b"trace,x,y\n1,1000,0\n2,1000,0\n7,2000,0\n7,12x,0\n9,0,0\n",
        traces: &[(1, EAST), (2, EAST)],
        fault: b"traces line 5 field 2: bad number\n",
    },
    Case {
        shows: "a last line that is cut",
        file: b"trace,x,y\n1,1000,0\n2,1000,0\n7,2000,0\n7,20",
        traces: &[(1, EAST), (2, EAST)],
        fault: b"traces line 5: wrong number of fields\n",
    },
    Case {
        shows: "an empty time",
        file: b"trace,x,y,time\n7,1000,300,\n",
        traces: &[],
        fault: b"traces line 2 field 4: bad number\n",
    },
    Case {
        shows: "a missing time",
        file: b"trace,x,y,time\n7,1000,300\n",
        traces: &[],
        fault: b"traces line 2: wrong number of fields\n",
    },
];

fn are_traces(traces: &[Trace], wanted: &[(u32, &[Fix])]) -> bool {
    for (trace, (id, fixes)) in traces.iter().zip(wanted) {
        if trace.id != *id || trace.fixes.as_slice() != *fixes {
            return false;
        }
    }
    traces.len() == wanted.len()
}

// Whether this is the line of the fault. Out of memory has none.
fn has_line(alloc: Global, fault: TraceFault, line: &[u8]) -> bool {
    if let TraceFault::Memory = fault {
        return false;
    }
    let mut text = List::new(alloc);
    fault.write_line(alloc, &mut text).is_ok() && text.as_slice() == line
}

// Feeds the file in chunks of this size, also after a fault. Returns the last answer.
fn feed_by(
    reader: &mut TraceReader,
    file: &[u8],
    size: usize,
    traces: &mut List<Trace>,
) -> Result<(), TraceFault>
    requires { 0 < size }
{
    let mut answer = Ok(());
    for chunk in file.chunks(size) {
        answer = reader.feed(chunk, traces);
    }
    answer?;
    reader.finish(traces)
}

fn is_read_by(alloc: Global, case: &Case, size: usize) -> bool
    requires { 0 < size }
{
    let mut reader = TraceReader::open(alloc);
    let mut traces = List::new(alloc);
    let fault_is_wanted = match feed_by(&mut reader, case.file, size, &mut traces) {
        Ok(()) => case.fault.is_empty(),
        Err(fault) => has_line(alloc, fault, case.fault),
    };
    fault_is_wanted && are_traces(traces.as_slice(), case.traces)
}

// Chunks of 63 bytes are longer than each file.
#[test]
fn files_in_chunks_of_each_size(rt: HostRuntime) {
    for case in &CASES {
        for size in 1..64 {
            assert!(rt;
                is_read_by(rt.alloc(), case, size),
                "{} by {size}",
                case.shows
            );
        }
    }
}

// Takes the first of three traces, and then the other two.
fn takes_one_trace_first(reader: &mut TraceReader, traces: &mut List<Trace>) -> bool {
    let file = b"trace,x,y\n1,0,0\n2,0,0\n3,0,0\n".as_slice();
    let first = reader.feed_some(file, 1, traces);
    if !matches!(first, Ok(22)) || traces.len() != 1 {
        return false;
    }
    let rest = reader.feed_some(&file[22..], 9, traces);
    matches!(rest, Ok(6)) && reader.finish(traces).is_ok() && traces.len() == 3
}

#[test]
fn one_trace_at_a_time(rt: HostRuntime) {
    let mut reader = TraceReader::open(rt.alloc());
    let mut traces = List::new(rt.alloc());
    assert!(rt; takes_one_trace_first(&mut reader, &mut traces));
}

// Each fault, and its line.
static LINES: [(TraceFault, &[u8]); 7] = [
    (TraceFault::BadHeader, b"traces: bad header\n"),
    (
        TraceFault::FieldCount(2),
        b"traces line 2: wrong number of fields\n",
    ),
    (
        TraceFault::BadNumber(2, 4),
        b"traces line 2 field 4: bad number\n",
    ),
    (
        TraceFault::OutOfRange(3, 1),
        b"traces line 3 field 1: out of range\n",
    ),
    (
        TraceFault::TraceTooLong(100_002),
        b"traces line 100002: trace too long\n",
    ),
    (
        TraceFault::LineTooLong(9),
        b"traces line 9: line too long\n",
    ),
    (TraceFault::FileTooLong, b"traces: file too long\n"),
];

#[test]
fn lines_of_faults(rt: HostRuntime) {
    for (fault, line) in &LINES {
        assert!(rt; has_line(rt.alloc(), *fault, line));
    }
}
