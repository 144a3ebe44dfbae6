//! Runs of the commands over files in memory, with what each of them must give.
use crate::ended::{Ended, run_to_end, shelf};
use match_pool::OpenGate;
use match_work::Env;
use row_tests::small::{TWO_EDGES, TWO_WAYS};
use std::alloc::{AllocError, Global};
use std::thread::Threads;

pub const ONE_TRACE: &[u8] = b"trace,x,y\n7,1000,300\n7,9000,-300\n";

pub const TWO_TRACES: &[u8] = b"trace,x,y\n1,1000,0\n2,1000,0\n";

pub const FAULTY: &[u8] = b"trace,x,y\n1,1000,0\n2,1000,0\n7,2000,0\n7,12x,0\n";

const TWO_PLACES: &[u8] = b"trace,x,y\n1,500,0\n1,3500,0\n";

pub const ID_TWICE: &[u8] =
    b"edge,from,to,line\n10,1,2,0 0;10000 0\n11,2,3,10000 0;20000 0\n10,3,4,5 5;5 5\n";

const INTERLEAVED: &[u8] = b"trace,x,y\n1,1000,0\n2,9000,0\n1,2000,0\n";

pub const TABLE: &[u8] =
    b"fmm-table 1 bound 300000 nodes 3 edges 2\nrow 1 1:0:- 2:10000:1\nend rows 1\n";

pub const CERTIFICATE: &[u8] =
    b"fmm-certificate 1 k 8 radius 10000 sigma 1000 beta 1000 bound 300000
trace 7
layer 0 rank 0 cells 45 40545
layer 1 rank 0 cells 112<0 1568<0
piece 0 1 cost 112 route 10
end 7
row 1 1:0:- 2:10000:1
row 2 2:0:-
certified traces 1 rows 2
";

const NO_NETWORK: &[u8] = b"fmm: cannot read network\n";

const NO_TRACES: &[u8] = b"fmm: cannot read traces\n";

const NO_TABLE: &[u8] = b"fmm: cannot read table\n";

const NO_CERTIFICATE: &[u8] = b"fmm: cannot read certificate\n";

// A run, the line of each of its reads where that fails, how many puts on out it takes, and how it ends.
#[derive(Clone, Copy)]
pub struct Run<'a> {
    pub shows: &'static str,
    pub words: &'static [&'static str],
    pub network: &'a [u8],
    pub traces: &'a [u8],
    pub reads: &'static [&'static [u8]],
    pub puts: u64,
    pub status: u8,
    pub line: &'static [u8],
}

pub const MATCH: Run<'static> = Run {
    shows: "match",
    words: &["match", "net", "tra"],
    network: TWO_EDGES,
    traces: ONE_TRACE,
    reads: &[NO_NETWORK, NO_NETWORK, NO_TRACES, NO_TRACES],
    puts: 2,
    status: 0,
    line: b"",
};

pub static RUNS: [Run<'static>; 13] = [
    MATCH,
    Run {
        shows: "match of two traces",
        traces: TWO_TRACES,
        ..MATCH
    },
    Run {
        shows: "match of the earlier of two ways",
        words: &["match", "net", "tra", "--k", "1"],
        network: TWO_WAYS,
        traces: TWO_PLACES,
        ..MATCH
    },
    Run {
        shows: "match with a fault",
        traces: FAULTY,
        reads: &[NO_NETWORK, NO_NETWORK, NO_TRACES],
        puts: 1,
        status: 6,
        line: b"traces line 5 field 2: bad number\n",
        ..MATCH
    },
    Run {
        shows: "match with an id twice",
        network: ID_TWICE,
        reads: &[NO_NETWORK, NO_NETWORK],
        puts: 0,
        status: 5,
        line: b"network record 3: edge id repeated\n",
        ..MATCH
    },
    Run {
        shows: "a bad command line",
        words: &["match", "net"],
        reads: &[],
        puts: 0,
        status: 2,
        line: b"fmm: bad command line\n",
        ..MATCH
    },
    Run {
        shows: "a bad value",
        words: &["match", "net", "tra", "--k", "33"],
        reads: &[],
        puts: 0,
        status: 2,
        line: b"fmm: bad value k\n",
        ..MATCH
    },
    Run {
        shows: "match with a table",
        words: &["match", "net", "tra", "--table", "tab"],
        reads: &[
            NO_NETWORK, NO_NETWORK, NO_TABLE, NO_TABLE, NO_TRACES, NO_TRACES,
        ],
        ..MATCH
    },
    Run {
        shows: "follow",
        words: &["follow", "net", "tra"],
        ..MATCH
    },
    Run {
        shows: "streams",
        words: &["streams", "net", "tra"],
        traces: INTERLEAVED,
        puts: 3,
        ..MATCH
    },
    Run {
        shows: "prove",
        words: &["prove", "net", "tra"],
        puts: 1,
        ..MATCH
    },
    Run {
        shows: "check",
        words: &["check", "net", "tra", "cert"],
        reads: &[
            NO_NETWORK,
            NO_NETWORK,
            NO_TRACES,
            NO_TRACES,
            NO_CERTIFICATE,
            NO_CERTIFICATE,
        ],
        puts: 1,
        ..MATCH
    },
    Run {
        shows: "table",
        words: &["table", "net"],
        traces: b"",
        reads: &[NO_NETWORK, NO_NETWORK],
        puts: 1,
        ..MATCH
    },
];

// The numbers of the reads that fail, and of the puts on out and on err, and how many bytes a read gives
// at most.
#[derive(Clone, Copy)]
pub struct Trouble<'a> {
    pub reads: &'a [u64],
    pub puts: [&'a [u64]; 2],
    pub most: u32,
}

pub const NONE: Trouble<'static> = Trouble {
    reads: &[],
    puts: [&[], &[]],
    most: u32::MAX,
};

// Ends a run with such trouble.
pub fn end<R: Threads + Sync>(
    rt: &R,
    alloc: Global,
    it: &Run<'_>,
    trouble: Trouble<'_>,
) -> Result<Ended, AllocError> {
    let files = [
        ("net", it.network),
        ("tra", it.traces),
        ("tab", TABLE),
        ("cert", CERTIFICATE),
    ];
    let mut shelf = shelf(alloc, &files, trouble.reads, trouble.most)?;
    let gate = &OpenGate;
    run_to_end(&Env { rt, alloc, gate }, it.words, &mut shelf, trouble.puts)
}
