//! Command lines, accepted and refused.
use command_line::{
    CheckFiles, Command, MatchFiles, StreamFiles, TableFiles, TownNumbers, TraceFiles, Work,
    read_command,
};
use cost_model::Params;
use std::alloc::{AllocError, Global};

// The words of a line, between its blanks.
fn words(alloc: Global, line: &str) -> Result<Vec<String>, AllocError> {
    let mut words = Vec::new(alloc);
    for word in line.split_whitespace() {
        words.push(String::from_str(alloc, word)?)?;
    }
    Ok(words)
}

// The line of a fault of usage.
const USAGE: &str = "fmm: bad command line\n";

static REFUSED: [(&str, &str); 39] = [
    ("", USAGE),
    ("match a", USAGE),
    ("match a b c", USAGE),
    ("follows a b", USAGE),
    ("match a b --k 3 --k 4", USAGE),
    ("match a b --table c --table c", USAGE),
    ("match a b --k", USAGE),
    ("match a b --size 3", USAGE),
    ("match a -b", USAGE),
    ("match a b --help", USAGE),
    ("help", USAGE),
    ("follow a", USAGE),
    ("streams a", USAGE),
    ("follow a b --workers 65", "fmm: bad value workers\n"),
    ("prove a", USAGE),
    ("check a b", USAGE),
    ("check a b c d", USAGE),
    ("prove a b --table c", USAGE),
    ("check a b c --back 100001", "fmm: bad value back\n"),
    ("table", USAGE),
    ("table a b", USAGE),
    ("table a --table b", USAGE),
    ("match a b --k 0", "fmm: bad value k\n"),
    ("match a b --k 33", "fmm: bad value k\n"),
    ("match a b --k x", "fmm: bad value k\n"),
    ("match a b --k=+3", "fmm: bad value k\n"),
    ("town 20 200", USAGE),
    ("town 1 1 1", "fmm: bad value N\n"),
    ("town 101 0 1", "fmm: bad value N\n"),
    ("town 2 2001 x", "fmm: bad value T\n"),
    ("town 2 1 4294967296", "fmm: bad value SEED\n"),
    ("town 1 1 1 --k 0", "fmm: bad value k\n"),
    (
        "match --gap 4294967296 a b --radius 0",
        "fmm: bad value radius\n",
    ),
    ("match a b --idle 60", USAGE),
    ("follow a b --idle=4294967295", USAGE),
    ("streams a b --idle 0", "fmm: bad value idle\n"),
    ("streams --idle=4294967296 a b", "fmm: bad value idle\n"),
    ("streams a b --idle x", "fmm: bad value idle\n"),
    ("streams a b --idle x --gap x", "fmm: bad value gap\n"),
];

fn is_refused(alloc: Global, line: &str, refusal: &str) -> bool {
    let Ok(words) = words(alloc, line) else {
        return false;
    };
    match read_command(alloc, words.as_slice()) {
        Ok(_) => false,
        Err(fault) => fault.line() == refusal,
    }
}

#[test]
fn refused_words(rt: HostRuntime) {
    for (line, refusal) in &REFUSED {
        assert!(rt; is_refused(rt.alloc(), line, refusal), "{line}");
    }
}

const BACK_500: Params = Params {
    back: 500,
    ..Params::DEFAULT
};

static ACCEPTED: [(&str, Command<'static>); 8] = [
    (
        "match a --k=3 --table t --gap 60 --bound 0 -- -b",
        Command {
            work: Work::Match(MatchFiles {
                network: "a",
                traces: "-b",
                table: Some("t"),
            }),
            options: Params {
                k: 3,
                bound: 0,
                gap: 60,
                ..Params::DEFAULT
            },
        },
    ),
    (
        "follow --back=500 a b",
        Command {
            work: Work::Follow(TraceFiles {
                network: "a",
                traces: "b",
            }),
            options: BACK_500,
        },
    ),
    (
        "streams a b --back 500",
        Command {
            work: Work::Streams(StreamFiles {
                network: "a",
                traces: "b",
                idle: u32::MAX,
            }),
            options: BACK_500,
        },
    ),
    (
        "streams --idle 1 a --back=500 b",
        Command {
            work: Work::Streams(StreamFiles {
                network: "a",
                traces: "b",
                idle: 1,
            }),
            options: BACK_500,
        },
    ),
    (
        "prove a --back 500 b",
        Command {
            work: Work::Prove(TraceFiles {
                network: "a",
                traces: "b",
            }),
            options: BACK_500,
        },
    ),
    (
        "check a --back 500 b c",
        Command {
            work: Work::Check(CheckFiles {
                network: "a",
                traces: "b",
                certificate: "c",
            }),
            options: BACK_500,
        },
    ),
    (
        "table --back=500 a",
        Command {
            work: Work::Table(TableFiles { network: "a" }),
            options: BACK_500,
        },
    ),
    (
        "town 20 --workers 7 200 01",
        Command {
            work: Work::Town(TownNumbers {
                side: 20,
                traces: 200,
                seed: 1,
            }),
            options: Params {
                workers: 7,
                ..Params::DEFAULT
            },
        },
    ),
];

// The name of a work's command, and those of its files.
fn names_of<'a>(work: &Work<'a>) -> [&'a str; 4] {
    match *work {
        Work::Match(files) => [
            "match",
            files.network,
            files.traces,
            files.table.unwrap_or(""),
        ],
        Work::Follow(files) => ["follow", files.network, files.traces, ""],
        Work::Streams(files) => ["streams", files.network, files.traces, ""],
        Work::Prove(files) => ["prove", files.network, files.traces, ""],
        Work::Check(files) => ["check", files.network, files.traces, files.certificate],
        Work::Table(files) => ["table", files.network, "", ""],
        Work::Town(_) => ["town", "", "", ""],
    }
}

// The numbers of a work, and 0 for each without one.
fn numbers_of(work: &Work<'_>) -> [u32; 3] {
    match *work {
        Work::Town(numbers) => [numbers.side, numbers.traces, numbers.seed],
        Work::Streams(files) => [files.idle, 0, 0],
        _ => [0; 3],
    }
}

fn is_same(read: &Command<'_>, wanted: &Command<'_>) -> bool {
    names_of(&read.work) == names_of(&wanted.work)
        && numbers_of(&read.work) == numbers_of(&wanted.work)
        && read.options == wanted.options
}

fn is_accepted(alloc: Global, line: &str, wanted: &Command<'_>) -> bool {
    let Ok(words) = words(alloc, line) else {
        return false;
    };
    match read_command(alloc, words.as_slice()) {
        Ok(read) => is_same(&read, wanted),
        Err(_) => false,
    }
}

#[test]
fn accepted_words(rt: HostRuntime) {
    for (line, wanted) in &ACCEPTED {
        assert!(rt; is_accepted(rt.alloc(), line, wanted), "{line}");
    }
}
