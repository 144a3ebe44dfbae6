//! Each read and each put fails in turn, and files come a few bytes at a time.
use crate::commands::{MATCH, NONE, RUNS, Run, Trouble, end};
use crate::ended::Ended;
use crate::texts::many_traces;
use std::alloc::{AllocError, Global};
use std::thread::Threads;

// Whether a run ended with this status and line, and with a beginning of the whole text.
fn is_cut(ended: Result<Ended, AllocError>, status: u8, line: &[u8], whole: &Ended) -> bool {
    match ended {
        Ok(cut) => cut.is_cut(status, line, whole),
        Err(_) => false,
    }
}

// Whether it ends as the whole run does.
fn is_same<R: Threads + Sync>(
    rt: &R,
    alloc: Global,
    it: &Run<'_>,
    trouble: Trouble<'_>,
    whole: &Ended,
) -> bool {
    match end(rt, alloc, it, trouble) {
        Ok(ended) => ended.is_same(whole),
        Err(_) => false,
    }
}

// Whether a run ends as it has to where each of its reads fails in turn, and then one after the last.
fn fails_at_each_read<R: Threads + Sync>(
    rt: &R,
    alloc: Global,
    it: &Run<'_>,
    whole: &Ended,
) -> bool {
    let mut read = 1;
    for line in it.reads {
        let trouble = Trouble {
            reads: &[read],
            ..NONE
        };
        if !is_cut(end(rt, alloc, it, trouble), 3, line, whole) {
            return false;
        }
        read = read.saturating_add(1);
    }
    let trouble = Trouble {
        reads: &[read],
        ..NONE
    };
    is_same(rt, alloc, it, trouble, whole)
        && whole.status == it.status
        && whole.err.bytes() == it.line
}

// The same for each put on out.
fn fails_at_each_put<R: Threads + Sync>(
    rt: &R,
    alloc: Global,
    it: &Run<'_>,
    whole: &Ended,
) -> bool {
    for before in 0..it.puts {
        let trouble = Trouble {
            puts: [&[before + 1], &[]],
            ..NONE
        };
        let ended = end(rt, alloc, it, trouble);
        if !is_cut(ended, 4, b"fmm: write failed\n", whole) {
            return false;
        }
    }
    let after_all = it.puts.saturating_add(1);
    let trouble = Trouble {
        puts: [&[after_all], &[]],
        ..NONE
    };
    is_same(rt, alloc, it, trouble, whole)
}

// Whether a run that has a line for err ends with status 4 and half of the line where its put fails.
fn fails_at_its_line<R: Threads + Sync>(
    rt: &R,
    alloc: Global,
    it: &Run<'_>,
    whole: &Ended,
) -> bool {
    let trouble = Trouble {
        puts: [&[], &[1]],
        ..NONE
    };
    if it.line.is_empty() {
        return is_same(rt, alloc, it, trouble, whole);
    }
    let half = &it.line[..it.line.len() / 2];
    match end(rt, alloc, it, trouble) {
        Ok(cut) => cut.is(4, whole.out.bytes(), half),
        Err(_) => false,
    }
}

// Whether a run ends as always where its files come by one, two and seven bytes.
fn is_same_by_drops<R: Threads + Sync>(rt: &R, alloc: Global, it: &Run<'_>, whole: &Ended) -> bool {
    for most in [1, 2, 7] {
        if !is_same(rt, alloc, it, Trouble { most, ..NONE }, whole) {
            return false;
        }
    }
    true
}

#[derive(Clone, Copy)]
enum Trial {
    Reads,
    Puts,
    Line,
    Drops,
}

fn passes<R: Threads + Sync>(rt: &R, alloc: Global, it: &Run<'_>, trial: Trial) -> bool {
    let Ok(whole) = end(rt, alloc, it, NONE) else {
        return false;
    };
    match trial {
        Trial::Reads => fails_at_each_read(rt, alloc, it, &whole),
        Trial::Puts => fails_at_each_put(rt, alloc, it, &whole),
        Trial::Line => fails_at_its_line(rt, alloc, it, &whole),
        Trial::Drops => is_same_by_drops(rt, alloc, it, &whole),
    }
}

#[test]
fn each_read_fails_in_turn(rt: HostRuntime) {
    for it in &RUNS {
        assert!(rt; passes(&rt, rt.alloc(), it, Trial::Reads), "{}", it.shows);
    }
}

#[test]
fn each_put_fails_in_turn(rt: HostRuntime) {
    for it in &RUNS {
        assert!(rt; passes(&rt, rt.alloc(), it, Trial::Puts), "{}", it.shows);
    }
}

#[test]
fn each_line_fails(rt: HostRuntime) {
    for it in &RUNS {
        assert!(rt; passes(&rt, rt.alloc(), it, Trial::Line), "{}", it.shows);
    }
}

#[test]
fn files_come_by_drops(rt: HostRuntime) {
    for it in &RUNS {
        assert!(rt; passes(&rt, rt.alloc(), it, Trial::Drops), "{}", it.shows);
    }
}

// Two batches of 256 traces, one of 88, and the total line.
fn passes_in_batches<R: Threads + Sync>(rt: &R, alloc: Global, trial: Trial) -> bool {
    let Ok(traces) = many_traces(alloc, 600) else {
        return false;
    };
    let it = Run {
        traces: traces.as_slice(),
        puts: 4,
        ..MATCH
    };
    passes(rt, alloc, &it, trial)
}

#[test]
fn batches_fail_in_turn(rt: HostRuntime) {
    assert!(rt; passes_in_batches(&rt, rt.alloc(), Trial::Reads));
    assert!(rt; passes_in_batches(&rt, rt.alloc(), Trial::Puts));
}
