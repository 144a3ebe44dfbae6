//! A process that calls `run` a hundred times does not grow, whatever the calls end with.
use crate::ended::{run_to_end, shelf};
use crate::texts::list;
use decimal_text::write_unsigned;
use match_pool::OpenGate;
use match_work::Env;
use plain_list::List;
use std::alloc::{AllocError, Global};
use std::fs;
use std::thread::Threads;

/// How many edges the road has.
const EDGES: u32 = 1_000;

/// A store of the road's rows takes more pages of 4,096 bytes than so many calls may add together: its slots alone
/// take 32,000 bytes.
const PAGES: u64 = 256;

const FAR: &[u8] = b"trace,x,y\n7,1000,0\n7,90000,0\n8,100,0\n";

/// Its fault is in its last line, so that rows are found before it.
const FAULTY: &[u8] = b"trace,x,y\n7,1000,0\n7,90000,0\n8,100,0\n8,x,0\n";

// An edge of 100 cm from node `edge` to the next.
fn append_edge(edge: u32, text: &mut List<u8>) -> Result<(), AllocError> {
    let next = u64::from(edge) + 1;
    write_unsigned(u64::from(edge), &mut *text)?;
    text.extend_from_slice(b",")?;
    write_unsigned(u64::from(edge), &mut *text)?;
    text.extend_from_slice(b",")?;
    write_unsigned(next, &mut *text)?;
    text.extend_from_slice(b",")?;
    write_unsigned(u64::from(edge) * 100, &mut *text)?;
    text.extend_from_slice(b" 0;")?;
    write_unsigned(next * 100, &mut *text)?;
    text.extend_from_slice(b" 0\n")
}

// A straight road of edges, one after the other.
fn road(alloc: Global) -> Result<List<u8>, AllocError> {
    let mut text = list(alloc, b"edge,from,to,line\n")?;
    for edge in 0..EDGES {
        append_edge(edge, &mut text)?;
    }
    Ok(text)
}

// A match by two workers, in which the puts of these numbers fail. The status that it ends with.
fn status<R: Threads + Sync>(
    rt: &R,
    alloc: Global,
    road: &[u8],
    traces: &[u8],
    puts: &[u64],
) -> Result<u8, AllocError> {
    let files = [("net", road), ("tra", traces)];
    let mut shelf = shelf(alloc, &files, &[], u32::MAX)?;
    let words = ["match", "net", "tra", "--workers", "2"];
    let gate = &OpenGate;
    let ended = run_to_end(&Env { rt, alloc, gate }, &words, &mut shelf, [puts, &[]])?;
    Ok(ended.status)
}

// Whether so many calls end as they have to: in turn they match all, meet a fault, and fail to write.
fn end_well<R: Threads + Sync>(
    rt: &R,
    alloc: Global,
    road: &[u8],
    turns: u32,
) -> Result<bool, AllocError> {
    for _ in 0..turns {
        let ended = [
            status(rt, alloc, road, FAR, &[])?,
            status(rt, alloc, road, FAULTY, &[])?,
            status(rt, alloc, road, FAR, &[1])?,
            status(rt, alloc, road, b"trace,x,y", &[])?,
        ];
        if ended != [0, 6, 4, 0] {
            return Ok(false);
        }
    }
    Ok(true)
}

// How many pages of this process are in memory.
fn pages(rt: &HostRuntime) -> Option<u64> {
    let text = fs::read_to_string(rt, "/proc/self/statm").ok()?;
    text.split(' ').nth(1)?.parse().ok()
}

// Whether so many turns of four calls end well.
fn turns_end_well<R: Threads + Sync>(rt: &R, alloc: Global, turns: u32) -> bool {
    match road(alloc) {
        Ok(road) => matches!(end_well(rt, alloc, road.as_slice(), turns), Ok(true)),
        Err(_) => false,
    }
}

fn grew_little(before: Option<u64>, after: Option<u64>) -> bool {
    match (before, after) {
        (Some(before), Some(after)) => after.saturating_sub(before) < PAGES,
        _ => false,
    }
}

// Twenty calls fill what the next hundred use again.
#[test]
fn a_hundred_runs_leave_no_memory_behind(rt: HostRuntime) {
    let alloc = rt.alloc();
    assert!(rt; turns_end_well(&rt, alloc, 5));
    let before = pages(&rt);
    assert!(rt; turns_end_well(&rt, alloc, 25));
    assert!(rt; grew_little(before, pages(&rt)));
}
