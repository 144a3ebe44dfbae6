//! The faults of network files.
use plain_list::List;
use road_network::{NetworkFault, read_network};
use std::alloc::Global;

// Whether this is the line of the fault. Want of memory has none.
fn has_line(alloc: Global, fault: NetworkFault, line: &[u8]) -> bool {
    if let NetworkFault::Memory = fault {
        return false;
    }
    let mut text = List::new(alloc);
    fault.write_line(alloc, &mut text).is_ok() && text.as_slice() == line
}

// Whether the fault shows as the end of this line, without its LF.
fn shows_as(alloc: Global, fault: NetworkFault, line: &[u8]) -> bool {
    match format!(in alloc; "{fault}\n") {
        Ok(text) => line.ends_with(text.as_bytes()),
        Err(_) => false,
    }
}

// Whether the first fault of a file has this line.
fn is_refused(alloc: Global, bytes: &[u8], line: &[u8]) -> bool {
    match read_network(alloc, bytes) {
        Ok(_) => false,
        Err(fault) => has_line(alloc, fault, line),
    }
}

// Each file, and its first fault.
static FAULTY_FILES: [(&[u8], &[u8]); 6] = [
    (b"", b"network: bad header\n"),
    (
        b"edge,from,to,line\n10,1,2,0 0\n11,2,3,10000 0;20000 0\n",
        b"network record 1: line too short\n",
    ),
    (
        b"edge,from,to,line\n10,1,2,0 0;100000001 0\n",
        b"network record 1: edge too long\n",
    ),
    (
        b"edge,from,to,line\n4294967296,1,2,0 0;+1 0\n",
        b"network record 1 field 4: bad number\n",
    ),
    (
        b"edge,from,to,line\n10,1,2,0 0;10000 0\n11,2,3,10000 0;20000 0\n10,3,4,5 5;5 5\n",
        b"network record 3: edge id repeated\n",
    ),
    (
        b"edge,from,to,line\n10,1,2,0 0;10000 0\n11,2,3,10000 0;20000 0\n12,3,4,5 5;5 5\n",
        b"network record 3 point 2: point repeated\n",
    ),
];

#[test]
fn the_first_fault_of_a_file(rt: HostRuntime) {
    for (file, line) in &FAULTY_FILES {
        assert!(rt; is_refused(rt.alloc(), file, line));
    }
}

// Each fault, and its line.
static LINES: [(NetworkFault, &[u8]); 12] = [
    (NetworkFault::BadHeader, b"network: bad header\n"),
    (
        NetworkFault::FieldCount(1),
        b"network record 1: wrong number of fields\n",
    ),
    (
        NetworkFault::BadNumber(1, 2),
        b"network record 1 field 2: bad number\n",
    ),
    (
        NetworkFault::OutOfRange(1, 3),
        b"network record 1 field 3: out of range\n",
    ),
    (
        NetworkFault::DuplicateEdge(3),
        b"network record 3: edge id repeated\n",
    ),
    (
        NetworkFault::ShortLine(4),
        b"network record 4: line too short\n",
    ),
    (
        NetworkFault::RepeatedPoint(3, 2),
        b"network record 3 point 2: point repeated\n",
    ),
    (
        NetworkFault::EdgeTooLong(1),
        b"network record 1: edge too long\n",
    ),
    (
        NetworkFault::TooManyEdges(150_001),
        b"network record 150001: too many edges\n",
    ),
    (
        NetworkFault::TooManyNodes(30_001),
        b"network record 30001: too many nodes\n",
    ),
    (
        NetworkFault::TooManyPoints(9),
        b"network record 9: too many points\n",
    ),
    (NetworkFault::FileTooLong, b"network: file too long\n"),
];

#[test]
fn the_lines_of_the_faults(rt: HostRuntime) {
    for (fault, line) in &LINES {
        assert!(rt; has_line(rt.alloc(), *fault, line));
        assert!(rt; shows_as(rt.alloc(), *fault, line));
    }
}
