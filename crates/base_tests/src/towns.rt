//! Generated towns.
use town::{Draw, town_network, town_traces};

#[test]
fn first_draws(rt: HostRuntime) {
    let draws = [Draw::new(0).below(4), Draw::new(0).below(2001)];
    assert!(rt; draws == [3, 1874]);
}

// The line of a text with this index, with its LF.
fn line_of(text: &[u8], index: usize) -> Option<&[u8]> {
    text.split_inclusive(|byte| *byte == b'\n').nth(index)
}

fn has_line(text: &[u8], index: usize, line: &[u8]) -> bool {
    match line_of(text, index) {
        None => false,
        Some(found) => found == line,
    }
}

fn is_smallest_network(text: &[u8]) -> bool {
    has_line(text, 0, b"edge,from,to,line\n")
        && has_line(text, 1, b"0,0,1,0 0;10000 0\n")
        && has_line(text, 8, b"7,3,2,10000 10000;0 10000\n")
        && line_of(text, 9).is_none()
}

#[test]
fn smallest_network(rt: HostRuntime) {
    let written = town_network(rt.alloc(), 2);
    assert!(rt; matches!(&written, Ok(text) if is_smallest_network(text.as_slice())));
}

fn is_point_of_trace_0(line: Option<&[u8]>) -> bool {
    match line {
        None => false,
        Some(line) => line.starts_with(b"0,"),
    }
}

fn has_twenty_points(text: &[u8]) -> bool {
    for index in 1..21 {
        if !is_point_of_trace_0(line_of(text, index)) {
            return false;
        }
    }
    has_line(text, 0, b"trace,x,y\n") && line_of(text, 21).is_none()
}

#[test]
fn smallest_traces(rt: HostRuntime) {
    let written = town_traces(rt.alloc(), 2, 1, 0);
    assert!(rt; matches!(&written, Ok(text) if has_twenty_points(text.as_slice())));
}
