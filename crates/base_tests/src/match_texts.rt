//! Match texts read, written again, and refused.
use match_text::{Label, MatchedTrace, TextFault, read_match, write_match};
use plain_list::List;
use std::alloc::Global;

const ONE_PIECE: &[u8] =
    b"trace 7\nat 0 edge 10 offset 1000 d2 90000\nat 1 edge 10 offset 9000 d2 90000\npiece 0 1 cost 112 route 10\nend 7\n";

const LABELS: [Label; 2] = [
    Label::On {
        edge: 10,
        offset: 1000,
        d2: 90000,
    },
    Label::On {
        edge: 10,
        offset: 9000,
        d2: 90000,
    },
];

fn is_one_piece(m: &MatchedTrace) -> bool {
    let [piece] = m.pieces.as_slice() else {
        return false;
    };
    m.id == 7
        && m.labels.as_slice() == LABELS.as_slice()
        && (piece.first, piece.last, piece.cost) == (0, 1, 112)
        && piece.route.as_slice() == [10].as_slice()
}

#[test]
fn one_piece(rt: HostRuntime) {
    assert!(rt; matches!(read_match(rt.alloc(), ONE_PIECE), Ok(m) if is_one_piece(&m)));
}

static TEXTS: [(&str, &[u8]); 4] = [
    ("none", b"trace 1\nnone 0\nend 1\n"),
    ("one piece", ONE_PIECE),
    (
        "two pieces",
        b"trace 8\nat 0 edge 10 offset 9000 d2 0\npiece 0 0 cost 0 route 10\nat 1 edge 10 offset 1000 d2 0\npiece 1 1 cost 0 route 10\nend 8\n",
    ),
    (
        "none between two pieces",
        b"trace 1\nat 0 edge 10 offset 1000 d2 0\npiece 0 0 cost 0 route 10\nnone 1\nat 2 edge 10 offset 2000 d2 0\npiece 2 2 cost 0 route 10\nend 1\n",
    ),
];

fn is_written_again(alloc: Global, text: &[u8]) -> bool {
    let Ok(m) = read_match(alloc, text) else {
        return false;
    };
    let mut written = List::new(alloc);
    write_match(alloc, &m, &mut written).is_ok() && written.as_slice() == text
}

#[test]
fn texts_are_written_again(rt: HostRuntime) {
    for (shows, text) in &TEXTS {
        assert!(rt; is_written_again(rt.alloc(), text), "{shows}");
    }
}

// What is bad, the text, and the line that is refused.
static BAD_TEXTS: [(&str, &[u8], u64); 7] = [
    ("an empty text", b"", 1),
    ("another point", b"trace 1\nnone 1\nend 1\n", 2),
    ("no end", b"trace 1\nnone 0\n", 3),
    (
        "no piece",
        b"trace 1\nat 0 edge 1 offset 0 d2 0\nend 1\n",
        3,
    ),
    (
        "a leading zero",
        b"trace 1\nat 0 edge 1 offset 0 d2 00\n",
        2,
    ),
    ("a line after the end", b"trace 1\nnone 0\nend 1\n\n", 4),
    ("no last line end", b"trace 1\nnone 0\nend 1", 3),
];

fn is_refused_at(alloc: Global, text: &[u8], line: u64) -> bool {
    matches!(read_match(alloc, text), Err(TextFault::BadLine(bad)) if bad == line)
}

#[test]
fn bad_lines(rt: HostRuntime) {
    for (shows, text, line) in &BAD_TEXTS {
        assert!(rt; is_refused_at(rt.alloc(), text, *line), "{shows}");
    }
}
