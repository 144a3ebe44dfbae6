//! Roots, lengths, snaps and lists.
use plain_list::List;
use polyline_geometry::{
    NearSegments, Point, Snap, extend_offsets, line_length, nearest_in_box, nearest_segment,
    nearest_segments, offset_on, root, snap_line, snap_segment, straight,
};
use std::alloc::Global;

const CORNER: [Point; 3] = [
    Point { x: 0, y: 0 },
    Point { x: 10, y: 0 },
    Point { x: 10, y: 10 },
];

const ARCH: [Point; 4] = [
    Point { x: 0, y: 0 },
    Point { x: 0, y: 10 },
    Point { x: 10, y: 10 },
    Point { x: 10, y: 0 },
];

static ROOTS: [(u128, u64); 4] = [
    (0, 0),
    (64_360_000, 8_022),
    (8_000_000_000_000_000_000, 2_828_427_124),
    (u128::MAX - 1, u64::MAX),
];

#[test]
fn roots(rt: HostRuntime) {
    for (square, side) in &ROOTS {
        assert_eq!(rt; root(*square), *side);
    }
}

const DIAGONAL: [Point; 2] = [Point { x: 1_000, y: 1_000 }, Point { x: 0, y: 0 }];

const MIDDLE: [Point; 3] = [
    Point { x: 0, y: 0 },
    Point { x: 5_000, y: 0 },
    Point { x: 10_000, y: 0 },
];

const TOO_LONG: [Point; 2] = [
    Point { x: 0, y: 0 },
    Point {
        x: 100_000_001,
        y: 0,
    },
];

#[test]
fn lengths(rt: HostRuntime) {
    let end = Point { x: 9_000, y: -300 };
    assert_eq!(rt; straight(Point { x: 1_000, y: 300 }, end), 8_022);
    let lines = [
        line_length(DIAGONAL.as_slice()),
        line_length(MIDDLE.as_slice()),
        line_length(TOO_LONG.as_slice()),
    ];
    assert_eq!(rt; lines, [1_414, 10_000, 100_000_001]);
}

#[test]
fn snap_rounds_towards_minus_infinity(rt: HostRuntime) {
    let snap = snap_segment(
        Point { x: 0, y: 0 },
        Point { x: -3, y: -1 },
        Point { x: -2, y: 1 },
    );
    assert_eq!(rt; snap, Snap { d2: 4, offset: 1 });
}

#[test]
fn snap_to_a_corner(rt: HostRuntime) {
    let corner = CORNER.as_slice();
    assert_eq!(rt; line_length(corner), 20);
    let snaps = [
        snap_line(corner, Point { x: 10, y: 0 }),
        snap_line(corner, Point { x: 13, y: 4 }),
    ];
    assert_eq!(rt;
        snaps,
        [Snap { d2: 0, offset: 10 }, Snap { d2: 9, offset: 14 }]
    );
}

#[test]
fn the_nearest_of_a_segment_and_of_a_box(rt: HostRuntime) {
    let corner = CORNER.as_slice();
    let point = Point { x: 13, y: 4 };
    let found = [
        nearest_segment(corner, 0, 2, point, 10).is_some(),
        nearest_segment(corner, 0, 2, point, 9).is_some(),
    ];
    let in_box = nearest_in_box(Point { x: 10, y: 10 }, Point { x: 0, y: 0 }, point);
    assert!(rt; found == [true, false] && in_box == Point { x: 10, y: 4 });
}

fn near(first: usize, last: usize, d2: u64) -> Option<NearSegments> {
    Some(NearSegments { first, last, d2 })
}

#[test]
fn segments_as_near(rt: HostRuntime) {
    let arch = ARCH.as_slice();
    let below = Point { x: 5, y: 0 };
    let found = [
        nearest_segments(CORNER.as_slice(), 0, 2, Point { x: 10, y: 0 }, 1),
        nearest_segments(arch, 0, 3, below, u64::MAX),
        nearest_segments(arch, 1, 3, below, 26),
        nearest_segments(arch, 0, 3, below, 25),
        nearest_segments(arch, 1, 1, below, u64::MAX),
        nearest_segments(arch, 0, 3, Point { x: 5, y: 8 }, 26),
    ];
    let wanted = [
        near(0, 1, 0),
        near(0, 2, 25),
        near(2, 2, 25),
        None,
        None,
        near(1, 1, 4),
    ];
    assert_eq!(rt; found, wanted);
}

fn offset_beside_arch(alloc: Global) -> Option<u32> {
    let mut offsets = List::new(alloc);
    let Ok(Some(_)) = extend_offsets(ARCH.as_slice(), 30, &mut offsets) else {
        return None;
    };
    let point = Point { x: 12, y: 7 };
    Some(offset_on(ARCH.as_slice(), offsets.as_slice(), point, 2))
}

#[test]
fn offset_in_a_later_segment(rt: HostRuntime) {
    assert_eq!(rt; offset_beside_arch(rt.alloc()), Some(23));
}

// Appends the offsets of the corner to 7, but not within a length of 19.
fn appends_offsets(offsets: &mut List<u32>) -> bool {
    let corner = CORNER.as_slice();
    offsets.push(7).is_ok()
        && matches!(extend_offsets(corner, 19, &mut *offsets), Ok(None))
        && matches!(extend_offsets(corner, 20, &mut *offsets), Ok(Some(20)))
        && offsets.as_slice() == [7, 0, 10, 20].as_slice()
}

#[test]
fn offsets_of_a_corner(rt: HostRuntime) {
    let mut offsets = List::new(rt.alloc());
    assert!(rt; appends_offsets(&mut offsets));
}

// Leaves a list with 5 alone.
fn grows_and_shrinks(list: &mut List<u8>) -> bool {
    if list.pop().is_some() || list.push(5).is_err() || list.extend_from_slice(&[6, 7]).is_err() {
        return false;
    }
    if let Some(last) = list.as_mut_slice().get_mut(2) {
        *last = 8;
    }
    let has_three = list.as_slice() == [5, 6, 8].as_slice() && list.get(3).is_none();
    list.truncate(2);
    has_three && list.pop() == Some(6)
}

#[test]
fn list_of_numbers(rt: HostRuntime) {
    let mut list = List::new(rt.alloc());
    assert!(rt; grows_and_shrinks(&mut list));
    let back = List::from_vec(list.into_vec());
    assert!(rt; back.as_slice() == [5].as_slice());
}
