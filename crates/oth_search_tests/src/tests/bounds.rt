//! Which bounds a window decides, how an entry packs them, and what those of the boards below tell of a board.

use super::{A, board_of, check_bounds};
use oth_rules::Scoring;
use oth_search::{Entry, NoCells, Solved, backed_up_from, search};

#[test]
fn decides_each_window(rt: HostRuntime) {
    let board = board_of(&rt, A);
    let exact = search(&board, -65, 65, &mut NoCells, Scoring::Winner);
    check_bounds(&rt, exact, -50, -50);
    let above = search(&board, -51, -50, &mut NoCells, Scoring::Winner);
    assert!(rt; above.lower == -50);
    let below = search(&board, -50, 0, &mut NoCells, Scoring::Winner);
    assert!(rt; below.upper == -50);
}

/// The words of the entry with these bounds, if they contain the value.
fn packed(solved: &Solved, lower: i8, upper: i8) -> Option<[u64; 3]> {
    Some(Entry::of(&solved.widen(lower, upper)?).words())
}

#[test]
fn packs_bounds(rt: HostRuntime) {
    let board = board_of(&rt, A);
    let solved = Solved::by_search(&board, -65, 65, &mut NoCells, Scoring::Winner);
    for (lower, upper, bounds) in [
        (-64, -50, 3584),
        (-50, -50, 3598),
        (-50, 64, 32782),
        (-64, 64, 32768),
    ] {
        assert!(rt;
            packed(&solved, lower, upper) == Some([A[0], A[1], bounds]),
            "{lower}..{upper}"
        );
    }
}

#[test]
fn combines_what_is_known(rt: HostRuntime) {
    let root = board_of(&rt, A);
    let first = board_of(&rt, [0xffff_ffff_ffff_ff70, 0xe]);
    let second = board_of(&rt, [0xf8, 0xffff_ffff_ffff_ff04]);
    let known = [
        Solved::by_search(&first, -65, 65, &mut NoCells, Scoring::Winner),
        Solved::by_search(&second, -65, 65, &mut NoCells, Scoring::Winner),
    ];
    let combined = backed_up_from(root, 1, &known, Scoring::Winner).interval;
    check_bounds(&rt, combined, -50, -50);
}

#[test]
fn a_null_window_tells_one_threshold(rt: HostRuntime) {
    let board = board_of(&rt, A);
    let above = Solved::by_null_window(&board, -51, &mut NoCells, Scoring::Winner).interval;
    check_bounds(&rt, above, -50, 64);
    let below = Solved::by_null_window(&board, -50, &mut NoCells, Scoring::Winner).interval;
    check_bounds(&rt, below, -64, -50);
}
