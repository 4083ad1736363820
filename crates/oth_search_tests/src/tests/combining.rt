//! What the values of all boards some plies below a board tell of it, where a side passes on the way.

use oth_rules::{Board, Scoring, Square};
use oth_search::{NoCells, Solved, backed_up_from};
use std::alloc::Global;

/// The board with row 1 `--OXOOO-` and all else `O`, seen by `X`. Its value is -50.
const A: [u64; 2] = [0x8, 0xffff_ffff_ffff_ff74];

/// The board, or the one after the pass where its mover must pass.
fn awake(board: Board) -> Board {
    let passed = board.pass();
    if board.moves() == 0 && passed.moves() != 0 {
        passed
    } else {
        board
    }
}

/// The boards after each move of each of these, behind a forced pass. A finished board stays.
fn a_ply_below(alloc: Global, boards: &[Board]) -> Option<Vec<Board>> {
    let mut below = Vec::new(alloc);
    for board in boards {
        let mover = awake(*board);
        if mover.moves() == 0 {
            below.push(mover).ok()?;
        }
        for number in 0..64 {
            let square = Square::of(number)?;
            if let Some(child) = mover.play(square) {
                below.push(awake(child)).ok()?;
            }
        }
    }
    Some(below)
}

/// The bounds that the values of these boards, `plies` plies below the root, tell of the root.
fn told_by(alloc: Global, root: Board, plies: u8, boards: &[Board]) -> Option<[i8; 2]> {
    let mut known = Vec::new(alloc);
    for board in boards {
        let solved = Solved::by_search(board, -65, 65, &mut NoCells, Scoring::Winner);
        known.push(solved).ok()?;
    }
    let told = backed_up_from(root, plies, known.as_slice(), Scoring::Winner).interval;
    Some([told.lower, told.upper])
}

#[test]
fn combines_past_passes_and_two_plies(rt: HostRuntime) {
    let alloc = rt.alloc();
    let Ok(root) = Board::of(A[0], A[1]) else {
        panic!(rt; "no board")
    };
    for board in [root, root.pass()] {
        let score = if board == root { -50 } else { 50 };
        let Some(first) = a_ply_below(alloc, &[board]) else {
            panic!(rt; "no memory")
        };
        assert!(rt; told_by(alloc, board, 1, first.as_slice()) == Some([score, score]));
        let Some(second) = a_ply_below(alloc, first.as_slice()) else {
            panic!(rt; "no memory")
        };
        assert!(rt; told_by(alloc, board, 2, second.as_slice()) == Some([score, score]));
    }
}
