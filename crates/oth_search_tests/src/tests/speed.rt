//! Parts of the search that affect speed only, and of which no contract speaks. The boards are of random games. Each of
//! 13 empty squares is the one of 24 on which the part in question makes the greatest difference.

use super::board_of;
use super::keeping::Counted;
use oth_rules::{Board, Scoring, Square};
use oth_search::{
    Cells, Entry, LocalTable, NoCells, NoPeers, RootMoves, Solved, first_threshold, search,
    solve_with,
};
use std::test::Fail;

/// The root's score is known from its replies before the moves that may reach it are compared: 779 boards are looked
/// up, and 1,551 where the root is not told of its replies.
#[test]
fn a_root_knows_what_its_replies_give_it(rt: HostRuntime) -> Result<(), Fail> {
    let board = board_of(&rt, [0xbed0_6c7c_1c02_2702, 0x000f_9383_a2fc_5880]);
    let mut cells = Counted::over(LocalTable::below(rt.alloc(), board.empties())?);
    let answer = solve_with(board, &mut cells, Scoring::Winner);
    assert!(rt; answer.board == board);
    assert!(rt;
        cells.looked <= 1_150,
        "{} boards are looked up",
        cells.looked
    );
    Ok(())
}

/// A wide window opens the first move at once, and any later one only behind a null-window search: 366 boards are
/// looked up, and 511 where the first is asked so too.
#[test]
fn a_window_opens_its_first_move(rt: HostRuntime) -> Result<(), Fail> {
    let board = board_of(&rt, [0x0006_2a2c_5808_442c, 0xf0f8_d5d3_a757_9910]);
    let mut cells = Counted::over(LocalTable::below(rt.alloc(), board.empties())?);
    let found = search(&board, -65, 65, &mut cells, Scoring::Winner);
    assert!(rt; found.lower == found.upper);
    assert!(rt;
        cells.looked <= 435,
        "{} boards are looked up",
        cells.looked
    );
    Ok(())
}

/// A board of 14 empty squares that its mover wins by 42 (another solver gives it that), and the same board with the
/// other side on the move, who seems to lose it.
#[test]
fn a_guess_is_of_the_movers_side(rt: HostRuntime) {
    let board = board_of(&rt, [0x1fff_442a_1d20_0000, 0x6000_bad4_e21d_7ae0]);
    assert!(rt; guessed_score(board) > 0);
    assert!(rt; guessed_score(board.pass()) < 0);
}

// The score that the board seems to have.
fn guessed_score(board: Board) -> i8 {
    let root = Solved::unknown(board, Scoring::Winner);
    let mut moves = RootMoves::of(&root, &[]);
    -first_threshold(&mut moves, &mut NoCells, &mut NoPeers)
}

/// Keeps nothing but the board that is looked up first after the root.
#[derive(Drop)]
struct SecondLook {
    looks: u32,
    board: Option<Board>,
}

impl Cells for SecondLook {
    ghost Fixed = { Unit {0} };

    ghost fixed = { λ c. tt };

    fn look(&mut self, board: &Board, _scoring: Scoring) -> Option<Entry> {
        self.looks = self.looks.wrapping_add(1);
        if self.looks == 2 {
            self.board = Some(*board);
        }
        None
    }

    fn put(&mut self, _entry: &Entry) {}
}

/// On this board of ten empty squares b1 and h6 leave the opponent four moves each, and no other move leaves so few.
/// After b1 eight empty squares touch a disc of the mover, after h6 six: so h6 is searched first, and b1 where children
/// are ranked by the board before them.
#[test]
fn a_move_that_leaves_less_open_is_searched_first(rt: HostRuntime) {
    let board = board_of(&rt, [0x1f39_7978_dcfc_fc98, 0x0006_0687_2303_0260]);
    assert!(rt; board.empties() == 10);
    let Some(child) = board.play(Square::numbered(47)) else {
        panic!(rt; "no move")
    };
    let mut cells = SecondLook {
        looks: 0,
        board: None,
    };
    Solved::by_null_window(&board, 0, &mut cells, Scoring::Winner);
    assert!(rt; cells.board == Some(child.canonical().0));
}
