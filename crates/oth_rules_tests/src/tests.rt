//! Boards whose scores, moves and canonical images are known from outside, and the counts of legal transcripts from
//! the start.

mod forms;
mod stable;

use oth_rules::{Board, Overlap, Scoring, Square, Sym, Twin};
use std::collections::VecDeque;
use std::process::Abort;

// The board whose first cells are these and whose other cells are all `rest`: X for the mover, O for the opponent.
fn board(rt: &impl Abort, top: &[u8], rest: u8) -> Board {
    let mut own = 0;
    let mut opp = 0;
    for place in 0..64 {
        let cell = top.get(place).copied().unwrap_or(rest);
        own |= u64::from(cell == b'X') << place;
        opp |= u64::from(cell == b'O') << place;
    }
    Board::of(own, opp).expect(rt, "no cell is both")
}

// The first cells of the start; the others are empty.
const START: &[u8] = b"---------------------------OX------XO---";

fn start(rt: &impl Abort) -> Board {
    board(rt, START, b'-')
}

// The legal squares that reach the score, by playing each.
fn best(board: &Board, scoring: Scoring) -> u64 {
    let score = i32::from(board.plain_score(scoring));
    let mut best = 0;
    for number in 0..64 {
        let square = Square::numbered(number);
        if let Some(child) = board.play(square) {
            if i32::from(child.plain_score(scoring)) + score == 0 {
                best |= square.word();
            }
        }
    }
    best
}

// Whether each form of moves gives the same on this board, and after a pass.
fn moves_agree(board: &Board) -> bool {
    let twin = Twin::of(board);
    let moves = board.moves();
    board.moves_by_lines() == moves
        && board.moves_by_shifts() == moves
        && twin.moves() == moves
        && twin.pass().moves() == board.pass().moves()
}

// Whether each form of flips gives the same, and each form of the move leads to the same board.
fn flips_agree(board: &Board, square: Square) -> bool {
    let twin = Twin::of(board);
    let flips = board.flips(square);
    let is_played = match board.play(square) {
        Some(child) => twin.play_legal(square).board() == child,
        None => true,
    };
    is_played
        && board.flips_by_rays(square) == flips
        && board.flips_by_shifts(square) == flips
        && twin.play(square).is_some() == (flips != 0)
}

// Each form of moves and flips gives the same on this board.
fn check_forms(rt: &impl Abort, board: &Board) {
    assert!(rt; moves_agree(board));
    for number in 0..64 {
        assert!(rt; flips_agree(board, Square::numbered(number)));
    }
}

fn check(rt: &impl Abort, board: &Board, scoring: Scoring, score: i8, squares: u64) {
    check_forms(rt, board);
    assert!(rt; board.plain_score(scoring) == score);
    assert!(rt; best(board, scoring) == squares);
}

const A1: u64 = 1;

const H1: u64 = 1 << 7;

const A2: u64 = 1 << 8;

const A8: u64 = 1 << 56;

// Row 1 `--OXOOO-`, all other cells O.
const BOARD_A: (u64, u64) = (0x8, 0xffff_ffff_ffff_ff74);

// The first cells of boards, and what all other cells are, with the score and the best moves of each.
type Row = (&'static [u8], u8, i8, u64);

const BY_WINNER: [Row; 4] = [
    (b"-OXXXXO-", b'X', 64, A1 | H1),
    (b"-OOOOOOXOOOOOOO-", b'O', -48, A1),
    (b"-OXXXXXX-OXXXXXX", b'X', 64, A1 | A2),
    (b"-OOOXO--", b'O', -50, A1),
];

const BY_DISCS: [Row; 4] = [
    (b"-OOOOOOXOOOOOOO-", b'O', -47, A1),
    (b"-OOOXO--", b'O', -49, A1),
    (b"-OXXXXO-", b'X', 64, A1 | H1),
    (b"-OXXXXXX-OXXXXXX", b'X', 64, A2),
];

fn check_rows(rt: &impl Abort, scoring: Scoring, rows: &[Row]) {
    for (top, rest, score, squares) in rows {
        check(rt, &board(rt, top, *rest), scoring, *score, *squares);
    }
}

#[test]
fn scores_and_best_moves_by_winner(rt: HostRuntime) {
    let full = board(&rt, b"", b'X');
    check(&rt, &full, Scoring::Winner, 64, 0);
    check(&rt, &full.pass(), Scoring::Winner, -64, 0);
    let one = board(&rt, b"-OXXXXXX", b'X');
    check(&rt, &one, Scoring::Winner, 64, A1);
    check(&rt, &one.pass(), Scoring::Winner, -64, 0);
    let a = board(&rt, b"--OXOOO-", b'O');
    assert!(rt; (a.own(), a.opp(), a.moves()) == (BOARD_A.0, BOARD_A.1, 0x82));
    check(&rt, &a, Scoring::Winner, -50, H1);
    check(&rt, &a.pass(), Scoring::Winner, 50, 0);
    check_rows(&rt, Scoring::Winner, BY_WINNER.as_slice());
}

#[test]
fn scores_and_best_moves_by_discs(rt: HostRuntime) {
    let a = board(&rt, b"--OXOOO-", b'O');
    check(&rt, &a, Scoring::Discs, -49, H1);
    check(&rt, &a.pass(), Scoring::Discs, 49, 0);
    let bottom = Board::of(0x10 << 56, !(0xd1 << 56)).expect(&rt, "apart");
    check(&rt, &bottom, Scoring::Discs, -49, A8);
    check(&rt, &bottom, Scoring::Winner, -50, A8);
    check_rows(&rt, Scoring::Discs, BY_DISCS.as_slice());
}

// Nobody can move on this board, and it has these scores.
fn check_finished(rt: &impl Abort, board: &Board, by_winner: i8, by_discs: i8) {
    check_forms(rt, board);
    assert!(rt; board.is_over());
    assert!(rt; board.final_score(Scoring::Winner) == by_winner);
    assert!(rt; board.final_score(Scoring::Discs) == by_discs);
}

#[test]
fn finished_boards_are_scored_both_ways(rt: HostRuntime) {
    let last = board(
        &rt,
        b"XXXXXXXXXXXXXXXXXXXXXXXXXXXXXXXXXXXXXXXXXXXXXXXXXXXXXXXXXXXXXXX-",
        b'-',
    );
    check_finished(&rt, &last, 64, 63);
    assert!(rt; last.empties() == 1);
    let draw = board(
        &rt,
        b"-XXXXXXXXOOOOOOXXOOOOOOXXOOOOOOXXOOOOOOXXOOOOOOXXXXXXXOXXXXXXXX-",
        b'-',
    );
    check_finished(&rt, &draw, 0, 0);
    assert!(rt; draw.plain_score(Scoring::Discs) == 0);
}

#[test]
fn words_that_share_a_square_are_refused(rt: HostRuntime) {
    assert!(rt; Board::of(3, 2) == Err(Overlap));
    assert!(rt; Square::of(64).is_none());
    assert!(rt; Sym::of(8).is_none());
    assert!(rt; Square::of(63).map(|s| s.number()) == Some(63));
    assert!(rt; Sym::of(7).map(|s| s.number()) == Some(7));
}

#[test]
fn nothing_wraps_from_h_to_a(rt: HostRuntime) {
    let edge = board(&rt, b"------XO", b'-');
    let a2 = Square::numbered(8);
    for squares in [
        edge.flips(a2),
        edge.flips_by_rays(a2),
        edge.flips_by_shifts(a2),
        edge.moves(),
    ] {
        assert!(rt; squares == 0);
    }
    check_forms(&rt, &edge);
}

fn check_canonical(rt: &impl Abort, board: &Board, by: u8, own: u64, opp: u64) {
    check_forms(rt, board);
    let (least, sym) = board.canonical();
    check_forms(rt, &least);
    assert!(rt; (least.own(), least.opp(), sym.number()) == (own, opp, by));
}

#[test]
fn canonical_boards(rt: HostRuntime) {
    let start = start(&rt);
    assert!(rt; start.moves() == 1 << 19 | 1 << 26 | 1 << 37 | 1 << 44);
    check_canonical(&rt, &start, 0, 1 << 28 | 1 << 35, 1 << 27 | 1 << 36);
    let (own, opp) = BOARD_A;
    check_canonical(&rt, &board(&rt, b"--OXOOO-", b'O'), 0, own, opp);
    check_canonical(&rt, &board(&rt, b"-OOOXO--", b'O'), 1, own, opp);
    let bottom = Board::of(0x10 << 56, !(0xd1 << 56)).expect(&rt, "apart");
    check_canonical(&rt, &bottom, 3, own, opp);
    let c = board(&rt, b"-OXXXXO-", b'X');
    check_canonical(&rt, &c, 2, 0x3cff_ffff_ffff_ffff, 0x4200_0000_0000_0000);
    let one = board(&rt, b"-OXXXXXX", b'X');
    check_canonical(&rt, &one, 3, 0x3fff_ffff_ffff_ffff, 0x4000_0000_0000_0000);
    let two = board(&rt, b"-OXXXXXX-OXXXXXX", b'X');
    check_canonical(&rt, &two, 7, 0x3f3f_ffff_ffff_ffff, 0x00c0_0000_0000_0000);
    let half = two.image(Sym::numbered(3));
    assert!(rt; half.own() == 0x3f3f_ffff_ffff_ffff);
    assert!(rt; half.opp() > 0x00c0_0000_0000_0000);
}

// A word whose bits look random, from the one before it.
fn scrambled(word: u64) -> u64 {
    let word = word ^ word << 13;
    let word = word ^ word >> 7;
    word ^ word << 17
}

// Boards with many, some and few discs. Each square is legal on one of them.
#[test]
fn forms_on_scattered_discs(rt: HostRuntime) {
    let mut word = 0x9e37_79b9_7f4a_7c15;
    let mut seen = 0;
    for round in 0..3000 {
        let side = scrambled(word);
        let first = scrambled(side);
        word = scrambled(first);
        let taken = match round % 3 {
            0 => first | word,
            1 => first,
            _ => first & word,
        };
        let board = Board::of(taken & side, taken & !side).expect(&rt, "apart");
        check_forms(&rt, &board);
        seen |= board.moves();
    }
    assert!(rt; seen == u64::MAX);
}

// Lines of six discs in each direction, and lines that a shift would carry round the edge: the mover's discs, the
// opponent's, and the moves.
const LONGEST_LINES: [(u64, u64, u64); 5] = [
    (1 << 7, 0x7e, A1),
    (A1, 0x7e, H1),
    (A1, 0x0001_0101_0101_0100, A8),
    (A1, 0x0040_2010_0804_0200, 1 << 63),
    (1 << 23, 1 << 15 | 1 << 16 | 1 << 31 | 1 << 32, H1 | 1 << 39),
];

#[test]
fn moves_past_the_longest_lines(rt: HostRuntime) {
    for (own, opp, moves) in LONGEST_LINES {
        let board = Board::of(own, opp).expect(&rt, "apart");
        assert!(rt; board.moves() == moves);
    }
}

#[test]
fn legal_transcripts_of_one_to_five_moves(rt: HostRuntime) {
    let mut boards = VecDeque::new(rt.alloc());
    boards.push_back(start(&rt)).expect(&rt, "memory");
    check_forms(&rt, &start(&rt));
    for count in [4, 12, 56, 244, 1396] {
        for _ in 0..boards.len() {
            let Some(next) = boards.pop_front() else {
                break
            };
            let awake = if next.moves() == 0 { next.pass() } else { next };
            for number in 0..64 {
                if let Some(child) = awake.play(Square::numbered(number)) {
                    check_forms(&rt, &child);
                    boards.push_back(child).expect(&rt, "memory");
                }
            }
        }
        assert!(rt; boards.len() == count);
    }
}
