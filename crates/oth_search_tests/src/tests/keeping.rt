//! What no clause says of look-ups and stores, and how many boards a search visits.
ghost use Rattle.std.specs.Prelude.{◌≡◌, IfSome};
ghost use Rattle.oth_search.specs.Bounds.Interval.{IsThreshold};

use super::{board_of, check_bounds, line_of};
use oth_rules::{Board, Scoring};
use oth_search::{Cells, Entry, LocalTable, NoCells, Solved, search, solve_with};
use std::process::Abort;
use std::test::Fail;

/// The board with row 1 `--OXOOO-` and all else `O`, seen by `X`. It is its own canonical form.
const A: [u64; 2] = [0x8, 0xffff_ffff_ffff_ff74];

/// Bounds of -50 to -50, -50 to 64 and -64 to -50, packed.
const EXACT: u64 = 14 + 256 * 14;

const AT_LEAST: u64 = 14 + 256 * 128;

const AT_MOST: u64 = 256 * 14;

/// Keeps what it was last put, and counts the calls.
#[derive(Drop)]
struct Kept {
    entry: Option<Entry>,
    looks: u32,
    puts: u32,
}

impl Kept {
    fn nothing() -> Kept {
        Kept {
            entry: None,
            looks: 0,
            puts: 0,
        }
    }

    /// Whether it keeps the entry of these words, and was looked at `looks` times and put `puts` times.
    fn has(&self, words: [u64; 3], looks: u32, puts: u32) -> bool {
        match &self.entry {
            Some(entry) => entry.words() == words && self.looks == looks && self.puts == puts,
            None => false,
        }
    }
}

/// The cells keep the entry of these words, and were looked at `looks` times and put `puts` times.
fn check_kept(rt: &impl Abort, cells: &Kept, words: [u64; 3], looks: u32, puts: u32) {
    assert!(rt; cells.has(words, looks, puts));
}

impl Cells for Kept {
    ghost Fixed = { Unit {0} };

    ghost fixed = { λ c. tt };

    fn look(&mut self, board: &Board, scoring: Scoring) -> Option<Entry> {
        self.looks = self.looks.wrapping_add(1);
        let entry = self.entry?;
        if entry.board() == *board && entry.scoring() == scoring {
            return Some(entry);
        }
        None
    }

    fn put(&mut self, entry: &Entry) {
        self.puts = self.puts.wrapping_add(1);
        self.entry = Some(*entry);
    }
}

#[test]
fn looks_up_and_puts(rt: HostRuntime) {
    let board = board_of(&rt, A);
    let mut cells = Kept::nothing();
    let first = search(&board, -65, 65, &mut cells, Scoring::Winner);
    check_bounds(&rt, first, -50, -50);
    check_kept(&rt, &cells, [A[0], A[1], EXACT], 1, 1);
    let second = search(&board, -65, 65, &mut cells, Scoring::Winner);
    check_bounds(&rt, second, -50, -50);
    check_kept(&rt, &cells, [A[0], A[1], EXACT], 2, 1);
}

#[test]
fn looks_up_what_is_kept(rt: HostRuntime) {
    let board = board_of(&rt, A);
    let mut cells = Kept::nothing();
    search(&board, -51, -50, &mut cells, Scoring::Winner);
    let known = Solved::looked_up(&board, &mut cells, Scoring::Winner);
    check_bounds(&rt, known.interval, -50, 64);
    let other = Solved::looked_up(&board, &mut cells, Scoring::Discs);
    check_bounds(&rt, other.interval, -64, 64);
    check_kept(&rt, &cells, [A[0], A[1], AT_LEAST], 3, 1);
}

#[test]
fn keeps_a_bound(rt: HostRuntime) {
    let board = board_of(&rt, A);
    let mut above = Kept::nothing();
    search(&board, -51, -50, &mut above, Scoring::Winner);
    check_kept(&rt, &above, [A[0], A[1], AT_LEAST], 1, 1);
    search(&board, -60, -55, &mut above, Scoring::Winner);
    check_kept(&rt, &above, [A[0], A[1], AT_LEAST], 2, 1);
}

#[test]
fn keeps_an_upper_bound(rt: HostRuntime) {
    let board = board_of(&rt, A);
    let mut below = Kept::nothing();
    search(&board, -50, 0, &mut below, Scoring::Winner);
    check_kept(&rt, &below, [A[0], A[1], AT_MOST], 1, 1);
    search(&board, -20, 65, &mut below, Scoring::Winner);
    check_kept(&rt, &below, [A[0], A[1], AT_MOST], 2, 1);
    search(&board, -51, -50, &mut below, Scoring::Winner);
    check_kept(&rt, &below, [A[0], A[1], EXACT], 3, 2);
}

#[test]
fn keeps_a_board_that_passes(rt: HostRuntime) {
    let board = board_of(&rt, [A[1], A[0]]);
    let mut cells = Kept::nothing();
    let found = search(&board, -65, 65, &mut cells, Scoring::Winner);
    check_bounds(&rt, found, 50, 50);
    let (image, _) = board.canonical();
    check_kept(
        &rt,
        &cells,
        [image.own(), image.opp(), 114 + 256 * 114],
        1,
        1,
    );
}

#[test]
fn keeps_images_under_one_board(rt: HostRuntime) {
    for words in [
        [0x10, 0xffff_ffff_ffff_ff2e],
        [0x10 << 56, 0x2eff_ffff_ffff_ffff],
    ] {
        let board = board_of(&rt, words);
        let mut cells = Kept::nothing();
        search(&board, -65, 65, &mut cells, Scoring::Winner);
        check_kept(&rt, &cells, [A[0], A[1], EXACT], 1, 1);
    }
}

#[test]
fn looks_up_no_finished_board(rt: HostRuntime) {
    for own in [u64::MAX, !(1 << 63), !0x3fff_ffff] {
        let board = board_of(&rt, [own, 0]);
        let mut cells = Kept::nothing();
        let found = search(&board, -65, 65, &mut cells, Scoring::Winner);
        check_bounds(&rt, found, 64, 64);
        assert!(rt; cells.looks == 0 && cells.puts == 0);
    }
}

/// A null window above and below the value of a board. The boards with fewer empty squares are remembered and not kept,
/// so a null-window search of nine makes one look and one put.
#[test]
fn keeps_what_a_null_window_tells(rt: HostRuntime) {
    let board = line_of(&rt, 9);
    assert!(rt; board.empties() == 9 && board.moves() != 0);
    let value = board.plain_score(Scoring::Winner);
    assert!(rt; -64 < value && value < 64);
    check_window_below_value(&rt, &board, value - 1);
    check_window_from_value(&rt, &board, value);
}

/// The words of an entry of the board with these packed bounds.
fn words_of(board: &Board, packed: u64) -> [u64; 3] {
    let (image, _) = board.canonical();
    [image.own(), image.opp(), packed]
}

/// The threshold is one below the value, so the search finds that the board gives at least as much.
fn check_window_below_value(rt: &impl Abort, board: &Board, alpha: i8)
    requires { IsThreshold alpha }
{
    let mut cells = Kept::nothing();
    let found = Solved::by_null_window(board, alpha, &mut cells, Scoring::Winner);
    check_bounds(rt, found.interval, alpha + 1, 64);
    let lower = (i16::from(alpha) + 65) as u64;
    check_kept(rt, &cells, words_of(board, lower + 256 * 128), 1, 1);
    Solved::by_null_window(board, alpha, &mut cells, Scoring::Winner);
    assert!(rt; cells.looks == 2 && cells.puts == 1);
}

/// The threshold is the value, so the search finds that the board gives at most as much.
fn check_window_from_value(rt: &impl Abort, board: &Board, value: i8)
    requires { IsThreshold value }
{
    let mut cells = Kept::nothing();
    let found = Solved::by_null_window(board, value, &mut cells, Scoring::Winner);
    check_bounds(rt, found.interval, -64, value);
    let lower = (i16::from(value) + 64) as u64;
    check_kept(rt, &cells, words_of(board, 256 * lower), 1, 1);
}

/// Keeps no entry and remembers, and counts the boards that a search visits: those that are looked up, of at least nine
/// empty squares, and those that are recalled, of five to eight.
#[derive(Drop)]
pub(crate) struct Counted {
    memo: LocalTable,
    pub(crate) looked: u32,
    recalled: u32,
}

impl Counted {
    /// Over this memory, before the first call.
    pub(crate) fn over(memo: LocalTable) -> Counted {
        Counted {
            memo,
            looked: 0,
            recalled: 0,
        }
    }
}

impl Cells for Counted {
    ghost Fixed = { Unit {0} };

    ghost fixed = { λ c. tt };

    fn look(&mut self, _board: &Board, _scoring: Scoring) -> Option<Entry> {
        self.looked = self.looked.wrapping_add(1);
        None
    }

    fn put(&mut self, _entry: &Entry) {}

    fn probe_local(&mut self, board: &Board, scoring: Scoring) -> Option<Solved> {
        self.recalled = self.recalled.wrapping_add(1);
        self.memo.probe_local(board, scoring)
    }

    fn store_local(&mut self, solved: &Solved) {
        self.memo.store_local(solved);
    }
}

/// A search that visits many more boards than this one does has lost something: its order, its windows or its memory.
#[test]
fn comes_to_few_boards(rt: HostRuntime) -> Result<(), Fail> {
    let board = line_of(&rt, 14);
    check_counts(
        &rt,
        LocalTable::below(rt.alloc(), 13)?,
        board,
        MOST_LOOKED,
        MOST_RECALLED,
    );
    Ok(())
}

/// 1.5 times the number that was counted when the bound was set.
const MOST_LOOKED: u32 = 1_700;

const MOST_RECALLED: u32 = 19_000;

/// A board of 14 empty squares that one side wins by much (another solver gives it +42): without the bound by stable
/// discs the search visits three times as many boards.
#[test]
fn ends_where_stable_discs_leave_too_little(rt: HostRuntime) -> Result<(), Fail> {
    let board = board_of(&rt, [0x1fff_442a_1d20_0000, 0x6000_bad4_e21d_7ae0]);
    let memo = LocalTable::below(rt.alloc(), 13)?;
    let score = check_counts(&rt, memo, board, MOST_LOOKED_WON, MOST_RECALLED_WON);
    assert!(rt; score == 42);
    Ok(())
}

/// 1.5 times the number that was counted when the bound was set.
const MOST_LOOKED_WON: u32 = 2_100;

const MOST_RECALLED_WON: u32 = 8_800;

/// The score of the board, whose search looks up at most `most_looked` boards and recalls at most `most_recalled`.
fn check_counts(
    rt: &impl Abort,
    memo: LocalTable,
    board: Board,
    most_looked: u32,
    most_recalled: u32,
) -> i8 {
    let mut cells = Counted::over(memo);
    let answer = solve_with(board, &mut cells, Scoring::Winner);
    assert!(rt; answer.board == board);
    let Counted {
        memo: _,
        looked,
        recalled,
    } = cells;
    assert!(rt;
        0 < looked && looked <= most_looked && 0 < recalled && recalled <= most_recalled,
        "{looked} boards are looked up and {recalled} recalled"
    );
    answer.score
}
