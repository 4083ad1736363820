//! A local table recalls what it was given and nothing else, and a search that has one agrees with the whole tree.
ghost use Rattle.std.specs.Prelude.{◌≡◌, IfSome};

use super::{A, board_of, check_bounds, line_of};
use oth_rules::{Board, Scoring};
use oth_search::{Cells, Entry, Interval, LocalTable, LocalTables, NoCells, Solved, solve_with};
use std::process::Abort;
use std::test::Fail;

/// Nothing of the board is remembered.
fn check_forgotten(rt: &impl Abort, memo: &LocalTable, board: &Board, scoring: Scoring) {
    assert!(rt; memo.probe_local(board, scoring).is_none());
}

#[test]
fn recalls_what_it_remembers(rt: HostRuntime) -> Result<(), Fail> {
    let board = board_of(&rt, A);
    let mut memo = LocalTable::below(rt.alloc(), 13)?;
    check_forgotten(&rt, &memo, &board, Scoring::Winner);
    memo.store_local(&Solved::by_search(&board, -65, 65, &mut NoCells, Scoring::Winner));
    let told = memo
        .probe_local(&board, Scoring::Winner)
        .expect(&rt, "recalled");
    check_bounds(&rt, told.interval, -50, -50);
    check_forgotten(&rt, &memo, &board, Scoring::Discs);
    check_forgotten(&rt, &memo, &board.pass(), Scoring::Winner);
    Ok(())
}

/// Boards of 9 to 14 empty squares are remembered from 18 at the root on, by a search that is alone.
#[test]
fn remembers_more_where_that_pays(rt: HostRuntime) {
    for (root, is_alone, empties, wanted) in [
        (18, true, 9, true),
        (30, true, 14, true),
        (30, true, 15, false),
        (17, true, 9, false),
        (30, false, 9, false),
    ] {
        let memories = LocalTables::of(rt.alloc(), root, is_alone);
        assert!(rt;
            memories.keeps_local(empties) == wanted,
            "{empties} below {root}"
        );
    }
}

/// What these memories recall of the board when they have remembered its value.
fn recalled_value(memories: &mut LocalTables, solved: &Solved) -> Option<Interval> {
    memories.store_local(solved);
    Some(
        memories
            .probe_local(&solved.board, Scoring::Winner)?
            .interval,
    )
}

/// These memories know nothing of the line's board of `empties` empty squares, and recall its value just where this is
/// wanted when they have remembered it.
fn check_recalled(rt: &impl Abort, memories: &mut LocalTables, empties: u8, is_wanted: bool) {
    let solved = Solved::by_search(
        &line_of(rt, empties),
        -65,
        65,
        &mut NoCells,
        Scoring::Winner,
    );
    assert!(rt;
        memories
            .probe_local(&solved.board, Scoring::Winner)
            .is_none()
    );
    let told = recalled_value(memories, &solved);
    assert!(rt;
        told == if is_wanted {
            Some(solved.interval)
        } else {
            None
        }
    );
}

#[test]
fn recalls_boards_of_few_and_of_more_empty_squares(rt: HostRuntime) {
    let mut both = LocalTables::of(rt.alloc(), 18, true);
    check_recalled(&rt, &mut both, 8, true);
    check_recalled(&rt, &mut both, 9, true);
    let mut few = LocalTables::of(rt.alloc(), 17, true);
    check_recalled(&rt, &mut few, 8, true);
    check_recalled(&rt, &mut few, 9, false);
    let mut none = LocalTables::of(rt.alloc(), 9, true);
    check_recalled(&rt, &mut none, 8, false);
}

/// Keeps no entries, and remembers.
#[derive(Drop)]
struct Remembering {
    memo: LocalTable,
    recalled: u32,
    // Whether all boards are remembered, and none looked up.
    is_for_all: bool,
}

impl Cells for Remembering {
    ghost Fixed = { Unit {0} };

    ghost fixed = { λ c. tt };

    fn look(&mut self, _board: &Board, _scoring: Scoring) -> Option<Entry> {
        None
    }

    fn put(&mut self, _entry: &Entry) {}

    fn keeps_local(&self, _empties: u8) -> bool {
        self.is_for_all
    }

    fn probe_local(&mut self, board: &Board, scoring: Scoring) -> Option<Solved> {
        let told = self.memo.probe_local(board, scoring)?;
        self.recalled = self.recalled.wrapping_add(1);
        Some(told)
    }

    fn store_local(&mut self, solved: &Solved) {
        self.memo.store_local(solved);
    }
}

#[test]
fn agrees_with_the_whole_tree_while_it_remembers(rt: HostRuntime) -> Result<(), Fail> {
    let board = line_of(&rt, 10);
    for is_for_all in [false, true] {
        let mut cells = Remembering {
            memo: LocalTable::below(rt.alloc(), 14)?,
            recalled: 0,
            is_for_all,
        };
        for scoring in [Scoring::Winner, Scoring::Discs] {
            let answer = solve_with(board, &mut cells, scoring);
            assert!(rt; answer.score == board.plain_score(scoring));
        }
        assert!(rt; cells.recalled > 0);
    }
    Ok(())
}
