//! Searches that are ended before they are done.

ghost use Rattle.std.specs.Prelude.{◌≡◌, IfSome};

mod refused;

use super::{board_of, line_of};
use oth_rules::{Board, Scoring};
use oth_search::{
    Cells, Entry, Interval, Limited, LocalTable, NoCells, Resume, Solved, StopFlag, Stopped,
    WithLocal, solve_alone, solve_until,
};
use std::alloc::Global;
use std::process::Abort;

// Boards of games, of 14 empty squares.
const BOARDS: [[u64; 2]; 3] = [
    [0x00fc_98c0_a010_0804, 0x0402_673b_5fef_75b8],
    [0x8080_b1df_a743_2740, 0x4f67_4620_18bc_4082],
    [0x450b_3b61_676b_5000, 0x18a4_c49c_9884_a2f0],
];

// The bounds of a search that may look up `limit` boards. Where it comes to its end they are the score.
fn bounds_within<R: AllocGlobal + Abort>(rt: &R, board: &Board, limit: u64) -> Interval {
    let Ok(answer) = solve_alone(board, Scoring::Winner) else {
        panic!(rt; "not solved")
    };
    let mut cells = Limited::of(WithLocal::alone(rt.alloc(), board.empties()), limit);
    let bounds = match solve_until(board, &mut cells, Scoring::Winner, &StopFlag::new()) {
        Ok(found) => {
            assert!(rt; found == answer);
            Solved::of_answer(&found).interval
        }
        Err(stopped) => stopped.known.interval,
    };
    assert!(rt; bounds.lower <= answer.score && answer.score <= bounds.upper);
    bounds
}

#[test]
fn a_search_that_may_look_up_all_is_whole(rt: HostRuntime) {
    for words in &BOARDS {
        let bounds = bounds_within(&rt, &board_of(&rt, *words), u64::MAX);
        assert!(rt; bounds.lower == bounds.upper);
    }
}

#[test]
fn a_search_that_may_look_up_nothing_ends_early(rt: HostRuntime) {
    for words in &BOARDS {
        let board = board_of(&rt, *words);
        let mut cells = Limited::of(NoCells, 0);
        match solve_until(&board, &mut cells, Scoring::Discs, &StopFlag::new()) {
            Ok(_) => panic!(rt; "whole"),
            Err(stopped) => assert!(rt; stopped.known.board == board),
        }
    }
}

#[test]
fn bounds_close_with_what_may_be_looked_up(rt: HostRuntime) {
    let board = board_of(&rt, BOARDS[0]);
    let mut stopped = 0u32;
    let mut closer = 0u32;
    let mut limit = 64u64;
    for _ in 0..20 {
        let bounds = bounds_within(&rt, &board, limit);
        if bounds.lower < bounds.upper {
            stopped = u32::saturating_add(stopped, 1);
            if bounds != Interval::all() {
                closer = u32::saturating_add(closer, 1);
            }
        }
        limit = u64::saturating_add(limit, limit);
    }
    assert!(rt; stopped > 2 && stopped < 20);
    assert!(rt; closer > 0);
}

// Cells that keep nothing, count what they are asked for, and set the flag at the look of this number.
#[derive(Drop)]
struct Stopping<'s> {
    asked: u64,
    at: u64,
    stop: &'s StopFlag,
}

impl<'s> Stopping<'s> {
    fn count(&mut self) {
        self.asked = self.asked.wrapping_add(1);
        if self.asked == self.at {
            self.stop.set();
        }
    }
}

impl<'s> Cells for Stopping<'s> {
    ghost Fixed = { Unit {0} };

    ghost fixed = { λ c. tt };

    fn look(&mut self, _board: &Board, _scoring: Scoring) -> Option<Entry> {
        self.count();
        None
    }

    fn put(&mut self, _entry: &Entry) {}

    fn probe_local(&mut self, _board: &Board, _scoring: Scoring) -> Option<Solved> {
        self.count();
        None
    }
}

// How many boards are asked for before a search of the board ends whose flag is set at the look of this number.
fn asked_until<R: AllocGlobal + Abort>(rt: &R, board: &Board, at: u64) -> u64 {
    let stop = StopFlag::new();
    let counted = Stopping {
        asked: 0,
        at,
        stop: &stop,
    };
    let mut cells = Limited::of(counted, u64::MAX);
    match solve_until(board, &mut cells, Scoring::Winner, &stop) {
        Ok(_) => panic!(rt; "whole"),
        Err(stopped) => assert!(rt; stopped.known.board == *board && cells.left == 0),
    }
    cells.cells.asked
}

#[test]
fn a_flag_that_is_set_ends_a_search(rt: HostRuntime) {
    for words in &BOARDS {
        let board = board_of(&rt, *words);
        for at in [1, 100, 2_000] {
            let asked = asked_until(&rt, &board, at);
            assert!(rt; at <= asked && asked - at < 2_000, "{asked} boards");
        }
    }
}

// Whether a search of the board over as many look-ups as it likes is ended, by this flag.
fn is_ended_by(board: &Board, stop: &StopFlag) -> bool {
    let mut cells = Limited::of(NoCells, u64::MAX);
    match solve_until(board, &mut cells, Scoring::Winner, stop) {
        Ok(answer) => answer.board != *board,
        Err(stopped) => stopped.known.board == *board && cells.left == 0,
    }
}

#[test]
fn a_flag_that_was_set_before_ends_a_search_of_few_empty_squares(rt: HostRuntime) {
    let stop = StopFlag::new();
    let passes = board_of(&rt, [0xffff_ffff_ffff_ff74, 0x8]);
    for board in [line_of(&rt, 5), line_of(&rt, 10), passes] {
        assert!(rt; board.can_move() || board.pass().can_move());
        stop.clear();
        assert!(rt; !is_ended_by(&board, &stop));
        stop.set();
        assert!(rt; is_ended_by(&board, &stop));
    }
}

#[test]
fn a_finished_game_is_answered_whatever_the_flag(rt: HostRuntime) {
    let stop = StopFlag::new();
    stop.set();
    assert!(rt; !is_ended_by(&board_of(&rt, [0, u64::MAX]), &stop));
}

// Cells that keep the boards that a transposition table has, as far as there is memory, and count what they are asked
// for.
#[derive(Drop)]
struct Kept {
    table: Option<LocalTable>,
    asked: u64,
}

impl Kept {
    fn new(alloc: Global) -> Kept {
        Kept {
            table: LocalTable::large_below(alloc, 20).ok(),
            asked: 0,
        }
    }

    fn known(&mut self, board: &Board, scoring: Scoring) -> Option<Solved>
        ensures asked { IfSome result (λ s. (s.board ≡ board.now) × (s.scoring ≡ scoring)) }
    {
        self.asked = self.asked.wrapping_add(1);
        match &self.table {
            Some(table) => table.probe_local(board, scoring),
            None => None,
        }
    }
}

impl Cells for Kept {
    ghost Fixed = { Unit {0} };

    ghost fixed = { λ c. tt };

    fn look(&mut self, board: &Board, scoring: Scoring) -> Option<Entry> {
        let known = self.known(board, scoring)?;
        Some(Entry::of(&known))
    }

    fn put(&mut self, entry: &Entry) {
        if let Some(table) = &mut self.table {
            table.store_local(&entry.solved());
        }
    }

    fn probe_local(&mut self, _board: &Board, _scoring: Scoring) -> Option<Solved> {
        self.asked = self.asked.wrapping_add(1);
        None
    }
}

// Asks for a board by calls of `limit` look-ups each until one answers it. Each knows at least as much as the one
// before. Returns the number of calls and of boards that were asked for.
fn solved_by_calls<R: AllocGlobal + Abort>(rt: &R, board: &Board, limit: u64) -> (u64, u64) {
    let mut kept = Kept::new(rt.alloc());
    let mut resume = Resume::new(rt.alloc());
    let stop = StopFlag::new();
    for calls in 1..1_000u64 {
        let mut cells = Limited::going_on(kept, limit, resume);
        let found = solve_until(board, &mut cells, Scoring::Winner, &stop);
        let (back, left_off) = cells.into_parts();
        kept = back;
        resume = left_off;
        match found {
            Ok(answer) => {
                assert!(rt; answer.board == *board);
                return (calls, kept.asked);
            }
            Err(stopped) => assert!(rt; has_a_surest_move(&stopped)),
        }
    }
    panic!(rt; "not solved")
}

// Whether each move has bounds, and the first one to be played is known to give as much as any.
fn has_a_surest_move(stopped: &Stopped) -> bool {
    let Some(first) = stopped.moves.surest() else {
        return false;
    };
    let Some(surest) = stopped.moves.known_after(first) else {
        return false;
    };
    for root_move in stopped.moves.as_slice() {
        if surest.interval.upper > root_move.child.interval.upper {
            return false;
        }
    }
    stopped.moves.len() > 0
}

// A board of a game, of 16 empty squares.
const SIXTEEN: [u64; 2] = [0x20bc_0020_3010_8007, 0x4041_7b5f_4d4f_7f70];

#[test]
fn calls_go_on_where_the_last_one_ended(rt: HostRuntime) {
    let board = board_of(&rt, SIXTEEN);
    let (one, whole) = solved_by_calls(&rt, &board, u64::MAX);
    assert!(rt; one == 1);
    let (calls, asked) = solved_by_calls(&rt, &board, whole / 50);
    assert!(rt;
        45 < calls && asked / 11 <= whole / 10,
        "{calls} calls, {asked} boards for {whole}"
    );
}
