//! What who hears a null window is told.

use super::line_of;
use oth_rules::Scoring;
use oth_search::{Cells, Hearer, Interval, NoCells, Solved};

// Counts the searches that begin, and those that end with closer bounds than all scores.
#[derive(Drop)]
struct Heard {
    begun: u32,
    found: u32,
}

impl<C: Cells> Hearer<C> for Heard {
    fn begin(&mut self, _unknown: &Solved, _cells: &mut C) {
        self.begun = self.begun.wrapping_add(1);
    }

    fn end(&mut self, found: &Solved) {
        if found.interval != Interval::all() {
            self.found = self.found.wrapping_add(1);
        }
    }
}

#[test]
fn a_hearer_is_told_what_the_search_after_each_move_found(rt: HostRuntime) {
    let board = line_of(&rt, 9);
    let value = board.plain_score(Scoring::Winner);
    assert!(rt; -64 < value && value < 64);
    let mut heard = Heard { begun: 0, found: 0 };
    let asked = Solved::unknown(board, Scoring::Winner);
    let known = asked.decided_with(value, &mut NoCells, &mut heard);
    let moves = board.moves().count_ones();
    assert!(rt; known.interval.upper == value && moves > 1);
    assert!(rt; heard.begun == moves && heard.found == moves);
}
