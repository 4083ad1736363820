//! What holds of a search that may be ended whichever request for memory is refused.

use super::{BOARDS, Kept};
use crate::tests::board_of;
use oth_rules::Scoring;
use oth_search::{Limited, Resume, StopFlag, solve_until};

#[test]
fn a_search_ends_within_its_limit(rt: HostRuntime) {
    for words in &BOARDS {
        let board = board_of(&rt, *words);
        let kept = Kept::new(rt.alloc());
        let mut cells = Limited::going_on(kept, 1_000, Resume::new(rt.alloc()));
        match solve_until(&board, &mut cells, Scoring::Winner, &StopFlag::new()) {
            Ok(_) => panic!(rt; "whole"),
            Err(stopped) => assert!(rt; stopped.known.board == board && cells.left == 0),
        }
        let asked = cells.cells.asked;
        assert!(rt; 1_000 <= asked && asked < 3_000, "{asked} boards");
    }
}
