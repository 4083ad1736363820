//! The parallel solver, the solver alone and plain minimax answer alike.

use super::answered;
use super::fixtures::answer_of;
use oth_rules::Scoring;
use oth_rules::samples::after_least_moves;
use std::test::Fail;

#[test]
fn all_solvers_agree_where_the_least_moves_lead(rt: HostRuntime) -> Result<(), Fail> {
    let Some(board) = after_least_moves(10) else {
        panic!(rt; "no board")
    };
    assert!(rt; board.empties() <= 10 || board.is_over());
    for scoring in [Scoring::Winner, Scoring::Discs] {
        let alone = answer_of(&rt, &board, scoring);
        assert!(rt; alone.score == board.plain_score(scoring));
        for (workers, cells) in [(1, 0), (2, 1), (16, 64)] {
            let found = answered(&rt, rt.alloc(), &board, workers, cells, scoring);
            assert!(rt; found == Ok(alone), "{workers} workers, {cells} cells");
        }
    }
    Ok(())
}
