//! Two boards of lines that wait together are searched at once, and so are two games.

use super::{boards, by_two, lines, run_with};
use oth_pool::Gate;
use oth_rules::{Board, Square};
use oth_search::Solved;
use oth_text::{Position, Side, write_board};
use oth_words::{Command, Settings};
use std::alloc::Global;
use std::sync::atomic::{AtomicU64, Ordering};
use std::test::Fail;
use std::thread;

// The first search that is followed waits a while until one of another board is.
#[derive(Drop)]
struct Meeting {
    first: AtomicU64,
    others: AtomicU64,
    given_up: AtomicU64,
}

impl Meeting {
    fn new() -> Meeting {
        Meeting {
            first: AtomicU64::new(0),
            others: AtomicU64::new(0),
            given_up: AtomicU64::new(0),
        }
    }

    // Whether this is the board of the first search.
    fn is_first(&self, root: &Board) -> bool {
        let discs = root.own();
        let before = self.first.fetch_max(discs, Ordering::SeqCst);
        before == 0 || before == discs
    }
}

impl Gate for Meeting {
    fn before(&self, _task: u32) {}

    fn after(&self, _task: u32) {}

    fn follows(&self) -> bool {
        true
    }

    fn goes_on(&self, root: &Solved, _settled: u64) {
        if !self.is_first(&root.board) {
            self.others.store(1, Ordering::SeqCst);
            return;
        }
        if self.given_up.load(Ordering::SeqCst) != 0 {
            return;
        }
        for _ in 0..10_000_000 {
            if self.others.load(Ordering::SeqCst) != 0 {
                return;
            }
            thread::yield_now();
        }
        self.given_up.store(1, Ordering::SeqCst);
    }
}

#[test]
fn two_boards_of_a_batch_are_searched_at_once(rt: HostRuntime) -> Result<(), Fail> {
    let boards = boards(rt.alloc())?;
    let input = lines(rt.alloc(), boards.as_slice())?;
    let gate = Meeting::new();
    assert!(rt; run_with(&rt, input.as_slice(), &by_two(), &gate, None));
    assert!(rt; gate.others.load(Ordering::SeqCst) == 1);
    assert!(rt; gate.given_up.load(Ordering::SeqCst) == 0);
    Ok(())
}

// A line for each board with its first legal move behind it.
pub(super) fn games(alloc: Global, boards: &[Board]) -> Result<Vec<u8>, Fail> {
    let mut input = Vec::new(alloc);
    for board in boards {
        let position = Position {
            board: *board,
            mover: Side::Black,
        };
        let mut number = 0u8;
        for other in 0..64 {
            if board.play(Square::numbered(63 - other)).is_some() {
                number = 63 - other;
            }
        }
        input.extend_from_slice(write_board(&position).as_slice())?;
        input.extend_from_slice(&[b' ', b'a' + number % 8, b'1' + number / 8, b'\n'])?;
    }
    Ok(input)
}

#[test]
fn two_games_are_analysed_at_once(rt: HostRuntime) -> Result<(), Fail> {
    let boards = boards(rt.alloc())?;
    let input = games(rt.alloc(), boards.as_slice())?;
    let gate = Meeting::new();
    let asked = Settings {
        command: Command::Analyse(10),
        ..by_two()
    };
    assert!(rt; run_with(&rt, input.as_slice(), &asked, &gate, None));
    assert!(rt; gate.others.load(Ordering::SeqCst) == 1);
    assert!(rt; gate.given_up.load(Ordering::SeqCst) == 0);
    Ok(())
}
