//! Games that wait together: what others find of one is used, and each is told before the next one is begun.

use super::at_once::games as lines_of_games;
use super::counting::Counting;
use super::{BOARDS, NO_FAILURE, boards, by_two, run_with, settings};
use oth_pool::Gate;
use oth_rules::{Board, Scoring};
use oth_run::run;
use oth_text::ToWrite;
use oth_text::fakes::BrokenSource;
use oth_words::{Command, Settings};
use std::io::Write;
use std::sync::atomic::{AtomicU64, Ordering};
use std::test::Fail;

// Each game has one turn, and so two boards to search.
#[test]
fn each_board_of_a_game_is_searched_once(rt: HostRuntime) -> Result<(), Fail> {
    let boards = boards(rt.alloc())?;
    let input = lines_of_games(rt.alloc(), boards.as_slice())?;
    let asked = Settings {
        command: Command::Analyse(10),
        ..by_two()
    };
    let gate = Counting::new();
    assert!(rt; run_with(&rt, input.as_slice(), &asked, &gate, None));
    assert!(rt; gate.has_begun(2 * BOARDS as u64));
    Ok(())
}

// How many games were told to their end, how many were awaited, the discs of the last one's first board, and how many
// were awaited before those in front of them were told.
#[derive(Drop)]
struct Games {
    told: AtomicU64,
    awaited: AtomicU64,
    last: AtomicU64,
    early: AtomicU64,
}

impl Games {
    fn new() -> Games {
        Games {
            told: AtomicU64::new(0),
            awaited: AtomicU64::new(0),
            last: AtomicU64::new(0),
            early: AtomicU64::new(0),
        }
    }
}

impl Gate for Games {
    fn before(&self, _task: u32) {}

    fn after(&self, _task: u32) {}

    fn hears(&self) -> bool {
        false
    }

    // A game's first board has ten empty squares, and may be awaited several times.
    fn awaits(&self, board: &Board) {
        if board.empties() != 10 || self.last.load(Ordering::SeqCst) == board.own() {
            return;
        }
        self.last.store(board.own(), Ordering::SeqCst);
        let before = self.awaited.fetch_add(1, Ordering::SeqCst);
        if self.told.load(Ordering::SeqCst) < before {
            let _ = self.early.fetch_add(1, Ordering::SeqCst);
        }
    }
}

// Counts the games that it takes: the last line of each says what was lost, and no other one has an `l`.
#[derive(Drop)]
struct Losses<'t> {
    games: &'t Games,
}

impl Write for Losses<'_> {
    fn write(&mut self, buffer: &[u8]) -> std::io::Result<usize> {
        for byte in buffer {
            if *byte == b'l' {
                let _ = self.games.told.fetch_add(1, Ordering::SeqCst);
            }
        }
        Ok(buffer.len())
    }

    fn flush(&mut self) -> std::io::Result<()> {
        Ok(())
    }
}

#[test]
fn each_game_is_told_before_the_next_one_is_awaited(rt: HostRuntime) -> Result<(), Fail> {
    let boards = boards(rt.alloc())?;
    let input = lines_of_games(rt.alloc(), boards.as_slice())?;
    for workers in [1, 2] {
        let asked = Settings {
            workers,
            ..settings(Command::Analyse(10), Scoring::Winner)
        };
        let games = Games::new();
        let mut reader = BrokenSource::new(input.as_slice(), NO_FAILURE);
        let mut writer = ToWrite::new(Losses { games: &games });
        let result = run(
            &rt,
            rt.alloc(),
            &mut reader,
            &mut writer,
            &asked,
            &games,
            None,
        );
        assert!(rt; result == Ok(()));
        assert!(rt; games.awaited.load(Ordering::SeqCst) == BOARDS as u64);
        assert!(rt; games.told.load(Ordering::SeqCst) == BOARDS as u64);
        assert!(rt; games.early.load(Ordering::SeqCst) == 0);
    }
    Ok(())
}
