//! What is written of lines that are no board lines, and of boards of too many empty squares.

use super::super::settings;
use super::check_rows;
use oth_rules::Scoring;
use oth_words::{Command, Settings};

// Lines that are no board lines, and what `Solve`, `Scores` and `Moves` write of each.
const UNREAD: [(&[u8], &[u8]); 7] = [
    (b"\n", b"error 1\n"),
    (
        b"--OXOOO-OOOOOOOOOOOOOOOOOOOOOOOOOOOOOOOOOOOOOOOOOOOOOOOOOOOOOOOO X-\n",
        b"error 1\n",
    ),
    (
        b"--OXOOO-OOOOOOOOOOOOOOOOOOOOOOOOOOOOOOOOOOOOOOOOOOOOOOOOOOOOOOOO X\r\n",
        b"error 1\n",
    ),
    (
        b"x-OXOOO-OOOOOOOOOOOOOOOOOOOOOOOOOOOOOOOOOOOOOOOOOOOOOOOOOOOOOOOO X\n",
        b"error 2 at 1\n",
    ),
    (
        b"--OXO.O-OOOOOOOOOOOOOOOOOOOOOOOOOOOOOOOO?OOOOOOOOOOOOOOOOOOOOOOO X\n",
        b"error 2 at 6\n",
    ),
    (
        b"--OXOOO-OOOOOOOOOOOOOOOOOOOOOOOOOOOOOOOOOOOOOOOOOOOOOOOOOOOOOOOO.X\n",
        b"error 3\n",
    ),
    (
        b"--OXOOO-OOOOOOOOOOOOOOOOOOOOOOOOOOOOOOOOOOOOOOOOOOOOOOOOOOOOOOOO x\n",
        b"error 4\n",
    ),
];

// Boards of too many empty squares, and what `Solve` and `Scores` write of each.
const TOO_MANY: [(&[u8], &[u8]); 2] = [
    (
        b"---------------------------OX------XO--------------------------- X\n",
        b"error 5 60\n",
    ),
    (
        b"-------------------------------XXXXXXXXXXXXXXXXXXXXXXXXXXXXXXXXX X\n",
        b"error 5 31\n",
    ),
];

// By any workers and under either scoring, which change nothing.
#[test]
fn lines_that_cannot_be_answered_tell_their_fault(rt: HostRuntime) {
    for scoring in [Scoring::Winner, Scoring::Discs] {
        for command in [Command::Solve, Command::Scores] {
            for (workers, cells) in [(1, 0), (2, 1), (16, 64)] {
                let asked = Settings {
                    workers,
                    cells,
                    ..settings(command, scoring)
                };
                check_rows(&rt, &asked, UNREAD.as_slice());
                check_rows(&rt, &asked, TOO_MANY.as_slice());
            }
        }
        check_rows(&rt, &settings(Command::Moves, scoring), UNREAD.as_slice());
    }
}
