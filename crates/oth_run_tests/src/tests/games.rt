//! Games that are analysed. What is written of them is what plain minimax, `hostile/minimax.py`, gives.

use super::{NO_FAILURE, settings, walk};
use oth_rules::Scoring;
use oth_words::{Command, Settings};
use std::process::Abort;
use std::sync::Wait;
use std::thread::Threads;

// Games, and what `Analyse` writes of the moves from 8 empty squares on, under either scoring.
const ANALYSED: [(&[u8], &[u8]); 11] = [
    (
        b"f5f6c4f4g7b4f3h8e6f7e7d6c5f2c3d2b2a1g4e8g6b5e2g5a4d7e1b3a3e3g2c2h6f1b1h1f8h3h5g3h2d8g1a2d1c1c6b7c8\
          h7h4a5d3c7b6a8a7g8b8a6\n",
        b"1 53 X d3 +12 +12 d3\n1 54 O pass -12 -12 pass\n1 54 X c7 +4 +12 a8\n1 55 O b6 -4 -4 b6\n\
          1 56 X a8 +0 +4 a7\n1 57 O a7 +0 +0 a7\n1 58 X g8 -6 +0 a6\n1 59 O b8 +6 +6 b8\n\
          1 60 X a6 -6 -6 a6\n1 lost X 18 O 0\n",
    ),
    (
        b"f5f6c4f4g7b4f3h8e6f7e7d6c5f2c3d2b2a1g4e8g6b5e2g5a4d7e1b3a3e3g2c2h6f1b1h1f8h3h5g3h2d8g1a2d1c1c6b7c8\
          h7h4a5d3c7b6a\n",
        b"1 53 X d3 +12 +12 d3\n1 54 O pass -12 -12 pass\n1 54 X c7 +4 +12 a8\n1 55 O b6 -4 -4 b6\n\
          1 error 1\n1 lost X 8 O 0\n",
    ),
    (
        b"f5f6c4f4g7b4f3h8e6f7e7d6c5f2c3d2b2a1g4e8g6b5e2g5a4d7e1b3a3e3g2c2h6f1b1h1f8h3h5g3h2d8g1a2d1c1c6b7c8\
          h7h4a5d3a1c7b6a8a7g8b8a6\n",
        b"1 53 X d3 +12 +12 d3\n1 54 O pass -12 -12 pass\n1 error 3 at 54\n1 lost X 0 O 0\n",
    ),
    (
        b"f5f6c4f4g7b4f3h8e6f7e7d6c5f2c3d2b2a1g4e8g6b5e2g5a4d7e1b3a3e3g2c2h6f1b1h1f8h3h5g3h2d8g1a2d1c1c6b7c8\
          h7h4a5d3c7b6a8a7g8b8a6a1\n",
        b"1 53 X d3 +12 +12 d3\n1 54 O pass -12 -12 pass\n1 54 X c7 +4 +12 a8\n1 55 O b6 -4 -4 b6\n\
          1 56 X a8 +0 +4 a7\n1 57 O a7 +0 +0 a7\n1 58 X g8 -6 +0 a6\n1 59 O b8 +6 +6 b8\n\
          1 60 X a6 -6 -6 a6\n1 error 4 at 61\n1 lost X 18 O 0\n",
    ),
    (
        b"f5f6c4f4g7b4f3h8e6f7e7d6c5f2c3d2b2a1g4e8g6b5e2g5a4d7e1b3a3e3g2c2h6f1b1h1f8h3h5g3h2d8g1a2d1c1c6b7c8\
          h7h4a5d3c7i9\n",
        b"1 53 X d3 +12 +12 d3\n1 54 O pass -12 -12 pass\n1 54 X c7 +4 +12 a8\n1 error 2 at 55\n1 lost X 8 O 0\n",
    ),
    (b"\n", b"1 lost X 0 O 0\n"),
    (
        b"--OXOOO-OOOOOOOOOOOOOOOOOOOOOOOOOOOOOOOOOOOOOOOOOOOOOOOOOOOOOOOO X\n",
        b"1 lost X 0 O 0\n",
    ),
    (
        b"--OXOOO-OOOOOOOOOOOOOOOOOOOOOOOOOOOOOOOOOOOOOOOOOOOOOOOOOOOOOOOO Y h1\n",
        b"1 error 4\n1 lost X 0 O 0\n",
    ),
    (
        b"--OXOOO-OOOOOOOOOOOOOOOOOOOOOOOOOOOOOOOOOOOOOOOOOOOOOOOOOOOOOOOO X \n",
        b"1 lost X 0 O 0\n",
    ),
    (b"-\n", b"1 error 1\n1 lost X 0 O 0\n"),
    (b"f5d6\n", b"1 lost X 0 O 0\n"),
];

// Games whose scores the empty squares at the end change, and what `Analyse` writes by winner and by discs.
const ANALYSED_BY_EACH: [(&[u8], &[u8], &[u8]); 4] = [
    (
        b"--OXOOO-OOOOOOOOOOOOOOOOOOOOOOOOOOOOOOOOOOOOOOOOOOOOOOOOOOOOOOOO X h1b1\n",
        b"1 58 X h1 -50 -50 h1\n1 59 O pass +50 +50 pass\n1 59 X b1 -50 -50 b1\n1 lost X 0 O 0\n",
        b"1 58 X h1 -49 -49 h1\n1 59 O pass +49 +49 pass\n1 59 X b1 -49 -49 b1\n1 lost X 0 O 0\n",
    ),
    (
        b"--OXOOO-OOOOOOOOOOOOOOOOOOOOOOOOOOOOOOOOOOOOOOOOOOOOOOOOOOOOOOOO O\n",
        b"1 58 O pass +50 +50 pass\n1 lost X 0 O 0\n",
        b"1 58 O pass +49 +49 pass\n1 lost X 0 O 0\n",
    ),
    (
        b"--OXOOO-OOOOOOOOOOOOOOOOOOOOOOOOOOOOOOOOOOOOOOOOOOOOOOOOOOOOOOOO X b1h1\n",
        b"1 58 X b1 -64 -50 h1\n1 error 23 at 2\n1 lost X 14 O 0\n",
        b"1 58 X b1 -63 -49 h1\n1 error 23 at 2\n1 lost X 14 O 0\n",
    ),
    (
        b"--OXOOO-OOOOOOOOOOOOOOOOOOOOOOOOOOOOOOOOOOOOOOOOOOOOOOOOOOOOOOOO X h1b1111111111111111111111111111\
          11111111111111111111111111111111111111111111111111111111111111111111111111111111111111111111111111\
          11111111111111111111111111111111111111111111111111111111111111111111111111111111111111111111111111\
          11111111111111111111111111111111111111111111111111111111111111111111111111111111111111111111111111\
          111111111111111111111111111111111111111111111111111111111111111111111111111111\n",
        b"1 58 X h1 -50 -50 h1\n1 59 O pass +50 +50 pass\n1 59 X b1 -50 -50 b1\n1 error 21\n1 lost X 0 O 0\n",
        b"1 58 X h1 -49 -49 h1\n1 59 O pass +49 +49 pass\n1 59 X b1 -49 -49 b1\n1 error 21\n1 lost X 0 O 0\n",
    ),
];

// Analyses the line by itself, a byte a read and a byte a write, by one worker, by two, and without a table.
fn check_game<R: Wait + Threads + Sync + AllocGlobal + Abort>(
    rt: &R,
    scoring: Scoring,
    line: &[u8],
    report: &[u8],
) {
    for (workers, cells) in [(1, 1024), (2, 64), (1, 0)] {
        let settings = Settings {
            workers,
            cells,
            ..settings(Command::Analyse(8), scoring)
        };
        let done = walk(rt, &settings, line, NO_FAILURE, NO_FAILURE);
        assert!(rt; done.result == Ok(()));
        assert!(rt; done.writer.taken() == report);
    }
}

#[test]
fn analyses_each_game(rt: HostRuntime) {
    for (line, report) in ANALYSED {
        check_game(&rt, Scoring::Winner, line, report);
        check_game(&rt, Scoring::Discs, line, report);
    }
}

#[test]
fn analyses_games_by_winner_and_by_discs(rt: HostRuntime) {
    for (line, by_winner, by_discs) in ANALYSED_BY_EACH {
        check_game(&rt, Scoring::Winner, line, by_winner);
        check_game(&rt, Scoring::Discs, line, by_discs);
    }
}

// The last line has no byte 10, and empty lines count.
#[test]
fn games_have_the_numbers_of_their_lines(rt: HostRuntime) {
    let settings = settings(Command::Analyse(1), Scoring::Winner);
    let done = walk(&rt, &settings, b"\n\nf5d6\nf5d", NO_FAILURE, NO_FAILURE);
    assert!(rt; done.result == Ok(()));
    assert!(rt;
        done.writer.taken()
            == b"1 lost X 0 O 0\n2 lost X 0 O 0\n3 lost X 0 O 0\n4 error 1\n4 lost X 0 O 0\n".as_slice()
    );
}
