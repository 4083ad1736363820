//! What `moves`, `transcript` and `play` write of each line, under either scoring.

use super::super::settings;
use super::check_rows;
use oth_rules::Scoring;
use oth_words::Command;

// Lines, and what `Moves` writes of each.
const MOVED: [(&[u8], &[u8]); 4] = [
    (
        b"---------------------------OX------XO--------------------------- X\n",
        b"d3 c4 f5 e6\n",
    ),
    (
        b"--OXOOO-OOOOOOOOOOOOOOOOOOOOOOOOOOOOOOOOOOOOOOOOOOOOOOOOOOOOOOOO X\n",
        b"b1 h1\n",
    ),
    (
        b"--OXOOO-OOOOOOOOOOOOOOOOOOOOOOOOOOOOOOOOOOOOOOOOOOOOOOOOOOOOOOOO O\n",
        b"pass\n",
    ),
    (
        b"XXXXXXXXXXXXXXXXXXXXXXXXXXXXXXXXXXXXXXXXXXXXXXXXXXXXXXXXXXXXXXXX X\n",
        b"end\n",
    ),
];

// Transcripts. The game of the last one is over with its ninth move.
const FOLLOWED: [(&[u8], &[u8]); 6] = [
    (
        b"\n",
        b"---------------------------OX------XO--------------------------- X\n",
    ),
    (
        b"f5d6c3d3c4\n",
        b"------------------XO------XXX------OXX-----O-------------------- O\n",
    ),
    (b"f5f5\n", b"error 3 at 2\n"),
    (b"f5d\n", b"error 1\n"),
    (b"F5\n", b"error 2 at 1\n"),
    (b"e6f4e3f6g5d6e7f5c5a1\n", b"error 4 at 10\n"),
];

// Boards and moves on them. On the second board h1 turns three discs and White has to pass, b1 turns one, and then
// the game is over; the third is that board after h1 with White to move.
const PLAYED: [(&[u8], &[u8]); 12] = [
    (
        b"---------------------------OX------XO--------------------------- X f5d6c3d3c4\n",
        b"------------------XO------XXX------OXX-----O-------------------- O\n",
    ),
    (
        b"--OXOOO-OOOOOOOOOOOOOOOOOOOOOOOOOOOOOOOOOOOOOOOOOOOOOOOOOOOOOOOO X h1\n",
        b"--OXXXXXOOOOOOOOOOOOOOOOOOOOOOOOOOOOOOOOOOOOOOOOOOOOOOOOOOOOOOOO X\n",
    ),
    (
        b"--OXXXXXOOOOOOOOOOOOOOOOOOOOOOOOOOOOOOOOOOOOOOOOOOOOOOOOOOOOOOOO O\n",
        b"--OXXXXXOOOOOOOOOOOOOOOOOOOOOOOOOOOOOOOOOOOOOOOOOOOOOOOOOOOOOOOO X\n",
    ),
    (
        b"--OXXXXXOOOOOOOOOOOOOOOOOOOOOOOOOOOOOOOOOOOOOOOOOOOOOOOOOOOOOOOO O b1\n",
        b"-XXXXXXXOOOOOOOOOOOOOOOOOOOOOOOOOOOOOOOOOOOOOOOOOOOOOOOOOOOOOOOO O\n",
    ),
    (
        b"--OXOOO-OOOOOOOOOOOOOOOOOOOOOOOOOOOOOOOOOOOOOOOOOOOOOOOOOOOOOOOO X h1b1a1\n",
        b"error 24 at 3\n",
    ),
    (
        b"---------------------------OX------XO--------------------------- X f5f5\n",
        b"error 23 at 2\n",
    ),
    (
        b"---------------------------OX------XO--------------------------- X F5\n",
        b"error 22 at 1\n",
    ),
    (
        b"---------------------------OX------XO--------------------------- X f5d\n",
        b"error 21\n",
    ),
    (
        b"---------------------------OX------XO--------------------------- x f5d\n",
        b"error 4\n",
    ),
    (
        b"?--------------------------OX------XO--------------------------- X f5f5\n",
        b"error 2 at 1\n",
    ),
    (
        b"---------------------------OX------XO--------------------------- Xf5\n",
        b"error 1\n",
    ),
    (b"\n", b"error 1\n"),
];

// Under either scoring, which changes nothing.
#[test]
fn lists_the_moves_of_each_row(rt: HostRuntime) {
    for scoring in [Scoring::Winner, Scoring::Discs] {
        check_rows(&rt, &settings(Command::Moves, scoring), MOVED.as_slice());
    }
}

#[test]
fn follows_each_transcript(rt: HostRuntime) {
    for scoring in [Scoring::Winner, Scoring::Discs] {
        check_rows(
            &rt,
            &settings(Command::Transcript, scoring),
            FOLLOWED.as_slice(),
        );
    }
}

#[test]
fn plays_the_moves_of_each_row(rt: HostRuntime) {
    for scoring in [Scoring::Winner, Scoring::Discs] {
        check_rows(&rt, &settings(Command::Play, scoring), PLAYED.as_slice());
    }
}
