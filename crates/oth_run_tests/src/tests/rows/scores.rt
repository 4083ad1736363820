//! What `scores` writes of each line under either scoring, by each crew.

use super::super::settings;
use super::check_rows;
use oth_rules::Scoring;
use oth_words::{Command, Settings};

// Lines, and what `Scores` writes of each.
const SCORED: [(&[u8], &[u8]); 11] = [
    (
        b"XXXXXXXXXXXXXXXXXXXXXXXXXXXXXXXXXXXXXXXXXXXXXXXXXXXXXXXXXXXXXXXX X\n",
        b"+64 end\n",
    ),
    (
        b"XXXXXXXXXXXXXXXXXXXXXXXXXXXXXXXXXXXXXXXXXXXXXXXXXXXXXXXXXXXXXXXX O\n",
        b"-64 end\n",
    ),
    (
        b"-XXXXXXXXOOOOOOXXOOOOOOXXOOOOOOXXOOOOOOXXOOOOOOXXXXXXXOXXXXXXXX- X\n",
        b"+0 end\n",
    ),
    (
        b"-OXXXXXXXXXXXXXXXXXXXXXXXXXXXXXXXXXXXXXXXXXXXXXXXXXXXXXXXXXXXXXX O\n",
        b"-64 pass\n",
    ),
    (
        b"-OXXXXO-XXXXXXXXXXXXXXXXXXXXXXXXXXXXXXXXXXXXXXXXXXXXXXXXXXXXXXXX X\n",
        b"+64 a1 +64 h1\n",
    ),
    (
        b"-OOOOOOXOOOOOOO-OOOOOOOOOOOOOOOOOOOOOOOOOOOOOOOOOOOOOOOOOOOOOOOO X\n",
        b"-48 a1\n",
    ),
    (
        b"--OXOOO-OOOOOOOOOOOOOOOOOOOOOOOOOOOOOOOOOOOOOOOOOOOOOOOOOOOOOOOO X\n",
        b"-50 h1 -64 b1\n",
    ),
    (
        b"--OXOOO-OOOOOOOOOOOOOOOOOOOOOOOOOOOOOOOOOOOOOOOOOOOOOOOOOOOOOOOO O\n",
        b"+50 pass\n",
    ),
    (
        b"OOOOOOOOOOOOXXOXOXO-OOXXOOXXXXXXOOOOXOXX--OXOXOX-O-OXOOO--XXXX-O X\n",
        b"+12 d3 -6 b6 -8 c7 -8 a8 -12 g8 -14 a6\n",
    ),
    (
        b"------------------------------XXXXXXXXXXXXXXXXXXXXXXXXXXXXXXXXXX X\n",
        b"+64 end\n",
    ),
    // Of 14 empty squares, whose moves two workers score side by side. Another solver gave the score of each.
    (
        b"--XOOO-OO-OXOOO-OOOOXOOOOOOOOXOXOO-OOOXXOOOXXOOX-OXXXXXX--O----- X\n",
        b"-6 c5 -20 b1 -26 g1 -26 h2 -32 b2 -40 a7\n",
    ),
];

// Lines, and what `Scores` writes of each under `discs`.
const SCORED_BY_DISCS: [(&[u8], &[u8]); 6] = [
    (
        b"XXXXXXXXXXXXXXXXXXXXXXXXXXXXXXXXXXXXXXXXXXXXXXXXXXXXXXXXXXXXXXX- X\n",
        b"+63 end\n",
    ),
    (
        b"--OXOOO-OOOOOOOOOOOOOOOOOOOOOOOOOOOOOOOOOOOOOOOOOOOOOOOOOOOOOOOO X\n",
        b"-49 h1 -63 b1\n",
    ),
    (
        b"--OXOOO-OOOOOOOOOOOOOOOOOOOOOOOOOOOOOOOOOOOOOOOOOOOOOOOOOOOOOOOO O\n",
        b"+49 pass\n",
    ),
    (
        b"OOOOOOOOOOOOOOOOOOOOOOOOOOOOOOOOOOOOOOOOOOOOOOOOOOOOOOOO-OOOXO-- X\n",
        b"-49 a8 -63 g8\n",
    ),
    (
        b"-OXXXXXX-OXXXXXXXXXXXXXXXXXXXXXXXXXXXXXXXXXXXXXXXXXXXXXXXXXXXXXX X\n",
        b"+64 a2 +63 a1\n",
    ),
    // Of 14 empty squares, whose moves two workers score side by side. Another solver gave the score of each.
    (
        b"--XOOO-OO-OXOOO-OOOOXOOOOOOOOXOXOO-OOOXXOOOXXOOX-OXXXXXX--O----- X\n",
        b"-6 c5 -20 b1 -26 g1 -26 h2 -32 b2 -40 a7\n",
    ),
];

#[test]
fn scores_the_moves_of_each_row(rt: HostRuntime) {
    for (scoring, rows) in [
        (Scoring::Winner, SCORED.as_slice()),
        (Scoring::Discs, SCORED_BY_DISCS.as_slice()),
    ] {
        let alone = settings(Command::Scores, scoring);
        check_rows(&rt, &alone, rows);
        for (workers, cells) in [(2, 1), (16, 64)] {
            let crew = Settings {
                workers,
                cells,
                ..alone
            };
            check_rows(&rt, &crew, rows);
        }
    }
}
