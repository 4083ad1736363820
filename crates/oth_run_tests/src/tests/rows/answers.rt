//! What `solve` writes of each line under either scoring; it refuses settings before it reads.

use super::super::{NO_FAILURE, by_two_workers, settings, walk};
use super::check_rows;
use oth_rules::Scoring;
use oth_run::RunFault;
use oth_words::{Command, Settings};

// Lines, and what `Solve` writes of each.
const SOLVED: [(&[u8], &[u8]); 15] = [
    (
        b"XXXXXXXXXXXXXXXXXXXXXXXXXXXXXXXXXXXXXXXXXXXXXXXXXXXXXXXXXXXXXXXX X\n",
        b"+64 end\n",
    ),
    (
        b"XXXXXXXXXXXXXXXXXXXXXXXXXXXXXXXXXXXXXXXXXXXXXXXXXXXXXXXXXXXXXXXX O\n",
        b"-64 end\n",
    ),
    (
        b"XXXXXXXXXXXXXXXXXXXXXXXXXXXXXXXXXXXXXXXXXXXXXXXXXXXXXXXXXXXXXXX- X\n",
        b"+64 end\n",
    ),
    (
        b"-XXXXXXXXOOOOOOXXOOOOOOXXOOOOOOXXOOOOOOXXOOOOOOXXXXXXXOXXXXXXXX- X\n",
        b"+0 end\n",
    ),
    (
        b"-OXXXXXXXXXXXXXXXXXXXXXXXXXXXXXXXXXXXXXXXXXXXXXXXXXXXXXXXXXXXXXX X\n",
        b"+64 a1\n",
    ),
    (
        b"-OXXXXXXXXXXXXXXXXXXXXXXXXXXXXXXXXXXXXXXXXXXXXXXXXXXXXXXXXXXXXXX O\n",
        b"-64 pass\n",
    ),
    (
        b"-OXXXXO-XXXXXXXXXXXXXXXXXXXXXXXXXXXXXXXXXXXXXXXXXXXXXXXXXXXXXXXX X\n",
        b"+64 a1 h1\n",
    ),
    (
        b"-OOOOOOXOOOOOOO-OOOOOOOOOOOOOOOOOOOOOOOOOOOOOOOOOOOOOOOOOOOOOOOO X\n",
        b"-48 a1\n",
    ),
    (
        b"--OXOOO-OOOOOOOOOOOOOOOOOOOOOOOOOOOOOOOOOOOOOOOOOOOOOOOOOOOOOOOO X\n",
        b"-50 h1\n",
    ),
    (
        b"--OXOOO-OOOOOOOOOOOOOOOOOOOOOOOOOOOOOOOOOOOOOOOOOOOOOOOOOOOOOOOO O\n",
        b"+50 pass\n",
    ),
    (
        b"-OOOXO--OOOOOOOOOOOOOOOOOOOOOOOOOOOOOOOOOOOOOOOOOOOOOOOOOOOOOOOO X\n",
        b"-50 a1\n",
    ),
    (
        b"OOOOOOOOOOOOOOOOOOOOOOOOOOOOOOOOOOOOOOOOOOOOOOOOOOOOOOOO-OOOXO-- X\n",
        b"-50 a8\n",
    ),
    (
        b"-OXXXXXX-OXXXXXXXXXXXXXXXXXXXXXXXXXXXXXXXXXXXXXXXXXXXXXXXXXXXXXX X\n",
        b"+64 a1 a2\n",
    ),
    (
        b"------------------------------XXXXXXXXXXXXXXXXXXXXXXXXXXXXXXXXXX X\n",
        b"+64 end\n",
    ),
    // Of 14 empty squares, which two workers search together. Another solver gave its answer.
    (
        b"--XOOO-OO-OXOOO-OOOOXOOOOOOOOXOXOO-OOOXXOOOXXOOX-OXXXXXX--O----- X\n",
        b"-6 c5\n",
    ),
];

// Lines, and what `Solve` writes of each under `discs`.
const SOLVED_BY_DISCS: [(&[u8], &[u8]); 11] = [
    (
        b"XXXXXXXXXXXXXXXXXXXXXXXXXXXXXXXXXXXXXXXXXXXXXXXXXXXXXXXXXXXXXXX- X\n",
        b"+63 end\n",
    ),
    (
        b"-XXXXXXXXOOOOOOXXOOOOOOXXOOOOOOXXOOOOOOXXOOOOOOXXXXXXXOXXXXXXXX- X\n",
        b"+0 end\n",
    ),
    (
        b"-OOOOOOXOOOOOOO-OOOOOOOOOOOOOOOOOOOOOOOOOOOOOOOOOOOOOOOOOOOOOOOO X\n",
        b"-47 a1\n",
    ),
    (
        b"--OXOOO-OOOOOOOOOOOOOOOOOOOOOOOOOOOOOOOOOOOOOOOOOOOOOOOOOOOOOOOO X\n",
        b"-49 h1\n",
    ),
    (
        b"--OXOOO-OOOOOOOOOOOOOOOOOOOOOOOOOOOOOOOOOOOOOOOOOOOOOOOOOOOOOOOO O\n",
        b"+49 pass\n",
    ),
    (
        b"-OOOXO--OOOOOOOOOOOOOOOOOOOOOOOOOOOOOOOOOOOOOOOOOOOOOOOOOOOOOOOO X\n",
        b"-49 a1\n",
    ),
    (
        b"OOOOOOOOOOOOOOOOOOOOOOOOOOOOOOOOOOOOOOOOOOOOOOOOOOOOOOOO-OOOXO-- X\n",
        b"-49 a8\n",
    ),
    (
        b"-OXXXXO-XXXXXXXXXXXXXXXXXXXXXXXXXXXXXXXXXXXXXXXXXXXXXXXXXXXXXXXX X\n",
        b"+64 a1 h1\n",
    ),
    (
        b"-OXXXXXX-OXXXXXXXXXXXXXXXXXXXXXXXXXXXXXXXXXXXXXXXXXXXXXXXXXXXXXX X\n",
        b"+64 a2\n",
    ),
    (
        b"------------------------------XXXXXXXXXXXXXXXXXXXXXXXXXXXXXXXXXX X\n",
        b"+34 end\n",
    ),
    // Of 14 empty squares, which two workers search together. Another solver gave its answer.
    (
        b"--XOOO-OO-OXOOO-OOOOXOOOOOOOOXOXOO-OOOXXOOOXXOOX-OXXXXXX--O----- X\n",
        b"-6 c5\n",
    ),
];

#[test]
fn solves_each_row(rt: HostRuntime) {
    let alone = settings(Command::Solve, Scoring::Winner);
    check_rows(&rt, &alone, SOLVED.as_slice());
    check_rows(&rt, &by_two_workers(Scoring::Winner), SOLVED.as_slice());
}

#[test]
fn solves_each_row_by_discs(rt: HostRuntime) {
    let alone = settings(Command::Solve, Scoring::Discs);
    check_rows(&rt, &alone, SOLVED_BY_DISCS.as_slice());
    check_rows(
        &rt,
        &by_two_workers(Scoring::Discs),
        SOLVED_BY_DISCS.as_slice(),
    );
}

// The workers are tested before the cells, and both before anything is read.
#[test]
fn refuses_settings_before_it_reads(rt: HostRuntime) {
    let rows = [
        (0, 0, Err(RunFault::Workers)),
        (17, 3, Err(RunFault::Workers)),
        (1, 3, Err(RunFault::Cells)),
        (1, 524_288, Err(RunFault::Cells)),
        (16, 262_144, Ok(())),
        (1, 1, Ok(())),
    ];
    for (workers, cells, expected) in rows {
        let asked = Settings {
            workers,
            cells,
            ..settings(Command::Solve, Scoring::Winner)
        };
        let done = walk(&rt, &asked, SOLVED[0].0, NO_FAILURE, NO_FAILURE);
        assert!(rt; done.result == expected);
        assert!(rt; expected == Ok(()) || done.reads == 0 && done.writes == 0);
    }
}
