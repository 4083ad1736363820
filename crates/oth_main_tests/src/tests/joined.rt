//! Sources that are read one after the other: no line has bytes of two, and one that fails ends the run.

use super::{NO_FAILURE, settings};
use oth_main::{Command, Joined, RunFault, run};
use oth_pool::Open;
use oth_rules::Scoring;
use oth_text::Source;
use oth_text::fakes::{BrokenSource, ByteSink};
use std::alloc::Global;

const START: &[u8] = b"---------------------------OX------XO--------------------------- X";

const MOVES: &[u8] = b"d3 c4 f5 e6\n";

// Three sources, and what they give: byte 10 stands between two, unless the first ends with it or is empty.
const ROWS: [([&[u8]; 3], &[u8]); 10] = [
    ([b"", b"", b""], b""),
    ([b"a", b"b", b"c"], b"a\nb\nc"),
    ([b"a\n", b"b\n", b"c\n"], b"a\nb\nc\n"),
    ([b"a", b"", b""], b"a\n"),
    ([b"", b"a", b""], b"a\n"),
    ([b"", b"", b"a"], b"a"),
    ([b"a", b"", b"b"], b"a\nb"),
    ([b"\n", b"\n", b""], b"\n\n"),
    ([b"a\nb", b"\n", b"c\n\n"], b"a\nb\n\nc\n\n"),
    ([b"ab\ncd", b"e", b"\nf"], b"ab\ncd\ne\n\nf"),
];

// The three sources as one, of which the last fails after some bytes.
fn joined<'a>(
    alloc: Global,
    texts: [&'a [u8]; 3],
    until_failure: usize,
) -> Option<Joined<BrokenSource<'a>>> {
    let [first, second, third] = texts;
    let mut sources = Joined::of(alloc, BrokenSource::new(first, NO_FAILURE));
    sources
        .add(BrokenSource::new(second, NO_FAILURE).in_steps(1))
        .ok()?;
    sources.add(BrokenSource::new(third, until_failure)).ok()?;
    Some(sources)
}

// Whether the source, asked for `room` bytes at once, gives just these bytes, and then stays at its end.
fn gives<S: Source>(source: &mut S, room: usize, wanted: &[u8]) -> bool {
    let mut buffer = [0u8; 8];
    let mut place = 0usize;
    for _ in 0..64 {
        let Ok(count) = source.read(&mut buffer[..room.min(8)]) else {
            return false;
        };
        if count == 0 {
            return place == wanted.len() && source.read(&mut buffer) == Ok(0);
        }
        for at in 0..count {
            if place >= wanted.len() || wanted[place] != buffer[at] {
                return false;
            }
            place += 1;
        }
    }
    false
}

#[test]
fn sources_share_no_line(rt: HostRuntime) {
    for (texts, wanted) in ROWS {
        for room in 1..9 {
            let mut sources = joined(rt.alloc(), texts, NO_FAILURE).expect(&rt, "sources");
            assert!(rt; gives(&mut sources, room, wanted));
            assert!(rt; sources.place() == 2 && !sources.failed());
        }
    }
}

#[test]
fn a_source_alone_gives_its_bytes(rt: HostRuntime) {
    let texts: [&[u8]; 4] = [b"", b"a", b"\n", b"a\nb"];
    for text in texts {
        let mut source = Joined::of(rt.alloc(), BrokenSource::new(text, NO_FAILURE));
        assert!(rt; gives(&mut source, 3, text));
    }
}

#[test]
fn a_run_reads_all_sources(rt: HostRuntime) {
    let mut sources = joined(rt.alloc(), [START, b"f5", START], NO_FAILURE).expect(&rt, "sources");
    assert!(rt; !sources.failed());
    let mut writer = ByteSink::<64>::new(NO_FAILURE);
    let asked = settings(Command::Moves, Scoring::Winner);
    let done = run(
        &rt,
        rt.alloc(),
        &mut sources,
        &mut writer,
        &asked,
        &Open,
        None,
    );
    assert!(rt; done == Ok(()));
    assert!(rt; writer.taken() == b"d3 c4 f5 e6\nerror 1\nd3 c4 f5 e6\n".as_slice());
}

// Of the last source, and with its place: the lines of those before it are ended.
#[test]
fn a_source_that_fails_ends_the_run(rt: HostRuntime) {
    for until_failure in 0..66 {
        let texts = [START, b"".as_slice(), START];
        let mut sources = joined(rt.alloc(), texts, until_failure).expect(&rt, "sources");
        assert!(rt; !sources.failed());
        let mut writer = ByteSink::<64>::new(NO_FAILURE);
        let asked = settings(Command::Moves, Scoring::Winner);
        let done = run(
            &rt,
            rt.alloc(),
            &mut sources,
            &mut writer,
            &asked,
            &Open,
            None,
        );
        assert!(rt; done == Err(RunFault::Read));
        assert!(rt; writer.taken() == MOVES);
        assert!(rt; sources.place() == 2 && sources.failed() && sources.source().failed());
    }
}
