//! Works on jobs at once, each in a thread of its own.
ghost use Rattle.std.specs.Prelude.{◌≤◌, length};
ghost use denote.Param.Send.{IsSend, IsSync};
ghost use Rattle.oth_pool.specs.AtOnce.{AcceptsEach, ChangesEach};

use std::thread::{Threads, join_mut};

/// Calls `f` with each job: with the last in this thread, with each other in a thread of its own where one can be made.
/// This thread starts all the others, and the first of these has no job: some systems let the first thread that a
/// thread starts wait milliseconds for its processor while others are idle.
pub(crate) fn for_each_at_once<R: Threads + Sync, T: Send, F: Fn(&mut T) + Sync>(
    rt: &R,
    f: &F,
    jobs: &mut [T],
)
    requires { AcceptsEach F.Fn f.now jobs.old }
    ensures { ChangesEach F.Fn f.now jobs.old jobs.new }
{
    if jobs.len() < 2 {
        start_from(rt, f, jobs);
        return;
    }
    let (none, all) = jobs.split_at_mut(0);
    start_both(rt, f, none, all);
}

// Calls `f` with each job: with the last in this thread, with each other in a thread of its own where one can be made.
#[cycle(starting)]
fn start_from<R: Threads + Sync, T: Send, F: Fn(&mut T) + Sync>(rt: &R, f: &F, jobs: &mut [T])
    requires { AcceptsEach F.Fn f.now jobs.old }
    ensures { ChangesEach F.Fn f.now jobs.old jobs.new }
{
    if jobs.is_empty() {
        return;
    }
    if jobs.len() == 1 {
        f(&mut jobs[0]);
        return;
    }
    let (first, rest) = jobs.split_at_mut(1);
    start_both(rt, f, first, rest);
}

// Works on `first` in a thread of its own, where one can be made, and on `rest` in this thread and further ones.
#[cycle(starting)]
fn start_both<R: Threads + Sync, T: Send, F: Fn(&mut T) + Sync>(
    rt: &R,
    f: &F,
    first: &mut [T],
    rest: &mut [T],
)
    requires few { length first.old ≤ length rest.old }
    requires first { AcceptsEach F.Fn f.now first.old }
    requires rest { AcceptsEach F.Fn f.now rest.old }
    ensures first { ChangesEach F.Fn f.now first.old first.new }
    ensures rest { ChangesEach F.Fn f.now rest.old rest.new }
{
    let mut front = ||
        requires { IsSync R.row × IsSync F.row × IsSend T.row × AcceptsEach F.Fn f.now first.now }
        ensures { ChangesEach F.Fn f.entry.now first.entry.now first.exit.now }
    { start_from(rt, f, first) };
    let mut back = ||
        requires { IsSync R.row × IsSync F.row × IsSend T.row × AcceptsEach F.Fn f.now rest.now }
        ensures { ChangesEach F.Fn f.entry.now rest.entry.now rest.exit.now }
    { start_from(rt, f, rest) };
    join_mut(rt, &mut front, &mut back);
}
