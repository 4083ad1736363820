//! Threads that help while this one works.

ghost use Rattle.std.specs.Prelude.{◌≡◌};
ghost use denote.Param.Send.{IsSync};

use std::thread::{Threads, join_mut};

/// Calls `work` in this thread, while `helpers` other threads call `help`. Where a thread can't be made, its call of
/// `help` comes when `work` has returned. Waits for all of them.
pub(crate) fn beside<R: Threads + Sync, H: Fn() + Sync, W: FnMut() -> X, X>(
    rt: &R,
    helpers: usize,
    help: &H,
    work: &mut W,
) -> X
    requires help { H.IsAlwaysCallable help.now }
    requires work { W.pre work.old }
    ensures { W.step work.old result work.new }
{
    if helpers == 0 {
        return work();
    }
    let fewer = helpers - 1;
    let mut front = ||
        requires { IsSync H.row × H.IsAlwaysCallable help.now }
    { help() };
    let mut back = || -> X
        requires { IsSync R.row × IsSync H.row × H.IsAlwaysCallable help.now × W.pre work.now }
        ensures { W.step work.entry.now result work.exit.now }
    { beside(rt, fewer, help, work) };
    join_mut(rt, &mut front, &mut back).1
}
