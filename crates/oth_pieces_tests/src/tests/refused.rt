//! Out of memory. Each of these tests holds whichever one of its requests for memory is refused; `hostile/refusals.py`
//! runs each of them once for each request.

use super::{A, board_of, drawn, lifted};
use oth_pieces::{Floor, Frontier, Tasks};
use oth_rules::Scoring;
use std::test::Fail;

// A floor that is refused a further seat answers the given one as before.
#[test]
fn a_refused_seat_leaves_the_floor(rt: HostRuntime) -> Result<(), Fail> {
    let a = board_of(&rt, A);
    let Some(h1) = lifted(&a, 7) else {
        panic!(rt; "no move")
    };
    let Ok((floor, mut seat)) = Floor::new(rt.alloc(), &a, Scoring::Winner) else {
        return Ok(());
    };
    assert!(rt; floor.raise(&mut seat, &h1).is_ok());
    match floor.seat(rt.alloc(), &mut seat) {
        Ok(mut further) => assert!(rt; floor.read(&mut further) == -50),
        Err(_) => assert!(rt; floor.scoring() == Scoring::Winner),
    }
    assert!(rt; floor.read(&mut seat) == -50);
    Ok(())
}

// Tasks that aren't refused hand out all that there is.
#[test]
fn tasks_are_refused_or_whole(rt: HostRuntime) -> Result<(), Fail> {
    let a = board_of(&rt, A);
    let frontier = Frontier::of(&a, 1);
    assert!(rt; frontier.len() == 2);
    let Ok((tasks, mut hands)) = Tasks::new(rt.alloc(), &frontier, 2) else {
        return Ok(());
    };
    let first = drawn(&tasks, &mut hands, 0);
    let second = drawn(&tasks, &mut hands, 1);
    let closed = tasks.close(hands);
    let taken = u32::from(first.is_some()) + u32::from(second.is_some());
    assert!(rt; closed.left.len() as u32 + taken == 2);
    Ok(())
}
