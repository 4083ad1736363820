//! The worked boards: their floors, frontiers, tasks and collectors.

mod refused;

ghost use Rattle.std.specs.Prelude.{◌≡◌, ◌<◌, ◌≤◌, ℕ, length, slice_index_or};
ghost use Rattle.oth_rules.specs.Position.{empty_count};
ghost use Rattle.oth_pieces.specs.Hands.{AreAllHands, IsCrew, IsHandOf, number_of};
ghost use Rattle.oth_pieces.specs.Watch.{IsSeatOf};

use oth_pieces::{Collector, Floor, FloorSeat, Frontier, Hand, Refusal, Reply, Tasks};
use oth_rules::samples::board;
use oth_rules::{Board, Scoring, Square};
use oth_search::{NoCells, Solved};
use std::process::Abort;
use std::test::Fail;
use std::thread;
use std::thread::Threads;

const A: [u64; 2] = [8, 0xffff_ffff_ffff_ff74];

const B: [u64; 2] = [0xffff_ffff_ffff_fcfc, 0x0000_0000_0000_0202];

const C: [u64; 2] = [0xffff_ffff_ffff_ff3c, 0x42];

// A board of a game, with 28 empty squares.
const MANY_ITEMS: [u64; 2] = [0x0408_40c7_c284_0400, 0x0264_3f38_3c48_9200];

// The board of these discs.
fn board_of(rt: &impl Abort, words: [u64; 2]) -> Board
    ensures { empty_count result ≤ 30 }
{
    let Some(board) = board(words) else {
        panic!(rt; "no board")
    };
    board
}

// A floor of the board by winner, and its first seat.
fn floor_of<R: AllocGlobal + Abort>(rt: &R, board: &Board) -> (Floor, FloorSeat)
    ensures { IsSeatOf result.0 result.1 }
{
    let Ok((floor, seat)) = Floor::new(rt.alloc(), board, Scoring::Winner) else {
        panic!(rt; "no floor")
    };
    (floor, seat)
}

// The frontier's items among `hands` hands.
fn tasks_of<R: AllocGlobal + Abort>(rt: &R, frontier: &Frontier, hands: u8) -> (Tasks, Vec<Hand>)
    requires { IsCrew hands }
    ensures { AreAllHands result.0 result.1.items }
{
    let Ok((tasks, hands)) = Tasks::new(rt.alloc(), frontier, hands) else {
        panic!(rt; "no tasks")
    };
    (tasks, hands)
}

// The board with its value.
fn exactly(board: &Board) -> Solved {
    Solved::by_search(board, -65, 65, &mut NoCells, Scoring::Winner)
}

// What the exact value after a move tells of the root.
fn lifted(root: &Board, number: u8) -> Option<Solved> {
    let square = Square::of(number)?;
    let child = root.play(square)?;
    Solved::lift(root, square, &exactly(&child)).ok()
}

// The floor takes what is told of its root, and is so high then.
fn check_raised(rt: &impl Abort, floor: &Floor, seat: &mut FloorSeat, told: &Solved, score: i8)
    requires { IsSeatOf floor.now seat.old }
    ensures { IsSeatOf floor.now seat.new }
{
    assert!(rt; floor.raise(seat, told).is_ok());
    assert!(rt; floor.read(seat) == score);
}

// The floor refuses what is told of something else than its root.
fn check_refused(rt: &impl Abort, floor: &Floor, seat: &mut FloorSeat, told: &Solved)
    requires { IsSeatOf floor.now seat.old }
    ensures { IsSeatOf floor.now seat.new }
{
    assert!(rt; floor.raise(seat, told).is_err());
}

#[test]
fn a_floor_rises_to_the_best_move(rt: HostRuntime) -> Result<(), Fail> {
    let a = board_of(&rt, A);
    let c = board_of(&rt, C);
    let (Some(b1), Some(h1)) = (lifted(&a, 1), lifted(&a, 7)) else {
        panic!(rt; "no moves")
    };
    let (floor, mut seat) = floor_of(&rt, &a);
    let Ok(mut other) = floor.seat(rt.alloc(), &mut seat) else {
        panic!(rt; "no seat")
    };
    assert!(rt; floor.read(&mut seat) == -64);
    check_raised(&rt, &floor, &mut seat, &b1, -64);
    check_raised(&rt, &floor, &mut seat, &h1, -50);
    check_raised(&rt, &floor, &mut seat, &b1, -50);
    check_refused(&rt, &floor, &mut seat, &exactly(&c));
    check_refused(&rt, &floor, &mut seat, &Solved::unknown(a, Scoring::Discs));
    assert!(rt; floor.read(&mut seat) == -50);
    assert!(rt; floor.read(&mut other) == -50);
    floor.meet(&mut seat, &mut other);
    assert!(rt; floor.read(&mut seat) == -50);
    Ok(())
}

// The words of an item's board, and whether its mover is the root's.
type Item = (u64, u64, bool);

// The item of this number, if the frontier has one.
fn item(frontier: &Frontier, number: u32) -> Option<Item> {
    let item = frontier.entry(number)?;
    Some((item.board.own(), item.board.opp(), item.same_mover))
}

// Whether these two items are all that the frontier has.
fn has_two_items(frontier: &Frontier, first: Item, second: Item) -> bool {
    frontier.len() == 2 && item(frontier, 0) == Some(first) && item(frontier, 1) == Some(second)
}

#[test]
fn frontiers_put_passes_in(rt: HostRuntime) -> Result<(), Fail> {
    let a = board_of(&rt, A);
    let b = board_of(&rt, B);
    let below_b1 = (0xffff_ffff_ffff_ff70, 0x0e, false);
    let below_h1 = (0xf8, 0xffff_ffff_ffff_ff04, true);
    assert!(rt; has_two_items(&Frontier::of(&a, 1), below_b1, below_h1));
    let below_b1 = (0, 0xffff_ffff_ffff_ff7f, true);
    let below_h1 = (0xffff_ffff_ffff_ff00, 0xfe, false);
    assert!(rt; has_two_items(&Frontier::of(&a, 2), below_b1, below_h1));
    let first = (0, 0xffff_ffff_ffff_feff, false);
    let second = (0, 0xffff_ffff_ffff_ffff, false);
    assert!(rt; has_two_items(&Frontier::of(&b, 2), first, second));
    Ok(())
}

// What the hand at this place draws.
fn drawn(tasks: &Tasks, hands: &mut Vec<Hand>, at: usize) -> Option<u32>
    requires { AreAllHands tasks.now hands.old.items }
    ensures { AreAllHands tasks.now hands.new.items }
{
    if at >= hands.len() {
        return None;
    }
    tasks.draw(&mut hands[at])
}

// The hand at this place draws this number.
fn check_draw(rt: &impl Abort, tasks: &Tasks, hands: &mut Vec<Hand>, at: usize, number: Option<u32>)
    requires { AreAllHands tasks.now hands.old.items }
    ensures { AreAllHands tasks.now hands.new.items }
{
    assert!(rt; drawn(tasks, hands, at) == number);
}

#[test]
fn hands_steal_from_each_other(rt: HostRuntime) -> Result<(), Fail> {
    let a = board_of(&rt, A);
    let frontier = Frontier::of(&a, 1);
    let (tasks, mut hands) = tasks_of(&rt, &frontier, 2);
    check_draw(&rt, &tasks, &mut hands, 0, Some(0));
    check_draw(&rt, &tasks, &mut hands, 0, Some(1));
    check_draw(&rt, &tasks, &mut hands, 0, None);
    check_draw(&rt, &tasks, &mut hands, 1, None);
    let closed = tasks.close(hands);
    let [first, second] = closed.lists.as_slice() else {
        panic!(rt; "not two lists")
    };
    assert!(rt; first.as_slice() == [0, 1].as_slice() && second.is_empty());
    assert!(rt; closed.left.is_empty());
    Ok(())
}

#[test]
fn the_second_hand_draws_first(rt: HostRuntime) -> Result<(), Fail> {
    let a = board_of(&rt, A);
    let frontier = Frontier::of(&a, 1);
    let (tasks, mut hands) = tasks_of(&rt, &frontier, 2);
    check_draw(&rt, &tasks, &mut hands, 1, Some(1));
    check_draw(&rt, &tasks, &mut hands, 1, Some(0));
    check_draw(&rt, &tasks, &mut hands, 1, None);
    Ok(())
}

// Each hand draws the number of its own deque that has the least rank; one without a rank comes last.
#[test]
fn numbers_are_drawn_by_rank(rt: HostRuntime) -> Result<(), Fail> {
    let root = board_of(&rt, MANY_ITEMS);
    let frontier = Frontier::of(&root, 1);
    assert!(rt; frontier.len() > 6);
    let Ok((tasks, mut hands)) = Tasks::by_rank(rt.alloc(), &frontier, &[9, 9, 0, 1, 5], 2) else {
        panic!(rt; "no tasks")
    };
    check_draw(&rt, &tasks, &mut hands, 0, Some(2));
    check_draw(&rt, &tasks, &mut hands, 0, Some(4));
    check_draw(&rt, &tasks, &mut hands, 1, Some(3));
    check_draw(&rt, &tasks, &mut hands, 0, Some(0));
    check_draw(&rt, &tasks, &mut hands, 1, Some(1));
    check_draw(&rt, &tasks, &mut hands, 1, Some(5));
    check_draw(&rt, &tasks, &mut hands, 0, Some(6));
    Ok(())
}

// The hand draws until there is nothing left.
fn draw_out(tasks: &Tasks, hand: &mut Hand)
    requires { IsHandOf tasks.now hand.old }
    ensures hand { IsHandOf tasks.now hand.new }
    ensures number { number_of hand.new ≡ number_of hand.old }
{
    for _ in 0..1000 {
        if tasks.draw(hand).is_none() {
            break;
        }
    }
}

// The hand at this place draws until there is nothing left.
fn draw_out_at(tasks: &Tasks, hands: &mut Vec<Hand>, at: usize)
    requires { AreAllHands tasks.now hands.old.items }
    ensures { AreAllHands tasks.now hands.new.items }
{
    if at >= hands.len() {
        return;
    }
    draw_out(tasks, &mut hands[at]);
}

// A hand steals from each other one: what lies in its own deque is a third of all.
#[test]
fn one_of_three_hands_draws_all(rt: HostRuntime) -> Result<(), Fail> {
    let root = board_of(&rt, MANY_ITEMS);
    let frontier = Frontier::of(&root, 2);
    assert!(rt; frontier.len() == 194);
    for place in 0..3 {
        let (tasks, mut hands) = tasks_of(&rt, &frontier, 3);
        draw_out_at(&tasks, &mut hands, place);
        check_draw(&rt, &tasks, &mut hands, 0, None);
        check_draw(&rt, &tasks, &mut hands, 1, None);
        check_draw(&rt, &tasks, &mut hands, 2, None);
        let closed = tasks.close(hands);
        assert!(rt; closed.left.is_empty());
        match closed.lists.get(place) {
            Some(list) => assert!(rt; list.len() == 194),
            None => panic!(rt; "no list"),
        }
    }
    Ok(())
}

// Each hand draws in a thread of its own.
fn draw_all<R: Threads + Sync>(rt: &R, tasks: &Tasks, hands: &mut Vec<Hand>)
    requires { AreAllHands tasks.now hands.old.items }
    ensures { AreAllHands tasks.now hands.new.items }
{
    draw_each(rt, tasks, hands.as_mut_slice());
}

fn draw_each<R: Threads + Sync>(rt: &R, tasks: &Tasks, hands: &mut [Hand])
    requires { (i : ℕ) (d : Hand) → i < length hands.old → IsHandOf tasks.now (slice_index_or hands.old i d) }
    ensures hands { (i : ℕ) (d : Hand) → i < length hands.old → IsHandOf tasks.now (slice_index_or hands.new i d) }
    ensures numbers { (i : ℕ) (d : Hand) → i < length hands.old
        → number_of (slice_index_or hands.new i d) ≡ number_of (slice_index_or hands.old i d) }
{
    if hands.is_empty() {
        return;
    }
    let threads = hands.len();
    thread::for_each_mut(
        rt,
        hands,
        threads,
        &|_, hand: &mut Hand| draw_out(tasks, hand),
    );
}

#[test]
fn four_threads_draw_each_number_once(rt: HostRuntime) -> Result<(), Fail> {
    let root = board_of(&rt, MANY_ITEMS);
    let frontier = Frontier::of(&root, 2);
    assert!(rt; frontier.len() == 194);
    let (tasks, mut hands) = tasks_of(&rt, &frontier, 4);
    draw_all(&rt, &tasks, &mut hands);
    let closed = tasks.close(hands);
    let mut seen = [0u8; 194];
    for list in closed.lists.as_slice() {
        for number in list.as_slice() {
            if let Some(count) = seen.get_mut(*number as usize) {
                *count = u8::saturating_add(*count, 1);
            }
        }
    }
    assert!(rt; closed.left.is_empty());
    assert!(rt; seen.iter().all(|count| *count == 1));
    Ok(())
}

#[test]
fn a_collector_takes_each_reply_once(rt: HostRuntime) -> Result<(), Fail> {
    let a = board_of(&rt, A);
    let frontier = Frontier::of(&a, 1);
    let (Some(zero), Some(one)) = (frontier.item(0), frontier.item(1)) else {
        panic!(rt; "no items")
    };
    let mut collector = Collector::new(&frontier, Scoring::Winner);
    let solved = exactly(&one);
    let discs = Solved::unknown(zero, Scoring::Discs);
    for (number, solved, refusal) in [
        (1, solved, None),
        (1, solved, Some(Refusal::Double)),
        (2, solved, Some(Refusal::Stranger)),
        (0, solved, Some(Refusal::OtherBoard)),
        (0, discs, Some(Refusal::OtherScoring)),
    ] {
        assert!(rt; collector.take(Reply { number, solved }).err() == refusal);
    }
    assert!(rt; collector.solved(0).is_none() && collector.solved(1).is_some());
    Ok(())
}
