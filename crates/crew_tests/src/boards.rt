//! A small kind of work on the board: a job is its run and its number added, and drawing doubles
//! it.

ghost use Rattle.std.specs.Prelude.{◌≡◌, ◌+◌, ◌*◌, ◌^◌, ◌<◌, Some, true, IfOk};
ghost use Rattle.band_board.specs.Answers.{front_view, IsFrontOf, IsFree};
ghost use Rattle.band_board.specs.View.{new_front};

use band_board::{Board, Claim, Collected, Front, Hand, Look, Work};
use ocs_base::OutOfMemory;
use std::alloc::Global;
use std::sync::Arc;
use std::test::Fail;
use std::thread;
use std::thread::Threads;

struct Doubles;

impl Work for Doubles {
    type Run = u64;

    type Job = u64;

    type Drawn = u64;

    ghost right_job = { λ run n job. (job ≡ run + n) × (n < 2 ^ 32) × (run < 2 ^ 32) };

    ghost right_drawn = { λ run n drawn. drawn ≡ 2 * (run + n) };

    ghost few = { λ run n job right. right.1 };
}

/// After so many turns a thread of a test gives up.
const TURNS: u64 = 20_000_000;

/// A board of a run, and its front.
fn board_of(alloc: Global, run: u64) -> Result<(Board<Doubles>, Front<Doubles>), OutOfMemory>
    ensures front { IfOk result (λ made. IsFrontOf made.0 made.1) }
    ensures view { IfOk result (λ made. front_view made.1 ≡ new_front run) }
{
    let run = Arc::new(alloc, run)?;
    Board::<Doubles>::new(alloc, run)
}

/// Whether a look at each place found it vacant, with its own number.
fn are_vacant(seen: &[Look; 16]) -> bool {
    for (place, look) in seen.iter().enumerate() {
        if look.word != 256 * place as u64 || look.found.is_some() {
            return false;
        }
    }
    true
}

/// Whether a claim finds all places vacant.
fn finds_nothing(board: &Board<Doubles>, hand: &mut Hand<Doubles>) -> bool
    requires { IsFree board.now hand.old }
    ensures { result ≡ true → IsFree board.now hand.new }
{
    match hand.claim(board) {
        Claim::Nothing { seen } => are_vacant(&seen),
        Claim::Got { .. } => false,
    }
}

/// Whether the first outstanding band is not drawn yet, and has this word.
fn waits(board: &Board<Doubles>, front: &mut Front<Doubles>, word: u64) -> bool
    requires ours { IsFrontOf board.now front.old }
    requires some { (front_view front.old).collected < (front_view front.old).published }
    ensures ours { IsFrontOf board.now front.new }
    ensures published { (front_view front.new).published ≡ (front_view front.old).published }
    ensures collected { result ≡ true
        → (front_view front.new).collected ≡ (front_view front.old).collected }
{
    match front.try_collect(board) {
        Collected::NotYet { word: found } => found == word,
        Collected::Got { .. } => false,
    }
}

/// Whether the first outstanding band is drawn, has this number and is drawn so.
fn gives(board: &Board<Doubles>, front: &mut Front<Doubles>, band: u64, value: u64) -> bool
    requires ours { IsFrontOf board.now front.old }
    requires some { (front_view front.old).collected < (front_view front.old).published }
    ensures ours { IsFrontOf board.now front.new }
    ensures published { (front_view front.new).published ≡ (front_view front.old).published }
    ensures collected { result ≡ true
        → (front_view front.new).collected ≡ (front_view front.old).collected + 1 }
{
    match front.try_collect(board) {
        Collected::Got { number, drawn } => number == band && drawn == value,
        Collected::NotYet { .. } => false,
    }
}

/// Whether hand 0 gets band 0, has the word of its place say so, and delivers it.
fn draws(board: &Board<Doubles>, front: &mut Front<Doubles>, hand: &mut Hand<Doubles>) -> bool
    requires ours { IsFrontOf board.now front.old }
    requires some { (front_view front.old).collected < (front_view front.old).published }
    requires free { IsFree board.now hand.old }
    ensures ours { IsFrontOf board.now front.new }
    ensures published { (front_view front.new).published ≡ (front_view front.old).published }
    ensures collected { result ≡ true
        → (front_view front.new).collected ≡ (front_view front.old).collected }
    ensures free { result ≡ true → IsFree board.now hand.new }
{
    let Claim::Got { number: 0, job } = hand.claim(board) else {
        return false;
    };
    let waits = waits(board, front, 2);
    hand.deliver(board, 2 * job);
    waits
}

/// Whether band 0 of the run 100 goes from its offer to its collection, by hand 0.
fn goes_round(board: &Board<Doubles>, front: &mut Front<Doubles>, hand: &mut Hand<Doubles>) -> bool
    requires ours { IsFrontOf board.now front.old }
    requires new { ((front_view front.old).published ≡ 0)
        × ((front_view front.old).collected ≡ 0) }
    requires run { (front_view front.old).run ≡ Some 100 }
    requires free { IsFree board.now hand.old }
    ensures ours { IsFrontOf board.now front.new }
    ensures free { result ≡ true → IsFree board.now hand.new }
{
    if !finds_nothing(board, hand) {
        return false;
    }
    front.offer(board, 0, 100);
    if !waits(board, front, 1) {
        return false;
    }
    draws(board, front, hand) && gives(board, front, 0, 200) && hand.count() == 1
}

/// Whether a hand learns that its board is closed when it is, and not before.
fn learns_of_the_close(
    board: &Board<Doubles>,
    front: &mut Front<Doubles>,
    hand: &mut Hand<Doubles>,
) -> bool
    requires ours { IsFrontOf board.now front.old }
    requires free { IsFree board.now hand.old }
    ensures ours { IsFrontOf board.now front.new }
    ensures free { IsFree board.now hand.new }
{
    let before = hand.closed(board);
    front.close(board);
    let after = hand.closed(board);
    !before && after
}

#[test]
fn a_band_goes_from_offer_to_collect(rt: HostRuntime) -> Result<(), Fail> {
    let (board, mut front) = board_of(rt.alloc(), 100)?;
    let mut hand = front.split(&board);
    assert!(rt; goes_round(&board, &mut front, &mut hand));
    let learns = learns_of_the_close(&board, &mut front, &mut hand);
    front.join(&board, hand);
    assert!(rt; learns);
    Ok(())
}

/// Claims, draws and delivers until the board is closed and nothing is there to claim. Returns
/// whether it ended so, or gave up.
fn draw_all(board: &Board<Doubles>, mut hand: Hand<Doubles>) -> (Hand<Doubles>, bool)
    requires { IsFree board.now hand }
    ensures { IsFree board.now result.0 }
{
    for _ in 0..TURNS {
        let closed = hand.closed(board);
        match hand.claim(board) {
            Claim::Got { job, .. } => hand.deliver(board, 2 * job),
            Claim::Nothing { .. } if closed => return (hand, true),
            Claim::Nothing { .. } => thread::yield_now(),
        }
    }
    (hand, false)
}

/// Offers so many bands of a run, collects them and closes the board. Returns how many came in
/// order and right.
fn feed(
    board: &Board<Doubles>,
    mut front: Front<Doubles>,
    run: u64,
    bands: u64,
) -> (Front<Doubles>, u64)
    requires ours { IsFrontOf board.now front }
    requires new { ((front_view front).published ≡ 0) × ((front_view front).collected ≡ 0) }
    requires run { (front_view front).run ≡ Some run }
    requires small { (run < 2 ^ 32) × (bands < 2 ^ 32) }
    ensures { IsFrontOf board.now result.0 }
{
    let mut offered = 0;
    let mut collected = 0;
    let mut right = 0;
    for _ in 0..TURNS {
        if collected == bands {
            break;
        }
        if offered < bands && offered < collected + 16 {
            front.offer(board, offered, run + offered);
            offered += 1;
            continue;
        }
        match front.try_collect(board) {
            Collected::Got { number, drawn } => {
                if number == collected && drawn == 2 * (run + number) {
                    right += 1;
                }
                collected += 1;
            }
            Collected::NotYet { .. } => thread::yield_now(),
        }
    }
    front.close(board);
    (front, right)
}

/// Two hands draw, each on a thread.
fn draw_both<R: Threads + Sync>(
    rt: &R,
    board: &Board<Doubles>,
    first: Hand<Doubles>,
    second: Hand<Doubles>,
) -> ((Hand<Doubles>, bool), (Hand<Doubles>, bool))
    requires first { IsFree board.now first }
    requires second { IsFree board.now second }
    ensures first { IsFree board.now result.0.0 }
    ensures second { IsFree board.now result.1.0 }
{
    thread::join(
        rt,
        move || draw_all(board, first),
        move || draw_all(board, second),
    )
}

#[test]
fn two_hands_on_threads_draw_many_bands(rt: HostRuntime) -> Result<(), Fail> {
    let (board, mut front) = board_of(rt.alloc(), 7)?;
    let first = front.split(&board);
    let second = front.split(&board);
    let ((mut front, right), ((first, _), (second, _))) = thread::join(
        &rt,
        || feed(&board, front, 7, 5_000),
        || draw_both(&rt, &board, first, second),
    );
    assert!(rt; right == 5_000 && first.count() + second.count() == 5_000);
    front.join(&board, second);
    front.join(&board, first);
    Ok(())
}

/// Offers the bands 0 and 1 of the run 5, and closes the board.
fn offer_two(board: &Board<Doubles>, front: &mut Front<Doubles>)
    requires ours { IsFrontOf board.now front.old }
    requires new { ((front_view front.old).published ≡ 0)
        × ((front_view front.old).collected ≡ 0) }
    requires run { (front_view front.old).run ≡ Some 5 }
    ensures ours { IsFrontOf board.now front.new }
    ensures two { ((front_view front.new).published ≡ 2)
        × ((front_view front.new).collected ≡ 0) }
{
    front.offer(board, 0, 5);
    front.offer(board, 1, 6);
    front.close(board);
}

/// Whether a hand draws one band on a thread, and then finds no other.
fn draws_one<R: Threads + Sync>(rt: &R, board: &Board<Doubles>, hand: Hand<Doubles>) -> bool
    requires { IsFree board.now hand }
{
    let ((hand, ended), ()) = thread::join(rt, || draw_all(board, hand), || ());
    ended && hand.count() == 1
}

/// Whether the bands 0 and 1 of the run 5 are collected in order, though the hand that has claimed the first
/// is late and another draws the second meanwhile.
fn come_in_order<R: Threads + Sync>(
    rt: &R,
    board: &Board<Doubles>,
    front: &mut Front<Doubles>,
    late: &mut Hand<Doubles>,
    quick: Hand<Doubles>,
) -> bool
    requires ours { IsFrontOf board.now front.old }
    requires two { ((front_view front.old).published ≡ 2)
        × ((front_view front.old).collected ≡ 0) }
    requires late { IsFree board.now late.old }
    requires quick { IsFree board.now quick }
{
    let Claim::Got { number: 0, job } = late.claim(board) else {
        return false;
    };
    // The second band is drawn, and the first is not: word 0 is that of band 0, claimed by hand 0.
    let is_late = draws_one(rt, board, quick) && waits(board, front, 2);
    late.deliver(board, 2 * job);
    is_late && gives(board, front, 0, 10) && gives(board, front, 1, 12)
}

#[test]
fn a_late_hand_keeps_the_order(rt: HostRuntime) -> Result<(), Fail> {
    let (board, mut front) = board_of(rt.alloc(), 5)?;
    let mut late = front.split(&board);
    let quick = front.split(&board);
    offer_two(&board, &mut front);
    assert!(rt; come_in_order(&rt, &board, &mut front, &mut late, quick));
    Ok(())
}

/// Closes the board after a while.
fn close_late(board: &Board<Doubles>, front: &mut Front<Doubles>)
    requires { IsFrontOf board.now front.old }
{
    for _ in 0..1_000 {
        thread::yield_now();
    }
    front.close(board);
}

#[test]
fn hands_that_wait_end_at_the_close(rt: HostRuntime) -> Result<(), Fail> {
    let (board, mut front) = board_of(rt.alloc(), 0)?;
    let first = front.split(&board);
    let second = front.split(&board);
    let ((), ((first, one), (second, two))) = thread::join(
        &rt,
        || close_late(&board, &mut front),
        || draw_both(&rt, &board, first, second),
    );
    assert!(rt; one && two && first.count() == 0 && second.count() == 0);
    Ok(())
}
