//! What a hand of a board does: it claims bands, draws them and delivers them.

ghost use Rattle.std.specs.Prelude.{◌≡◌, None};
ghost use Rattle.band_board.specs.Answers.{hand_view, IsFree};
ghost use Rattle.crew.specs.Hands.{EndsIdle, Draws, IsSameHand};

use crate::bands::Bands;
use crate::gate::Gate;
use crate::pause::Pause;
use band_board::{Board, Claim, Hand};
use band_draw::draw;
use std::sync::Wait;

/// Claims bands of the board, draws them and delivers them. The gate is told of each band before it
/// is drawn. It ends once the board is closed and nothing is there to claim: the looks that this
/// call added to the hand's then have a 1 at word 16, which marks the close, and after it those of
/// a claim that gave nothing. It may wait: a hand that finds nothing looks again at once for some
/// turns, then lets other threads run, and then sleeps for half a millisecond at most between its
/// looks.
pub fn hand_loop<R: Wait, G: Gate + Sync>(
    rt: &R,
    board: &Board<Bands>,
    mut hand: Hand<Bands>,
    gate: &G,
) -> Hand<Bands>
    requires free { IsFree board.now hand }
    ensures free { IsFree board.now result }
    ensures same { IsSameHand (hand_view hand) (hand_view result) }
    ensures end { EndsIdle (hand_view hand) (hand_view result) }
{
    let mut pause = Pause::new();
    for _ in rt.forever() {
        let closed = hand.closed(board);
        if draw_one(board, &mut hand, gate) {
            pause = Pause::new();
        } else if closed {
            return hand;
        } else {
            pause.wait(rt);
        }
    }
    unreachable!()
}

/// Claims a band, tells the gate of it, draws it and delivers it. Returns whether the claim gave
/// one.
pub(crate) fn draw_one<G: Gate>(board: &Board<Bands>, hand: &mut Hand<Bands>, gate: &G) -> bool
    requires { IsFree board.now hand.old }
    ensures free { IsFree board.now hand.new }
    ensures same { IsSameHand (hand_view hand.old) (hand_view hand.new) }
    ensures looks { Draws (hand_view hand.old) (hand_view hand.new) result }
{
    match hand.claim(board) {
        Claim::Got { number, job } => {
            gate.before(number);
            let drawn = draw(job);
            hand.deliver(board, drawn);
            true
        }
        Claim::Nothing { .. } => false,
    }
}
