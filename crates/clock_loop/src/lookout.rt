//! When the loop looks for quiet clocks and for such as it makes on the bus. What a run gives does not
//! hang on it, but how fast it is.

ghost use Rattle.std.specs.Prelude.{◌≡◌, ◌≤◌, ◌+◌, ◌-◌, ◌^◌, ◌||◌, min, nat_le, nat_lt, if◌then◌else◌};

use foreground::Lookout;

/// So many clocks passed at once, or made on the bus, are worth the look.
pub const WORTH: u16 = 4;

/// The clock of a line behind the last slot of a sprite: the Copper is done by then too as a rule.
pub const BEHIND_SPRITES: u16 = 0x34;

/// The clocks of refresh are before this one and from that one on, of so many in a line.
const BEHIND_REFRESH: u16 = 6;

const LAST_REFRESH: u16 = 225;

const LINE: u16 = 227;

/// The longest pause between two looks, in colour clocks.
const LONGEST: u8 = 63;

/// Whether it looks at this clock.
#[inline(always)]
pub(crate) fn is_due(lookout: &Lookout, now: u64) -> bool
    ensures { result ≡ nat_le lookout.now.from now }
{
    lookout.from <= now
}

/// It has looked at clock `h` of a line, and did so up to the clock `now`; `pays` says whether enough
/// clocks were found. A pause does not go on behind the last slot of a sprite.
pub(crate) fn note_look(lookout: &mut Lookout, now: u64, h: u16, pays: bool)
    ensures { lookout.new.pause ≤ 63 }
{
    lookout.pause = if pays {
        0
    } else {
        (lookout.pause.min(LONGEST / 2) * 2 + 2).min(LONGEST)
    };
    let mut pause = lookout.pause as u16;
    if h < BEHIND_SPRITES {
        pause = pause.min(BEHIND_SPRITES - h);
    }
    lookout.from = now.saturating_add(pause as u64);
}

/// At clock `h` of a line, beside the slots of refresh: it looks again behind them.
pub(crate) fn wait_for_refresh(lookout: &mut Lookout, now: u64, h: u16)
    ensures { lookout.new ≡ record lookout.old {
      from = min (now + ((if nat_lt h 6 then 0 else 227) + 6 - h)) (2 ^ 64 - 1);
    } }
{
    let line = if h < BEHIND_REFRESH { 0 } else { LINE };
    lookout.from = now.saturating_add((line + BEHIND_REFRESH).saturating_sub(h) as u64);
}

/// Whether clock `h` of a line is among those of refresh, at a line's ends.
#[inline(always)]
pub(crate) fn is_beside_refresh(h: u16) -> bool
    ensures { result ≡ (nat_lt h 6 || nat_le 225 h) }
{
    h < BEHIND_REFRESH || LAST_REFRESH <= h
}
