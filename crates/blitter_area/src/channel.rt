//! The pointers of the four channels.

ghost use Rattle.std.specs.Prelude.{◌≡◌, ℕ, ◌+◌, pos};
ghost use Rattle.std.specs.Int.{int_rem_euclid};
ghost use Rattle.ocs_base.specs.Addr.{IsEven};
ghost use Rattle.ocs_base.specs.Span.{span_of};
ghost use Rattle.blit_words.specs.declared.blit.BlitRegs.{BlitRegs};
ghost use Rattle.blit_words.specs.declared.blit.WordAsk.{WordAsk};
ghost use Rattle.blit_words.specs.Blit.{width_of};
ghost use Rattle.blitter_area.specs.Spans.{IsInside, IsLane};

use blit_words::{BlitRegs, even_part, is_set};
use ocs_base::{Addr, ChipSize};

/// The address of a channel, and how far it moves after each word and after each row, modulo the span of its
/// pointer; an unused channel stays. The mask is that of an address in the span.
#[derive(Clone, Copy)]
pub(crate) struct Channel {
    pub(crate) at: Addr,
    pub(crate) forward: u32,
    pub(crate) over: u32,
    pub(crate) mask: u32,
    ghost mask_is: { mask + 1 ≡ span_of at },
    ghost forward_inside: { IsInside at.size forward },
    ghost over_inside: { IsInside at.size over },
}

impl Channel {
    ghost use Rattle.blitter_area.specs.Pointing.{MovesBy, IsMade, lane_of};

    /// A channel at its pointer.
    fn new(at: Addr, used: bool, modulo: i16, descending: bool) -> Channel
        ensures { IsMade (lane_of result) at used modulo descending }
    {
        let over = even_part(modulo);
        if !used {
            Channel::moving(at, 0, 0)
        } else if descending {
            Channel::moving(at, -2, -over)
        } else {
            Channel::moving(at, 2, over)
        }
    }

    /// A channel that moves by these ways.
    fn moving(at: Addr, forward: i32, over: i32) -> Channel
        requires forward { IsEven forward }
        requires over { IsEven over }
        ensures { MovesBy (lane_of result) at forward over }
    {
        Channel {
            at,
            forward: within(at, forward),
            over: within(at, over),
            mask: at.span() - 1,
        }
    }
}

/// A way modulo the span of an address.
fn within(at: Addr, way: i32) -> u32
    requires { IsEven way }
    ensures value { pos result ≡ int_rem_euclid way (pos (span_of at)) }
    ensures inside { IsInside at.size result }
{
    Addr::sized(at.size, 0).step(way).raw()
}

/// A number for each channel.
#[derive(Clone, Copy)]
pub(crate) struct OfEach {
    pub(crate) a: u32,
    pub(crate) b: u32,
    pub(crate) c: u32,
    pub(crate) d: u32,
}

/// The sizes of memory that the pointers of the channels wrap at.
#[derive(Clone, Copy)]
pub(crate) struct Sizes {
    pub(crate) a: ChipSize,
    pub(crate) b: ChipSize,
    pub(crate) c: ChipSize,
    pub(crate) d: ChipSize,
}

/// All four channels, number by number, so that they move as one. They move at the end of a word, not each
/// after its access: the addresses are the same.
#[derive(Clone, Copy)]
pub(crate) struct Pointers {
    pub(crate) values: OfEach,
    pub(crate) forward: OfEach,
    pub(crate) over: OfEach,
    pub(crate) masks: OfEach,
    pub(crate) sizes: Sizes,
    ghost a_is: { IsLane sizes.a values.a forward.a over.a masks.a },
    ghost b_is: { IsLane sizes.b values.b forward.b over.b masks.b },
    ghost c_is: { IsLane sizes.c values.c forward.c over.c masks.c },
    ghost d_is: { IsLane sizes.d values.d forward.d over.d masks.d },
}

impl Pointers {
    ghost use Rattle.blitter_area.specs.Pointing.{AreAt, HaveMoved, AllStepWord, AllStepRow, lane_a, lane_b, lane_c, lane_d};

    /// The channels at the pointers of a blit.
    pub(crate) fn new(start: &BlitRegs) -> Pointers
        ensures { AreAt result start.now 0 0 }
    {
        let down = is_set(start.con1, 1);
        let a = Channel::new(start.apt, is_set(start.con0, 11), start.amod, down);
        let b = Channel::new(start.bpt, is_set(start.con0, 10), start.bmod, down);
        let c = Channel::new(start.cpt, is_set(start.con0, 9), start.cmod, down);
        let d = Channel::new(start.dpt, is_set(start.con0, 8), start.dmod, down);
        Pointers {
            values: OfEach {
                a: a.at.value,
                b: b.at.value,
                c: c.at.value,
                d: d.at.value,
            },
            forward: OfEach {
                a: a.forward,
                b: b.forward,
                c: c.forward,
                d: d.forward,
            },
            over: OfEach {
                a: a.over,
                b: b.over,
                c: c.over,
                d: d.over,
            },
            masks: OfEach {
                a: a.mask,
                b: b.mask,
                c: c.mask,
                d: d.mask,
            },
            sizes: Sizes {
                a: a.at.size,
                b: b.at.size,
                c: c.at.size,
                d: d.at.size,
            },
        }
    }

    /// The address of channel A.
    #[inline(always)]
    pub(crate) fn a(&self) -> Addr
        ensures { result ≡ (lane_a self.now).at }
    {
        Addr {
            value: self.values.a,
            size: self.sizes.a,
        }
    }

    /// The address of channel B.
    #[inline(always)]
    pub(crate) fn b(&self) -> Addr
        ensures { result ≡ (lane_b self.now).at }
    {
        Addr {
            value: self.values.b,
            size: self.sizes.b,
        }
    }

    /// The address of channel C.
    #[inline(always)]
    pub(crate) fn c(&self) -> Addr
        ensures { result ≡ (lane_c self.now).at }
    {
        Addr {
            value: self.values.c,
            size: self.sizes.c,
        }
    }

    /// The address of channel D.
    #[inline(always)]
    pub(crate) fn d(&self) -> Addr
        ensures { result ≡ (lane_d self.now).at }
    {
        Addr {
            value: self.values.d,
            size: self.sizes.d,
        }
    }

    /// Moves on by a word.
    #[inline(always)]
    pub(crate) fn step_word(&mut self)
        ensures { AllStepWord self.old self.new }
    {
        let forward = self.forward;
        self.step(&forward);
    }

    /// Moves on to the next row, from behind the last word of one.
    pub(crate) fn step_row(&mut self)
        ensures { AllStepRow self.old self.new }
    {
        let over = self.over;
        self.step(&over);
    }

    /// Moves on by so many bytes.
    #[inline(always)]
    fn step(&mut self, bytes: &OfEach)
        requires a { IsInside self.old.sizes.a bytes.now.a }
        requires b { IsInside self.old.sizes.b bytes.now.b }
        requires c { IsInside self.old.sizes.c bytes.now.c }
        requires d { IsInside self.old.sizes.d bytes.now.d }
        ensures { HaveMoved self.old self.new bytes.now }
    {
        self.values = OfEach {
            a: (self.values.a + bytes.a) & self.masks.a,
            b: (self.values.b + bytes.b) & self.masks.b,
            c: (self.values.c + bytes.c) & self.masks.c,
            d: (self.values.d + bytes.d) & self.masks.d,
        };
    }
}
