//! The steps from point to point, and the dot and the texture of a point.

ghost use Rattle.std.specs.Prelude.{◌≡◌, ◌<◌};
ghost use Rattle.blit_words.specs.LineBlit.{step_right as right_step, step_left as left_step, step_down as down_step, step_up as up_step};
ghost use Rattle.blit_words.specs.LineBlit.{step_x as x_step, step_y as y_step, step_sometimes as sometimes_step};
ghost use Rattle.blit_words.specs.LineBlit.{step_always as always_step, add_to_sum as sum_step, next_sum as sum_after};
ghost use Rattle.blit_words.specs.LineBlit.{point_after, first_point, dot_of, texture_of};

use blit_words::{BlitRegs, LinePoint, address_on, even_part, is_set};

/// The first point of a line.
#[tactic(auto, unfolding(blit_words::specs::LineBlit::first_point))]
pub(crate) fn first(start: &BlitRegs) -> LinePoint
    ensures value { result ≡ first_point start.now }
    ensures shift { result.shift < 16 }
{
    LinePoint {
        at: start.cpt,
        shift: start.con0 >> 12,
        sum: start.aptl.cast_signed(),
        sign: is_set(start.con1, 6),
        dotted: false,
    }
}

/// A bit to the right, past bit 15 in the next word.
#[tactic(auto, unfolding(blit_words::specs::LineBlit::step_right))]
fn step_right(p: &mut LinePoint)
    requires { p.old.shift < 16 }
    ensures value { p.new ≡ right_step p.old }
    ensures shift { p.new.shift < 16 }
{
    if p.shift == 15 {
        p.shift = 0;
        p.at = address_on(p.at, 2);
    } else {
        p.shift += 1;
    }
}

/// A bit to the left, past bit 0 in the word before.
#[tactic(auto, unfolding(blit_words::specs::LineBlit::step_left))]
fn step_left(p: &mut LinePoint)
    requires { p.old.shift < 16 }
    ensures value { p.new ≡ left_step p.old }
    ensures shift { p.new.shift < 16 }
{
    if p.shift == 0 {
        p.shift = 15;
        p.at = address_on(p.at, -2);
    } else {
        p.shift -= 1;
    }
}

/// A row down, which has no point of the line yet.
#[tactic(auto, unfolding(blit_words::specs::LineBlit::step_down))]
fn step_down(start: &BlitRegs, p: &mut LinePoint)
    requires { p.old.shift < 16 }
    ensures value { p.new ≡ down_step start.now p.old }
    ensures shift { p.new.shift < 16 }
{
    p.at = address_on(p.at, even_part(start.cmod));
    p.dotted = false;
}

/// A row up, which has no point of the line yet.
#[tactic(auto, unfolding(blit_words::specs::LineBlit::step_up))]
fn step_up(start: &BlitRegs, p: &mut LinePoint)
    requires { p.old.shift < 16 }
    ensures value { p.new ≡ up_step start.now p.old }
    ensures shift { p.new.shift < 16 }
{
    p.at = address_on(p.at, -even_part(start.cmod));
    p.dotted = false;
}

/// A step along x.
fn step_x(back: bool, p: &mut LinePoint)
    requires { p.old.shift < 16 }
    ensures value { p.new ≡ x_step back p.old }
    ensures shift { p.new.shift < 16 }
{
    if back {
        step_left(p);
    } else {
        step_right(p);
    }
}

/// A step along y.
fn step_y(start: &BlitRegs, back: bool, p: &mut LinePoint)
    requires { p.old.shift < 16 }
    ensures value { p.new ≡ y_step start.now back p.old }
    ensures shift { p.new.shift < 16 }
{
    if back {
        step_up(start, p);
    } else {
        step_down(start, p);
    }
}

/// Where the sign is clear, the step along the axis of the lesser distance: SUD says which, SUL the way.
#[tactic(auto, unfolding(blit_words::specs::LineBlit::step_sometimes))]
fn step_sometimes(start: &BlitRegs, p: &mut LinePoint)
    requires { p.old.shift < 16 }
    ensures value { p.new ≡ sometimes_step start.now p.old }
    ensures shift { p.new.shift < 16 }
{
    let back = is_set(start.con1, 3);
    if p.sign {} else if is_set(start.con1, 4) {
        step_y(start, back, p);
    } else {
        step_x(back, p);
    }
}

/// The step along the axis of the greater distance: SUD says which, AUL the way.
#[tactic(auto, unfolding(blit_words::specs::LineBlit::step_always))]
fn step_always(start: &BlitRegs, p: &mut LinePoint)
    requires { p.old.shift < 16 }
    ensures value { p.new ≡ always_step start.now p.old }
    ensures shift { p.new.shift < 16 }
{
    let back = is_set(start.con1, 2);
    if is_set(start.con1, 4) {
        step_x(back, p);
    } else {
        step_y(start, back, p);
    }
}

/// The next accumulator: BLTBMOD is added where the sign is set, else BLTAMOD.
#[tactic(auto, unfolding(blit_words::specs::LineBlit::next_sum))]
fn next_sum(start: &BlitRegs, p: &LinePoint) -> i16
    ensures { result ≡ sum_after start.now p.now }
{
    if p.sign {
        p.sum.wrapping_add(start.bmod)
    } else {
        p.sum.wrapping_add(start.amod)
    }
}

/// Where USEA is set, the next accumulator and its sign.
#[tactic(auto, unfolding(blit_words::specs::LineBlit::add_to_sum))]
fn add_to_sum(start: &BlitRegs, p: &mut LinePoint)
    requires { p.old.shift < 16 }
    ensures value { p.new ≡ sum_step start.now p.old }
    ensures shift { p.new.shift < 16 }
{
    if is_set(start.con0, 11) {
        p.sum = next_sum(start, p);
        p.sign = p.sum < 0;
    }
}

/// Goes on to the next point.
#[tactic(auto, unfolding(blit_words::specs::LineBlit::point_after))]
pub(crate) fn go_on(start: &BlitRegs, p: &mut LinePoint)
    requires { p.old.shift < 16 }
    ensures value { p.new ≡ point_after start.now p.old }
    ensures shift { p.new.shift < 16 }
{
    p.dotted = true;
    step_sometimes(start, p);
    step_always(start, p);
    add_to_sum(start, p);
}

/// The dot of a point: BLTADAT under BLTAFWM at the point's bit. With SING there is one dot a row.
#[tactic(auto, unfolding(blit_words::specs::LineBlit::dot_of))]
pub(crate) fn dot(start: &BlitRegs, p: &LinePoint) -> u16
    requires { p.now.shift < 16 }
    ensures { result ≡ dot_of start.now p.now }
{
    if is_set(start.con1, 1) && p.dotted {
        0
    } else {
        (start.adat & start.afwm) >> p.shift
    }
}

/// The texture at point k: bit (BSH - k) modulo 16 of BLTBDAT, in all bits.
#[tactic(auto, unfolding(blit_words::specs::LineBlit::texture_of))]
pub(crate) fn texture(start: &BlitRegs, k: u16) -> u16
    ensures { result ≡ texture_of start.now k }
{
    let place = ((start.con1 >> 12) + 15 * (k % 16)) % 16;
    if is_set(start.bdat, place) { 0xffff } else { 0 }
}
