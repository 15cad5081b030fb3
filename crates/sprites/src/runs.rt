//! The words of the sprites that run on a line.

ghost use Rattle.std.specs.Prelude.{◌≡◌, ◌<◌, ◌≤◌, Option, None, Some, replicate, slice_set};

use std::marker::Model;

/// A start of a sprite's two words at a position of the line.
#[derive(Clone, Copy)]
pub struct Start {
    /// The position in low-resolution pixels from the line's begin.
    pub x: u16,
    /// SPRnDATA as it was then.
    pub word_a: u16,
    /// SPRnDATB as it was then.
    pub word_b: u16,
}

/// The last start of each of the eight sprites on the line, if there was one.
///
/// Positions do not fall on a line, so at a position that is not below the last start no other start
/// of the sprite matters.
#[derive(Clone, Copy)]
pub struct Runs {
    starts: [Option<Start>; 8],
}

impl Model for Runs {
    ghost use Rattle.std.specs.Prelude.{List, Option};
    ghost use Rattle.sprites.specs.declared.runs.Start.{Start};

    ghost Value = { List (Option Start) };

    ghost view = { λ r. r.starts };

    ghost inverse = { λ starts. record { starts = starts } };
}

impl Runs {
    ghost use Rattle.sprites.specs.SpriteValue.{sprite_value, kept_start, IsValueOnLine};

    /// No words run, as at a line's start.
    pub fn new() -> Runs
        ensures { result ≡ replicate 8 None }
    {
        Runs { starts: [None; 8] }
    }

    /// The words of sprite `sprite`, 0 to 7, begin to run at position `x`.
    pub fn start(&mut self, sprite: u8, x: u16, word_a: u16, word_b: u16)
        requires { sprite < 8 }
        ensures { self.new ≡ slice_set self.old sprite
            (Some (record { x = x; word_a = word_a; word_b = word_b })) }
    {
        self.starts[sprite as usize] = Some(Start { x, word_a, word_b });
    }

    /// The value of sprite `sprite`, 0 to 7, at position `x`: two bits, 0 where nothing runs.
    ///
    /// Where `x` is not below the sprite's last start, this is its value by all its starts on the line.
    #[tactic(auto, unfolding(crate::specs::SpriteValue::sprite_value))]
    pub fn value(&self, sprite: u8, x: u16) -> u8
        requires { sprite < 8 }
        ensures value { result ≡ sprite_value x (kept_start self.now sprite) }
        ensures line { IsValueOnLine x (kept_start self.now sprite) result }
        ensures few { result ≤ 3 }
    {
        match self.starts[sprite as usize] {
            Some(start) => start.value(x),
            None => 0,
        }
    }
}

impl Start {
    ghost use Rattle.std.specs.Prelude.{[], ◌∷◌};
    ghost use Rattle.sprites.specs.SpriteValue.{sprite_value};

    /// The value at a position if no other start comes.
    #[tactic(auto, unfolding(crate::specs::SpriteValue::sprite_value))]
    fn value(self, x: u16) -> u8
        ensures value { result ≡ sprite_value x (self ∷ []) }
        ensures few { result ≤ 3 }
    {
        if x < self.x || x - self.x > 15 {
            return 0;
        }
        let below = 15 - (x - self.x);
        (self.word_a >> below & 1) as u8 + 2 * (self.word_b >> below & 1) as u8
    }
}
