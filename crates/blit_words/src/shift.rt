//! The barrel shifter.

ghost use Rattle.std.specs.Prelude.{◌≡◌, ◌<◌};
ghost use Rattle.blit_words.specs.BlitWords.{shifted_input};

/// A word shifted by 0 to 15 bits, with the word before it shifted in: to the right, or to the left in
/// descending mode.
pub fn shift_input(descending: bool, shift: u16, before: u16, word: u16) -> u16
    requires { shift < 16 }
    ensures { result ≡ shifted_input descending shift before word }
{
    let wide = if descending {
        ((word as u32) << 16 | before as u32) >> (16 - shift)
    } else {
        ((before as u32) << 16 | word as u32) >> shift
    };
    (wide & 0xffff) as u16
}
