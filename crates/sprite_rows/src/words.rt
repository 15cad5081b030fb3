//! The values of a sprite's two words, by a table that spreads four bits over four bytes.

ghost use Rattle.std.specs.Prelude.{◌≡◌, ◌+◌, ◌*◌, ◌/◌, ◌%◌, ◌∷◌, [], flat_map};
ghost use Rattle.sprite_rows.specs.WordValues.{last_value, word_values};

/// Each bit of a number of four, the highest first, as a byte, the first of them the lowest.
const SPREAD: [u64; 16] = [
    0x0000_0000,
    0x0100_0000,
    0x0001_0000,
    0x0101_0000,
    0x0000_0100,
    0x0100_0100,
    0x0001_0100,
    0x0101_0100,
    0x0000_0001,
    0x0100_0001,
    0x0001_0001,
    0x0101_0001,
    0x0000_0101,
    0x0100_0101,
    0x0001_0101,
    0x0101_0101,
];

/// The values of the sixteen pixels, the first of bit 15: DATA gives the lower bit of each and DATB
/// the higher (Hardware Reference Manual, sprite hardware).
pub fn values_of_words(word_a: u16, word_b: u16) -> [[u8; 8]; 2]
    ensures { flat_map (λ eight. eight) result ≡ word_values word_a word_b }
{
    [
        eight_values(word_a / 0x100, word_b / 0x100),
        eight_values(word_a, word_b),
    ]
}

/// The values of the last eight bits.
fn eight_values(a: u16, b: u16) -> [u8; 8]
    ensures { result ≡ last_value 7 a b ∷ last_value 6 a b ∷ last_value 5 a b ∷ last_value 4 a b
        ∷ last_value 3 a b ∷ last_value 2 a b ∷ last_value 1 a b ∷ last_value 0 a b ∷ [] }
{
    let high = bits_as_bytes(a / 16) + 2 * bits_as_bytes(b / 16);
    let low = bits_as_bytes(a) + 2 * bits_as_bytes(b);
    (high + 0x1_0000_0000 * low).to_le_bytes()
}

/// The last four bits of a word, the highest first, each as a byte, the first of them the lowest.
#[inline(always)]
pub fn bits_as_bytes(word: u16) -> u64
    ensures { result ≡ word / 8 % 2 + 0x100 * (word / 4 % 2) + 0x1_0000 * (word / 2 % 2)
        + 0x100_0000 * (word % 2) }
{
    SPREAD[(word % 16) as usize]
}
