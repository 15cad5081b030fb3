//! What the bits of a pixel keep of a held colour in hold-and-modify, and what they put into it.

ghost use Rattle.std.specs.Prelude.{◌≡◌, ◌<◌};
ghost use Rattle.painter.specs.code.Held.{kept_bytes, new_bytes};

/// By the bits of a pixel: the bytes of two pixels of the held colour that stay.
const KEPT: [u64; 64] = [
    0x0000_0000_0000_0000,
    0x0000_0000_0000_0000,
    0x0000_0000_0000_0000,
    0x0000_0000_0000_0000,
    0x0000_0000_0000_0000,
    0x0000_0000_0000_0000,
    0x0000_0000_0000_0000,
    0x0000_0000_0000_0000,
    0x0000_0000_0000_0000,
    0x0000_0000_0000_0000,
    0x0000_0000_0000_0000,
    0x0000_0000_0000_0000,
    0x0000_0000_0000_0000,
    0x0000_0000_0000_0000,
    0x0000_0000_0000_0000,
    0x0000_0000_0000_0000,
    0x0000_00ff_ff00_ffff,
    0x0000_00ff_ff00_ffff,
    0x0000_00ff_ff00_ffff,
    0x0000_00ff_ff00_ffff,
    0x0000_00ff_ff00_ffff,
    0x0000_00ff_ff00_ffff,
    0x0000_00ff_ff00_ffff,
    0x0000_00ff_ff00_ffff,
    0x0000_00ff_ff00_ffff,
    0x0000_00ff_ff00_ffff,
    0x0000_00ff_ff00_ffff,
    0x0000_00ff_ff00_ffff,
    0x0000_00ff_ff00_ffff,
    0x0000_00ff_ff00_ffff,
    0x0000_00ff_ff00_ffff,
    0x0000_00ff_ff00_ffff,
    0x0000_ffff_00ff_ff00,
    0x0000_ffff_00ff_ff00,
    0x0000_ffff_00ff_ff00,
    0x0000_ffff_00ff_ff00,
    0x0000_ffff_00ff_ff00,
    0x0000_ffff_00ff_ff00,
    0x0000_ffff_00ff_ff00,
    0x0000_ffff_00ff_ff00,
    0x0000_ffff_00ff_ff00,
    0x0000_ffff_00ff_ff00,
    0x0000_ffff_00ff_ff00,
    0x0000_ffff_00ff_ff00,
    0x0000_ffff_00ff_ff00,
    0x0000_ffff_00ff_ff00,
    0x0000_ffff_00ff_ff00,
    0x0000_ffff_00ff_ff00,
    0x0000_ff00_ffff_00ff,
    0x0000_ff00_ffff_00ff,
    0x0000_ff00_ffff_00ff,
    0x0000_ff00_ffff_00ff,
    0x0000_ff00_ffff_00ff,
    0x0000_ff00_ffff_00ff,
    0x0000_ff00_ffff_00ff,
    0x0000_ff00_ffff_00ff,
    0x0000_ff00_ffff_00ff,
    0x0000_ff00_ffff_00ff,
    0x0000_ff00_ffff_00ff,
    0x0000_ff00_ffff_00ff,
    0x0000_ff00_ffff_00ff,
    0x0000_ff00_ffff_00ff,
    0x0000_ff00_ffff_00ff,
    0x0000_ff00_ffff_00ff,
];

/// By the bits of a pixel: the new component, in the places of two pixels.
const NEW: [u64; 64] = [
    0x0000_0000_0000_0000,
    0x0000_0000_0000_0000,
    0x0000_0000_0000_0000,
    0x0000_0000_0000_0000,
    0x0000_0000_0000_0000,
    0x0000_0000_0000_0000,
    0x0000_0000_0000_0000,
    0x0000_0000_0000_0000,
    0x0000_0000_0000_0000,
    0x0000_0000_0000_0000,
    0x0000_0000_0000_0000,
    0x0000_0000_0000_0000,
    0x0000_0000_0000_0000,
    0x0000_0000_0000_0000,
    0x0000_0000_0000_0000,
    0x0000_0000_0000_0000,
    0x0000_0000_0000_0000,
    0x0000_1100_0011_0000,
    0x0000_2200_0022_0000,
    0x0000_3300_0033_0000,
    0x0000_4400_0044_0000,
    0x0000_5500_0055_0000,
    0x0000_6600_0066_0000,
    0x0000_7700_0077_0000,
    0x0000_8800_0088_0000,
    0x0000_9900_0099_0000,
    0x0000_aa00_00aa_0000,
    0x0000_bb00_00bb_0000,
    0x0000_cc00_00cc_0000,
    0x0000_dd00_00dd_0000,
    0x0000_ee00_00ee_0000,
    0x0000_ff00_00ff_0000,
    0x0000_0000_0000_0000,
    0x0000_0000_1100_0011,
    0x0000_0000_2200_0022,
    0x0000_0000_3300_0033,
    0x0000_0000_4400_0044,
    0x0000_0000_5500_0055,
    0x0000_0000_6600_0066,
    0x0000_0000_7700_0077,
    0x0000_0000_8800_0088,
    0x0000_0000_9900_0099,
    0x0000_0000_aa00_00aa,
    0x0000_0000_bb00_00bb,
    0x0000_0000_cc00_00cc,
    0x0000_0000_dd00_00dd,
    0x0000_0000_ee00_00ee,
    0x0000_0000_ff00_00ff,
    0x0000_0000_0000_0000,
    0x0000_0011_0000_1100,
    0x0000_0022_0000_2200,
    0x0000_0033_0000_3300,
    0x0000_0044_0000_4400,
    0x0000_0055_0000_5500,
    0x0000_0066_0000_6600,
    0x0000_0077_0000_7700,
    0x0000_0088_0000_8800,
    0x0000_0099_0000_9900,
    0x0000_00aa_0000_aa00,
    0x0000_00bb_0000_bb00,
    0x0000_00cc_0000_cc00,
    0x0000_00dd_0000_dd00,
    0x0000_00ee_0000_ee00,
    0x0000_00ff_0000_ff00,
];

/// The bytes of two pixels of the held colour that stay by the bits of a pixel: none where they name a
/// colour.
#[inline(always)]
pub fn kept_by_bits(bits: u8) -> u64
    requires { bits < 64 }
    ensures { result ≡ kept_bytes bits }
{
    KEPT[bits as usize]
}

/// The new component of two pixels by the bits of one: none where they name a colour.
#[inline(always)]
pub fn new_by_bits(bits: u8) -> u64
    requires { bits < 64 }
    ensures { result ≡ new_bytes bits }
{
    NEW[bits as usize]
}
