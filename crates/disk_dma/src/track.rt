//! The words of a track.

ghost use Rattle.std.specs.Prelude.{◌≡◌, ◌<◌, ◌/◌, length};
ghost use Rattle.disk_dma.specs.Track.{track_word, next_place as place_after};

/// The word at a place, its high byte first.
pub fn word_at(bytes: &[u8], place: usize) -> u16
    requires { place < length bytes.now / 2 }
    ensures { result ≡ track_word bytes.now place }
{
    256 * u16::from(bytes[2 * place]) + u16::from(bytes[2 * place + 1])
}

/// The place of the next word: after the last that of the first.
pub fn next_place(bytes: &[u8], place: usize) -> usize
    requires { place < length bytes.now / 2 }
    ensures next { result ≡ place_after bytes.now place }
    ensures within { result < length bytes.now / 2 }
{
    if place + 1 == bytes.len() / 2 {
        0
    } else {
        place + 1
    }
}
