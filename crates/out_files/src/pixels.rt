//! Pixel bytes as text of the frames file.

ghost use Rattle.std.specs.Prelude.{◌≡◌, ◌+◌, ◌%◌, ◌<◌, ◌++◌, length, take, OnOk, OnErr, IfOk};
ghost use Rattle.ocs_base.specs.Systems.{frame_bytes};
ghost use Rattle.serial_model.specs.Outputs.{heading, heading_at, with_headings};

use ocs_base::{OutOfMemory, System};

/// The bytes of a clock's four pixels.
const CLOCK_BYTES: usize = 12;

/// Appends pixel bytes, with the heading before the first of each frame. `given` counts those of the
/// present frame; the answer counts them afterwards. After a refusal a part may have been appended.
/// The pixels of one clock within a frame go a short way.
pub fn put_pixels(
    text: &mut Vec<u8>,
    system: System,
    given: usize,
    piece: &[u8],
) -> Result<usize, OutOfMemory>
    requires { given < frame_bytes system }
    ensures text { OnOk result (text.new.items
        ≡ text.old.items ++ with_headings system given piece.now) }
    ensures given { IfOk result
        (λ after. after ≡ (given + length piece.now) % frame_bytes system) }
    ensures refused { OnErr result (take (length text.old.items) text.new.items ≡ text.old.items) }
{
    let frame = system.frame_bytes() as usize;
    if piece.len() == CLOCK_BYTES && 0 < given && given + CLOCK_BYTES < frame {
        text.extend_from_slice(piece)?;
        return Ok(given + CLOCK_BYTES);
    }
    put_in_parts(text, system, given, piece)
}

/// The same by parts, each of one frame.
fn put_in_parts(
    text: &mut Vec<u8>,
    system: System,
    given: usize,
    piece: &[u8],
) -> Result<usize, OutOfMemory>
    requires { given < frame_bytes system }
    ensures text { OnOk result (text.new.items
        ≡ text.old.items ++ with_headings system given piece.now) }
    ensures given { IfOk result
        (λ after. after ≡ (given + length piece.now) % frame_bytes system) }
    ensures refused { OnErr result (take (length text.old.items) text.new.items ≡ text.old.items) }
{
    let whole = system.frame_bytes() as usize;
    let mut given = given;
    let mut rest = piece;
    while !rest.is_empty() {
        let count = rest.len().min(whole - given);
        put_part(text, system, given, &rest[..count])?;
        given = (given + count) % whole;
        rest = &rest[count..];
    }
    Ok(given)
}

/// Appends pixel bytes of one frame, with the heading where they are its first.
fn put_part(
    text: &mut Vec<u8>,
    system: System,
    given: usize,
    part: &[u8],
) -> Result<(), OutOfMemory>
    requires { given < frame_bytes system }
    ensures text { OnOk result (text.new.items
        ≡ text.old.items ++ heading_at system given ++ part.now) }
    ensures refused { OnErr result (take (length text.old.items) text.new.items ≡ text.old.items) }
{
    if given == 0 {
        text.extend_from_slice(heading_text(system))?;
    }
    text.extend_from_slice(part)?;
    Ok(())
}

/// The heading of a frame, a binary portable pixmap.
#[tactic(auto, unfolding(serial_model::specs::Outputs::heading))]
fn heading_text(system: System) -> &'static [u8]
    ensures { result.now ≡ heading system }
{
    match system {
        System::Pal => b"P6\n720 286\n255\n",
        System::Ntsc => b"P6\n720 242\n255\n",
    }
}
