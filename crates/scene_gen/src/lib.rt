//! A scene from a number: an image of chip memory and a script, for a run that reads no files. The
//! scenes are this project's own. Each shows four bitplanes and a sprite, changes colours by a
//! Copper list, blits while the picture is shown, and runs a program that counts the frames in an
//! interrupt handler.
#![tactic(auto)]

mod copper_list;
mod image;
mod inputs;
mod program;

ghost use Rattle.std.specs.Prelude.{◌≡◌, true, length, IfOk};
ghost use Rattle.ocs_base.specs.Image.{is_image, fits_chip};
ghost use Rattle.ocs_base.specs.Limits.{IsRunnable};
ghost use Rattle.scene_gen.specs.Scene.{scene_image, scene_script};

use ocs_base::{OutOfMemory, Script};
use std::alloc::Global;

/// The scene of the number `n`, one of this project's own: its image, the first 49,152 bytes of
/// chip memory, and its script, 105 events in ten frames with the processor on and 512 KiB of chip
/// memory. The number chooses the pattern in the bitplanes, the colours, where the sprite stands,
/// and from where to where is blitted.
pub fn scene(alloc: Global, n: u32) -> Result<(Vec<u8>, Script), OutOfMemory>
    ensures image { IfOk result (λ made. made.0.items ≡ scene_image n) }
    ensures script { IfOk result (λ made. made.1 ≡ scene_script n) }
    ensures good { IfOk result (λ made. is_image made.0.items ≡ true) }
    ensures fits { IfOk result (λ made. fits_chip made.1.chip made.0.items ≡ true) }
    ensures runnable { IfOk result (λ made. IsRunnable made.1) }
    ensures events { IfOk result (λ made. length made.1.events ≡ 105) }
{
    let image = image::make_image(alloc, n)?;
    let script = inputs::make_script(alloc, n)?;
    Ok((image, script))
}
