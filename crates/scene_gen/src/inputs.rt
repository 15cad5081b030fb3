//! The script of a scene: what is written to the registers and read from them, and when.

ghost use Rattle.std.specs.Prelude.{◌≡◌, ◌+◌, ◌*◌, ◌%◌, ◌++◌, ◌<◌, ◌∷◌, [], OnOk, IfOk};
ghost use Rattle.scene_gen.specs.Scene.{event, poke, peek, pokes_at, frame_pokes, blit_pokes, frame_events, scene_script};

use ocs_base::offset::{
    BLTAFWM, BLTALWM, BLTAPTH, BLTAPTL, BLTCON0, BLTDPTH, BLTDPTL, BLTSIZE, BPLCON0, BPLCON2,
    CLXCON, CLXDAT, COLOR00, COLOR17, COLOR18, COLOR19, COP1LCL, COPJMP1, DDFSTOP, DDFSTRT,
    DIWSTOP, DIWSTRT, DMACON,
};
use ocs_base::{Act, At, OutOfMemory, Reg, Script};
use std::alloc::Global;

/// How many frames a scene runs.
const FRAMES: u32 = 10;

/// Registers and the words that the run begins with: four bitplanes in the usual window, sprites in
/// front of them, the colours of sprite 0, the Copper's start at 400, and the DMA of bitplanes,
/// Copper, blitter and sprites.
const FIRST_POKES: [(u16, u16); 13] = [
    (DIWSTRT, 0x2c81),
    (DIWSTOP, 0xf4c1),
    (DDFSTRT, 0x0038),
    (DDFSTOP, 0x00d0),
    (BPLCON0, 0x4000),
    (BPLCON2, 0x0024),
    (CLXCON, 0x0041),
    (COLOR17, 0x0f00),
    (COLOR18, 0x00f0),
    (COLOR19, 0x000f),
    (COP1LCL, 0x0400),
    (COPJMP1, 0x0000),
    (DMACON, 0x83e0),
];

/// The script.
pub fn make_script(alloc: Global, n: u32) -> Result<Script, OutOfMemory>
    ensures { IfOk result (λ script. script ≡ scene_script n) }
{
    let mut script = Script::new(alloc, true, FRAMES);
    for frame in 0..FRAMES {
        push_frame(&mut script, n, frame)?;
    }
    Ok(script)
}

/// What happens in a frame.
fn push_frame(script: &mut Script, n: u32, frame: u32) -> Result<(), OutOfMemory>
    requires { frame < 10 }
    ensures { OnOk result (script.new
        ≡ record script.old { events = script.old.events ++ frame_events n frame }) }
{
    push_frame_pokes(script, n, frame)?;
    push_event(script, frame, 150, 0, make_peek(CLXDAT))?;
    let background = make_poke(COLOR00, colour(n, frame));
    push_event(script, frame, 200, 100 + frame as u16, background)
}

/// The background from line 200 of a frame on, twelve bits.
fn colour(n: u32, frame: u32) -> u16
    ensures { result ≡ (273 * frame + n) % 4096 }
{
    ((273 * u64::from(frame) + u64::from(n)) % 4096) as u16
}

/// The registers of the first frame, and a blit in each other frame.
fn push_frame_pokes(script: &mut Script, n: u32, frame: u32) -> Result<(), OutOfMemory>
    requires { frame < 10 }
    ensures { OnOk result (script.new
        ≡ record script.old { events = script.old.events ++ frame_pokes n frame }) }
{
    if frame == 0 {
        push_pokes(script, frame, 0, &FIRST_POKES)
    } else {
        push_pokes(script, frame, 100, &blit(n, frame))
    }
}

/// The registers of a blit: eight lines of 16 words from one place of the bitplanes to another.
fn blit(n: u32, frame: u32) -> [(u16, u16); 8]
    requires { frame < 10 }
    ensures { result ≡ blit_pokes n frame }
{
    let source = (u64::from(n) + 11 * u64::from(frame)) % 128;
    let target = (3 * u64::from(n) + 29 * u64::from(frame)) % 128;
    [
        (BLTCON0, 0x09f0),
        (BLTAFWM, 0xffff),
        (BLTALWM, 0xffff),
        (BLTAPTH, 0x0000),
        (BLTAPTL, 0x4000 + 256 * source as u16),
        (BLTDPTH, 0x0000),
        (BLTDPTL, 0x4000 + 256 * target as u16),
        (BLTSIZE, 0x0210),
    ]
}

/// Pokes of registers and words at the begin of a line.
fn push_pokes(
    script: &mut Script,
    frame: u32,
    v: u16,
    pokes: &[(u16, u16)],
) -> Result<(), OutOfMemory>
    ensures { OnOk result (script.new
        ≡ record script.old { events = script.old.events ++ pokes_at frame v pokes.now }) }
{
    for (register, word) in pokes {
        push_event(script, frame, v, 0, make_poke(*register, *word))?;
    }
    Ok(())
}

/// A poke of a word to the register of an offset.
fn make_poke(register: u16, word: u16) -> Act
    ensures { result ≡ poke register word }
{
    Act::Poke {
        reg: Reg::masked(register),
        word,
    }
}

/// A peek of the register of an offset.
fn make_peek(register: u16) -> Act
    ensures { result ≡ peek register }
{
    Act::Peek {
        reg: Reg::masked(register),
    }
}

/// An act at a place of the beam.
fn push_event(script: &mut Script, frame: u32, v: u16, h: u16, act: Act) -> Result<(), OutOfMemory>
    ensures { OnOk result (script.new
        ≡ record script.old { events = script.old.events ++ event frame v h act ∷ [] }) }
{
    script.push(At { frame, v, h, act })
}
