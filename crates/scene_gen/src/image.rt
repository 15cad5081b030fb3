//! The image of a scene: what chip memory holds when its run begins.

ghost use Rattle.std.specs.Prelude.{◌≡◌, ◌+◌, ◌-◌, ◌*◌, ◌++◌, ◌≤◌, length, replicate, IfOk, OnOk};
ghost use Rattle.scene_gen.specs.Blocks.{bytes_of, bytes_by};
ghost use Rattle.scene_gen.specs.Scene.{sprite_list, pattern_byte, scene_image};

use crate::copper_list::make_copper_list;
use crate::program::{LEVEL_3_HANDLER, LEVEL_3_VECTOR, MAIN_PROGRAM, START_VECTORS};
use ocs_base::OutOfMemory;
use std::alloc::Global;

/// How many lines sprite 0 has.
const SPRITE_LINES: u16 = 16;

/// The bitplanes stand from this address on, up to the image's end.
const PLANES_START: u16 = 0x4000;

const IMAGE_END: u16 = 0xc000;

/// The image, from address 0 on: zero but for the program, sprite 0, the Copper list and the bitplanes.
pub fn make_image(alloc: Global, n: u32) -> Result<Vec<u8>, OutOfMemory>
    ensures { IfOk result (λ image. image.items ≡ scene_image n) }
{
    let mut image = Vec::new(alloc);
    place(&mut image, 0x000, &START_VECTORS)?;
    place(&mut image, 0x06c, &LEVEL_3_VECTOR)?;
    place(&mut image, 0x100, &MAIN_PROGRAM)?;
    place(&mut image, 0x140, &LEVEL_3_HANDLER)?;
    place(&mut image, 0x300, &make_sprite_list(alloc, n)?)?;
    place(&mut image, 0x400, &make_copper_list(alloc, n)?)?;
    push_zeros(&mut image, PLANES_START as usize)?;
    push_planes(&mut image, n)?;
    Ok(image)
}

/// Zeros up to an address, and the words from there on.
fn place(image: &mut Vec<u8>, address: usize, words: &[u16]) -> Result<(), OutOfMemory>
    requires { length image.old.items ≤ address }
    ensures placed { OnOk result (image.new.items
        ≡ image.old.items ++ replicate (address - length image.old.items) 0 ++ bytes_of words.now) }
    ensures end { OnOk result (length image.new.items ≡ address + 2 * length words.now) }
{
    push_zeros(image, address)?;
    push_words(image, words)
}

/// Zeros up to an address.
fn push_zeros(image: &mut Vec<u8>, address: usize) -> Result<(), OutOfMemory>
    requires { length image.old.items ≤ address }
    ensures { OnOk result (image.new.items
        ≡ image.old.items ++ replicate (address - length image.old.items) 0) }
{
    for _ in image.len()..address {
        image.push(0)?;
    }
    Ok(())
}

/// Words, the high byte of each first.
fn push_words(image: &mut Vec<u8>, words: &[u16]) -> Result<(), OutOfMemory>
    ensures { OnOk result (image.new.items ≡ image.old.items ++ bytes_of words.now) }
{
    for word in words {
        image.extend_from_slice(&word.to_be_bytes())?;
    }
    Ok(())
}

/// The bitplanes: a pattern that the number chooses.
fn push_planes(image: &mut Vec<u8>, n: u32) -> Result<(), OutOfMemory>
    ensures { OnOk result (image.new.items
        ≡ image.old.items ++ bytes_by (pattern_byte n) 0x4000 0x8000) }
{
    for address in PLANES_START..IMAGE_END {
        image.push(pattern_byte_at(n, address))?;
    }
    Ok(())
}

/// The byte of the pattern at an address.
fn pattern_byte_at(n: u32, address: u16) -> u8
    ensures { result ≡ pattern_byte n address }
{
    let factor = 2 * u64::from(n) + 1;
    ((factor * u64::from(address) + u64::from(address / 256)) % 256) as u8
}

/// Sprite 0: 16 lines from line 60 on, at a place that the number chooses.
fn make_sprite_list(alloc: Global, n: u32) -> Result<Vec<u16>, OutOfMemory>
    ensures words { IfOk result (λ words. words.items ≡ sprite_list n) }
    ensures size { IfOk result (λ words. length words.items ≡ 36) }
{
    let mut words = Vec::new(alloc);
    words.extend_from_slice(&[0x3c40 + (n % 64) as u16, 0x4c00])?;
    for _ in 0..SPRITE_LINES {
        words.extend_from_slice(&[0xffff, 0x0f0f])?;
    }
    words.extend_from_slice(&[0, 0])?;
    Ok(words)
}
