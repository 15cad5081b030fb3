//! The Copper list of a scene.

ghost use Rattle.std.specs.Prelude.{◌≡◌, ◌+◌, ◌*◌, ◌%◌, ◌++◌, ◌<◌, length, flat_map, IfOk, OnOk};
ghost use Rattle.std.specs.List.{range_with_len};
ghost use Rattle.scene_gen.specs.Scene.{move_to, wait_for, sprite_address, sprite_pointer, plane_pointer, colour_change, copper_list};

use ocs_base::OutOfMemory;
use ocs_base::offset::{BPL1PTH, COLOR01, SPR0PTH};
use std::alloc::Global;

/// The words of the Copper list: the pointers of the sprites and of the bitplanes, then a colour
/// each eight lines.
pub fn make_copper_list(alloc: Global, n: u32) -> Result<Vec<u16>, OutOfMemory>
    ensures words { IfOk result (λ list. list.items ≡ copper_list n) }
    ensures size { IfOk result (λ list. length list.items ≡ 114) }
{
    let mut list = Vec::new(alloc);
    push_sprite_pointers(&mut list)?;
    push_plane_pointers(&mut list)?;
    push_colour_changes(&mut list, n)?;
    list.extend_from_slice(&[0xffff, 0xfffe])?;
    Ok(list)
}

/// Sprite 0 is the one in memory; the others show nothing.
fn push_sprite_pointers(list: &mut Vec<u16>) -> Result<(), OutOfMemory>
    ensures { OnOk result (list.new.items
        ≡ list.old.items ++ flat_map sprite_pointer (range_with_len 0 8)) }
{
    for k in 0..8 {
        push_move(list, SPR0PTH + 4 * k, 0)?;
        push_move(list, SPR0PTH + 2 + 4 * k, address_of_sprite(k))?;
    }
    Ok(())
}

/// Where the words of sprite `k` begin.
fn address_of_sprite(k: u16) -> u16
    ensures { result ≡ sprite_address k }
{
    if k == 0 { 0x300 } else { 0x344 }
}

/// Four bitplanes of 2000 bytes each from 4000 on (hexadecimal).
fn push_plane_pointers(list: &mut Vec<u16>) -> Result<(), OutOfMemory>
    ensures { OnOk result (list.new.items
        ≡ list.old.items ++ flat_map plane_pointer (range_with_len 1 4)) }
{
    for p in 1..5 {
        push_move(list, BPL1PTH + 4 * (p - 1), 0)?;
        push_move(list, BPL1PTH + 2 + 4 * (p - 1), 0x2000 * (p + 1))?;
    }
    Ok(())
}

/// Sixteen colours from line 48 on.
fn push_colour_changes(list: &mut Vec<u16>, n: u32) -> Result<(), OutOfMemory>
    ensures { OnOk result (list.new.items
        ≡ list.old.items ++ flat_map (colour_change n) (range_with_len 0 16)) }
{
    for i in 0..16 {
        push_wait(list, 48 + 8 * i)?;
        push_move(list, COLOR01 + 2 * (i % 15), colour(n, i))?;
    }
    Ok(())
}

/// The colour of change `i`, twelve bits.
fn colour(n: u32, i: u16) -> u16
    ensures { result ≡ (37 * n + 291 * i) % 4096 }
{
    ((37 * u64::from(n) + 291 * u64::from(i)) % 4096) as u16
}

/// A MOVE: the Copper writes the word to the register.
fn push_move(list: &mut Vec<u16>, register: u16, word: u16) -> Result<(), OutOfMemory>
    ensures { OnOk result (list.new.items ≡ list.old.items ++ move_to register word) }
{
    list.extend_from_slice(&[register, word])?;
    Ok(())
}

/// A WAIT: the Copper waits for the begin of the line.
fn push_wait(list: &mut Vec<u16>, line: u16) -> Result<(), OutOfMemory>
    requires { line < 256 }
    ensures { OnOk result (list.new.items ≡ list.old.items ++ wait_for line) }
{
    list.extend_from_slice(&[256 * line + 1, 0xfffe])?;
    Ok(())
}
