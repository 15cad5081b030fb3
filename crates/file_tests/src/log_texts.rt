//! Records and headings of logs of slots, worked by hand from the table of codes.

use crate::answers::hold;
use blit_words::SlotAsk;
use ocs_base::{Addr, Beam, Reg, System};
use serial_model::{Ask, Half, PlaneAsk, ProcessorAsk, SideAsk, SpriteAsk};
use slot_log::{put_heading, put_record};
use std::alloc::Global;

/// The records of the clocks 0 to 22 of line 300, hex 012c, where each word that is read is 6789: line, clock,
/// code, address or offset, and word.
const RECORDS: [[u8; 10]; 23] = [
    [1, 0x2c, 0, 0, 0, 0, 0, 0, 0, 0], // free
    [1, 0x2c, 1, 1, 0, 0, 0, 0, 0, 0], // refresh
    [1, 0x2c, 2, 3, 0, 0, 0x10, 0, 0x67, 0x89], // the Copper at 1000
    [1, 0x2c, 3, 1, 0, 0, 0, 0, 0, 0], // refresh
    [1, 0x2c, 4, 3, 0, 0, 0x10, 2, 0x67, 0x89], // the Copper at 1002
    [1, 0x2c, 5, 1, 0, 0, 0, 0, 0, 0], // refresh
    [1, 0x2c, 6, 33, 0, 2, 0, 0, 0x67, 0x89], // plane 1 at 20000
    [1, 0x2c, 7, 12, 0, 0, 0x30, 0, 0x44, 0x89], // the disk writes
    [1, 0x2c, 8, 38, 0, 2, 0, 2, 0x67, 0x89], // plane 6
    [1, 0x2c, 9, 18, 0, 4, 1, 0, 0x67, 0x89], // channel 2 at 40100
    [1, 0x2c, 10, 40, 0, 0, 0x50, 0, 0x67, 0x89], // the control words of sprite 0
    [1, 0x2c, 11, 48, 0, 0, 0x50, 2, 0x67, 0x89], //
    [1, 0x2c, 12, 63, 0, 0, 0x60, 0, 0x67, 0x89], // two words of the image of sprite 7
    [1, 0x2c, 13, 71, 0, 0, 0x60, 2, 0x67, 0x89], //
    [1, 0x2c, 14, 4, 0, 0, 0x70, 0, 0x67, 0x89], // a blit reads
    [1, 0x2c, 15, 5, 0, 0, 0x78, 0, 0x12, 0x34], // and writes
    [1, 0x2c, 16, 2, 0, 0, 0, 0, 0, 0], // and rests
    [1, 0x2c, 17, 6, 0, 0, 4, 0, 0x67, 0x89], // the processor reads 400
    [1, 0x2c, 18, 7, 0, 0, 5, 0, 0xab, 0xcd], // and writes 500
    [1, 0x2c, 19, 8, 0, 0, 5, 2, 0, 0x5a], // and the high byte of 502
    [1, 0x2c, 20, 9, 0, 0, 5, 2, 0, 0xa5], // and its low byte
    [1, 0x2c, 21, 10, 0, 0, 0, 0x1e, 0x67, 0x89], // and reads INTREQR
    [1, 0x2c, 22, 11, 0, 0, 1, 0x80, 0xf, 0xff], // and writes COLOR00
];

/// What the chips ask for at clocks 2 to 13 of that line.
fn chip_ask(h: u16) -> Ask {
    match h {
        2 => copper_ask(0x1000),
        4 => copper_ask(0x1002),
        6 => plane_ask(1, 0x2_0000),
        7 => side_ask(SideAsk::Disk {
            at: Addr::at(0x3000),
            word: 0x4489,
        }),
        8 => plane_ask(6, 0x2_0002),
        9 => side_ask(SideAsk::Audio {
            channel: 2,
            at: Addr::at(0x4_0100),
        }),
        10 => control_ask(false, 0x5000),
        11 => control_ask(true, 0x5002),
        12 => image_ask(false, 0x6000),
        13 => image_ask(true, 0x6002),
        _ => Ask::Free,
    }
}

fn copper_ask(at: u32) -> Ask {
    Ask::Copper { at: Addr::at(at) }
}

fn plane_ask(plane: u8, at: u32) -> Ask {
    let at = Addr::at(at);
    Ask::Plane {
        ask: PlaneAsk { plane, at },
    }
}

fn side_ask(ask: SideAsk) -> Ask {
    Ask::Side { ask }
}

fn control_ask(second: bool, at: u32) -> Ask {
    let at = Addr::at(at);
    Ask::Sprite {
        ask: SpriteAsk::Control {
            sprite: 0,
            second,
            at,
        },
    }
}

fn image_ask(second: bool, at: u32) -> Ask {
    let at = Addr::at(at);
    Ask::Sprite {
        ask: SpriteAsk::Words {
            sprite: 7,
            second,
            at,
        },
    }
}

/// What the blitter asks for at clocks 14 to 16.
fn blit_ask(h: u16) -> SlotAsk {
    match h {
        14 => SlotAsk::Read {
            at: Addr::at(0x7000),
        },
        15 => SlotAsk::Write {
            at: Addr::at(0x7800),
            word: 0x1234,
        },
        _ => SlotAsk::Rest,
    }
}

/// What the processor asks for at clocks 17 to 22.
fn processor_ask(h: u16) -> ProcessorAsk {
    match h {
        17 => ProcessorAsk::Read {
            at: Addr::at(0x400),
        },
        18 => write_ask(0x500, Half::Both, 0xabcd),
        19 => write_ask(0x502, Half::High, 0x5a),
        20 => write_ask(0x502, Half::Low, 0xa5),
        21 => ProcessorAsk::ReadRegister {
            reg: Reg::masked(0x1e),
        },
        _ => ProcessorAsk::WriteRegister {
            reg: Reg::masked(0x180),
            word: 0xfff,
        },
    }
}

fn write_ask(at: u32, half: Half, word: u16) -> ProcessorAsk {
    let at = Addr::at(at);
    ProcessorAsk::Write { at, half, word }
}

fn ask_at(h: u16) -> Ask {
    match h {
        14..=16 => Ask::Blit { ask: blit_ask(h) },
        17..=22 => Ask::Processor {
            ask: processor_ask(h),
        },
        _ => chip_ask(h),
    }
}

/// Whether the record of a clock of that line, put into an empty text, is the one of this place in the table.
fn has_record(h: u16, text: &mut Vec<u8>) -> bool {
    text.clear();
    let beam = Beam {
        frame: 5,
        v: 300,
        h,
        lof: true,
    };
    let is_put = h < 23 && put_record(&beam, &ask_at(h), 0x6789, text).is_ok();
    match RECORDS.get(usize::from(h)) {
        Some(record) => is_put && text.as_slice() == record.as_slice(),
        None => false,
    }
}

/// Whether those clocks have these records.
fn has_records(text: &mut Vec<u8>) -> bool {
    for h in 0..23 {
        if !has_record(h, text) {
            return false;
        }
    }
    true
}

#[test]
fn each_kind_of_record(rt: HostRuntime) {
    hold(&rt, has_records(&mut Vec::new(rt.alloc())));
}

/// Whether the headings of both systems are appended to an empty text.
fn puts_headings(text: &mut Vec<u8>) -> bool {
    let expected = b"ocs-slots 3 pal 3 10 524288 10\nocs-slots 3 ntsc 0 1 1048576 10\n";
    put_heading(System::Pal, 3, 10, 524_288, text).is_ok()
        && put_heading(System::Ntsc, 0, 1, 1_048_576, text).is_ok()
        && text.as_slice() == expected.as_slice()
}

/// The same with a text of its own.
fn has_headings(alloc: Global) -> bool {
    puts_headings(&mut Vec::new(alloc))
}

#[test]
fn both_headings(rt: HostRuntime) {
    hold(&rt, has_headings(rt.alloc()));
}
