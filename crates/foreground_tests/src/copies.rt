//! The state of the chips once more, and a raster that begins in the midst of a run.

use crate::answers::hold;
use band_draw::Direct;
use band_log::Raster;
use chip_set::Chips;
use ocs_base::offset::{DMACON, JOY0DAT};
use ocs_base::{Act, Beam, ChipSize, OutOfMemory, Reg};
use serial_model::NoSide;

fn mouse(word: u16) -> Act {
    Act::Joy { port: 0, word }
}

/// What happens to the chips afterwards does not happen to the copy.
#[test]
fn chips_are_copied(rt: HostRuntime) {
    let beam = Beam {
        frame: 0,
        v: 0,
        h: 0,
        lof: true,
    };
    let mut chips = Chips::reset(ChipSize::Kib512, true);
    chips.tell(&mouse(0x1234));
    chips.poke(Reg::masked(DMACON), 0x8240);
    let copy = chips.copied();
    chips.tell(&mouse(0x5678));
    chips.poke(Reg::masked(DMACON), 0x0040);
    let mice = [
        copy.peek(Reg::masked(JOY0DAT), &beam, 0),
        chips.peek(Reg::masked(JOY0DAT), &beam, 0),
    ];
    hold(
        &rt,
        mice == [0x1234, 0x5678] && [copy.dmacon(), chips.dmacon()] == [0x0240, 0x0200],
    );
}

#[test]
fn a_raster_begins_with_a_later_band(rt: HostRuntime) -> Result<(), OutOfMemory> {
    let raster = Direct::<NoSide>::starting(rt.alloc(), 3)?;
    hold(&rt, raster.outstanding() == 0);
    Ok(())
}
