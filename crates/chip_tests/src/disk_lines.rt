//! A track that turns over some lines.

use crate::answers::hold;
use crate::bench::{DISK, Lines};
use disk_dma::Disk;
use ocs_base::Reg;
use serial_model::Side;
use std::alloc::Global;

/// Starts a transfer of two words to 100, behind the word 4489.
fn start_transfer(disk: &mut Disk) {
    for (reg, word) in &[
        (0x020, 0x0000),
        (0x022, 0x0100),
        (0x07e, 0x4489),
        (0x09e, 0x8400),
        (0x024, 0x8002),
        (0x024, 0x8002),
    ] {
        disk.poke(Reg::masked(*reg), *word);
    }
}

/// What the transfer does in three lines, where the track is 1111 4489 2222 3333.
static THREE_LINES: Lines = Lines {
    requests: &[(120, 0x1000), (462, 0x0002), (574, 0x1000)],
    asks: &[(234, 0x100, 0x2222), (461, 0x102, 0x3333)],
};

/// Whether the transfer does this.
fn is_transferred(disk: &mut Disk) -> bool {
    start_transfer(disk);
    THREE_LINES.are_met(disk, 3, DISK, 0)
}

/// The same, where there is memory for the track.
fn is_transferred_from_track(alloc: Global) -> bool {
    let track = [0x11, 0x11, 0x44, 0x89, 0x22, 0x22, 0x33, 0x33];
    match Disk::new(alloc, &track, 0x8_0000) {
        Ok(mut disk) => is_transferred(&mut disk),
        Err(_) => false,
    }
}

/// The word 4489 arrives at clock 120 of lines 0 and 2 and requests DSKSYN. The two words behind it are
/// stored in the slots of clock 7 of lines 1 and 2, and the tick behind the last requests DSKBLK.
#[test]
fn words_behind_the_sync_word_are_stored(rt: HostRuntime) {
    hold(&rt, is_transferred_from_track(rt.alloc()));
}
