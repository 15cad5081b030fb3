//! CLXDAT of single pixels; the bits are worked by hand from the manual's table.

use crate::answers::hold;
use collisions::clx;

const NONE: [u8; 8] = [0; 8];

#[test]
fn playfields_alone(rt: HostRuntime) {
    let found = [
        clx(0, 0, &NONE),
        clx(0x0041, 0b00_0000, &NONE),
        clx(0x0041, 0b00_0001, &NONE),
        clx(0x0041, 0b00_0010, &NONE),
        clx(0x0fc0, 0b00_0000, &NONE),
        clx(0x0fc0, 0b10_0000, &NONE),
        clx(0x0fff, 0b11_1111, &NONE),
    ];
    hold(&rt, found == [1, 0, 1, 0, 1, 0, 1]);
}

#[test]
fn pairs(rt: HostRuntime) {
    let odd_of_pair_0 = [0, 2, 0, 0, 0, 0, 0, 0];
    let found = [
        clx(0x0041, 0, &odd_of_pair_0),
        clx(0x1041, 0, &odd_of_pair_0),
        clx(0xe041, 0, &odd_of_pair_0),
        clx(0, 0, &[1, 0, 0, 0, 3, 0, 0, 0]),
        clx(0xf000, 0, &[0, 1, 0, 1, 0, 1, 0, 1]),
    ];
    hold(&rt, found == [0x0000, 0x0020, 0x0000, 0x04ab, 0x7fff]);
}
