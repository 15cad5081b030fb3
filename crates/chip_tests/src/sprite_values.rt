//! Values and colours of sprites, worked by hand.

use crate::answers::hold;
use sprites::{Runs, SpritePixel, front};

#[test]
fn words_run_for_sixteen_positions(rt: HostRuntime) {
    let mut runs = Runs::new();
    runs.start(3, 128, 0x8001, 0x0001);
    let found = [
        runs.value(3, 128),
        runs.value(3, 129),
        runs.value(3, 142),
        runs.value(3, 143),
        runs.value(3, 144),
    ];
    let other = runs.value(2, 128);
    runs.start(3, 130, 0x0000, 0x8000);
    is_shared(&runs);
    let again = [runs.value(3, 130), runs.value(3, 143)];
    hold(
        &rt,
        found == [1, 0, 0, 3, 0] && other == 0 && again == [2, 0],
    );
}

#[test]
fn the_sprite_in_front(rt: HostRuntime) {
    let mut right = front(&[0; 8], 0x0f).is_none();
    for (values, attached, pair, colour) in [
        ([3, 3, 0, 0, 0, 0, 0, 0], 0x01, 0, 31),
        ([3, 3, 0, 0, 0, 0, 0, 0], 0xfe, 0, 19),
        ([0, 2, 0, 0, 0, 0, 0, 0], 0x00, 0, 18),
        ([0, 0, 0, 1, 0, 0, 0, 0], 0x02, 1, 20),
        ([0, 0, 0, 1, 0, 0, 0, 0], 0x00, 1, 21),
        ([0, 0, 2, 0, 0, 0, 3, 3], 0x08, 1, 22),
        ([0, 0, 0, 0, 0, 0, 1, 3], 0x08, 3, 29),
    ] {
        right &= front(&values, attached) == Some(SpritePixel { pair, colour });
    }
    hold(&rt, right);
}

fn is_shared<T: Send + Sync>(_value: &T) {}
