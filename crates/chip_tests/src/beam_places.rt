//! Places of the beam at the ends of lines and fields, worked by hand.

use crate::answers::hold;
use beam::{advance, advance_in, at_field_start, at_line_start, start};
use ocs_base::{Beam, System};

fn place(frame: u32, v: u16, h: u16, lof: bool) -> Beam {
    Beam { frame, v, h, lof }
}

/// Whether the beam goes from a place to the next one, both given by frame, line, clock and LOF.
fn goes(lace: bool, system: System, before: Place, after: Place) -> bool {
    let mut beam = place(before.0, before.1, before.2, before.3);
    if 9 <= beam.frame {
        return false;
    }
    match system {
        System::Pal => advance(&mut beam, lace),
        System::Ntsc => advance_in(&mut beam, lace, system),
    }
    beam == place(after.0, after.1, after.2, after.3)
}

/// Frame, line, clock and LOF.
type Place = (u32, u16, u16, bool);

/// Whether the beam goes as each row says: LACE, a place and the next one.
fn goes_in_each_row(system: System, rows: &[(bool, Place, Place)]) -> bool {
    for (lace, before, after) in rows {
        if !goes(*lace, system, *before, *after) {
            return false;
        }
    }
    true
}

/// LACE, a place and the next one.
static NEXT_PLACES: [(bool, Place, Place); 10] = [
    (true, (0, 0, 0, true), (0, 0, 1, true)),
    (true, (0, 17, 225, false), (0, 17, 226, false)),
    (true, (2, 17, 226, false), (2, 18, 0, false)),
    (true, (2, 311, 226, true), (2, 312, 0, true)),
    (true, (2, 312, 226, true), (3, 0, 0, false)),
    (false, (2, 312, 226, true), (3, 0, 0, true)),
    (true, (2, 311, 226, false), (3, 0, 0, true)),
    (false, (2, 311, 226, false), (3, 0, 0, false)),
    (false, (4, 312, 100, false), (4, 312, 101, false)),
    (false, (4, 312, 226, false), (5, 0, 0, false)),
];

#[test]
fn next_places(rt: HostRuntime) {
    hold(&rt, goes_in_each_row(System::Pal, &NEXT_PLACES));
}

/// LACE, a place of NTSC and the next one.
static NEXT_PLACES_OF_NTSC: [(bool, Place, Place); 10] = [
    (true, (0, 0, 225, true), (0, 0, 226, true)),
    (true, (0, 0, 226, true), (0, 1, 0, true)),
    (true, (0, 1, 226, true), (0, 1, 227, true)),
    (true, (0, 1, 227, true), (0, 2, 0, true)),
    (true, (2, 261, 227, true), (2, 262, 0, true)),
    (true, (2, 262, 226, true), (3, 0, 0, false)),
    (false, (2, 262, 226, true), (3, 0, 0, true)),
    (true, (2, 261, 226, false), (2, 261, 227, false)),
    (true, (2, 261, 227, false), (3, 0, 0, true)),
    (false, (2, 261, 227, false), (3, 0, 0, false)),
];

#[test]
fn next_places_of_ntsc(rt: HostRuntime) {
    hold(&rt, goes_in_each_row(System::Ntsc, &NEXT_PLACES_OF_NTSC));
}

/// Whether a field with LACE begins after so many clocks, and is long or short.
fn comes_to_field(beam: &mut Beam, system: System, clocks: u32, lof: bool) -> bool {
    for _ in 0..clocks {
        if 9 <= beam.frame {
            return false;
        }
        match system {
            System::Pal => advance(beam, true),
            System::Ntsc => advance_in(beam, true, system),
        }
    }
    at_field_start(beam) && beam.lof == lof
}

/// A long field of NTSC has 132 lines of 227 clocks and 131 of 228; a short one lacks the last of 227.
#[test]
fn fields_of_ntsc(rt: HostRuntime) {
    let mut beam = start();
    let found = [
        comes_to_field(&mut beam, System::Ntsc, 59_832, false),
        comes_to_field(&mut beam, System::Ntsc, 59_605, true),
        comes_to_field(&mut beam, System::Ntsc, 59_832, false),
    ];
    hold(&rt, found == [true; 3] && beam.frame == 3);
}

/// Lines and clocks, of which those of the picture are told by their line.
static SHOWN: [(u16, u16); 7] = [
    (19, 47),
    (20, 47),
    (25, 47),
    (26, 47),
    (261, 226),
    (262, 226),
    (311, 226),
];

/// Whether a picture shows these lines, from clock 47 to clock 226.
fn shows_lines(system: System, first: u16, end: u16) -> bool {
    for (v, h) in &SHOWN {
        if system.shows(*v, *h) != (first <= *v && *v < end) {
            return false;
        }
    }
    !system.shows(100, 46)
        && system.shows(100, 47)
        && system.shows(101, 226)
        && !system.shows(101, 227)
}

#[test]
fn what_a_picture_shows(rt: HostRuntime) {
    let lines = [
        shows_lines(System::Pal, 26, 312),
        shows_lines(System::Ntsc, 20, 262),
    ];
    let bytes = [System::Pal.frame_bytes(), System::Ntsc.frame_bytes()];
    hold(&rt, lines == [true; 2] && bytes == [617_760, 522_720]);
}

#[test]
fn a_long_field_and_a_short_one(rt: HostRuntime) {
    let mut beam = start();
    let found = [
        comes_to_field(&mut beam, System::Pal, 71_051, false),
        comes_to_field(&mut beam, System::Pal, 70_824, true),
        comes_to_field(&mut beam, System::Pal, 71_051, false),
    ];
    hold(&rt, found == [true; 3] && beam.frame == 3);
}

/// Whether a line begins at this place, and whether a field does.
fn starts(v: u16, h: u16) -> (bool, bool) {
    let beam = place(7, v, h, true);
    (at_line_start(&beam), at_field_start(&beam))
}

#[test]
fn starts_of_lines_and_fields(rt: HostRuntime) {
    let found = [starts(0, 0), starts(0, 1), starts(1, 0), starts(312, 226)];
    let want = [(true, true), (false, false), (true, false), (false, false)];
    hold(&rt, found == want);
}
