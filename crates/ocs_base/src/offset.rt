//! Offsets of custom registers from DFF000 by their names (Hardware Reference Manual, register summary).

/// Joystick or mouse of port 0, for reading.
pub const JOY0DAT: u16 = 0x00a;

/// Collisions since the last read, which clears them.
pub const CLXDAT: u16 = 0x00e;

/// Which interrupts are enabled, for reading.
pub const INTENAR: u16 = 0x01c;

/// Which interrupts are requested, for reading.
pub const INTREQR: u16 = 0x01e;

/// Copper control.
pub const COPCON: u16 = 0x02e;

/// Blitter control.
pub const BLTCON0: u16 = 0x040;

/// Blitter control, line mode and fill among it.
pub const BLTCON1: u16 = 0x042;

/// Mask of the first word of a row, for source A.
pub const BLTAFWM: u16 = 0x044;

/// Mask of the last word of a row, for source A.
pub const BLTALWM: u16 = 0x046;

/// High word of the pointer of source C.
pub const BLTCPTH: u16 = 0x048;

/// High word of the pointer of source B.
pub const BLTBPTH: u16 = 0x04c;

/// High word of the pointer of source A.
pub const BLTAPTH: u16 = 0x050;

/// Low word of the pointer of source A.
pub const BLTAPTL: u16 = 0x052;

/// High word of the pointer of destination D.
pub const BLTDPTH: u16 = 0x054;

/// Low word of the pointer of destination D.
pub const BLTDPTL: u16 = 0x056;

/// Size of a blit; a write starts it.
pub const BLTSIZE: u16 = 0x058;

/// Modulo of source C.
pub const BLTCMOD: u16 = 0x060;

/// Modulo of source B.
pub const BLTBMOD: u16 = 0x062;

/// Modulo of source A.
pub const BLTAMOD: u16 = 0x064;

/// Modulo of destination D.
pub const BLTDMOD: u16 = 0x066;

/// Data of source C.
pub const BLTCDAT: u16 = 0x070;

/// Data of source B.
pub const BLTBDAT: u16 = 0x072;

/// Data of source A.
pub const BLTADAT: u16 = 0x074;

/// High word of the address of the first Copper list.
pub const COP1LCH: u16 = 0x080;

/// Low word of the address of the first Copper list.
pub const COP1LCL: u16 = 0x082;

/// High word of the address of the second Copper list.
pub const COP2LCH: u16 = 0x084;

/// A write starts the Copper at its first list.
pub const COPJMP1: u16 = 0x088;

/// Upper left corner of the display window.
pub const DIWSTRT: u16 = 0x08e;

/// Lower right corner of the display window.
pub const DIWSTOP: u16 = 0x090;

/// Where bitplane fetch starts on a line.
pub const DDFSTRT: u16 = 0x092;

/// Where bitplane fetch stops on a line.
pub const DDFSTOP: u16 = 0x094;

/// DMA control.
pub const DMACON: u16 = 0x096;

/// Collision control.
pub const CLXCON: u16 = 0x098;

/// Enables interrupts.
pub const INTENA: u16 = 0x09a;

/// High word of the pointer of bitplane 1.
pub const BPL1PTH: u16 = 0x0e0;

/// Bitplane control.
pub const BPLCON0: u16 = 0x100;

/// Bitplane control, the priorities.
pub const BPLCON2: u16 = 0x104;

/// Modulo of the odd bitplanes.
pub const BPL1MOD: u16 = 0x108;

/// Modulo of the even bitplanes.
pub const BPL2MOD: u16 = 0x10a;

/// High word of the pointer of sprite 0.
pub const SPR0PTH: u16 = 0x120;

/// Position of sprite 0; each sprite has eight bytes of registers.
pub const SPR0POS: u16 = 0x140;

/// Image word A of sprite 0.
pub const SPR0DATA: u16 = 0x144;

/// The background's colour.
pub const COLOR00: u16 = 0x180;

/// Colour 1.
pub const COLOR01: u16 = 0x182;

/// Colour 17, the first of sprites 0 and 1.
pub const COLOR17: u16 = 0x1a2;

/// Colour 18.
pub const COLOR18: u16 = 0x1a4;

/// Colour 19.
pub const COLOR19: u16 = 0x1a6;
