//! The blit that the tests begin with.

ghost use Rattle.std.specs.Prelude.{◌≡◌};

use blitter::BlitRegs;
use ocs_base::Addr;

/// Registers of a blit of one word from A to D, with its pointers at 10, 20, 30 and 40.
pub fn one_word() -> BlitRegs
    ensures { result.con1 ≡ 0 }
{
    BlitRegs {
        con0: 0x09f0,
        con1: 0,
        afwm: 0xffff,
        alwm: 0xffff,
        size: 0x0041,
        adat: 0,
        bdat: 0,
        cdat: 0,
        amod: 0,
        bmod: 0,
        cmod: 0,
        dmod: 0,
        apt: Addr::at(0x10),
        bpt: Addr::at(0x20),
        cpt: Addr::at(0x30),
        dpt: Addr::at(0x40),
        aptl: 0x10,
    }
}
