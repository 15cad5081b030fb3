//! The blitter's registers: those that a blit starts with, and those that it leaves.

ghost use Rattle.std.specs.Prelude.{◌≡◌};
ghost use Rattle.serial_model.specs.BlitRegisters.{blit_start, with_blit};

use blitter::BlitRegs;
use ocs_base::Reg;
use ocs_base::offset::{
    BLTADAT, BLTAFWM, BLTALWM, BLTAMOD, BLTAPTH, BLTAPTL, BLTBDAT, BLTBMOD, BLTBPTH, BLTCDAT,
    BLTCMOD, BLTCON0, BLTCON1, BLTCPTH, BLTDMOD, BLTDPTH, BLTSIZE,
};
use reg_file::Regs;

/// The registers with which a blit starts now.
pub fn blit_registers(regs: &Regs) -> BlitRegs
    ensures { result ≡ blit_start regs.now }
{
    BlitRegs {
        con0: regs.word(Reg::masked(BLTCON0)),
        con1: regs.word(Reg::masked(BLTCON1)),
        afwm: regs.word(Reg::masked(BLTAFWM)),
        alwm: regs.word(Reg::masked(BLTALWM)),
        size: regs.word(Reg::masked(BLTSIZE)),
        adat: regs.word(Reg::masked(BLTADAT)),
        bdat: regs.word(Reg::masked(BLTBDAT)),
        cdat: regs.word(Reg::masked(BLTCDAT)),
        amod: regs.word(Reg::masked(BLTAMOD)).cast_signed(),
        bmod: regs.word(Reg::masked(BLTBMOD)).cast_signed(),
        cmod: regs.word(Reg::masked(BLTCMOD)).cast_signed(),
        dmod: regs.word(Reg::masked(BLTDMOD)).cast_signed(),
        apt: regs.pointer(Reg::masked(BLTAPTH)),
        bpt: regs.pointer(Reg::masked(BLTBPTH)),
        cpt: regs.pointer(Reg::masked(BLTCPTH)),
        dpt: regs.pointer(Reg::masked(BLTDPTH)),
        aptl: regs.word(Reg::masked(BLTAPTL)),
    }
}

/// The pointers and data registers that a blit leaves are kept.
#[tactic(auto, unfolding(serial_model::specs::BlitRegisters::with_blit))]
pub fn keep_blit(regs: &mut Regs, end: &BlitRegs)
    ensures { regs.new ≡ with_blit end.now regs.old }
{
    regs.set_pointer(Reg::masked(BLTCPTH), end.cpt);
    regs.set_pointer(Reg::masked(BLTBPTH), end.bpt);
    regs.set_pointer(Reg::masked(BLTAPTH), end.apt);
    regs.set_pointer(Reg::masked(BLTDPTH), end.dpt);
    regs.set_word(Reg::masked(BLTAPTL), end.aptl);
    regs.set_word(Reg::masked(BLTCDAT), end.cdat);
    regs.set_word(Reg::masked(BLTBDAT), end.bdat);
    regs.set_word(Reg::masked(BLTADAT), end.adat);
}
