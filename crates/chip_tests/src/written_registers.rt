//! The registers that tests of fetches begin with.

use ocs_base::Reg;
use reg_file::Regs;

/// The registers after these writes.
pub fn registers(words: &[(u16, u16)]) -> Regs {
    let mut regs = Regs::reset();
    for (offset, word) in words {
        let _effect = regs.poke(Reg::masked(*offset), *word, false);
    }
    regs
}
