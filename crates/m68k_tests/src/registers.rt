//! Registers by number.

use m68k_decode::CpuRegs;

#[test]
fn registers(rt: HostRuntime) {
    let mut regs = CpuRegs {
        d: [0, 1, 2, 3, 4, 5, 6, 7],
        a: [10, 11, 12, 13, 14, 15, 16],
        usp: 17,
        ssp: 18,
        pc: 0,
        sr: 0x2700,
    };
    regs.set_data(1, 21);
    regs.set_address(6, 26);
    regs.set_address(7, 28);
    let is_supervisor = regs.is_supervisor();
    let found = [regs.data(1), regs.address(6), regs.address(7)];
    regs.sr = 0;
    let as_user = [regs.address(7), regs.address(0)];
    assert!(rt; is_supervisor && found == [21, 26, 28] && as_user == [17, 10]);
}
