//! Opcodes and clocks by the table of instructions, worked by hand.

use m68k_opcodes::{Instr, Mode, Size, clocks, decode, ea};

/// The row of an instruction.
fn row(i: &Instr) -> &'static str {
    match i {
        Instr::Immediate { .. } => "immediate",
        Instr::Cmpi { .. } => "cmpi",
        Instr::ImmediateToStatus { .. } => "immediate to status",
        Instr::BitDynamic { .. } => "bit dynamic",
        Instr::BitStatic { .. } => "bit static",
        Instr::Movep { .. } => "movep",
        Instr::Move { .. } => "move",
        Instr::Movea { .. } => "movea",
        Instr::Unary { .. } => "unary",
        Instr::MoveFromSr { .. } => "move from sr",
        Instr::MoveToStatus { .. } => "move to status",
        Instr::Nbcd { .. } => "nbcd",
        Instr::Swap { .. } => "swap",
        Instr::Pea { .. } => "pea",
        Instr::Ext { .. } => "ext",
        Instr::MovemToMemory { .. } => "movem to memory",
        Instr::MovemToRegisters { .. } => "movem to registers",
        Instr::Tst { .. } => "tst",
        Instr::Tas { .. } => "tas",
        Instr::Trap { .. } => "trap",
        Instr::LinkUnlk { .. } => "link unlk",
        Instr::MoveUsp { .. } => "move usp",
        Instr::ResetNopStopRte { .. } => "reset nop stop rte",
        Instr::RtsTrapvRtr { .. } => "rts trapv rtr",
        Instr::JsrJmp { .. } => "jsr jmp",
        i => upper_row(i),
    }
}

/// The row of an instruction that `row` has not.
fn upper_row(i: &Instr) -> &'static str {
    match i {
        Instr::Lea { .. } => "lea",
        Instr::Chk { .. } => "chk",
        Instr::Quick { .. } => "quick",
        Instr::Scc { .. } => "scc",
        Instr::Dbcc { .. } => "dbcc",
        Instr::Branch { .. } => "branch",
        Instr::Moveq { .. } => "moveq",
        Instr::OrAndToDn { .. } => "or and to dn",
        Instr::SubAddToDn { .. } => "sub add to dn",
        Instr::ToMemory { .. } => "to memory",
        Instr::Cmp { .. } => "cmp",
        Instr::Eor { .. } => "eor",
        Instr::Cmpm { .. } => "cmpm",
        Instr::SubaAdda { .. } => "suba adda",
        Instr::Cmpa { .. } => "cmpa",
        Instr::SubxAddx { .. } => "subx addx",
        Instr::SbcdAbcd { .. } => "sbcd abcd",
        Instr::Exg { .. } => "exg",
        Instr::MuluMuls { .. } => "mulu muls",
        Instr::DivuDivs { .. } => "divu divs",
        Instr::ShiftRegister { .. } => "shift register",
        Instr::ShiftMemory { .. } => "shift memory",
        Instr::LineA => "line a",
        Instr::LineF => "line f",
        _ => "illegal",
    }
}

/// Rows of `row` with opcodes at the edges of their classes.
static LOWER_ROWS: [(&str, &[u16]); 25] = [
    (
        "immediate",
        &[
            0x0000, 0x0079, 0x0080, 0x0239, 0x0410, 0x0658, 0x0a00, 0x0ab9,
        ],
    ),
    ("cmpi", &[0x0c00, 0x0c40, 0x0c80, 0x0cb9]),
    (
        "immediate to status",
        &[0x003c, 0x023c, 0x0a3c, 0x007c, 0x027c, 0x0a7c],
    ),
    (
        "bit dynamic",
        &[
            0x0100, 0x013a, 0x013c, 0x0140, 0x0180, 0x01c0, 0x01f9, 0x0fd0,
        ],
    ),
    (
        "bit static",
        &[0x0800, 0x083a, 0x083b, 0x0840, 0x0880, 0x08c0, 0x08f9],
    ),
    ("movep", &[0x0108, 0x014f, 0x0188, 0x0fcf]),
    (
        "move",
        &[
            0x1000, 0x103c, 0x13c0, 0x2008, 0x3009, 0x30bc, 0x23fc, 0x3f3c, 0x21c0,
        ],
    ),
    ("movea", &[0x3040, 0x2048, 0x2e7c, 0x307b]),
    (
        "unary",
        &[
            0x4000, 0x4040, 0x4080, 0x4200, 0x42b9, 0x4410, 0x4640, 0x46a0,
        ],
    ),
    ("move from sr", &[0x40c0, 0x40d0, 0x40f9]),
    ("move to status", &[0x44c0, 0x44fc, 0x46c0, 0x46fb, 0x46fc]),
    ("nbcd", &[0x4800, 0x4810, 0x4839]),
    ("swap", &[0x4840, 0x4847]),
    ("pea", &[0x4850, 0x4868, 0x4878, 0x487b]),
    ("ext", &[0x4880, 0x48c0, 0x48c7]),
    ("movem to memory", &[0x4890, 0x48a0, 0x48d0, 0x48e7, 0x48f9]),
    (
        "movem to registers",
        &[0x4c90, 0x4c98, 0x4cba, 0x4cdf, 0x4cfb],
    ),
    ("tst", &[0x4a00, 0x4a40, 0x4a80, 0x4ab9]),
    ("tas", &[0x4ac0, 0x4ad0, 0x4af9]),
    ("trap", &[0x4e40, 0x4e4f]),
    ("link unlk", &[0x4e50, 0x4e57, 0x4e58, 0x4e5f]),
    ("move usp", &[0x4e60, 0x4e67, 0x4e68, 0x4e6f]),
    ("reset nop stop rte", &[0x4e70, 0x4e71, 0x4e72, 0x4e73]),
    ("rts trapv rtr", &[0x4e75, 0x4e76, 0x4e77]),
    ("jsr jmp", &[0x4e90, 0x4eb9, 0x4ebb, 0x4ed0, 0x4ef8, 0x4efb]),
];

/// The same of the rows of `upper_row`.
static UPPER_ROWS: [(&str, &[u16]); 24] = [
    ("lea", &[0x41d0, 0x41e8, 0x41f8, 0x4ffb]),
    ("chk", &[0x4180, 0x41bc, 0x4fbb]),
    ("quick", &[0x5000, 0x5048, 0x5088, 0x5100, 0x5f9f]),
    ("scc", &[0x50c0, 0x57f9, 0x5fe0]),
    ("dbcc", &[0x50c8, 0x51c8, 0x5fcf]),
    ("branch", &[0x6000, 0x60fe, 0x6100, 0x6200, 0x6fff]),
    ("moveq", &[0x7000, 0x7eff]),
    ("or and to dn", &[0x8000, 0x803c, 0x80bb, 0xc000, 0xcebc]),
    ("sub add to dn", &[0x9000, 0x9048, 0xd088, 0xd03c]),
    (
        "to memory",
        &[0x8110, 0x8150, 0x81b9, 0x9150, 0xc118, 0xd1a0, 0xd138],
    ),
    ("cmp", &[0xb000, 0xb048, 0xb0bc]),
    ("eor", &[0xb100, 0xb150, 0xb1b9]),
    ("cmpm", &[0xb108, 0xb148, 0xb18f, 0xbf0f]),
    ("suba adda", &[0x90c0, 0x91c8, 0xd0fc, 0xdffc]),
    ("cmpa", &[0xb0c0, 0xb1c8, 0xbffc]),
    ("subx addx", &[0x9100, 0x9148, 0xd188, 0xdf8f]),
    ("sbcd abcd", &[0x8100, 0x8108, 0xc100, 0xcf0f]),
    ("exg", &[0xc140, 0xc148, 0xc188, 0xcf8f]),
    ("mulu muls", &[0xc0c0, 0xc0fc, 0xc1c0, 0xcffc]),
    ("divu divs", &[0x80c0, 0x80fc, 0x81c0, 0x8ffb]),
    (
        "shift register",
        &[0xe000, 0xe048, 0xe0b8, 0xe100, 0xe120, 0xefbf],
    ),
    ("shift memory", &[0xe0d0, 0xe1d0, 0xe6f9, 0xe7e0]),
    ("line a", &[0xa000, 0xa123, 0xafff]),
    ("line f", &[0xf000, 0xf200, 0xffff]),
];

/// Opcodes just outside: a mode that the row does not admit, a byte of An, a size 3, ILLEGAL itself.
static ILLEGAL: [u16; 102] = [
    0x0008, 0x003a, 0x00c0, 0x00fc, 0x02bc, 0x043c, 0x063c, 0x0c3c, 0x0c08, 0x0e00, 0x0ec0, 0x0a3d,
    0x017a, 0x017c, 0x083c, 0x0808, 0x087a, 0x1008, 0x1040, 0x103d, 0x15c0, 0x39c0, 0x3fc0, 0x4008,
    0x403a, 0x40c8, 0x40fa, 0x42c0, 0x44c8, 0x46c8, 0x4808, 0x483a, 0x4848, 0x4858, 0x4860, 0x487c,
    0x4888, 0x4898, 0x48ba, 0x4c80, 0x4ca0, 0x4cbc, 0x4c40, 0x4a08, 0x4a3a, 0x4a3c, 0x4ac8, 0x4afa,
    0x4afb, 0x4afc, 0x4e00, 0x4e3f, 0x4e74, 0x4e78, 0x4e7f, 0x4e80, 0x4e98, 0x4ebc, 0x4ec0, 0x4ee0,
    0x41c0, 0x41d8, 0x41fc, 0x4188, 0x4100, 0x4140, 0x5008, 0x503a, 0x503c, 0x50fa, 0x50fc, 0x7100,
    0x7fff, 0x8008, 0x8048, 0x80c8, 0x813a, 0x813c, 0x8140, 0x8148, 0x8180, 0x8188, 0x9008, 0x913a,
    0x913c, 0xd008, 0xd1bc, 0xb008, 0xb13a, 0xb13c, 0xc008, 0xc048, 0xc180, 0xc0c8, 0xc1c8, 0xc17c,
    0xe8d0, 0xe0c0, 0xe0c8, 0xe0fa, 0xe0fc, 0xefd0,
];

/// Whether all these opcodes are of a row.
fn are_of_row(name: &str, opcodes: &[u16]) -> bool {
    for opcode in opcodes {
        if row(&decode(*opcode)) != name {
            return false;
        }
    }
    true
}

/// Whether all opcodes of each row are of that row.
fn are_of_rows(rows: &[(&str, &[u16])]) -> bool {
    for (name, opcodes) in rows {
        if !are_of_row(name, opcodes) {
            return false;
        }
    }
    true
}

#[test]
fn opcodes_of_each_lower_row(rt: HostRuntime) {
    assert!(rt; are_of_rows(&LOWER_ROWS));
}

#[test]
fn opcodes_of_each_upper_row(rt: HostRuntime) {
    assert!(rt; are_of_rows(&UPPER_ROWS));
}

#[test]
fn opcodes_outside_every_row(rt: HostRuntime) {
    assert!(rt; are_of_row("illegal", &ILLEGAL));
}

/// Whether an opcode is EORI.L #,D0.
fn is_eori_long(opcode: u16) -> bool {
    matches!(
        decode(opcode),
        Instr::Immediate {
            which: 4,
            o: 5,
            size: Size::Long,
            mode: Mode::Dn { reg: 0 }
        }
    )
}

/// Whether an opcode is BSET D7,(A3).
fn is_bset_by_d7(opcode: u16) -> bool {
    matches!(
        decode(opcode),
        Instr::BitDynamic {
            which: 3,
            r: 7,
            t: 3,
            mode: Mode::Ind { reg: 3 }
        }
    )
}

/// Whether an opcode is MOVE.B D1,(xxx).L.
fn is_move_byte_of_d1(opcode: u16) -> bool {
    matches!(
        decode(opcode),
        Instr::Move {
            size: Size::Byte,
            dest: Mode::Long,
            mode: Mode::Dn { reg: 1 }
        }
    )
}

#[test]
fn fields_of_operands(rt: HostRuntime) {
    let found = [
        is_eori_long(0x0a80),
        is_bset_by_d7(0x0fd3),
        is_move_byte_of_d1(0x13c1),
    ];
    assert!(rt; found == [true; 3]);
}

/// Whether an opcode is SUBQ.W #8,A2.
fn is_subq_of_a2(opcode: u16) -> bool {
    matches!(
        decode(opcode),
        Instr::Quick {
            which: 1,
            q: 0,
            size: Size::Word,
            mode: Mode::An { reg: 2 }
        }
    )
}

/// Whether an opcode is BNE with the displacement FC.
fn is_bne(opcode: u16) -> bool {
    matches!(
        decode(opcode),
        Instr::Branch {
            which: 2,
            c: 6,
            d8: 0xfc
        }
    )
}

/// Whether an opcode is ROXR.L D3,D5.
fn is_roxr_by_d3(opcode: u16) -> bool {
    matches!(
        decode(opcode),
        Instr::ShiftRegister {
            c: 3,
            d: 0,
            size: Size::Long,
            i: 1,
            t: 2,
            r: 5
        }
    )
}

/// Whether an opcode is EXG D1,A2.
fn is_exg_of_d1(opcode: u16) -> bool {
    matches!(decode(opcode), Instr::Exg { x: 1, o: 17, y: 2 })
}

#[test]
fn fields_of_counts_and_conditions(rt: HostRuntime) {
    let found = [
        is_subq_of_a2(0x514a),
        is_bne(0x66fc),
        is_roxr_by_d3(0xe6b5),
        is_exg_of_d1(0xc38a),
    ];
    assert!(rt; found == [true; 4]);
}

/// Opcodes, what is counted or came out, and the clocks: one number at least for each row and each
/// of its outcomes.
static CLOCKS: [(u16, u8, u32); 179] = [
    (0x0000, 0, 8),
    (0x0240, 0, 8),
    (0x0480, 0, 16),
    (0x0610, 0, 16),
    (0x0ab9, 0, 36),
    (0x0c40, 0, 8),
    (0x0c80, 0, 14),
    (0x0c58, 0, 12),
    (0x0ca0, 0, 22),
    (0x003c, 0, 20),
    (0x027c, 0, 20),
    (0x0100, 0, 6),
    (0x0140, 0, 8),
    (0x0180, 0, 10),
    (0x01c0, 0, 8),
    (0x013c, 0, 8),
    (0x0110, 0, 8),
    (0x0150, 0, 12),
    (0x0190, 0, 12),
    (0x01e8, 0, 16),
    (0x0800, 0, 10),
    (0x0840, 0, 12),
    (0x0880, 0, 14),
    (0x08c0, 0, 12),
    (0x0810, 0, 12),
    (0x0850, 0, 16),
    (0x08a0, 0, 18),
    (0x08f8, 0, 20),
    (0x0108, 0, 16),
    (0x0148, 0, 24),
    (0x0188, 0, 16),
    (0x01c8, 0, 24),
    (0x3000, 0, 4),
    (0x2010, 0, 12),
    (0x3080, 0, 8),
    (0x2100, 0, 12),
    (0x23f9, 0, 36),
    (0x11b0, 0, 24),
    (0x3040, 0, 4),
    (0x207c, 0, 12),
    (0x4000, 0, 4),
    (0x4280, 0, 6),
    (0x4450, 0, 12),
    (0x4690, 0, 20),
    (0x40c0, 0, 6),
    (0x40d0, 0, 12),
    (0x44fc, 0, 16),
    (0x46c0, 0, 12),
    (0x4800, 0, 6),
    (0x4820, 0, 14),
    (0x4840, 0, 4),
    (0x4850, 0, 12),
    (0x4868, 0, 16),
    (0x4870, 0, 20),
    (0x4878, 0, 16),
    (0x4879, 0, 20),
    (0x487a, 0, 16),
    (0x487b, 0, 20),
    (0x4880, 0, 4),
    (0x48c0, 0, 4),
    (0x4890, 3, 20),
    (0x48a8, 3, 24),
    (0x48b0, 3, 26),
    (0x48b8, 3, 24),
    (0x48b9, 3, 28),
    (0x48a0, 3, 20),
    (0x48e7, 15, 128),
    (0x4c90, 2, 20),
    (0x4ca8, 2, 24),
    (0x4cb0, 2, 26),
    (0x4cb8, 2, 24),
    (0x4cb9, 2, 28),
    (0x4cba, 2, 24),
    (0x4cbb, 2, 26),
    (0x4c98, 2, 20),
    (0x4cdf, 15, 132),
    (0x4a00, 0, 4),
    (0x4a90, 0, 12),
    (0x4ac0, 0, 4),
    (0x4ad0, 0, 14),
    (0x4e50, 0, 16),
    (0x4e58, 0, 12),
    (0x4e60, 0, 4),
    (0x4e70, 0, 132),
    (0x4e71, 0, 4),
    (0x4e72, 0, 8),
    (0x4e73, 0, 20),
    (0x4e75, 0, 16),
    (0x4e76, 0, 4),
    (0x4e77, 0, 20),
    (0x4e90, 0, 16),
    (0x4ea8, 0, 18),
    (0x4eb0, 0, 22),
    (0x4eb8, 0, 18),
    (0x4eb9, 0, 20),
    (0x4eba, 0, 18),
    (0x4ebb, 0, 22),
    (0x4ed0, 0, 8),
    (0x4ee8, 0, 10),
    (0x4ef0, 0, 14),
    (0x4ef8, 0, 10),
    (0x4ef9, 0, 12),
    (0x4efa, 0, 10),
    (0x4efb, 0, 14),
    (0x41d0, 0, 4),
    (0x41e8, 0, 8),
    (0x41f0, 0, 12),
    (0x41f8, 0, 8),
    (0x41f9, 0, 12),
    (0x41fa, 0, 8),
    (0x41fb, 0, 12),
    (0x4180, 0, 10),
    (0x4190, 0, 14),
    (0x5000, 0, 4),
    (0x5180, 0, 8),
    (0x5048, 0, 8),
    (0x5188, 0, 8),
    (0x5050, 0, 12),
    (0x5190, 0, 20),
    (0x50c0, 0, 4),
    (0x50c0, 1, 6),
    (0x50d0, 0, 12),
    (0x51c8, 0, 12),
    (0x51c8, 1, 10),
    (0x51c8, 2, 14),
    (0x6000, 0, 10),
    (0x6100, 0, 18),
    (0x6600, 0, 10),
    (0x6602, 1, 8),
    (0x6600, 2, 12),
    (0x7000, 0, 4),
    (0x8050, 0, 8),
    (0xc090, 0, 14),
    (0x8080, 0, 8),
    (0xc0bc, 0, 16),
    (0x9040, 0, 4),
    (0xd090, 0, 14),
    (0x9088, 0, 8),
    (0xd0bc, 0, 16),
    (0x8110, 0, 12),
    (0xc150, 0, 12),
    (0x9190, 0, 20),
    (0xd190, 0, 20),
    (0xb050, 0, 8),
    (0xb080, 0, 6),
    (0xb100, 0, 4),
    (0xb180, 0, 8),
    (0xb150, 0, 12),
    (0xb190, 0, 20),
    (0xb148, 0, 12),
    (0xb188, 0, 20),
    (0x90d0, 0, 12),
    (0x91c0, 0, 8),
    (0xd1c8, 0, 8),
    (0xd1fc, 0, 16),
    (0xd1d0, 0, 14),
    (0xb0c0, 0, 6),
    (0xb1d0, 0, 14),
    (0x9100, 0, 4),
    (0xd180, 0, 8),
    (0x9148, 0, 18),
    (0xd188, 0, 30),
    (0x8100, 0, 6),
    (0xc108, 0, 18),
    (0xc140, 0, 6),
    (0xc148, 0, 6),
    (0xc188, 0, 6),
    (0xc0c0, 16, 70),
    (0xc1d0, 5, 52),
    (0x80c0, 0, 140),
    (0x81fc, 0, 162),
    (0xe148, 4, 14),
    (0xe188, 63, 134),
    (0xe0d0, 0, 12),
    (0xe7e0, 0, 14),
    (0x4afc, 0, 0),
    (0x4e40, 0, 0),
    (0xa000, 0, 0),
    (0xf000, 0, 0),
];

#[test]
fn clocks_of_opcodes(rt: HostRuntime) {
    let mut right = true;
    for (opcode, extra, want) in &CLOCKS {
        right &= clocks(&decode(*opcode), u32::from(*extra & 63)) == *want;
    }
    assert!(rt; right);
}

#[test]
fn clocks_of_modes(rt: HostRuntime) {
    let modes = &[
        (Mode::Dn { reg: 0 }, 0, 0),
        (Mode::An { reg: 0 }, 0, 0),
        (Mode::Ind { reg: 0 }, 4, 8),
        (Mode::Post { reg: 0 }, 4, 8),
        (Mode::Pre { reg: 0 }, 6, 10),
        (Mode::Disp { reg: 0 }, 8, 12),
        (Mode::Index { reg: 0 }, 10, 14),
        (Mode::Short, 8, 12),
        (Mode::Long, 12, 16),
        (Mode::PcDisp, 8, 12),
        (Mode::PcIndex, 10, 14),
        (Mode::Imm, 4, 8),
    ];
    let mut right = true;
    for (mode, short, long) in modes {
        right &= ea(mode, Size::Byte) == *short && ea(mode, Size::Word) == *short;
        right &= ea(mode, Size::Long) == *long;
    }
    assert!(rt; right);
}
