//! The words of the program, with the assembler text of each instruction. Addresses are hexadecimal.

/// The processor starts by these: the supervisor stack at 2000, the first instruction at 100.
pub const START_VECTORS: [u16; 4] = [0x0000, 0x2000, 0x0000, 0x0100];

/// The handler of interrupts of level 3 stands at 140.
pub const LEVEL_3_VECTOR: [u16; 2] = [0x0000, 0x0140];

/// The main program.
pub const MAIN_PROGRAM: [u16; 9] = [
    0x33fc, 0xc020, 0x00df, 0xf09a, // MOVE.W #$C020,$DFF09A   INTENA: the vertical blank interrupts
    0x46fc, 0x2000, // MOVE.W #$2000,SR        every level interrupts
    0x4e72, 0x2000, // STOP #$2000             wait for the next one
    0x60fa, // BRA.S to the STOP
];

/// The handler of level 3.
pub const LEVEL_3_HANDLER: [u16; 16] = [
    0x3039, 0x00df, 0xf00e, // MOVE.W $DFF00E,D0       read CLXDAT, which clears it
    0x33fc, 0x0020, 0x00df, 0xf09c, // MOVE.W #$0020,$DFF09C   INTREQ: the request is served
    0x5279, 0x0000, 0x0200, // ADDQ.W #1,$0200         count the frames
    0x33f9, 0x0000, 0x0200, 0x00df, 0xf180, // MOVE.W $0200,$DFF180    COLOR00 is the count
    0x4e73, // RTE
];
