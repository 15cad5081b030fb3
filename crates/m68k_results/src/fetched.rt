//! An opcode with its instruction, its row and its clocks.

ghost use Rattle.std.specs.Prelude.{◌≡◌, ◌≤◌, ◌<◌};
ghost use Rattle.m68k_opcodes.specs.Table.{decode_of, clocks_at};
ghost use Rattle.m68k_opcodes.specs.Clocks.{number};
ghost use Rattle.m68k_decode.specs.RowResults.{count_by};
ghost use Rattle.m68k_decode.specs.Rows.{general_row};
ghost use Rattle.m68k_results.specs.Plain.{is_plain, is_plain_op};

use crate::row_data::clock_count;
use m68k_decode::{
    Count, Dest, GeneralRow, Instr, Mode, Op, Size, Source, Traps, clocks, decode, general_row,
};

/// An opcode, decoded once.
#[derive(Clone, Copy)]
pub struct Fetched {
    /// The opcode as it was fetched.
    pub opcode: u16,
    /// The instruction that it decodes to.
    pub instr: Instr,
    /// What that instruction's row says.
    pub row: GeneralRow,
    /// The clocks of the row for a count of 0, and for one of 1.
    first: u32,
    second: u32,
    /// Whether the row is plain.
    plain: bool,
    pub ghost word: { opcode < 65536 },
    pub ghost known: { decode_of opcode ≡ instr },
    pub ghost made: { general_row instr ≡ row },
    ghost ready: { number (clocks_at opcode) 0 ≡ first },
    ghost next: { number (clocks_at opcode) 1 ≡ second },
    ghost simple: { is_plain row ≡ plain },
}

impl Fetched {
    /// The opcode with its instruction and its row.
    pub fn new(opcode: u16) -> Fetched
        ensures opcode { result.opcode ≡ opcode }
        ensures instr { result.instr ≡ decode_of opcode }
    {
        let instr = decode(opcode);
        let row = general_row(&instr);
        Fetched {
            opcode,
            instr,
            row,
            first: clocks(&instr, 0),
            second: clocks(&instr, 1),
            plain: is_plain(&row),
        }
    }

    /// Opcode 0, for what has none: ORI.B to D0.
    #[tactic(auto, unfolding(m68k_opcodes::specs::Table::decode_of, m68k_opcodes::specs::Table::clocks_at, m68k_decode::specs::Rows::general_row, crate::specs::Plain::is_plain, crate::specs::Plain::is_plain_with, crate::specs::Plain::is_plain_op))]
    pub fn none() -> Fetched
        ensures { result.opcode ≡ 0 }
    {
        let mode = Mode::Dn { reg: 0 };
        Fetched {
            opcode: 0,
            instr: Instr::Immediate {
                which: 0,
                o: 0,
                size: Size::Byte,
                mode,
            },
            row: GeneralRow {
                source: Source::Operand { mode: Mode::Imm },
                source_size: Size::Byte,
                dest: Dest::Operand { mode },
                size: Size::Byte,
                reads_old: true,
                writes: true,
                op: Op::Or,
                count: Count::Nothing,
                traps: Traps::Never,
            },
            first: 8,
            second: 8,
            plain: true,
        }
    }

    /// The clocks of the row, for a count or the place of an outcome, at most 63.
    pub fn row_clocks(&self, extra: u32) -> u32
        requires { extra ≤ 63 }
        ensures { result ≡ number (clocks_at self.now.opcode) extra }
    {
        if extra == 0 {
            return self.first;
        }
        if extra == 1 {
            return self.second;
        }
        clocks(&self.instr, extra)
    }

    /// The clocks of the row for a count of 0: all that it takes where it counts nothing.
    #[inline(always)]
    pub fn first_clocks(&self) -> u32
        ensures { result ≡ number (clocks_at self.now.opcode) 0 }
    {
        self.first
    }

    /// Whether its row is plain.
    #[inline(always)]
    pub fn is_plain(&self) -> bool
        ensures { result ≡ is_plain self.now.row }
    {
        self.plain
    }

    /// The clocks of the row, by what it counts in its source and the status register.
    #[inline(always)]
    #[tactic(auto, unfolding(m68k_decode::specs::RowResults::count_by))]
    pub fn counted_clocks(&self, value: u32, sr: u16) -> u32
        ensures { result
            ≡ number (clocks_at self.now.opcode) (count_by self.now.row.count value sr) }
    {
        match self.row.count {
            Count::Nothing => self.first,
            count => self.row_clocks(clock_count(count, value, sr)),
        }
    }
}

/// Whether the row is plain.
#[tactic(auto, unfolding(crate::specs::Plain::is_plain, crate::specs::Plain::is_plain_with))]
fn is_plain(row: &GeneralRow) -> bool
    ensures { result ≡ is_plain row.now }
{
    match row.count {
        Count::Nothing => match row.traps {
            Traps::Never => is_plain_op(row.op),
            Traps::ByZero | Traps::Outside => false,
        },
        Count::Ones | Count::Turns | Count::Shift | Count::Condition { .. } => false,
    }
}

/// Whether an operation is plain.
#[tactic(auto, unfolding(crate::specs::Plain::is_plain_op))]
fn is_plain_op(op: Op) -> bool
    ensures { result ≡ is_plain_op op }
{
    match op {
        Op::Or
        | Op::And
        | Op::Sub
        | Op::Add
        | Op::Eor
        | Op::Cmp
        | Op::Move
        | Op::MoveAddress
        | Op::Clr
        | Op::Tst
        | Op::AddAddress
        | Op::SubAddress
        | Op::CmpAddress
        | Op::Btst
        | Op::Not
        | Op::Neg
        | Op::Swap
        | Op::Ext => true,
        Op::ImmediateToStatus { .. }
        | Op::MoveToStatus { .. }
        | Op::Bchg
        | Op::Bclr
        | Op::Bset
        | Op::Negx
        | Op::MoveFromSr
        | Op::Nbcd
        | Op::Tas
        | Op::Chk
        | Op::Scc { .. }
        | Op::Addx
        | Op::Subx
        | Op::Abcd
        | Op::Sbcd
        | Op::Mulu
        | Op::Muls
        | Op::Divu
        | Op::Divs
        | Op::Asl
        | Op::Asr
        | Op::Lsl
        | Op::Lsr
        | Op::Roxl
        | Op::Roxr
        | Op::Rol
        | Op::Ror
        | Op::Other => false,
    }
}
