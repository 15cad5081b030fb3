//! The classes of address modes.

ghost use Rattle.std.specs.Prelude.{◌≡◌};
ghost use Rattle.m68k_opcodes.specs.code.Parts.{admits, is_memory_alterable, is_control};

use crate::operand::Mode;

/// Which modes an operand may have (M68000 Programmer's Reference Manual, effective addressing categories).
#[derive(Clone, Copy)]
pub(crate) enum Class {
    All,
    /// All but An.
    Data,
    DataButImmediate,
    MemoryAlterable,
    DataAlterable,
    Alterable,
    Control,
    ControlOrPost,
    ControlAlterableOrPre,
}

impl Class {
    /// Whether a mode is of the class.
    pub(crate) fn admits(self, mode: Mode) -> bool
        ensures { result ≡ admits self mode }
    {
        match self {
            Class::All => true,
            Class::Data => !matches!(mode, Mode::An { .. }),
            Class::DataButImmediate => !matches!(mode, Mode::An { .. } | Mode::Imm),
            Class::MemoryAlterable => is_memory_alterable(mode),
            Class::DataAlterable => is_memory_alterable(mode) || matches!(mode, Mode::Dn { .. }),
            Class::Alterable => is_memory_alterable(mode)
                || matches!(mode, Mode::Dn { .. } | Mode::An { .. }),
            Class::Control => is_control(mode),
            Class::ControlOrPost => is_control(mode) || matches!(mode, Mode::Post { .. }),
            Class::ControlAlterableOrPre => is_memory_alterable(mode)
                && !matches!(mode, Mode::Post { .. }),
        }
    }
}

/// (An) and its steps, displacements and indices, and the absolute addresses.
fn is_memory_alterable(mode: Mode) -> bool
    ensures { result ≡ is_memory_alterable mode }
{
    matches!(
        mode,
        Mode::Ind { .. }
            | Mode::Post { .. }
            | Mode::Pre { .. }
            | Mode::Disp { .. }
            | Mode::Index { .. }
            | Mode::Short
            | Mode::Long
    )
}

/// The modes that name an address in memory and step no register.
fn is_control(mode: Mode) -> bool
    ensures { result ≡ is_control mode }
{
    matches!(
        mode,
        Mode::Ind { .. }
            | Mode::Disp { .. }
            | Mode::Index { .. }
            | Mode::Short
            | Mode::Long
            | Mode::PcDisp
            | Mode::PcIndex
    )
}
