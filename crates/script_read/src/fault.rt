//! Why a text is no script.

use thiserror::Error;

/// What is wrong with a line. `Long`: the text is too long as a whole. `Lines`: a line past the
/// greatest number of lines. `Header`, `Cpu`, `Frames`: the first three lines. `Chip`: line 4 of versions 2
/// and 3. `System`: line 5 of version 3. `Event`: neither an event nor the end. `Order`: an event earlier
/// than the one before it. `Missing`: the text ends before its end line, or within its head. `Extra`: a
/// line after the end line.
#[derive(Clone, Copy, PartialEq, Eq, Debug)]
pub enum BadKind {
    Long,
    Lines,
    Header,
    Cpu,
    Frames,
    Chip,
    System,
    Event,
    Order,
    Missing,
    Extra,
}

impl BadKind {
    ghost use Rattle.std.specs.Prelude.{◌≡◌};
    ghost use Rattle.script_read.specs.KindName.{kind_name};

    /// Its name in lower case.
    pub fn name(self) -> &'static str
        ensures { result.now ≡ kind_name self }
    {
        match self {
            BadKind::Long => "long",
            BadKind::Lines => "lines",
            BadKind::Header => "header",
            BadKind::Cpu => "cpu",
            BadKind::Frames => "frames",
            BadKind::Chip => "chip",
            BadKind::System => "system",
            BadKind::Event => "event",
            BadKind::Order => "order",
            BadKind::Missing => "missing",
            BadKind::Extra => "extra",
        }
    }
}

/// Why a text was not read. `line` counts from 1; a text that is too long is bad at line 0.
#[derive(Clone, Copy, PartialEq, Eq, Debug, Error)]
pub enum ScriptFault {
    #[error("line {line}: {kind:?}")]
    Bad { line: u32, kind: BadKind },
    #[error("out of memory")]
    OutOfMemory,
}
