//! What the lines of the trace begin with: the frame and the beam's line.

ghost use Rattle.std.specs.Prelude.{◌≡◌, ◌++◌, OnOk, OnErr, IfOk};
ghost use Rattle.out_files.specs.code.Lines.{start_text};

use ocs_base::{Beam, OutOfMemory};
use ocs_io::put_dec;
use std::alloc::Global;
use std::marker::Model;

/// The text of a frame and a line of the beam, kept from one line of the trace to the next: most that follow
/// are of the same.
#[derive(Drop)]
pub struct LineStart {
    frame: u32,
    v: u16,
    // empty where none is kept
    text: Vec<u8>,
}

impl Model for LineStart {
    ghost use Rattle.std.specs.Prelude.{◌≡◌, ◌<◌, length};
    ghost use Rattle.out_files.specs.code.Lines.{LineStartValue, start_text};

    ghost Value = { LineStartValue };

    ghost view = { λ s. record { frame = s.frame; v = s.v; text = s.text.items } };

    ghost invariant = { λ s. 0 < length s.text.items → s.text.items ≡ start_text s.frame s.v };
}

impl LineStart {
    /// None is kept.
    pub fn new(alloc: Global) -> LineStart {
        LineStart {
            frame: 0,
            v: 0,
            text: Vec::new(alloc),
        }
    }

    /// Appends the frame and the line of the beam, each with a space behind it. After a refusal `into` is as
    /// before.
    pub fn put(&mut self, beam: &Beam, into: &mut Vec<u8>) -> Result<(), OutOfMemory>
        ensures ok { OnOk result (into.new.items
            ≡ into.old.items ++ start_text beam.now.frame beam.now.v) }
        ensures refused { OnErr result (into.new.items ≡ into.old.items) }
    {
        if self.text.is_empty() || self.frame != beam.frame || self.v != beam.v {
            self.keep(beam)?;
        }
        into.extend_from_slice(&self.text)?;
        Ok(())
    }

    /// Makes the text anew.
    #[inline(never)]
    fn keep(&mut self, beam: &Beam) -> Result<(), OutOfMemory>
        ensures { OnOk result (self.new.text ≡ start_text beam.now.frame beam.now.v) }
    {
        self.text.clear();
        self.frame = beam.frame;
        self.v = beam.v;
        match put_start(&mut self.text, beam) {
            Ok(()) => Ok(()),
            Err(refused) => {
                self.text.clear();
                Err(refused)
            }
        }
    }
}

/// Appends it. After a refusal a part may have been appended.
fn put_start(into: &mut Vec<u8>, beam: &Beam) -> Result<(), OutOfMemory>
    ensures { OnOk result (into.new.items
        ≡ into.old.items ++ start_text beam.now.frame beam.now.v) }
{
    put_dec(beam.frame as u64, into)?;
    into.push(b' ')?;
    put_dec(beam.v as u64, into)?;
    into.push(b' ')?;
    Ok(())
}
