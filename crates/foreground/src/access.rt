//! The access of a colour clock: each owner of the slot has a way of its own.

ghost use Rattle.std.specs.Prelude.{◌≡◌, ◌+◌, ◌<◌, ◌^◌, true, false, IfOk, OnOk, OnErr};
ghost use Rattle.serial_model.specs.Bus.{reads_of_ask};
ghost use Rattle.chip_set.specs.AskLaws.{is_clx_ask as is_clx_asked};
ghost use Rattle.chip_set.specs.Bus.{is_fetch_ask as is_fetch_asked};
ghost use Rattle.chip_set.specs.Chips.{late_ask, ask_or_late, ask_of_late};
ghost use Rattle.chip_set.specs.declared.late.LateOwner.{LateOwner};
ghost use Rattle.band_log.specs.Raster.{RasterValue};
ghost use Rattle.foreground.specs.Access.{CanAccess, MakesAccessWith, IsWordAt};
ghost use Rattle.serial_bands.specs.Access.{access_state};
ghost use Rattle.foreground.specs.Fore.{over};
ghost use Rattle.machine.specs.Machine.{reads_more};
ghost use Rattle.foreground.specs.Steps.{MakesAskedAccess, AccessesPart, KeepsClock};

use crate::fore::Fore;
use band_log::Raster;
use chip_set::{LateOwner, is_clx_ask, is_fetch_ask};
use machine::touch_of;
use ocs_base::OutOfMemory;
use out_files::OutFiles;
use serial_model::{Ask, Side};

impl<S: Side> Fore<S> {
    /// Fifth step: the access, once the chips have asked. Who asks late has a way of its own.
    #[inline(always)]
    pub fn access<Q: Raster<S>>(
        &mut self,
        ask: Option<Ask>,
        raster: &mut Q,
        out: &mut OutFiles,
    ) -> Result<(), OutOfMemory>
        requires can { CanAccess
            (ask_or_late ask self.old.machine.beam self.old.machine.chips)
            (over S.seen self.old) (Q.seen raster.old) }
        requires room { self.old.machine.t + 1 < 2 ^ 64 }
        ensures { MakesAccessWith
            (ask_or_late ask self.old.machine.beam self.old.machine.chips)
            (over S.seen self.old) (over S.seen self.new)
            (Q.seen raster.old) (Q.seen raster.new) out.old out.new result }
    {
        match ask {
            Some(ask) => self.access_early(&ask, raster, out),
            None => self.access_late(raster, out),
        }
    }

    /// The access of a slot for which the side, a plane or a sprite asks.
    #[inline(never)]
    fn access_early<Q: Raster<S>>(
        &mut self,
        ask: &Ask,
        raster: &mut Q,
        out: &mut OutFiles,
    ) -> Result<(), OutOfMemory>
        requires can { CanAccess ask.now (over S.seen self.old) (Q.seen raster.old) }
        requires room { self.old.machine.t + 1 < 2 ^ 64 }
        ensures { MakesAccessWith ask.now (over S.seen self.old) (over S.seen self.new)
            (Q.seen raster.old) (Q.seen raster.new) out.old out.new result }
    {
        if is_fetch_ask(ask) {
            return self.make_fetch(ask, out);
        }
        self.access_by(ask, raster, out)
    }

    /// The same of a clock that is made alone, as at the start of a line, where whoever has the slot asks for
    /// this; and the word of a register that answers it. In line, so that no word is worked out where nobody
    /// takes it.
    #[inline(always)]
    pub(crate) fn access_with_word<Q: Raster<S>>(
        &mut self,
        ask: &Ask,
        raster: &mut Q,
        out: &mut OutFiles,
    ) -> Result<Option<u16>, OutOfMemory>
        requires can { CanAccess ask.now (over S.seen self.old) (Q.seen raster.old) }
        requires room { self.old.machine.t + 1 < 2 ^ 64 }
        ensures access { MakesAccessWith ask.now (over S.seen self.old) (over S.seen self.new)
            (Q.seen raster.old) (Q.seen raster.new) out.old out.new result }
        ensures word { IfOk result (λ word. IsWordAt word
            (access_state (over S.seen self.old).run self.old.machine.t)) }
    {
        if is_clx_ask(ask) {
            return self.read_clxdat_by(ask, raster, out);
        }
        if is_fetch_ask(ask) {
            self.make_fetch(ask, out)?;
            return Ok(None);
        }
        let word = self.machine.register_word(ask, 0);
        self.access_by(ask, raster, out)?;
        Ok(word)
    }

    /// The access of a slot for which neither the side nor a plane nor a sprite asks.
    #[inline(always)]
    fn access_late<Q: Raster<S>>(
        &mut self,
        raster: &mut Q,
        out: &mut OutFiles,
    ) -> Result<(), OutOfMemory>
        requires can { CanAccess
            (late_ask self.old.machine.beam self.old.machine.chips)
            (over S.seen self.old) (Q.seen raster.old) }
        requires room { self.old.machine.t + 1 < 2 ^ 64 }
        ensures { MakesAccessWith
            (late_ask self.old.machine.beam self.old.machine.chips)
            (over S.seen self.old) (over S.seen self.new)
            (Q.seen raster.old) (Q.seen raster.new) out.old out.new result }
    {
        match self.machine.chips.late_owner(&self.machine.beam) {
            LateOwner::Copper => self.access_for_copper(raster, out),
            LateOwner::Blitter => self.access_for_blitter(raster, out),
            LateOwner::Processor => self.access_for_processor(raster, out),
            LateOwner::Nobody => self.make_fetch(&Ask::Free, out),
        }
    }

    /// The Copper's.
    #[inline(always)]
    fn access_for_copper<Q: Raster<S>>(
        &mut self,
        raster: &mut Q,
        out: &mut OutFiles,
    ) -> Result<(), OutOfMemory>
        requires can { CanAccess
            (ask_of_late LateOwner.Copper self.old.machine.beam self.old.machine.chips)
            (over S.seen self.old) (Q.seen raster.old) }
        requires room { self.old.machine.t + 1 < 2 ^ 64 }
        ensures { MakesAccessWith
            (ask_of_late LateOwner.Copper self.old.machine.beam self.old.machine.chips)
            (over S.seen self.old) (over S.seen self.new)
            (Q.seen raster.old) (Q.seen raster.new) out.old out.new result }
    {
        match self.machine.chips.copper_wish(&self.machine.beam) {
            Some(at) => self.make_fetch(&Ask::Copper { at }, out),
            None => self.make_fetch(&Ask::Free, out),
        }
    }

    /// The blitter's.
    #[inline(always)]
    fn access_for_blitter<Q: Raster<S>>(
        &mut self,
        raster: &mut Q,
        out: &mut OutFiles,
    ) -> Result<(), OutOfMemory>
        requires can { CanAccess
            (ask_of_late LateOwner.Blitter self.old.machine.beam self.old.machine.chips)
            (over S.seen self.old) (Q.seen raster.old) }
        requires room { self.old.machine.t + 1 < 2 ^ 64 }
        ensures { MakesAccessWith
            (ask_of_late LateOwner.Blitter self.old.machine.beam self.old.machine.chips)
            (over S.seen self.old) (over S.seen self.new)
            (Q.seen raster.old) (Q.seen raster.new) out.old out.new result }
    {
        let ask = self.machine.chips.blit_ask();
        self.access_by(&ask, raster, out)
    }

    /// The processor's.
    #[inline(always)]
    fn access_for_processor<Q: Raster<S>>(
        &mut self,
        raster: &mut Q,
        out: &mut OutFiles,
    ) -> Result<(), OutOfMemory>
        requires can { CanAccess
            (ask_of_late LateOwner.Processor self.old.machine.beam self.old.machine.chips)
            (over S.seen self.old) (Q.seen raster.old) }
        requires room { self.old.machine.t + 1 < 2 ^ 64 }
        ensures { MakesAccessWith
            (ask_of_late LateOwner.Processor self.old.machine.beam self.old.machine.chips)
            (over S.seen self.old) (over S.seen self.new)
            (Q.seen raster.old) (Q.seen raster.new) out.old out.new result }
    {
        match self.machine.chips.processor_wish() {
            Some(ask) => self.access_by(&Ask::Processor { ask }, raster, out),
            None => self.access_by(&Ask::Free, raster, out),
        }
    }

    /// The access of an owner that asks for this, whoever it is: out of line, for those that
    /// seldom come. The owners of most clocks stand apart: what follows is then that of the one owner.
    #[inline(never)]
    pub fn access_by<Q: Raster<S>>(
        &mut self,
        ask: &Ask,
        raster: &mut Q,
        out: &mut OutFiles,
    ) -> Result<(), OutOfMemory>
        requires can { CanAccess ask.now (over S.seen self.old) (Q.seen raster.old) }
        requires room { self.old.machine.t + 1 < 2 ^ 64 }
        ensures { MakesAccessWith ask.now (over S.seen self.old) (over S.seen self.new)
            (Q.seen raster.old) (Q.seen raster.new) out.old out.new result }
    {
        if is_clx_ask(ask) {
            return self.access_clxdat(ask, raster, out);
        }
        self.make_access(ask, out)
    }

    /// The access of one owner.
    #[inline(always)]
    fn make_access(&mut self, ask: &Ask, out: &mut OutFiles) -> Result<(), OutOfMemory>
        requires can { (seen : RasterValue) × CanAccess ask.now (over S.seen self.old) seen }
        requires quiet { is_clx_asked ask.now ≡ false }
        requires room { self.old.machine.t + 1 < 2 ^ 64 }
        ensures makes { OnOk result ((seen : RasterValue) → MakesAskedAccess
            (over S.seen self.old) (over S.seen self.new) seen seen out.old out.new) }
        ensures part { OnErr result ((seen : RasterValue) → AccessesPart
            (over S.seen self.old) seen seen out.old out.new) }
        ensures kept { KeepsClock (over S.seen self.old) (over S.seen self.new) }
        ensures reads { self.new.machine.chip.reads ≡ reads_more
            (reads_of_ask ask.now) self.old.machine.chip.reads }
    {
        let made = self.machine.answer(ask, 0, out)?;
        let t = self.machine.t;
        self.log.note_access(t, &touch_of(&made))
    }

    /// The same of a plane, a sprite, the Copper or nobody, which takes less.
    #[inline(always)]
    fn make_fetch(&mut self, ask: &Ask, out: &mut OutFiles) -> Result<(), OutOfMemory>
        requires can { (seen : RasterValue) × CanAccess ask.now (over S.seen self.old) seen }
        requires fetch { is_fetch_asked ask.now ≡ true }
        requires room { self.old.machine.t + 1 < 2 ^ 64 }
        ensures makes { OnOk result ((seen : RasterValue) → MakesAskedAccess
            (over S.seen self.old) (over S.seen self.new) seen seen out.old out.new) }
        ensures part { OnErr result ((seen : RasterValue) → AccessesPart
            (over S.seen self.old) seen seen out.old out.new) }
        ensures kept { KeepsClock (over S.seen self.old) (over S.seen self.new) }
        ensures reads { self.new.machine.chip.reads ≡ reads_more
            (reads_of_ask ask.now) self.old.machine.chip.reads }
    {
        let made = self.machine.answer_fetch(ask, out)?;
        let t = self.machine.t;
        self.log.note_access(t, &touch_of(&made))
    }

    /// The access reads CLXDAT: it sees the pixels of this clock too.
    #[inline(never)]
    fn access_clxdat<Q: Raster<S>>(
        &mut self,
        ask: &Ask,
        raster: &mut Q,
        out: &mut OutFiles,
    ) -> Result<(), OutOfMemory>
        requires can { CanAccess ask.now (over S.seen self.old) (Q.seen raster.old) }
        requires read { is_clx_asked ask.now ≡ true }
        ensures { MakesAccessWith ask.now (over S.seen self.old) (over S.seen self.new)
            (Q.seen raster.old) (Q.seen raster.new) out.old out.new result }
    {
        self.read_clxdat_by(ask, raster, out)?;
        Ok(())
    }

    /// The same, and the word that it reads.
    fn read_clxdat_by<Q: Raster<S>>(
        &mut self,
        ask: &Ask,
        raster: &mut Q,
        out: &mut OutFiles,
    ) -> Result<Option<u16>, OutOfMemory>
        requires can { CanAccess ask.now (over S.seen self.old) (Q.seen raster.old) }
        requires read { is_clx_asked ask.now ≡ true }
        ensures access { MakesAccessWith ask.now (over S.seen self.old) (over S.seen self.new)
            (Q.seen raster.old) (Q.seen raster.new) out.old out.new result }
        ensures word { IfOk result (λ word. IsWordAt word
            (access_state (over S.seen self.old).run self.old.machine.t)) }
    {
        let clx = self.gather_clxdat(raster, true, out)?;
        let word = self.machine.register_word(ask, clx);
        self.machine.answer(ask, clx, out)?;
        Ok(word)
    }
}
