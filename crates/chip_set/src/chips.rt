//! The chips between two colour clocks: the custom registers, the fetches of bitplanes and sprites,
//! the Copper, the blitter, the interrupt words, the processor, the CIAs and the joysticks.

ghost use Rattle.std.specs.Prelude.{◌≡◌, false, Some, None, is_some};
ghost use Rattle.serial_model.specs.State.{Chips as ChipsOf};
ghost use Rattle.serial_model.specs.Registers.{is_interlaced as interlaced, is_danger as danger, blitter_first, blitter_dma, copper_dma, dmacon_of, effect_of, word_at};
ghost use Rattle.serial_model.specs.Bus.{copper_runs as runs, copper_wish as wish_of, copper_word as word_to_copper};
ghost use Rattle.serial_model.specs.Bus.{copper_after, blit_owner_ask, is_processor_ask, missed_after, ask_at, answer_blit};
ghost use Rattle.serial_model.specs.Made.{word_of};
ghost use Rattle.serial_model.specs.Side.{IsInTime};
ghost use Rattle.serial_model.specs.declared.bus.Ask.{Ask as AskOf};
ghost use Rattle.serial_model.specs.declared.bus.SideAsk.{SideAsk};
ghost use Rattle.serial_model.specs.Bus.{reads_of_blit, reads_of_processor};
ghost use Rattle.serial_model.specs.State.{read_word, live_words, zero_of};
ghost use Rattle.serial_model.specs.Write.{write_chips, carry_effect, restart_copper, start_blit as start_blit_of, write_interrupts as write_interrupts_of};
ghost use Rattle.serial_model.specs.Tick.{start_chips};
ghost use Rattle.serial_model.specs.Events.{tell_chips, with_joy, with_fire};
ghost use Rattle.cpu_bus.specs.Bus.{wish_shown};
ghost use Rattle.bus_slots.specs.Asks.{made_with};
ghost use Rattle.chip_set.specs.Chips.{IsChipsOf, HasAsked, HasAccessed, CanAsk, CanDo, plain_chips, kept_wish, ask_with, ask_or_late};
ghost use Rattle.chip_set.specs.Chips.{act_at, IsAnswer, IsRead, reads_by_chips, read_by, IsBlitAsk};
ghost use Rattle.chip_set.specs.Chips.{AnswersOwner, answering, GivesBlit, GivesProcessor, IsGoing, end_if_blit};

use crate::blit_registers::{blit_registers, keep_blit};
use beam::{at_field_start, at_line_start};
use bitplane_dma::{Fetcher, PlaneAsk};
use blitter::{Blit, SlotAsk};
use bus_slots::asks::{copper_word, made_by, plane_ask, processor_ask, slot_ask, sprite_ask};
use bus_slots::{Owner, SlotState, is_refresh, slot_owner};
use copper::Copper;
use cpu_bus::BusCpu;
use irq_cia::{Cia, Irq};
use mem_versions::Chip;
use ocs_base::offset::{
    BPLCON0, CLXDAT, COP1LCH, COP2LCH, COPCON, DMACON, INTENA, INTENAR, INTREQR,
};
use ocs_base::{Act, Addr, Beam, ChipSize, Reg};
use reg_file::{Effect, Live, Regs};
use serial_model::{Ask, CopperAct, Inputs, Made, ProcessorAsk, SideAsk, SpriteAsk};
use sprite_dma::SpriteDma;
use std::marker::Model;

/// The interrupts of vertical blanking and of a blit's end, as bits of INTREQ.
const VERTB: u16 = 0x20;

const BLIT: u16 = 0x40;

/// A bit of COPCON.
const CDANG: u16 = 0x2;

/// Bits of DMACON: DMAEN and COPEN, DMAEN and BLTEN, and BLTPRI.
const COPPER_DMA: u16 = 0x280;

const BLITTER_DMA: u16 = 0x240;

const BLTPRI: u16 = 0x400;

/// A bit of BPLCON0.
const LACE: u16 = 0x4;

/// The custom registers, the fetches of bitplanes and sprites, the Copper, the blit under way with
/// BZERO as the last one left it, the interrupt words, the processor with the clocks in a row at
/// which it missed the slot, the two CIAs and the joysticks.
#[derive(Drop)]
pub struct Chips {
    pub(crate) registers: Regs,
    pub(crate) fetcher: Fetcher,
    pub(crate) sprites: SpriteDma,
    pub(crate) copper: Copper,
    pub(crate) blit: Option<Blit>,
    zero: bool,
    pub(crate) irq: Irq,
    pub(crate) processor: BusCpu,
    pub(crate) missed: u8,
    pub(crate) cia_a: Cia,
    pub(crate) cia_b: Cia,
    pub(crate) inputs: Inputs,
}

impl Model for Chips {
    ghost use Rattle.chip_set.specs.Chips.{WorkingChips};

    ghost Value = { WorkingChips };

    ghost view = { λ c. record {
      registers = c.registers;
      last = c.fetcher;
      kinds = c.sprites;
      copper = c.copper;
      blit = c.blit;
      zero = c.zero;
      irq = c.irq;
      processor = c.processor;
      missed = c.missed;
      cia_a = c.cia_a;
      cia_b = c.cia_b;
      inputs = c.inputs;
    } };
}

impl Chips {
    ghost use Rattle.serial_model.specs.State.{reset_chips};

    /// The chips at reset with a chip memory of this size, and the processor started where `cpu` says so.
    pub fn reset(size: ChipSize, cpu: bool) -> Chips
        ensures { IsChipsOf result (reset_chips size cpu) }
    {
        Chips {
            registers: Regs::reset_in(size),
            fetcher: Fetcher::new(),
            sprites: SpriteDma::new(),
            copper: Copper::start(Addr::sized(size, 0)),
            blit: None,
            zero: true,
            irq: Irq::reset(),
            processor: BusCpu::reset(size, cpu),
            missed: 0,
            cia_a: Cia::reset(),
            cia_b: Cia::reset(),
            inputs: Inputs {
                joy0: 0,
                joy1: 0,
                fire0: false,
                fire1: false,
            },
        }
    }

    /// The same state once more.
    pub fn copied(&self) -> Chips
        ensures { result ≡ self.now }
    {
        Chips {
            registers: self.registers.copied(),
            fetcher: self.fetcher.copied(),
            sprites: self.sprites.copied(),
            copper: self.copper.copied(),
            blit: self.blit,
            zero: self.zero,
            irq: self.irq.copied(),
            processor: self.processor.copied(),
            missed: self.missed,
            cia_a: self.cia_a.copied(),
            cia_b: self.cia_b.copied(),
            inputs: self.inputs,
        }
    }

    /// The kept words of the custom registers.
    pub fn registers(&self) -> &Regs
        ensures { result.now ≡ self.now.registers }
    {
        &self.registers
    }

    /// The kept word of DMACON.
    #[inline(always)]
    pub fn dmacon(&self) -> u16
        ensures { result ≡ dmacon_of self.now.registers }
    {
        self.registers.word(Reg::masked(DMACON))
    }

    /// Whether LACE is set.
    pub fn is_interlaced(&self) -> bool
        ensures { result ≡ interlaced self.now.registers }
    {
        self.registers.word(Reg::masked(BPLCON0)) & LACE == LACE
    }

    /// At a field's first clock the Copper starts at COP1LC, the interrupt of vertical blanking is
    /// requested, and CIA A's time of day counts; at a line's first clock that of CIA B does.
    pub fn start(&mut self, beam: &Beam)
        ensures { (c : ChipsOf) → IsChipsOf self.old c
            → IsChipsOf self.new (start_chips beam.now c) }
    {
        if !at_line_start(beam) {
            return;
        }
        if at_field_start(beam) {
            self.restart(1);
            self.irq.request(VERTB);
            self.cia_a.count_tod();
        }
        self.cia_b.count_tod();
    }

    /// What an event of the script tells joysticks, fire buttons and the keyboard.
    pub fn tell(&mut self, act: &Act)
        ensures { (c : ChipsOf) → IsChipsOf self.old c
            → IsChipsOf self.new (tell_chips act.now c) }
    {
        match act {
            Act::Poke { .. } | Act::Peek { .. } => {}
            Act::Joy { port, word } => self.set_joystick(*port, *word),
            Act::Fire { port, down } => self.set_fire(*port, *down),
            Act::Key { code } => self.cia_a.key(*code),
        }
    }

    /// The word that JOY0DAT or JOY1DAT reads.
    fn set_joystick(&mut self, port: u8, word: u16)
        ensures { self.new ≡ record self.old { inputs = with_joy port word self.old.inputs } }
    {
        if port == 0 {
            self.inputs.joy0 = word;
        } else {
            self.inputs.joy1 = word;
        }
    }

    /// Whether the fire button of a port is down.
    fn set_fire(&mut self, port: u8, down: bool)
        ensures { self.new ≡ record self.old { inputs = with_fire port down self.old.inputs } }
    {
        if port == 0 {
            self.inputs.fire0 = down;
        } else {
            self.inputs.fire1 = down;
        }
    }

    /// A write to a custom register. The answer says what it does to others than the chips.
    #[tactic(auto, unfolding(serial_model::specs::Write::write_chips))]
    pub fn poke(&mut self, reg: Reg, word: u16) -> Effect
        ensures chips { (c : ChipsOf) → IsChipsOf self.old c
            → IsChipsOf self.new (write_chips reg.offset word c) }
        ensures effect { result ≡ effect_of (is_some self.old.blit) reg.offset word }
    {
        let busy = self.blit.is_some();
        let effect = self.registers.poke(reg, word, busy);
        self.follow(effect, reg, word);
        effect
    }

    /// What the effect of a write does to the chips beside the kept words.
    fn follow(&mut self, effect: Effect, reg: Reg, word: u16)
        ensures { (c : ChipsOf) → IsChipsOf self.old c
            → IsChipsOf self.new (carry_effect effect reg.offset word c) }
    {
        match effect {
            Effect::Jump { list } => self.restart(list),
            Effect::Blit => self.start_blit(),
            Effect::Interrupt => self.write_interrupts(reg, word),
            Effect::Kept | Effect::Nothing | Effect::Picture | Effect::Lof { .. } => {}
        }
    }

    /// A blit starts, by the registers as they are now.
    fn start_blit(&mut self)
        ensures { (c : ChipsOf) → IsChipsOf self.old c → IsChipsOf self.new (start_blit_of c) }
    {
        self.blit = Some(Blit::start(&blit_registers(&self.registers)));
    }

    /// A write to INTENA or INTREQ.
    fn write_interrupts(&mut self, reg: Reg, word: u16)
        ensures { (c : ChipsOf) → IsChipsOf self.old c
            → IsChipsOf self.new (write_interrupts_of reg.offset word c) }
    {
        if reg.offset == INTENA {
            self.irq.poke_ena(word);
        } else {
            self.irq.poke_req(word);
        }
    }

    /// What a read of a custom register gives, where these collision bits were gathered.
    #[tactic(auto, unfolding(serial_model::specs::State::read_word))]
    pub fn peek(&self, reg: Reg, beam: &Beam, clx: u16) -> u16
        ensures { (c : ChipsOf) → IsChipsOf self.now c
            → result ≡ read_word reg.offset beam.now clx c }
    {
        match reg.offset {
            CLXDAT => clx,
            INTENAR => self.irq.ena(),
            INTREQR => self.irq.req(),
            _ => self.kept_or_live(reg, beam),
        }
    }

    /// What a read gives of the registers that the register file knows.
    fn kept_or_live(&self, reg: Reg, beam: &Beam) -> u16
        ensures { (c : ChipsOf) → IsChipsOf self.now c
            → result ≡ word_at (live_words beam.now c) c.registers reg.offset }
    {
        let live = Live {
            beam: *beam,
            busy: self.blit.is_some(),
            zero: self.is_zero(),
            joy0: self.inputs.joy0,
            joy1: self.inputs.joy1,
        };
        self.registers.peek(reg, &live)
    }

    /// BZERO: of the blit under way, or as the last one left it.
    fn is_zero(&self) -> bool
        ensures { (c : ChipsOf) → IsChipsOf self.now c → result ≡ zero_of c.blit c.zero }
    {
        match &self.blit {
            Some(blit) => blit.zero(),
            None => self.zero,
        }
    }

    /// What the owner of this clock's slot asks for. `side` is what the side asks for: a disk asks
    /// at clocks 7, 9 and 11 of a line alone, and audio's channel c, 0 to 3, at clock 13 + 2c
    /// alone; the slot is its own where it asks. The fetches of bitplanes and sprites are done with
    /// it: where one has the slot, its pointer has moved. `answer` is to be called next, with
    /// nothing changed here in between.
    #[inline(always)]
    pub fn ask(&mut self, beam: &Beam, side: SideAsk) -> Ask
        requires time { IsInTime beam.now side }
        ensures ask { (c : ChipsOf) → IsChipsOf self.old c → result ≡ ask_at side beam.now c }
        ensures chips { (c : ChipsOf) → IsChipsOf self.old c → HasAsked beam.now c self.new }
        ensures able { CanAsk result }
        ensures wish { IsBlitAsk result (kept_wish self.new) }
    {
        let plane = self.fetcher.step(beam, &mut self.registers);
        let Some(wish) = plane else {
            let sprite = self.sprites.step(beam, &mut self.registers, false);
            return self.owner_ask(beam, side, None, sprite);
        };
        let sprite = self.sprites.step(beam, &mut self.registers, true);
        self.owner_ask(beam, side, Some(wish), sprite)
    }

    /// The same without a side, and of planes and sprites alone: None where none of them asks, and then the
    /// Copper, the blitter and the processor may (`late_owner`). So an owner has a way of its own through the
    /// clock, and no ask is put in memory.
    #[inline(always)]
    pub fn early_ask(&mut self, beam: &Beam) -> Option<Ask>
        ensures ask { (c : ChipsOf) → IsChipsOf self.old c
            → ask_or_late result beam.now self.new ≡ ask_at SideAsk.Nothing beam.now c }
        ensures chips { (c : ChipsOf) → IsChipsOf self.old c → HasAsked beam.now c self.new }
        ensures able { CanAsk (ask_or_late result beam.now self.new) }
        ensures wish { IsBlitAsk (ask_or_late result beam.now self.new) (kept_wish self.new) }
    {
        let plane = self.fetcher.step(beam, &mut self.registers);
        let Some(wish) = plane else {
            let sprite = self.sprites.step(beam, &mut self.registers, false);
            if sprite.is_none() {
                return None;
            }
            return Some(self.chips_ask(beam, None, sprite));
        };
        let sprite = self.sprites.step(beam, &mut self.registers, true);
        Some(self.chips_ask(beam, Some(wish), sprite))
    }

    /// The access of this clock, by what `ask` said of it: the owner of the slot has its word, and
    /// each chip its answer. The answer is what the access makes: a write by Copper or processor,
    /// or of a sprite's control word, a word that is stored, a word for a plane's latch or a
    /// sprite's image, a read of CLXDAT, or nothing. The words for planes and images and those of
    /// samples are not read here. `clx` has the collision bits gathered up to now; only a read of
    /// CLXDAT looks at them.
    ///
    /// The owners of most clocks stand apart: what follows is then that of the one owner, and no
    /// ask is put in memory.
    #[inline(always)]
    pub fn answer(&mut self, ask: &Ask, beam: &Beam, clx: u16, chip: &mut Chip) -> Made
        requires able { CanAsk ask.now }
        requires wish { IsBlitAsk ask.now (kept_wish self.old) }
        ensures access { (side : SideAsk) (c : ChipsOf) → IsInTime beam.now side
            → HasAsked beam.now c self.old → ask.now ≡ ask_at side beam.now c
            → HasAccessed side beam.now clx c chip.old.words result self.new }
        ensures able { CanDo result }
        ensures reads { chip.new ≡ read_by (reads_by_chips ask.now) chip.old }
    {
        match *ask {
            Ask::Free => self.answer_with(&Ask::Free, beam, 0),
            Ask::Plane { ask } => self.answer_with(&Ask::Plane { ask }, beam, 0),
            Ask::Copper { at } => {
                let word = read_memory(at, chip);
                self.answer_with(&Ask::Copper { at }, beam, word)
            }
            Ask::Blit { ask } => {
                let word = read_for_blit(&ask, chip);
                self.answer_with(&Ask::Blit { ask }, beam, word)
            }
            Ask::Processor { ask } => {
                let word = self.read(&ask, beam, clx, chip);
                self.answer_with(&Ask::Processor { ask }, beam, word)
            }
            other => self.answer_any(other, beam, clx, chip),
        }
    }

    /// The same, whoever owns the slot.
    #[inline(never)]
    fn answer_any(&mut self, ask: Ask, beam: &Beam, clx: u16, chip: &mut Chip) -> Made
        requires able { CanAsk ask }
        requires wish { IsBlitAsk ask (kept_wish self.old) }
        ensures access { (side : SideAsk) (c : ChipsOf) → IsInTime beam.now side
            → HasAsked beam.now c self.old → ask ≡ ask_at side beam.now c
            → HasAccessed side beam.now clx c chip.old.words result self.new }
        ensures able { CanDo result }
        ensures reads { chip.new ≡ read_by (reads_by_chips ask) chip.old }
    {
        let word = self.fetch(&ask, beam, clx, chip);
        self.answer_with(&ask, beam, word)
    }

    /// The owner of the slot has this word, and each chip its answer. The answer is what the access makes.
    #[inline(always)]
    fn answer_with(&mut self, ask: &Ask, beam: &Beam, word: u16) -> Made
        requires { IsBlitAsk ask.now (kept_wish self.old) }
        ensures owner { AnswersOwner ask.now word
            (answering beam.now ask.now word self.old) self.new }
        ensures made { result
            ≡ made_with ask.now word (act_at beam.now ask.now word (plain_chips self.old)) }
    {
        let act = self.step_copper(beam, ask, word);
        self.count_missed(ask);
        self.answer_owner(ask, word);
        made_by(ask, word, &act)
    }

    /// What the owner of the slot asks for, where the side, planes and sprites ask for this: in its
    /// time a side has the slot for which it asks.
    #[inline(always)]
    fn owner_ask(
        &self,
        beam: &Beam,
        side: SideAsk,
        plane: Option<PlaneAsk>,
        sprite: Option<SpriteAsk>,
    ) -> Ask
        requires { IsInTime beam.now side }
        ensures { result ≡ ask_with side beam.now plane sprite (kept_wish self.now)
            (wish_shown self.now.processor) (plain_chips self.now) }
    {
        match side {
            SideAsk::Nothing => self.chips_ask(beam, plane, sprite),
            SideAsk::Disk { at, word } => Ask::Side {
                ask: SideAsk::Disk { at, word },
            },
            SideAsk::Audio { channel, at } => Ask::Side {
                ask: SideAsk::Audio { channel, at },
            },
        }
    }

    /// What the owner of a slot asks for, for which the side does not ask, where planes and sprites
    /// ask for this.
    #[inline(always)]
    #[tactic(auto, unfolding(crate::specs::Chips::ask_with, serial_model::specs::Owner::owner_of))]
    fn chips_ask(&self, beam: &Beam, plane: Option<PlaneAsk>, sprite: Option<SpriteAsk>) -> Ask
        ensures { result ≡ ask_with SideAsk.Nothing beam.now plane sprite (kept_wish self.now)
            (wish_shown self.now.processor) (plain_chips self.now) }
    {
        if plane.is_none() && sprite.is_none() {
            return self.late_ask(beam);
        }
        if is_refresh(beam.h) {
            Ask::Free
        } else if plane.is_some() {
            plane_ask(plane)
        } else {
            sprite_ask(sprite)
        }
    }

    /// What the owner of a slot asks for in which neither the side nor a plane nor a sprite asks.
    #[inline(always)]
    #[tactic(auto, unfolding(crate::specs::Chips::ask_with, serial_model::specs::Owner::owner_of))]
    pub fn late_ask(&self, beam: &Beam) -> Ask
        ensures { result ≡ ask_with SideAsk.Nothing beam.now None None (kept_wish self.now)
            (wish_shown self.now.processor) (plain_chips self.now) }
    {
        if let Some(at) = self.copper_wish(beam) {
            return if is_refresh(beam.h) {
                Ask::Free
            } else {
                Ask::Copper { at }
            };
        }
        let processor = self.processor.wish();
        if processor.is_none() && !self.has_blitter_wish() {
            return Ask::Free;
        }
        self.last_ask(beam, processor)
    }

    /// What the owner of a slot asks for which none of those before the blitter asks for, where the
    /// processor asks for this.
    #[inline(always)]
    #[tactic(auto, unfolding(crate::specs::Chips::ask_with))]
    fn last_ask(&self, beam: &Beam, processor: Option<ProcessorAsk>) -> Ask
        requires { wish_of beam.now (plain_chips self.now) ≡ None }
        ensures { result ≡ ask_with SideAsk.Nothing beam.now None None (kept_wish self.now)
            processor (plain_chips self.now) }
    {
        let slot = SlotState {
            h: beam.h,
            disk: false,
            audio: None,
            plane: None,
            sprite: None,
            copper: false,
            blitter: self.has_blitter_wish(),
            processor: processor.is_some(),
            missed: self.missed,
            nasty: self.is_nasty(),
        };
        match slot_owner(&slot) {
            Owner::Blitter => self.blit_ask(),
            Owner::Processor => processor_ask(processor),
            _ => Ask::Free,
        }
    }

    /// The word that answers the access of this clock; 0 where nothing is read, or no chip looks at the word.
    fn fetch(&self, ask: &Ask, beam: &Beam, clx: u16, chip: &mut Chip) -> u16
        ensures word { IsAnswer ask.now beam.now clx self.now chip.old.words result }
        ensures reads { chip.new ≡ read_by (reads_by_chips ask.now) chip.old }
    {
        match ask {
            Ask::Copper { at }
            | Ask::Sprite {
                ask: SpriteAsk::Control { at, .. },
            } => chip.read(*at),
            Ask::Blit { ask } => read_for_blit(ask, chip),
            Ask::Processor { ask } => self.read(ask, beam, clx, chip),
            Ask::Free | Ask::Side { .. } | Ask::Plane { .. } | Ask::Sprite { .. } => 0,
        }
    }

    /// The word that answers the processor.
    #[inline(always)]
    fn read(&self, ask: &ProcessorAsk, beam: &Beam, clx: u16, chip: &mut Chip) -> u16
        ensures word { IsRead ask.now beam.now clx self.now chip.old.words result }
        ensures reads { chip.new ≡ read_by (reads_of_processor ask.now) chip.old }
    {
        match ask {
            ProcessorAsk::Read { at } => chip.read(*at),
            ProcessorAsk::ReadRegister { reg } => self.peek(*reg, beam, clx),
            ProcessorAsk::Write { .. } | ProcessorAsk::WriteRegister { .. } => 0,
        }
    }

    /// The processor asked and another has the slot, once more in a row; or it has the slot, or did not ask.
    #[inline(always)]
    pub(crate) fn count_missed(&mut self, ask: &Ask)
        ensures { self.new ≡ record self.old {
          missed = missed_after (wish_shown self.old.processor) ask.now self.old.missed;
        } }
    {
        self.missed = match ask {
            Ask::Processor { .. } => 0,
            _ => self.missed_beside_another(),
        };
    }

    /// How many slots in a row the processor will have missed where another has this one.
    #[inline(always)]
    pub(crate) fn missed_beside_another(&self) -> u8
        ensures { (ask : AskOf) → is_processor_ask ask ≡ false
            → result ≡ missed_after (wish_shown self.now.processor) ask self.now.missed }
    {
        if self.processor.wish().is_none() {
            0
        } else {
            self.missed.saturating_add(1).min(3)
        }
    }

    /// Whether the blitter asks for the slot: a blit is under way, and the blitter's DMA is on.
    pub(crate) fn has_blitter_wish(&self) -> bool
        ensures { result ≡ is_some (kept_wish self.now) }
    {
        self.blit.is_some() && self.has_blitter_dma()
    }

    /// What the blitter asks for.
    #[inline(always)]
    pub fn blit_ask(&self) -> Ask
        ensures { result ≡ blit_owner_ask (kept_wish self.now) }
    {
        if !self.has_blitter_dma() {
            return Ask::Free;
        }
        match &self.blit {
            Some(blit) => slot_ask(blit.next()),
            None => Ask::Free,
        }
    }

    /// Whether DMAEN and BLTEN are set.
    pub(crate) fn has_blitter_dma(&self) -> bool
        ensures { result ≡ blitter_dma self.now.registers }
    {
        self.registers.word(Reg::masked(DMACON)) & BLITTER_DMA == BLITTER_DMA
    }

    /// The blit under way, or the processor, has the answer of this clock's access, where it is its own.
    #[inline(always)]
    pub(crate) fn answer_owner(&mut self, ask: &Ask, word: u16)
        requires { IsBlitAsk ask.now (kept_wish self.old) }
        ensures owner { AnswersOwner ask.now word self.old self.new }
        ensures kept { is_some self.new.blit ≡ is_some self.old.blit → self.new
            ≡ record self.old { blit = self.new.blit; processor = self.new.processor } }
    {
        match ask {
            Ask::Blit { .. } => self.give_blit(word),
            Ask::Processor { .. } => self.give_processor(word),
            _ => {}
        }
    }

    /// The processor has the answer of its slot.
    fn give_processor(&mut self, word: u16)
        ensures gives { GivesProcessor word self.old self.new }
        ensures kept { self.new ≡ record self.old { processor = self.new.processor } }
    {
        self.processor.give(word);
    }

    /// The Copper's step of this clock.
    #[inline(always)]
    pub(crate) fn step_copper(&mut self, beam: &Beam, ask: &Ask, word: u16) -> CopperAct
        ensures chips { self.new ≡ record self.old {
          copper
              = copper_after beam.now (word_to_copper ask.now word) (plain_chips self.old);
        } }
        ensures act { result ≡ act_at beam.now ask.now word (plain_chips self.old) }
    {
        if !self.copper_runs(beam) {
            return CopperAct::None;
        }
        let busy = self.blit.is_some();
        let danger = self.is_danger();
        self.copper.step(copper_word(ask, word), beam, busy, danger)
    }

    /// The blit under way has the answer of its slot.
    #[inline(always)]
    pub fn give_blit(&mut self, word: u16)
        requires { IsGoing self.old.blit }
        ensures gives { GivesBlit word self.old self.new }
        ensures kept { is_some self.new.blit ≡ is_some self.old.blit
            → self.new ≡ record self.old { blit = self.new.blit } }
    {
        if let Some(blit) = self.blit.as_mut() {
            if blit.give(word) {
                self.end_blit();
            }
        }
    }

    /// The blit has ended: its pointers and data registers stay, and its interrupt is requested. It
    /// stands apart, so that a slot within a blit makes no room for it.
    #[inline(never)]
    fn end_blit(&mut self)
        ensures ends { (c : ChipsOf) → IsChipsOf self.old c
            → IsChipsOf self.new (end_if_blit c.blit c) }
        ensures none { self.new.blit ≡ None }
    {
        if let Some(blit) = &self.blit {
            keep_blit(&mut self.registers, &blit.regs());
            self.zero = blit.zero();
            self.irq.request(BLIT);
            self.blit = None;
        }
    }

    /// Whether the Copper takes part in this clock: it is even, and the Copper's DMA is on.
    fn copper_runs(&self, beam: &Beam) -> bool
        ensures { result ≡ runs beam.now (plain_chips self.now) }
    {
        beam.h % 2 == 0 && self.has_copper_dma()
    }

    /// Whether DMAEN and COPEN are set.
    pub(crate) fn has_copper_dma(&self) -> bool
        ensures { result ≡ copper_dma self.now.registers }
    {
        self.registers.word(Reg::masked(DMACON)) & COPPER_DMA == COPPER_DMA
    }

    /// The address of the word that the Copper asks for at this clock.
    pub fn copper_wish(&self, beam: &Beam) -> Option<Addr>
        ensures { result ≡ wish_of beam.now (plain_chips self.now) }
    {
        if self.copper_runs(beam) {
            self.copper.wants()
        } else {
            None
        }
    }

    /// The Copper fetches from its list 1 or 2.
    fn restart(&mut self, list: u8)
        ensures { (c : ChipsOf) → IsChipsOf self.old c
            → IsChipsOf self.new (restart_copper list c) }
    {
        let at = if list == 1 {
            self.registers.pointer(Reg::masked(COP1LCH))
        } else {
            self.registers.pointer(Reg::masked(COP2LCH))
        };
        self.copper.jump(at);
    }

    /// Whether CDANG is set.
    fn is_danger(&self) -> bool
        ensures { result ≡ danger self.now.registers }
    {
        self.registers.word(Reg::masked(COPCON)) & CDANG == CDANG
    }

    /// Whether BLTPRI is set.
    pub(crate) fn is_nasty(&self) -> bool
        ensures { result ≡ blitter_first self.now.registers }
    {
        self.registers.word(Reg::masked(DMACON)) & BLTPRI == BLTPRI
    }
}

/// The word that answers an ask of the blitter: that which a read names, else 0.
#[inline(always)]
pub(crate) fn read_for_blit(ask: &SlotAsk, chip: &mut Chip) -> u16
    ensures word { result ≡ answer_blit ask.now chip.old.words }
    ensures reads { chip.new ≡ read_by (reads_of_blit ask.now) chip.old }
{
    match ask {
        SlotAsk::Read { at } => chip.read(*at),
        SlotAsk::Write { .. } | SlotAsk::Rest | SlotAsk::Done => 0,
    }
}

/// The word at an address of chip memory, read for a chip.
#[inline(always)]
fn read_memory(at: Addr, chip: &mut Chip) -> u16
    ensures word { result ≡ word_of chip.old.words at.value }
    ensures reads { chip.new ≡ read_by 1 chip.old }
{
    chip.read(at)
}
