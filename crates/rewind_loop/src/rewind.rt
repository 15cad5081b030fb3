//! The run and its ring of checkpoints, and how clocks are gone to.

ghost use Rattle.std.specs.Prelude.{◌≡◌, ◌≤◌, ◌<◌, ℕ, true, false, [], map, IfOk, OnOk};
ghost use Rattle.std.specs.Arc.{arc_value};
ghost use Rattle.serial_bands.specs.Run.{IsEndOf};
ghost use Rattle.foreground.specs.Fore.{IsNew, is_done};
ghost use Rattle.rewind_loop.specs.Places.{Place, first_place, is_due as due_of, due_in, is_that, last_of, visited};
ghost use Rattle.rewind_loop.specs.Places.{reached_from, run_to as ran_to, gone_to, arrival_at, arrivals};
ghost use Rattle.rewind_loop.specs.Present.{IsPresent, run_in, states_in, run_of, fore_of, raster_of};
ghost use Rattle.rewind_loop.specs.Told.{told_of};
ghost use Rattle.rewind_loop.specs.code.Steps.{GoesBack, GoesOn, line_limit, starting_with};

use crate::arrived::Arrived;
use band_draw::Direct;
use band_log::Run;
use clock_loop::run_to;
use foreground::{Checkpoint, Fore};
use ocs_base::offset::{COLOR00, DMACON};
use ocs_base::{Beam, Clock, OutOfMemory, Reg};
use ocs_rewind::Ring;
use out_files::OutFiles;
use serial_model::NoSide;
use std::alloc::Global;
use std::sync::Arc;

/// A run without a side, at some clock of it, with its latest checkpoints.
#[derive(Drop)]
pub struct Rewind {
    alloc: Global,
    run: Arc<Run<NoSide>>,
    /// Of every how many frames one begins with a checkpoint.
    every: u32,
    fore: Fore<NoSide>,
    raster: Direct<NoSide>,
    ring: Ring<Checkpoint<NoSide>>,
    /// What the foreground is given for its texts, anew with each frame; nobody reads it.
    out: OutFiles,
}

impl Rewind {
    /// A run at its reset. Each frame whose number is a multiple of `every` will begin with a checkpoint; of
    /// these the latest `keep` are kept.
    pub fn new(
        alloc: Global,
        run: Arc<Run<NoSide>>,
        every: u32,
        keep: usize,
    ) -> Result<Rewind, OutOfMemory>
        requires every { 1 ≤ every }
        requires keep { 1 ≤ keep }
        ensures run { IfOk result (λ rewind. arc_value rewind.run ≡ arc_value run) }
        ensures every { IfOk result (λ rewind. rewind.every ≡ every) }
        ensures first { IfOk result (IsPresent keep first_place) }
    {
        let fore = Fore::new(alloc, Arc::try_clone(&run)?)?;
        Rewind::at_reset(alloc, run, every, keep, fore)
    }

    /// A run at its reset, of which this is the foreground.
    fn at_reset(
        alloc: Global,
        run: Arc<Run<NoSide>>,
        every: u32,
        keep: usize,
        fore: Fore<NoSide>,
    ) -> Result<Rewind, OutOfMemory>
        requires keep { 1 ≤ keep }
        requires new { IsNew (run_of (arc_value run)) (fore_of fore) }
        ensures run { IfOk result (λ rewind. arc_value rewind.run ≡ arc_value run) }
        ensures every { IfOk result (λ rewind. rewind.every ≡ every) }
        ensures first { IfOk result (IsPresent keep first_place) }
    {
        let (raster, ring, out) = empty_parts(alloc, keep)?;
        Ok(Rewind {
            alloc,
            run,
            every,
            fore,
            raster,
            ring,
            out,
        })
    }

    /// Whether the last checkpoint is of the present clock.
    fn is_kept(&self) -> bool
        requires { (keep : ℕ) × (p : Place) × IsPresent keep p self.now }
        ensures { (keep : ℕ) (p : Place) → IsPresent keep p self.now
            → result ≡ is_that p.now (last_of p.ring) }
    {
        match self.ring.best(Clock(self.fore.clocks())) {
            Some((at, _)) => at.0 == self.fore.clocks(),
            None => false,
        }
    }

    /// The present clock is visited: where a checkpoint is due and the last one is not of this clock, one is
    /// pushed.
    fn visit(&mut self) -> Result<(), OutOfMemory>
        requires every { 1 ≤ self.old.every }
        requires at { (keep : ℕ) × (p : Place) × IsPresent keep p self.old }
        ensures run { self.new.run ≡ self.old.run }
        ensures every { self.new.every ≡ self.old.every }
        ensures visits { OnOk result ((keep : ℕ) (p : Place) → IsPresent keep p self.old
            → IsPresent keep (record p {
              ring = visited (due_in (states_in self.old) self.old.every) keep p.now p.ring;
            }) self.new) }
    {
        if !is_due(&self.fore.beam(), self.every) {
            return Ok(());
        }
        if self.is_kept() {
            return Ok(());
        }
        self.push_checkpoint()
    }

    /// A checkpoint of the present clock is pushed. It is large, so it has a function of its own: a clock at
    /// which none is due makes no room for one.
    #[inline(never)]
    fn push_checkpoint(&mut self) -> Result<(), OutOfMemory>
        requires at { (keep : ℕ) × (p : Place) × IsPresent keep p self.old }
        requires due { due_of self.old.every self.old.fore.machine.beam ≡ true }
        requires new { (keep : ℕ) (p : Place) → IsPresent keep p self.old
            → is_that p.now (last_of p.ring) ≡ false }
        ensures run { self.new.run ≡ self.old.run }
        ensures every { self.new.every ≡ self.old.every }
        ensures visits { OnOk result ((keep : ℕ) (p : Place) → IsPresent keep p self.old
            → IsPresent keep (record p {
              ring = visited (due_in (states_in self.old) self.old.every) keep p.now p.ring;
            }) self.new) }
    {
        let kept = self.fore.save(&mut self.raster, &mut self.out)?;
        self.ring.push(Clock(self.fore.clocks()), kept);
        Ok(())
    }

    /// Goes to a clock of the run, or to its end where that comes before it: forwards from the present clock,
    /// or from the best checkpoint, or from reset. The answer tells the state there.
    pub fn go_to(&mut self, clock: u64) -> Result<Arrived, OutOfMemory>
        requires every { 1 ≤ self.old.every }
        requires at { (keep : ℕ) × (p : Place) × IsPresent keep p self.old }
        ensures run { self.new.run ≡ self.old.run }
        ensures every { self.new.every ≡ self.old.every }
        ensures stands { OnOk result ((keep : ℕ) × (p : Place) × IsPresent keep p self.new) }
        ensures goes { OnOk result ((keep end : ℕ) (p : Place) → IsPresent keep p self.old
            → IsEndOf (run_in self.old) end → IsPresent keep
            (gone_to (due_in (states_in self.old) self.old.every) keep end clock p) self.new) }
        ensures arrives { IfOk result (λ arrived. (keep end : ℕ) (p : Place)
            → IsPresent keep p self.old → IsEndOf (run_in self.old) end
            → arrived ≡ told_of (states_in self.old) (arrival_at end clock p)) }
    {
        self.go_back(clock)?;
        let from = self.fore.clocks();
        self.run_to(clock)?;
        Ok(self.tell(from))
    }

    /// Where the present clock is above one, the run goes back: to the best checkpoint for it, and the later
    /// ones are dropped, or to reset.
    fn go_back(&mut self, clock: u64) -> Result<(), OutOfMemory>
        requires at { (keep : ℕ) × (p : Place) × IsPresent keep p self.old }
        ensures run { self.new.run ≡ self.old.run }
        ensures every { self.new.every ≡ self.old.every }
        ensures back { OnOk result ((keep : ℕ) (p : Place) → IsPresent keep p self.old
            → IsPresent keep (reached_from clock p) self.new) }
    {
        if self.fore.clocks() <= clock {
            return Ok(());
        }
        let (fore, band) = self.load_best(clock)?;
        self.begin_at(fore, band)?;
        self.ring.cut_after(Clock(clock));
        Ok(())
    }

    /// The run goes on with a foreground, and with a raster that begins with a band.
    fn begin_at(&mut self, fore: Fore<NoSide>, band: u64) -> Result<(), OutOfMemory>
        ensures run { self.new.run ≡ self.old.run }
        ensures every { self.new.every ≡ self.old.every }
        ensures ring { self.new.ring ≡ self.old.ring }
        ensures fore { OnOk result (self.new.fore ≡ fore) }
        ensures raster { OnOk result (raster_of self.new.raster ≡ starting_with band) }
    {
        self.fore = fore;
        self.raster = Direct::starting(self.alloc, band)?;
        Ok(())
    }

    /// The foreground of the best checkpoint for a clock, or at reset, and the number of the band with which
    /// its raster begins.
    fn load_best(&self, clock: u64) -> Result<(Fore<NoSide>, u64), OutOfMemory>
        requires at { (keep : ℕ) × (p : Place) × IsPresent keep p self.now }
        requires above { clock < self.now.fore.machine.t }
        ensures { IfOk result (λ made. GoesBack clock self.now made.0 made.1) }
    {
        let run = Arc::try_clone(&self.run)?;
        match self.ring.best(Clock(clock)) {
            Some((_, kept)) => Ok((Fore::load(self.alloc, run, kept)?, kept.band())),
            None => Ok((Fore::new(self.alloc, run)?, 0)),
        }
    }

    /// The run goes on to a clock that is not below the present one, or to its end; each clock is visited.
    fn run_to(&mut self, clock: u64) -> Result<(), OutOfMemory>
        requires every { 1 ≤ self.old.every }
        requires at { (keep : ℕ) × (p : Place) × IsPresent keep p self.old × (p.now ≤ clock) }
        ensures run { self.new.run ≡ self.old.run }
        ensures every { self.new.every ≡ self.old.every }
        ensures stands { OnOk result ((keep : ℕ) × (p : Place) × IsPresent keep p self.new) }
        ensures runs { OnOk result ((keep end : ℕ) (p : Place) → IsPresent keep p self.old
            → IsEndOf (run_in self.old) end → IsPresent keep
            (ran_to (due_in (states_in self.old) self.old.every) keep end clock p) self.new) }
    {
        self.visit()?;
        while self.fore.clocks() < clock && !self.fore.done() {
            self.go_on(clock)?;
            self.visit()?;
        }
        Ok(())
    }

    /// Some clocks of this line, at most up to one above the present clock: none of them but the one that is
    /// come to can begin a frame, so no other has to be visited.
    fn go_on(&mut self, clock: u64) -> Result<(), OutOfMemory>
        requires at { (keep : ℕ) × (p : Place) × IsPresent keep p self.old }
        requires running { is_done (fore_of self.old.fore) ≡ false }
        requires before { self.old.fore.machine.t < clock }
        ensures run { self.new.run ≡ self.old.run }
        ensures every { self.new.every ≡ self.old.every }
        ensures goes { OnOk result (GoesOn clock self.old self.new) }
    {
        renew_at_frame(self.alloc, &self.fore.beam(), &mut self.out)?;
        let limit = clock.min(self.clock_in_line());
        run_to(&mut self.fore, limit, &mut self.raster, &mut self.out)?;
        Ok(())
    }

    /// Clock 226 of this line, or the next clock where that one has come.
    fn clock_in_line(&self) -> u64
        ensures { result ≡ line_limit self.now.fore.machine.t self.now.fore.machine.beam.h }
    {
        let rest = 226u16.saturating_sub(self.fore.beam().h).max(1);
        self.fore.clocks().saturating_add(rest as u64)
    }

    /// What is told of the present clock, which was reached from another.
    fn tell(&mut self, from: u64) -> Arrived
        requires { (keep : ℕ) × (p : Place) × IsPresent keep p self.old }
        ensures same { (keep : ℕ) (p : Place) → IsPresent keep p self.old
            → IsPresent keep p self.new }
        ensures run { self.new.run ≡ self.old.run }
        ensures every { self.new.every ≡ self.old.every }
        ensures told { (keep : ℕ) (p : Place) → IsPresent keep p self.old
            → result ≡ told_of (states_in self.old) (record { at = p.now; from = from }) }
    {
        let registers = self.fore.regs();
        let dmacon = registers.word(Reg::masked(DMACON));
        let colour = registers.word(Reg::masked(COLOR00));
        Arrived {
            at: self.fore.clocks(),
            from,
            beam: self.fore.beam(),
            dmacon,
            colour,
            sum: self.fore.sum(),
        }
    }

    /// Goes to clocks in the order given, and tells of each.
    pub fn go_all(&mut self, clocks: &[u64]) -> Result<Vec<Arrived>, OutOfMemory>
        requires every { 1 ≤ self.old.every }
        requires at { (keep : ℕ) × (p : Place) × IsPresent keep p self.old }
        ensures { IfOk result (λ list. (keep end : ℕ) (p : Place)
            → IsPresent keep p self.old → IsEndOf (run_in self.old) end
            → list.items ≡ map (told_of (states_in self.old))
            (arrivals (due_in (states_in self.old) self.old.every) keep end clocks.now p)) }
    {
        let mut list = Vec::new(self.alloc);
        for clock in clocks {
            list.push(self.go_to(*clock)?)?;
        }
        Ok(list)
    }
}

/// Whether a checkpoint is due at a place of the beam: it begins a frame whose number is a multiple of
/// `every`.
fn is_due(beam: &Beam, every: u32) -> bool
    requires { 1 ≤ every }
    ensures { result ≡ due_of every beam.now }
{
    beam.v == 0 && beam.h == 0 && beam.frame % every == 0
}

/// A raster without bands, an empty ring, and files that nobody reads.
fn empty_parts(
    alloc: Global,
    keep: usize,
) -> Result<(Direct<NoSide>, Ring<Checkpoint<NoSide>>, OutFiles), OutOfMemory>
    requires { 1 ≤ keep }
    ensures raster { IfOk result (λ parts. raster_of parts.0 ≡ starting_with 0) }
    ensures ring { IfOk result (λ parts. parts.1 ≡ record { entries = []; keep = keep }) }
{
    let raster = Direct::new(alloc)?;
    let ring = Ring::new(alloc, keep)?;
    let out = unread_files(alloc)?;
    Ok((raster, ring, out))
}

/// Files that nobody reads, with nothing pending.
fn unread_files(alloc: Global) -> Result<OutFiles, OutOfMemory> {
    let frames = String::from_str(alloc, "f")?;
    let trace = String::from_str(alloc, "t")?;
    let memory = String::from_str(alloc, "m")?;
    Ok(OutFiles::new(alloc, frames, trace, memory))
}

/// At the start of a frame the files are made anew: what was pending for the frame before is given up.
fn renew_at_frame(alloc: Global, beam: &Beam, out: &mut OutFiles) -> Result<(), OutOfMemory> {
    if beam.v == 0 && beam.h == 0 {
        *out = unread_files(alloc)?;
    }
    Ok(())
}
