//! Clocks at which nobody asks for the bus and nothing is due, passed over at once.

ghost use Rattle.std.specs.Prelude.{◌≡◌, ◌≤◌, ◌<◌, ◌+◌, ◌^◌};
ghost use Rattle.serial_model.specs.Beam.{later_beam};
ghost use Rattle.machine.specs.Machine.{machine_over};
ghost use Rattle.machine.specs.Quiet.{PassesOver};

use crate::machine::Machine;
use serial_model::Side;

impl<S: Side> Machine<S> {
    /// Passes over clocks of this line at which nobody asks for the bus and nothing is due, at most so many: as
    /// many as the chips know to be such, and a side where there is one. The answer is how many, and nothing
    /// hangs on it but how fast a run is.
    #[inline(always)]
    pub fn pass_quiet(&mut self, most: u16) -> u16
        requires inner { 0 < self.old.beam.h }
        requires room { self.old.beam.h + most ≤ 226 }
        requires count { self.old.t + most < 2 ^ 64 }
        ensures most { result ≤ most }
        ensures none { result ≡ 0 → self.new ≡ self.old }
        ensures passes { 0 < result → PassesOver result (machine_over S.seen self.old)
            (machine_over S.seen self.new) }
        ensures same { self.new ≡ record self.old {
          t = self.old.t + result;
          beam = later_beam result self.old.beam;
          chips = self.new.chips;
          side = self.new.side;
        } }
    {
        if !self.side.is_nothing() {
            return self.pass_beside_side(most);
        }
        let passed = self.chips.pass_quiet(&self.beam, self.t, most);
        self.beam.h += passed;
        self.t += passed as u64;
        passed
    }

    /// The same with a side: the clocks that it knows to be quiet, as far as the chips know it too.
    #[cold]
    #[inline(never)]
    fn pass_beside_side(&mut self, most: u16) -> u16
        requires inner { 0 < self.old.beam.h }
        requires room { self.old.beam.h + most ≤ 226 }
        requires count { self.old.t + most < 2 ^ 64 }
        ensures most { result ≤ most }
        ensures none { result ≡ 0 → self.new ≡ self.old }
        ensures passes { 0 < result → PassesOver result (machine_over S.seen self.old)
            (machine_over S.seen self.new) }
        ensures same { self.new ≡ record self.old {
          t = self.old.t + result;
          beam = later_beam result self.old.beam;
          chips = self.new.chips;
          side = self.new.side;
        } }
    {
        let dmacon = self.chips.dmacon();
        let still = self.side.quiet(&self.beam, dmacon, most);
        let passed = self.chips.pass_quiet(&self.beam, self.t, still);
        if passed == 0 {
            return 0;
        }
        self.side.skip(&self.beam, dmacon, passed);
        self.beam.h += passed;
        self.t += passed as u64;
        passed
    }
}
