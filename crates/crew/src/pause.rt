//! How one that found nothing to do waits before it looks again.

ghost use Rattle.std.specs.Prelude.{◌≤◌};

use std::hint::spin_loop;
use std::sync::Wait;
use std::sync::atomic::AtomicU64;
use std::thread::yield_now;
use std::time::Duration;

/// After so many looks in vain the thread no longer looks again at once.
const SPINS: u32 = 64;

/// After so many looks in vain the thread no longer just lets others run, but sleeps.
const YIELDS: u32 = 96;

/// A sleep is 16 µs doubled at most so many times, which is 512 µs.
const DOUBLINGS: u32 = 5;

/// The looks in vain since something was last found.
#[derive(Drop)]
pub(crate) struct Pause {
    turns: u32,
}

impl Pause {
    /// Nothing was looked for in vain yet.
    pub(crate) fn new() -> Pause {
        Pause { turns: 0 }
    }

    /// Waits after a look in vain. At first the processor only pauses. Later the thread lets others
    /// run, and then sleeps, from 32 µs up to 512 µs, so that one that stays idle takes
    /// little of a processor, and sleeps no longer than about as long as it has waited.
    pub(crate) fn wait<R: Wait>(&mut self, rt: &R) {
        self.turns = self.turns.saturating_add(1);
        if self.turns <= SPINS {
            spin_loop();
        } else if self.turns <= YIELDS {
            yield_now();
        } else {
            sleep(rt, (self.turns - YIELDS).min(DOUBLINGS));
        }
    }
}

/// Sleeps for 16 µs doubled so many times. Nobody wakes the thread: the word is its own.
fn sleep<R: Wait>(rt: &R, doublings: u32)
    requires { doublings ≤ 5 }
{
    let word = AtomicU64::new(0);
    word.park_timeout(rt, 0, Duration::from_micros(16 << doublings));
}
