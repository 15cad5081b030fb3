//! A gate that counts the bands of which it is told, and may hold the first ones back.

use ocs_base::OutOfMemory;
use ocs_run::Gate;
use std::sync::Arc;
use std::sync::atomic::{AtomicU64, Ordering};
use std::thread::yield_now;

/// More looks at what another thread does than it needs.
const LOOKS: u32 = 50_000_000;

/// How often a gate was told of band 0, how often of a band behind those that it holds, and how often someone
/// waited in vain.
#[derive(Drop)]
pub struct Told {
    pub first: AtomicU64,
    pub later: AtomicU64,
    pub in_vain: AtomicU64,
}

impl Told {
    /// Nothing was told yet.
    pub fn new() -> Told {
        Told {
            first: AtomicU64::new(0),
            later: AtomicU64::new(0),
            in_vain: AtomicU64::new(0),
        }
    }

    /// How often someone waited in vain, and how often a gate was told of band 0 and of a later one.
    pub fn counts(&self) -> [u64; 3] {
        [
            self.in_vain.load(Ordering::SeqCst),
            self.first.load(Ordering::SeqCst),
            self.later.load(Ordering::SeqCst),
        ]
    }

    /// Looks until a count is not 0, or so many times.
    pub fn wait_for(&self, count: &AtomicU64) {
        for _ in 0..LOOKS {
            if count.load(Ordering::SeqCst) > 0 {
                return;
            }
            yield_now();
        }
        self.in_vain.fetch_add(1, Ordering::SeqCst);
    }
}

/// A gate that holds the bands from a number up to, not including, another, until a later one is about to be
/// drawn.
#[derive(Drop)]
pub struct Watch {
    told: Arc<Told>,
    from: u64,
    to: u64,
}

impl Watch {
    /// A gate that tells these counts and holds the bands from one number up to, not including, another.
    pub fn over(told: &Arc<Told>, from: u64, to: u64) -> Result<Watch, OutOfMemory> {
        Ok(Watch {
            told: Arc::try_clone(told)?,
            from,
            to,
        })
    }
}

impl Gate for Watch {
    fn before(&self, number: u64) {
        if number == 0 {
            self.told.first.fetch_add(1, Ordering::SeqCst);
        }
        if number >= self.to {
            self.told.later.fetch_add(1, Ordering::SeqCst);
        } else if number >= self.from {
            self.told.wait_for(&self.told.later);
        }
    }
}
