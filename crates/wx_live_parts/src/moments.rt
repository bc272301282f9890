// Moments.
ghost use Rattle.std.specs.Prelude.{◌≡◌, ◌≤◌};

use std::rt::Clock;
use std::thread;
use std::time::{Duration, Instant};

/// Reads a clock. Its moments are the nanoseconds since its first, and never go back.
pub struct Moments<R: Clock + Drop> {
    rt: R,
    first: Option<Instant>,
    last: u64,
    faults: u64,
}

// Its parts are dropped by one call: docs/DESIGN.md, "What proofs cost".
impl<R: Clock + Drop> Drop for Moments<R> {
    fn drop(self) {
        let Moments {
            rt: _,
            first: _,
            last: _,
            faults: _,
        } = self;
    }
}

impl<R: Clock + Drop> Moments<R> {
    /// No moment was read yet.
    pub fn new(rt: R) -> Moments<R>
        ensures { result.last ≡ 0 }
    {
        Moments {
            rt,
            first: None,
            last: 0,
            faults: 0,
        }
    }

    /// How often the clock couldn't be read. It ends at the greatest number.
    pub fn faults(&self) -> u64
        ensures { result ≡ self.now.faults }
    {
        self.faults
    }

    /// The moment. Where the clock went back, or can't be read, it is the last one.
    pub fn now(&mut self) -> u64
        ensures later { self.old.last ≤ result }
        ensures last { self.new.last ≡ result }
    {
        let read = self.read();
        if read > self.last {
            self.last = read;
        }
        self.last
    }

    /// The nanoseconds since the first moment, or 0 where the clock can't be read.
    fn read(&mut self) -> u64
        ensures { self.new.last ≡ self.old.last }
    {
        let Ok(now) = Instant::now(&self.rt) else {
            self.faults = self.faults.saturating_add(1);
            return 0;
        };
        let first = match self.first {
            Some(first) => first,
            None => {
                self.first = Some(now);
                now
            }
        };
        u64::try_from(now.duration_since(first).as_nanos()).unwrap_or(u64::MAX)
    }

    /// Waits as long.
    pub fn rest(&self, time: Duration) {
        thread::sleep(&self.rt, time);
    }
}
