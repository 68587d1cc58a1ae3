//! A clock over memory, and the system's.

ghost use Rattle.std.specs.Prelude.{◌≡◌, ◌∷◌, ◌^◌, ◌-◌, [], Some, None, unwrap_or};
ghost use Rattle.wire_devices.specs.Telling.{Adds, AddsOne};
ghost use Rattle.wire_devices.specs.Forms.{moment_at, readings_of};

use crate::devices::Clock;
use crate::plans::counted_on;
use std::marker::Model;
use std::rt;
use std::time::Duration;

/// A clock of these moments, the last of which is repeated. It tells its readings as long as they can be counted.
#[derive(Drop)]
pub struct MemoryClock {
    moments: Vec<u64>,
    reads: Option<u64>,
}

impl Model for MemoryClock {
    ghost use Rattle.wire_devices.specs.Forms.{Moments};

    ghost Value = { Moments };

    ghost view = { λ c. record { moments = c.moments.items; reads = c.reads } };
}

impl MemoryClock {
    /// A clock that wasn't read yet. Without moments it stands at 0.
    pub fn new(moments: Vec<u64>) -> MemoryClock
        ensures { result ≡ record { moments = moments.items; reads = Some 0 } }
    {
        MemoryClock {
            moments,
            reads: Some(0),
        }
    }
}

impl Clock for MemoryClock {
    ghost readings = { readings_of };

    fn now(&mut self) -> u64
        ensures moment { result
            ≡ moment_at self.old.moments (unwrap_or self.old.reads (2 ^ 64 - 1)) }
        ensures moments { self.new.moments ≡ self.old.moments }
        ensures reads { AddsOne self.old.reads self.new.reads }
        ensures readings { Adds (readings_of self.old) (readings_of self.new) (result ∷ []) }
    {
        let place = self.reads.unwrap_or(u64::MAX);
        self.reads = counted_on(self.reads);
        moment_at(&self.moments, place)
    }
}

/// The moment of the n-th reading, counted from 0.
fn moment_at(moments: &[u64], n: u64) -> u64
    ensures { result ≡ moment_at moments.now n }
{
    let place = (n as usize).min(moments.len().saturating_sub(1));
    moments.get(place).copied().unwrap_or(0)
}

/// The system's clock: the milliseconds since 1970 at its start, counted on by the clock that never goes back. Where that
/// can't be read it stands still.
#[derive(Drop)]
pub struct SystemClock<R> {
    rt: R,
    began: u64,
    start: u64,
    last: u64,
}

impl<R: rt::Clock> SystemClock<R> {
    /// A clock that starts now.
    pub fn new(rt: R) -> SystemClock<R> {
        let began = rt.since_1970().map_or(0, millis);
        let start = rt.monotonic().map_or(0, millis);
        SystemClock {
            rt,
            began,
            start,
            last: began,
        }
    }
}

impl<R: rt::Clock> Clock for SystemClock<R> {
    ghost readings = { λ _. None };

    fn now(&mut self) -> u64 {
        if let Ok(time) = self.rt.monotonic() {
            let passed = millis(time).saturating_sub(self.start);
            self.last = self.began.saturating_add(passed);
        }
        self.last
    }
}

/// Whole milliseconds, as far as they fit.
pub(crate) fn millis(time: Duration) -> u64 {
    u64::try_from(time.as_millis()).unwrap_or(u64::MAX)
}
