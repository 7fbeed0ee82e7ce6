//! When a node ticks.

ghost use Rattle.std.specs.Prelude.{◌≡◌};
ghost use Rattle.std.specs.Duration.{as_nanos};
ghost use Rattle.rr_turn.specs.Ticks.{is_tick_due, ticks_after, until_tick};

use std::marker::Model;
use std::time::Duration;

/// When a node ticked last, by a clock that never goes back, and how long after a tick the next is due. Contracts see
/// both in nanoseconds.
#[derive(Debug, Drop)]
pub struct Ticks {
    last: Duration,
    period: Duration,
}

impl Model for Ticks {
    ghost use Rattle.std.specs.Duration.{as_nanos};
    ghost use Rattle.rr_turn.specs.Ticks.{Ticks};

    ghost Value = { Ticks };

    ghost view = { λ t. record { last = as_nanos t.last; period = as_nanos t.period } };
}

impl Ticks {
    /// The first tick is due a period from now.
    pub fn new(now: Duration, period: Duration) -> Ticks
        ensures { result ≡ record { last = as_nanos now; period = as_nanos period } }
    {
        Ticks { last: now, period }
    }

    /// How long it is from now until a tick is due: no time, once it is.
    pub fn until(&self, now: Duration) -> Duration
        ensures { as_nanos result ≡ until_tick (as_nanos now) self.now }
    {
        self.period.saturating_sub(now.saturating_sub(self.last))
    }

    /// Whether the node ticks now: it does where a period or more lies behind its last tick. The next is due a period
    /// from now, so that a node that was held up doesn't make up for ticks that it has missed.
    pub fn look(&mut self, now: Duration) -> bool
        ensures due { result ≡ is_tick_due (as_nanos now) self.old }
        ensures after { self.new ≡ ticks_after (as_nanos now) self.old }
    {
        if !self.until(now).is_zero() {
            return false;
        }
        self.last = now;
        true
    }
}
