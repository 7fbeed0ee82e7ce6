//! Waits that end at a time.
//!
//! No contract knows what a clock says, nor that a thread sleeps. How long is left, and how long the next rest is, have their clauses.

ghost use Rattle.std.specs.Prelude.{◌≡◌, ◌*◌, ◌-◌, ◌≤◌, IfOk, IfErr};
ghost use Rattle.std.specs.Duration.{as_nanos};
ghost use Rattle.std.specs.Time.{instant_nanos};
ghost use Rattle.rr_client.specs.Asking.{IsUntimed};
ghost use Rattle.rr_client.specs.Waits.{longer};

use crate::error::ClusterError;
use std::thread;
use std::time::{Clock, Duration, Instant};

/// The first rest between two looks, in milliseconds.
const FIRST: u64 = 1;

/// The longest rest between two looks, in milliseconds.
const LONGEST: u64 = 20;

/// A wait that has begun: since when, for how long, and how long its next rest is, in milliseconds.
#[derive(Debug, Drop)]
pub(crate) struct Waiting {
    start: Instant,
    most: Duration,
    rest: u64,
}

// What is left at this time of a wait that has begun.
fn left_of(start: Instant, most: Duration, now: Instant) -> Duration
    ensures { as_nanos result ≡ as_nanos most - (instant_nanos now - instant_nanos start) }
{
    most.saturating_sub(now.duration_since(start))
}

// The rest behind one of so many milliseconds: twice as long, up to the longest.
fn longer(rest: u64) -> u64
    ensures { result ≡ longer rest }
{
    rest.saturating_mul(2).min(LONGEST)
}

impl Waiting {
    /// A wait of so many milliseconds, from now on.
    ///
    /// # Errors
    /// `System`, where the clock can't be read.
    pub(crate) fn new<C: Clock>(clock: &C, milliseconds: u64) -> Result<Waiting, ClusterError>
        ensures most { IfOk result (λ waiting. as_nanos waiting.most ≡ milliseconds * 1_000_000) }
        ensures err { IfErr result IsUntimed }
    {
        match Instant::now(clock) {
            Ok(start) => Ok(Waiting {
                start,
                most: Duration::from_millis(milliseconds),
                rest: FIRST,
            }),
            Err(error) => Err(ClusterError::System { error }),
        }
    }

    /// How long is left of it: nothing, once its time is over.
    ///
    /// # Errors
    /// `System`, where the clock can't be read.
    pub(crate) fn left<C: Clock>(&self, clock: &C) -> Result<Duration, ClusterError>
        ensures left { IfOk result (λ left. as_nanos left ≤ as_nanos self.now.most) }
        ensures err { IfErr result IsUntimed }
    {
        match Instant::now(clock) {
            Ok(now) => Ok(left_of(self.start, self.most, now)),
            Err(error) => Err(ClusterError::System { error }),
        }
    }

    /// Rests a while, and longer the next time, but no longer than this.
    pub(crate) fn rest<C: Clock>(&mut self, clock: &C, left: Duration)
        ensures { (self.new.rest ≡ longer self.old.rest) × (self.new.start ≡ self.old.start) × (self.new.most ≡ self.old.most) }
    {
        thread::sleep(clock, left.min(Duration::from_millis(self.rest)));
        self.rest = longer(self.rest);
    }
}
