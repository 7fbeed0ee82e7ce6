//! How a thread rests that finds nothing to do.

ghost use Rattle.std.specs.Prelude.{◌≡◌, not, nat_lt};
ghost use Rattle.rr_threads.specs.Rests.{looked, longer};

use std::sync::Wait;
use std::thread::Parker;
use std::time::Duration;

/// How many vain looks in a row are followed by another at once, since what is waited for often comes soon.
const BUSY_LOOKS: u32 = 10;

/// The first rest of a thread that nobody rings, in microseconds.
pub const FIRST: u64 = 500;

/// The longest rests, in microseconds.
pub const LONG: u64 = 50_000;

/// How long a thread has found nothing to do.
#[derive(Debug, Drop)]
pub struct Rest {
    looks: u32,
    micros: u64,
    first: u64,
    longest: u64,
}

impl Rest {
    /// Rests of `first` microseconds, and then twice as long each time, up to `longest`.
    pub fn new(first: u64, longest: u64) -> Rest
        ensures { result ≡ record { looks = 0; micros = first; first = first; longest = longest } }
    {
        Rest {
            looks: 0,
            micros: first,
            first,
            longest,
        }
    }

    /// The rests of a thread that is rung for all that comes. They are long, so that it is woken by that alone.
    pub fn rung() -> Rest
        ensures { result ≡ record { looks = 0; micros = 50_000; first = 50_000; longest = 50_000 } }
    {
        Rest::new(LONG, LONG)
    }

    /// A look found something to do.
    pub fn end(&mut self)
        ensures { self.new ≡ record self.old { looks = 0; micros = self.old.first } }
    {
        self.looks = 0;
        self.micros = self.first;
    }

    /// A look found nothing to do: after some such looks the thread rests until someone rings, each time twice as long.
    pub fn wait<R: Wait>(&mut self, rt: &R, bell: &Parker)
        ensures { self.new ≡ longer self.old }
    {
        if self.is_due() {
            bell.park_timeout(rt, Duration::from_micros(self.micros));
            self.micros = self.micros.saturating_mul(2).min(self.longest);
        }
    }

    /// As `wait`, for so long at most.
    pub fn wait_for<R: Wait>(&mut self, rt: &R, bell: &Parker, most: Duration)
        ensures { self.new ≡ looked self.old }
    {
        if self.is_due() && !most.is_zero() {
            bell.park_timeout(rt, most);
        }
    }

    /// Whether so many looks were vain that the thread rests.
    fn is_due(&mut self) -> bool
        ensures due { result ≡ not (nat_lt self.old.looks 10) }
        ensures looked { self.new ≡ looked self.old }
    {
        if self.looks < BUSY_LOOKS {
            self.looks += 1;
            return false;
        }
        true
    }
}
