//! When a node that gets no further enters the next round.

ghost use Rattle.std.specs.Prelude.{◌≡◌, ◌≤◌, true};
ghost use Rattle.rr_turn.specs.Ticks.{first_wait, still_from, is_advance_due, standstill_after, is_idle, hurried, held};

use std::marker::Model;

/// Ticks in a row for which a node waits at least before it advances.
const FIRST: u32 = 4;

/// So many for a node that has seen no majority: who comes back then may be behind, and goes first.
const PATIENT: u32 = 16;

/// So many at most.
const LONGEST: u32 = 128;

/// What a node finds at a tick: how many commands are decided, how many facts are marked, and whether a majority isn't suspected.
#[derive(Clone, Copy, Debug)]
pub struct Found {
    pub decided: usize,
    pub facts: u64,
    pub has_majority: bool,
}

/// How many ticks in a row have found nothing new since the tick before, and of how many that the node waits for.
#[derive(Debug, Drop)]
pub struct Standstill {
    decided: usize,
    facts: u64,
    ticks: u32,
    wait: u32,
    has_moved: bool,
}

impl Model for Standstill {
    ghost use Rattle.std.specs.Prelude.{◌<◌, ◌≤◌};
    ghost use Rattle.rr_turn.specs.Ticks.{Standstill};

    ghost Value = { Standstill };

    ghost view = { λ s. record { decided = s.decided; facts = s.facts; ticks = s.ticks; wait = s.wait; has_moved = s.has_moved } };

    ghost invariant = { λ s. (s.ticks < s.wait) × (s.wait ≤ 128) };
}

impl Standstill {
    /// Nothing is decided yet, and no tick has come.
    pub fn new() -> Standstill
        ensures { result ≡ still_from (record { decided = 0; facts = 0; has_majority = true }) first_wait }
    {
        let found = Found {
            decided: 0,
            facts: 0,
            has_majority: true,
        };
        Standstill::from(found, FIRST)
    }

    // One that begins at what a tick finds.
    fn from(found: Found, wait: u32) -> Standstill
        requires { (1 ≤ wait) × (wait ≤ 128) }
        ensures { result ≡ still_from found wait }
    {
        Standstill {
            decided: found.decided,
            facts: found.facts,
            ticks: 0,
            wait,
            has_moved: true,
        }
    }

    /// One more tick, and what it finds. Answers whether the node advances now: at the last tick of a wait that found nothing new, unless it
    /// has marked nothing since it was to advance last. A round may have no majority in it, and no coordinator that is suspected. Nodes in
    /// different rounds would then wait for one another forever. Each wait is twice as long as the one before, so that those behind move
    /// sooner and the foremost waits until all are in its round; behind a decision it's half as long. Without a majority nobody moves.
    pub fn count(&mut self, found: Found) -> bool
        ensures due { result ≡ is_advance_due found self.old }
        ensures count { self.new ≡ standstill_after found self.old }
    {
        if !found.has_majority {
            *self = Standstill::from(found, PATIENT);
            return false;
        }
        if found.decided != self.decided {
            *self = Standstill::from(found, (self.wait / 2).max(FIRST));
            return false;
        }
        if found.facts != self.facts {
            self.facts = found.facts;
            self.ticks = 0;
            self.has_moved = true;
            return false;
        }
        self.ticks += 1;
        if self.ticks < self.wait {
            return false;
        }
        let is_due = self.has_moved;
        *self = Standstill {
            decided: self.decided,
            facts: self.facts,
            ticks: 0,
            wait: if is_due {
                (2 * self.wait).min(LONGEST)
            } else {
                FIRST
            },
            has_moved: false,
        };
        is_due
    }

    /// Whether its last tick found nothing new.
    pub fn is_idle(&self) -> bool
        ensures { result ≡ is_idle self.now }
    {
        self.ticks > 0
    }

    /// The next tick is the last one of this wait: the node is behind others, who wait for it.
    pub fn hurry(&mut self)
        ensures { self.new ≡ hurried self.old }
    {
        self.ticks = self.wait - 1;
    }

    /// This wait begins anew: others are behind the node, and it waits for them.
    pub fn hold(&mut self)
        ensures { self.new ≡ held self.old }
    {
        self.ticks = 0;
    }
}
