//! How a flusher or a publisher goes on, rests and ends a run.

ghost use Rattle.std.specs.Prelude.{◌≡◌};
ghost use Rattle.rr_turn.specs.Asked.{Call};
ghost use Rattle.rr_threads.specs.Rests.{rest_gives};

use crate::failing::Breaker;
use crate::rest::Rest;
use rr_turn::Course;
use rr_types::{NodeId, Refusal};
use std::sync::Wait;
use std::thread::Parker;

/// The rest of a thread of a node beside its loop, and the run. Contracts see how long it rests. That it does rest, and that the breaker
/// is told where it fails, no contract knows: each of these calls is one line, to be read.
#[derive(Drop)]
pub struct Aside<'x, R> {
    rt: &'x R,
    breaker: Breaker<'x>,
    node: NodeId,
    bell: &'x Parker,
    rest: Rest,
}

impl<'x, R> Aside<'x, R> {
    /// The thread has found something to do, as its start is.
    pub fn new(rt: &'x R, breaker: Breaker<'x>, node: NodeId, bell: &'x Parker) -> Aside<'x, R>
        ensures node { result.node ≡ node }
        ensures bell { result.bell.now ≡ bell.now }
        ensures rest { result.rest ≡ record { looks = 0; micros = 50_000; first = 50_000; longest = 50_000 } }
    {
        Aside {
            rt,
            breaker,
            node,
            bell,
            rest: Rest::rung(),
        }
    }
}

impl<'x, R: Wait> Course for Aside<'x, R> {
    ghost gives = { λ old call new. rest_gives old.rest call new.rest };

    fn go_on(&mut self) {
        self.rest.end();
    }

    fn rest(&mut self) {
        self.rest.wait(self.rt, self.bell);
    }

    fn fail(&mut self, refusal: Refusal) {
        self.breaker.fail(self.rt, self.node, refusal);
    }
}
