//! How a run ends, and how its nodes are rung.
//!
//! What is counted has its clauses at `Ending` of rr_turn. That it lies under the lock, and that all are rung once the run is over, is read:
//! a line or two each.

ghost use Rattle.std.specs.Prelude.{◌≡◌};

use crate::pacing::Rounds;
use rr_turn::{Bell, Bells, Ending, Failure, Rung};
use rr_types::{NodeId, Refusal};
use std::alloc::Global;
use std::sync::atomic::{AtomicBool, Ordering};
use std::sync::{Mutex, Wait};

/// A run: how it ends, a bell for the loop of each node, what a loop holds that submits, and in which rounds nodes are.
#[derive(Drop)]
pub struct Running {
    is_over: AtomicBool,
    ending: Mutex<Ending>,
    bells: Bells,
    order: Mutex<()>,
    rounds: Rounds,
}

/// That a run was ended by a failure. Only `Running::fail` gives this.
#[derive(Debug, Drop)]
pub struct Broken {
    ended: (),
}

impl Running {
    /// A run with `clients` clients. It is `OutOfMemory`.
    pub fn new(alloc: Global, clients: usize) -> Result<Running, Refusal> {
        let bells = Bells::new(alloc)?;
        let ending = Ending::new(clients);
        Ok(Running {
            is_over: AtomicBool::new(ending.is_over()),
            ending: Mutex::new(ending),
            bells,
            order: Mutex::new(()),
            rounds: Rounds::new(alloc)?,
        })
    }

    /// What a node's loop holds while it submits, so that one submits after another.
    pub fn order(&self) -> &Mutex<()> {
        &self.order
    }

    /// In which rounds its nodes are.
    pub fn rounds(&self) -> &Rounds {
        &self.rounds
    }

    /// Whether it is over.
    pub fn is_over(&self) -> bool {
        self.is_over.load(Ordering::SeqCst)
    }

    /// The bell of a node's loop.
    pub fn bell(&self, node: NodeId) -> &Bell
        ensures { result.now.node ≡ node }
    {
        self.bells.of(node)
    }

    /// Rings for a node's loop.
    pub fn ring(&self, node: NodeId) -> Rung
        ensures { result.node ≡ node }
    {
        self.bell(node).ring()
    }

    /// A client is done. It can't be called again.
    pub fn leave<C: Drop, R: Wait>(&self, rt: &R, _client: C) {
        let is_over = {
            let mut ending = self.ending.lock(rt);
            ending.leave();
            ending.is_over()
        };
        if is_over {
            self.end();
        }
    }

    /// A node has failed, which ends the run.
    pub fn fail<R: Wait>(&self, rt: &R, node: NodeId, refusal: Refusal) -> Broken {
        self.ending.lock(rt).fail(Failure { node, refusal });
        self.end();
        Broken { ended: () }
    }

    fn end(&self) {
        self.is_over.store(true, Ordering::SeqCst);
        self.bells.ring_all();
    }

    /// The refusal of the lowest node that failed, if one did.
    pub fn into_refusal(self) -> Option<Refusal> {
        let Running {
            is_over: _,
            ending,
            bells: _,
            order: _,
            rounds: _,
        } = self;
        ending.into_inner().refusal()
    }
}
