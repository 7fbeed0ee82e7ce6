//! The state that a promise restores.

ghost use Rattle.std.specs.Prelude.{◌≡◌, IfOk};
ghost use Rattle.rr_model.specs.NodeStep.{restored};

use crate::state::State;
use rr_state::{Heartbeat, Instances, Outbox, Pool, Suspects, Unmarked, Waiting};
use rr_types::{NodeId, NodeSet, Nodes, Promise};
use std::alloc::{AllocError, Global};

impl State {
    /// A node after its opening, that knows what its facts promise, the number of the next one, and nothing else.
    pub fn restored(
        alloc: Global,
        nodes: Nodes,
        node: NodeId,
        promise: &Promise,
        next: u64,
    ) -> Result<State, AllocError>
        ensures ok { IfOk result (λ s. s ≡ restored nodes node promise.now next) }
    {
        let instances = Instances::restored(alloc, promise.entries(), next)?;
        Ok(State {
            nodes,
            node,
            instances,
            marked_end: next,
            unmarked: Unmarked::new(alloc),
            pool: Pool::new(alloc),
            suspects: Suspects::new(NodeSet::empty()),
            heartbeat: Heartbeat::new(nodes),
            waiting: Waiting::new(alloc),
            owed: Outbox::new(alloc, node),
            is_spent: false,
            is_settled: false,
        })
    }
}
