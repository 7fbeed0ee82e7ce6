//! What a node that is up knows, as plain data.

use rr_state::{Heartbeat, Instances, Outbox, Pool, Suspects, Unmarked, Waiting};
use rr_types::{NodeId, Nodes};
use std::marker::Model;

/// A node that is up. The messages that it owes are its own. It may know that the pool has no command for
/// an instance that no fact names (`is_spent`), and that nothing is due (`is_settled`). So no step looks
/// for either in vain.
#[derive(Drop)]
pub struct State {
    pub nodes: Nodes,
    pub node: NodeId,
    pub instances: Instances,
    pub marked_end: u64,
    pub unmarked: Unmarked,
    pub pool: Pool,
    pub suspects: Suspects,
    pub heartbeat: Heartbeat,
    pub waiting: Waiting,
    pub owed: Outbox,
    pub is_spent: bool,
    pub is_settled: bool,
}

impl Model for State {
    ghost use Rattle.std.specs.Prelude.{◌≡◌};
    ghost use Rattle.std.specs.Prelude.{IsTrue};
    ghost use Rattle.rr_model.specs.NodeState as model;
    ghost use Rattle.rr_core.specs.Steps.{IsSpent, NothingIsDue};

    ghost Value = { model.NodeState };

    ghost view = { λ s. record {
      nodes = s.nodes;
      node = s.node;
      rows = s.instances.rows;
      marked = s.instances.marked;
      marked_end = s.marked_end;
      running = s.unmarked.running;
      staged = s.unmarked.staged;
      pool = s.pool;
      suspects = s.suspects;
      watches = s.heartbeat;
      waiting = s.waiting;
      owed = s.owed.owed;
    } };

    ghost invariant = { λ s. (s.owed.node ≡ s.node) × (IsTrue s.is_spent → IsSpent s.instances.rows s.pool) × (IsTrue s.is_settled → NothingIsDue s.nodes s.node s.instances.rows s.pool s.suspects) };
}
