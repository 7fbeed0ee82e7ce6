//! What the first page of `rr_state` shows: a failure detector, which is one of the parts of a node.

use rr_state::Heartbeat;
use rr_types::{NodeId, NodeSet};

/// Whom a node suspects behind five ticks, in which it has heard from one node alone: all but this one.
pub fn suspected(heartbeat: &mut Heartbeat, heard: NodeId) -> NodeSet {
    for _tick in 0..5 {
        heartbeat.tick();
        heartbeat.heard(heard);
    }
    heartbeat.suspects()
}
