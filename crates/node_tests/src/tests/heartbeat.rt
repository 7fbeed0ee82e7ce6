//! One node's watch, tick by tick.

use rr_state::Heartbeat;
use rr_types::{NodeId, Nodes};
use std::process::Abort;

/// Asserts that node 1 isn't suspected over these many ticks, and is with the next one.
fn assert_borne(rt: &impl Abort, heartbeat: &mut Heartbeat, node: NodeId, ticks: usize) {
    for _tick in 0..ticks {
        heartbeat.tick();
        assert!(rt; !heartbeat.suspects().contains(node));
    }
    heartbeat.tick();
    assert!(rt; heartbeat.suspects().contains(node));
}

#[test]
fn four_ticks_are_borne_and_after_a_suspicion_five(rt: HostRuntime) {
    let nodes = Nodes::new(3).expect(&rt, "nodes");
    let node = NodeId::new(nodes, 1).expect(&rt, "a node");
    let mut heartbeat = Heartbeat::new(nodes);
    assert_borne(&rt, &mut heartbeat, node, 4);
    heartbeat.heard(node);
    assert!(rt; !heartbeat.suspects().contains(node));
    assert_borne(&rt, &mut heartbeat, node, 5);
}
