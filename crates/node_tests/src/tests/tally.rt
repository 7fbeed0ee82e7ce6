//! Majorities of distinct senders.

use rr_state::Tally;
use rr_types::{NodeId, Nodes};
use std::process::Abort;

/// Keeps acknowledgements of these nodes, none of which makes a majority.
fn keep_without_majority(rt: &impl Abort, tally: &mut Tally, nodes: Nodes, senders: &[u8]) {
    for sender in senders {
        tally.keep_ack(NodeId::new(nodes, *sender).expect(rt, "a node"));
        assert!(rt; !tally.is_acknowledged(nodes));
    }
}

#[test]
fn repeated_acknowledgements_of_five_nodes(rt: HostRuntime) {
    let nodes = Nodes::new(5).expect(&rt, "nodes");
    let mut tally = Tally::new(rt.alloc());
    keep_without_majority(&rt, &mut tally, nodes, &[0, 0, 0, 2, 2, 2]);
    tally.keep_ack(NodeId::new(nodes, 4).expect(&rt, "a node"));
    assert!(rt; tally.is_acknowledged(nodes));
}

#[test]
fn three_of_four_nodes_are_needed(rt: HostRuntime) {
    let nodes = Nodes::new(4).expect(&rt, "nodes");
    let mut tally = Tally::new(rt.alloc());
    keep_without_majority(&rt, &mut tally, nodes, &[0, 3]);
    tally.keep_ack(NodeId::new(nodes, 1).expect(&rt, "a node"));
    assert!(rt; tally.is_acknowledged(nodes));
}
