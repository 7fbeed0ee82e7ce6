//! Receipts one after another.

use rr_state::Suspects;
use rr_types::{NodeId, NodeSet, Nodes};

#[test]
fn who_reports_is_not_suspected(rt: HostRuntime) {
    let nodes = Nodes::new(3).expect(&rt, "nodes");
    let first = NodeId::new(nodes, 1).expect(&rt, "a node");
    let second = NodeId::new(nodes, 2).expect(&rt, "a node");
    let only_first = NodeSet::empty().with(first);
    let only_second = NodeSet::empty().with(second);
    let mut suspects = Suspects::new(NodeSet::empty());
    suspects.receive(first, only_second);
    assert!(rt; suspects.output() == only_second);
    suspects.receive(second, only_first);
    assert!(rt; suspects.output() == only_first);
    suspects.receive(first, only_first.with(second));
    assert!(rt; suspects.output() == only_second);
}
