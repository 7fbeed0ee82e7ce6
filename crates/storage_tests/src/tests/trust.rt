//! What is taken on trust over a disk that tells no bytes.

use super::flush::first_fact;
use rr_disk::{Disk, FileDisk};
use rr_journal::{Opened, Synced};
use rr_types::{NodeId, Nodes, Promise};
use std::alloc::Global;
use std::fs;
use std::process::Abort;

/// Asserts what is known of an opening on trust: node 2 of 3, whose next fact has number 5.
fn assert_opened(rt: &impl Abort, opened: &Opened) {
    assert!(rt; opened.nodes().count() == 3);
    assert!(rt; opened.node().index() == 2 && opened.next() == 5);
}

/// Asserts what is known of a group on trust: the first of node 2, with one fact.
fn assert_synced(rt: &impl Abort, synced: &Synced) {
    assert!(rt; synced.node().index() == 2 && synced.first() == 0);
    assert!(rt; synced.group().facts().len() == 1);
}

/// Takes an opening and a group on trust over this disk.
fn trusts<D: Disk>(rt: &impl Abort, alloc: Global, disk: &D)
    requires { D.tells disk.now → ⊥ }
{
    let nodes = Nodes::new(3).expect(rt, "nodes");
    let node = NodeId::new(nodes, 2).expect(rt, "a node");
    let opened = Opened::on_trust(disk, nodes, node, Promise::new(Vec::new(alloc)), 5);
    assert_opened(rt, &opened);
    let synced = Synced::on_trust(disk, node, first_fact(rt, alloc));
    assert_synced(rt, &synced);
    drop(synced);
}

#[test]
fn an_opening_and_a_group_on_trust(rt: HostRuntime) {
    let folder = "rr_journal_trust";
    let _ = fs::remove_dir_all(&rt, folder);
    let disk = FileDisk::open(&rt, folder, true).expect(&rt, "an opening");
    trusts(&rt, rt.alloc(), &disk);
    drop(disk);
    fs::remove_dir_all(&rt, folder).expect(&rt, "the folder goes");
}
