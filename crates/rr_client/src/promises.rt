//! What the disks of nodes name, before the nodes run.

ghost use Rattle.std.specs.Prelude.{◌≡◌, length, IfOk, IfSome};
ghost use Rattle.rr_client.specs.FreshNumbers.{greater_of, greatest_of, least_free};

use crate::error::ClusterError;
use rr_disk::Disk;
use rr_folders::greatest_in;
use rr_journal::Journal;
use rr_types::{NodeId, NodeSet, Nodes, Promise};
use std::alloc::Global;

/// The promises of the facts that the disks of nodes hold, and the disks. Those of nodes that are left out aren't opened: they name
/// nothing.
pub(crate) fn promises_of<D: Disk + Drop>(
    alloc: Global,
    nodes: Nodes,
    without: NodeSet,
    disks: Vec<D>,
) -> Result<(Vec<Promise>, Vec<D>), ClusterError>
    requires alike { (one other : D) → D.tells one → D.tells other }
    ensures each { IfOk result (λ r. length r.0.items ≡ length r.1.items) }
{
    let mut promises = Vec::new(alloc);
    let mut back = Vec::new(alloc);
    'disks: for (index, disk) in disks.into_iter().enumerate() {
        if index >= 7 {
            break;
        }
        let Some(node) = NodeId::new(nodes, index as u8) else {
            break;
        };
        if without.contains(node) {
            promises.push(Promise::new(Vec::new(alloc)))?;
            back.push(disk)?;
            continue;
        }
        match Journal::open(alloc, nodes, node, disk) {
            Err((refusal, _)) => return Err(ClusterError::Unopened { node, refusal }),
            Ok((journal, opened)) => {
                promises.push(opened.into_promise())?;
                back.push(journal.into_disk())?;
            }
        }
    }
    Ok((promises, back))
}

// The greater of two numbers, where there are some.
fn greater_of(one: Option<u64>, other: Option<u64>) -> Option<u64>
    ensures { result ≡ greater_of one other }
{
    match (one, other) {
        (None, _) => other,
        (Some(_), None) => one,
        (Some(one), Some(other)) => Some(one.max(other)),
    }
}

// The greatest number that these promises name as this client's. None: they name none.
fn greatest_of(client: u32, promises: &[Promise]) -> Option<u64>
    ensures { result ≡ greatest_of client promises.now }
{
    match promises {
        [] => None,
        [first, rest @ ..] => {
            let greatest = greatest_in(client, first.entries());
            greater_of(greatest, greatest_of(client, rest))
        }
    }
}

/// The least number above each that these promises name as this client's: 0 where they name none. None: numbers are out.
pub(crate) fn least_free(client: u32, promises: &[Promise]) -> Option<u64>
    ensures { IfSome result (λ n. n ≡ least_free client promises.now) }
{
    match greatest_of(client, promises) {
        Some(most) => most.checked_add(1),
        None => Some(0),
    }
}
