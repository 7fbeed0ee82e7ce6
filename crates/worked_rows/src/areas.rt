//! The areas of a node after a schedule.

use rr_disk::{Area, Disk};
use rr_sim::{Schedule, nodes_after};
use rr_types::Refusal;
use std::alloc::Global;

/// The bytes of both areas of node 0 behind a schedule.
pub fn areas_behind(alloc: Global, schedule: &Schedule) -> Result<[Vec<u8>; 2], Refusal> {
    let mut nodes = nodes_after(alloc, schedule.nodes().count(), schedule)?;
    nodes.truncate(1);
    match nodes.pop() {
        None => Err(Refusal::BadNodes),
        Some(node) => {
            let mut disk = node.into_disk(alloc);
            let first = disk.read(alloc, Area::First, 0, u64::MAX)?;
            let second = disk.read(alloc, Area::Second, 0, u64::MAX)?;
            Ok([first, second])
        }
    }
}
