//! Nodes over areas that are spelled by hand.

use rr_disk::{Area, Disk, MemDisk};
use rr_node::{Node, Outcome};
use rr_types::{
    Command, Message, Name, NodeEvent, NodeId, Nodes, Op, Refusal, RequestNo, Value, made_of,
};
use std::alloc::Global;

/// The device calls of an opening that finds an area.
const CALLS: u32 = 3;

/// Client 7 claims a name by its request of this number, for the value `x`.
pub fn claim(seq: u64, name: &[u8]) -> Result<Command, Refusal> {
    Ok(Command {
        request: RequestNo { client: 7, seq },
        op: Op::Claim(Name::new(name)?, Value::new(b"x")?),
    })
}

/// Node 0 of 1 over a disk whose area 0 has these bytes.
pub fn node_over(alloc: Global, area: &[u8]) -> Result<Node, Refusal> {
    let nodes = Nodes::new(1)?;
    let node = NodeId::new(nodes, 0).ok_or(Refusal::BadNodes)?;
    let mut disk = MemDisk::new(alloc);
    disk.write_at(Area::First, 0, area)?;
    disk.sync()?;
    Ok(Node::new(nodes, node, disk))
}

/// Starts the node, and answers what its opening answers.
pub fn open(alloc: Global, node: &mut Node) -> Result<Outcome, Refusal> {
    made_of!(Message, Op);
    let mut outcome = node.step(alloc, &NodeEvent::Restart)?;
    for _ in 0..CALLS {
        outcome = node.step(alloc, &NodeEvent::Device)?;
    }
    Ok(outcome)
}

/// Adds the bytes of a snapshot's frame, of node 0 of 1, up to its entries: an open gate, the length of its
/// payload, and the payload's first fields.
pub fn put_head(
    area: &mut Vec<u8>,
    epoch: u64,
    next: u64,
    entries: u32,
    bytes: u32,
) -> Result<(), Refusal> {
    area.push(0xA5)?;
    area.extend_from_slice(&bytes.saturating_add(23).to_be_bytes())?;
    area.extend_from_slice(&[2, 0, 1])?;
    area.extend_from_slice(&epoch.to_be_bytes())?;
    area.extend_from_slice(&next.to_be_bytes())?;
    area.extend_from_slice(&entries.to_be_bytes())?;
    Ok(())
}

/// Adds the entry by which an instance has decided that client 7 claims a name for no value, by its request of the
/// instance's number. It has 20 bytes and the name.
pub fn put_decided(area: &mut Vec<u8>, instance: u32, name: &[u8]) -> Result<(), Refusal> {
    area.extend_from_slice(&instance.to_be_bytes())?;
    area.extend_from_slice(&[1, 0, 0, 0, 7])?;
    area.extend_from_slice(&u64::from(instance).to_be_bytes())?;
    area.push(1)?;
    area.push(u8::try_from(name.len()).unwrap_or(0))?;
    area.extend_from_slice(name)?;
    area.push(0)?;
    Ok(())
}
