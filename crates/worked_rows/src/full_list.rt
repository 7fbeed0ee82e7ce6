//! A node with all its instances decided: it refuses a new request, and acknowledges a decided one.

use rr_disk::{Area, Disk, MemDisk};
use rr_frame::{Snapshot, encode_group, encode_snapshot, put_u8, put_u32};
use rr_node::{Node, Outcome};
use rr_types::{
    Command, Fact, GROUP, Group, INSTANCES, Input, Instance, Message, Name, NodeEvent, NodeId,
    Nodes, Op, Promise, Refusal, RequestNo, Value, made_of,
};
use std::alloc::Global;
use std::io;

/// The gate bytes of a frame that is there, and of none.
const OPEN: u8 = 0xA5;

const CLOSED: u8 = 0;

/// The device calls of an opening that finds an area.
const CALLS: u32 = 3;

/// Client 7 claims the name `a` by its request of this number.
fn command(seq: u64) -> Result<Command, Refusal> {
    Ok(Command {
        request: RequestNo { client: 7, seq },
        op: Op::Claim(Name::new(b"a")?, Value::new(b"x")?),
    })
}

/// Puts a frame with its open gate behind the others.
fn put_frame(area: &mut Vec<u8>, payload: &[u8]) -> Result<(), Refusal> {
    let count = u32::try_from(payload.len()).map_err(|_| Refusal::TooLarge)?;
    put_u8(area, OPEN)?;
    put_u32(area, count)?;
    area.extend_from_slice(payload)?;
    Ok(())
}

/// A full group of facts that decide the instances from `first` on, with request I + 1 in instance I.
fn decisions(alloc: Global, first: u32) -> Result<Group, Refusal> {
    let mut facts = Vec::with_capacity(alloc, GROUP)?;
    for number in first..first.saturating_add(GROUP as u32) {
        let instance = Instance::new(number).ok_or(Refusal::ListFull)?;
        facts.push(Fact::Decide(instance, command(u64::from(number) + 1)?))?;
    }
    Group::new(u64::from(first), facts).map_err(|_| Refusal::TooLarge)
}

/// An area in which node 0 of 1 has decided every instance.
fn full_area(alloc: Global, nodes: Nodes, node: NodeId) -> Result<Vec<u8>, Refusal> {
    made_of!(Command, Op);
    let mut area = Vec::new(alloc);
    let empty = Snapshot::new(nodes, node, 1, 0, Promise::new(Vec::new(alloc))).map_err(
        |_| Refusal::BadNodes,
    )?;
    put_frame(&mut area, &encode_snapshot(alloc, &empty)?)?;
    for group in 0..INSTANCES / GROUP as u32 {
        let group = decisions(alloc, group.saturating_mul(GROUP as u32))?;
        put_frame(&mut area, &encode_group(alloc, &group)?)?;
    }
    put_u8(&mut area, CLOSED)?;
    Ok(area)
}

/// Node 0 of 1, up, over that area.
fn full_node(alloc: Global) -> Result<Node, Refusal> {
    made_of!(Message, Op);
    let nodes = Nodes::new(1)?;
    let node = NodeId::new(nodes, 0).ok_or(Refusal::BadNodes)?;
    let mut disk = MemDisk::new(alloc);
    disk.write_at(Area::First, 0, &full_area(alloc, nodes, node)?)?;
    disk.sync()?;
    let mut node = Node::new(nodes, node, disk);
    node.step(alloc, &NodeEvent::Restart)?;
    for _ in 0..CALLS {
        node.step(alloc, &NodeEvent::Device)?;
    }
    Ok(node)
}

/// What the node answers to a request, where it is acknowledged at once.
fn answer(alloc: Global, node: &mut Node, seq: u64) -> Result<Outcome, Refusal> {
    node.step(alloc, &NodeEvent::Told(Input::Submit(command(seq)?)))?;
    node.step(alloc, &NodeEvent::Acknowledge)
}

/// Prints what the node answers to its first and its last decided request, and to a new one.
pub fn full_list(rt: &HostRuntime) -> io::Result<()> {
    match full_node(rt.alloc()) {
        Ok(mut node) => {
            for seq in [1, u64::from(INSTANCES), u64::from(INSTANCES) + 1] {
                match answer(rt.alloc(), &mut node, seq) {
                    Ok(Outcome::Replied(request, reply)) => println!(rt;
                        "full list: {}.{} {reply:?}",
                        request.client, request.seq
                    )?,
                    Ok(_) => println!(rt; "full list: no reply to {seq}")?,
                    Err(refusal) => println!(rt; "full list: {seq} {refusal}")?,
                }
            }
            Ok(())
        }
        Err(refusal) => println!(rt; "full list {refusal}"),
    }
}
