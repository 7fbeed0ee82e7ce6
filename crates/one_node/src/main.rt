//! A registry of one node over the files of a folder, as a program of your own would run it. Three times it opens the folder,
//! submits a command, prints the reply, and drops all that it has in memory: what was acknowledged is there the next time.
#![tactic(auto)]

use anyhow::Result;
use rr_core::{Core, recover};
use rr_disk::{Disk, FileDisk};
use rr_journal::Journal;
use rr_types::{Command, Input, Name, NodeId, Nodes, Op, Refusal, RequestNo, Value};
use std::alloc::Global;
use std::io::Write;

/// Makes the staged facts safe, and marks them. It tells whether there were any.
fn flush<D: Disk>(
    alloc: Global,
    core: &mut Core,
    journal: &mut Journal<D>,
) -> Result<bool, Refusal> {
    let Some(group) = core.take_group()? else {
        return Ok(false);
    };
    let job = match journal.begin(alloc, group) {
        Ok(job) => job,
        Err((refusal, _)) => return Err(refusal),
    };
    // Each step is a device call: write, sync, write, sync.
    let synced = job
        .step(journal)?
        .step(journal)?
        .step(journal)?
        .step(journal)?;
    match core.mark(synced) {
        Ok(()) => Ok(true),
        Err((refusal, _)) => Err(refusal),
    }
}

/// Sends what may leave. With a single node each message is for the node itself.
fn send(core: &mut Core) -> Result<(), Refusal> {
    for _ in 0..64 {
        let Some(cleared) = core.next_message() else {
            break;
        };
        core.step(&Input::Hear(cleared.message()))?;
    }
    Ok(())
}

/// Flushes, sends and acknowledges once. It tells whether there was something to flush.
fn turn<D: Disk>(rt: &HostRuntime, core: &mut Core, journal: &mut Journal<D>) -> Result<bool> {
    let was_staged = flush(rt.alloc(), core, journal)?;
    send(core)?;
    if let Some((request, reply)) = core.next_ack() {
        println!(rt;
            "request {} of client {}: {reply:?}",
            request.seq, request.client
        )?;
    }
    Ok(was_staged)
}

/// Submits a command, and takes turns until nothing is left to do.
fn serve<D: Disk>(
    rt: &HostRuntime,
    core: &mut Core,
    journal: &mut Journal<D>,
    command: Command,
) -> Result<()> {
    println!(rt; "opened with {} facts", core.facts())?;
    core.step(&Input::Submit(command))?;
    for _ in 0..64 {
        if !turn(rt, core, journal)? {
            break;
        }
    }
    Ok(())
}

/// Opens a disk, and serves a command over it.
fn open_and_serve<D: Disk + Drop>(rt: &HostRuntime, disk: D, command: Command) -> Result<()>
    requires alike { (one other : D) → D.tells one → D.tells other }
{
    let nodes = Nodes::new(1)?;
    let node = NodeId::new(nodes, 0).ok_or(Refusal::BadNodes)?;
    let (mut core, mut journal) = match recover(rt.alloc(), nodes, node, disk) {
        Ok(opened) => opened,
        Err((refusal, _)) => return Err(refusal.into()),
    };
    let served = serve(rt, &mut core, &mut journal, command);
    drop(journal.into_disk());
    served
}

fn main(rt: HostRuntime) -> Result<()> {
    let name = Name::new(b"lamp")?;
    for (client, seq) in [(7, 1), (8, 1), (7, 1)] {
        let disk = FileDisk::open(&rt, "node0", true)?;
        let request = RequestNo { client, seq };
        let op = Op::Claim(name, Value::new(b"blue")?);
        open_and_serve(&rt, disk, Command { request, op })?;
    }
    Ok(())
}
