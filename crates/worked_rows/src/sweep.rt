//! Crashes in a switch to a snapshot: after each number of its device calls, with every pair of cuts.

use crate::areas::areas_behind;
use rr_sim::{Cluster, Event, Fill, Report, ReportLine, Schedule};
use rr_text::Happening;
use rr_types::{NodeEvent, NodeId, Refusal};
use std::alloc::Global;
use std::io;

/// The device calls of a switch.
const CALLS: usize = 6;

/// The line of one of them.
const CALL: &[u8] = b"dev 0\n";

/// What stands in the loose bytes after a crash, as schedules write it and as bytes; without bytes these keep
/// their own.
const FILLS: [(&str, &[u8]); 3] = [("A5", &[0xA5]), ("00", &[0]), ("-", &[])];

/// The report of nothing but a restart that finds the snapshot's facts.
const KEPT: &[u8] = b"restart 0 4 1 a=7:x\ndecided 0\n";

/// A crash of node 0 behind a schedule: how many bytes each area keeps at most, and what fills the loose ones.
#[derive(Clone, Copy, Debug)]
struct Crash<'a> {
    cut_0: u32,
    cut_1: u32,
    fill: &'a [u8],
}

/// The events of a crash and of the restart behind it.
fn ending(alloc: Global, node: NodeId, crash: Crash<'_>) -> Result<[Event; 5], Refusal> {
    Ok([
        Event {
            node,
            what: Happening::Crash {
                cut_0: crash.cut_0,
                cut_1: crash.cut_1,
                fill: Fill::new(Vec::from_slice(alloc, crash.fill)?),
            },
        },
        Event::at(node, NodeEvent::Restart),
        Event::at(node, NodeEvent::Device),
        Event::at(node, NodeEvent::Device),
        Event::at(node, NodeEvent::Device),
    ])
}

/// What the report of a schedule says last, where its first node crashes and restarts at the end.
fn last_line(
    alloc: Global,
    schedule: &Schedule,
    crash: Crash<'_>,
) -> Result<Option<ReportLine>, Refusal> {
    let nodes = schedule.nodes();
    let node = NodeId::new(nodes, 0).ok_or(Refusal::BadNodes)?;
    let end = ending(alloc, node, crash)?;
    let mut cluster = Cluster::new(alloc, nodes)?;
    for (i, event) in schedule.events().iter().chain(end.iter()).enumerate() {
        cluster.step(alloc, i as u64, event)?;
    }
    Ok(cluster.into_lines().pop())
}

/// Whether the first node finds the snapshot's facts at its restart behind this crash.
fn is_kept(alloc: Global, schedule: &Schedule, crash: Crash<'_>) -> Result<bool, Refusal> {
    let mut lines = Vec::new(alloc);
    if let Some(line) = last_line(alloc, schedule, crash)? {
        lines.push(line)?;
    }
    let text = Report::new(lines, Vec::new(alloc)).text(alloc)?;
    Ok(text.as_slice() == KEPT)
}

/// A cut that is one past the end of an area.
fn past(area: &[u8]) -> u32 {
    u32::try_from(area.len())
        .unwrap_or(u32::MAX)
        .saturating_add(1)
}

/// How many crashes with this fill behind a schedule were tried, with every pair of cuts from 0 to one past the
/// ends of both areas, and how many of them kept the node's facts.
fn count(alloc: Global, schedule: &Schedule, fill: &[u8]) -> Result<(u64, u64), Refusal> {
    let areas = areas_behind(alloc, schedule)?;
    let [first, second] = &areas;
    let mut tried = 0u64;
    let mut kept = 0u64;
    for cut_0 in 0..=past(first) {
        for cut_1 in 0..=past(second) {
            let crash = Crash { cut_0, cut_1, fill };
            tried = tried.saturating_add(1);
            if is_kept(alloc, schedule, crash)? {
                kept = kept.saturating_add(1);
            }
        }
    }
    Ok((tried, kept))
}

/// Stops a schedule that ends with the calls of a switch after each number of them, and says how many crashes
/// kept the node's facts.
pub fn sweep(rt: &HostRuntime, path: &str, bytes: &[u8]) -> io::Result<()> {
    for left in 0..=CALLS {
        let made = CALLS - left;
        let stop = bytes.len().saturating_sub(left * CALL.len());
        for (name, fill) in FILLS {
            let counted = match Schedule::parse(rt.alloc(), &bytes[..stop]) {
                Ok(schedule) => count(rt.alloc(), &schedule, fill),
                Err(refusal) => Err(refusal),
            };
            match counted {
                Ok((tried, kept)) => println!(rt;
                    "{path} {made} calls, fill {name}: {kept} of {tried} crashes kept the facts"
                )?,
                Err(refusal) => println!(rt; "{path} {refusal}")?,
            }
        }
    }
    Ok(())
}
