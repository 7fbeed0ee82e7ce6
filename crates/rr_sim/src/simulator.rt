//! The simulator: a schedule in, the report of its run out.

ghost use Rattle.std.specs.Prelude.{◌≡◌, ◌↔◌, ◌<◌, ◌≤◌, ◌⊎◌, ℕ, length, None, Some, OnOk, IsOk, IfOk, IfErr, IsErrOf};
ghost use Rattle.rr_sim.specs.Clusters as cluster;
ghost use Rattle.std.specs.List.{AllByRecursion};
ghost use Rattle.rr_sim.specs.Clusters.{first_fault, Leads, LeadsSpelt, IsOnlyOneIfClean, new_cluster};
ghost use Rattle.rr_sim.specs.Headline.{IsRunOfTheWorld, AgreesWithOneList, KeepsRealTime};
ghost use Rattle.rr_text.specs.Scheduled.{IsEvent};

use crate::chosen::decided_list;
use crate::cluster::Cluster;
use rr_node::Node;
use rr_text::{Event, Report, Schedule};
use rr_types::{Nodes, Refusal};
use std::alloc::{AllocError, Global};

/// Runs a schedule on `nodes` nodes that are all down at first, over empty disks, and reports what comes of it.
/// In the decided list, a command that was acknowledged before another was first submitted stands before it.
/// A report in which no line refuses with `OutOfMemory` or `Device` is the only such report of its schedule.
///
/// # Errors
/// `BadNodes` outside 1 to 7; `BadEvent` of the line of the first event whose node isn't there; `OutOfMemory` where the
/// wire or the report can't grow. On as many nodes as the schedule has, only `OutOfMemory` is possible.
pub fn simulate(alloc: Global, nodes: u8, schedule: &Schedule) -> Result<Report, Refusal>
    ensures bad_nodes { IsErrOf result Refusal.BadNodes ↔ ((nodes < 1) ⊎ (7 < nodes)) }
    ensures bad_event { (line : ℕ) → IsErrOf result (Refusal.BadEvent line)
        ↔ ((1 ≤ nodes) × (nodes ≤ 7) × (first_fault nodes 2 schedule.now.events ≡ Some line)) }
    ensures world { IfOk result (λ report. IsRunOfTheWorld nodes schedule.now.events report) }
    ensures one_list { IfOk result (λ report. AgreesWithOneList schedule.now.events report) }
    ensures real_time { IfOk result (λ report. KeepsRealTime nodes schedule.now.events report) }
    ensures clean { IfOk result (λ report. IsOnlyOneIfClean nodes schedule.now.events report) }
    ensures own { nodes ≡ schedule.now.nodes → IfErr result (λ e. e ≡ Refusal.OutOfMemory) }
    ensures else_memory { IfErr result (λ e. (e ≡ Refusal.OutOfMemory) ⊎ (e ≡ Refusal.BadNodes) ⊎ ((line : ℕ) × (e ≡ Refusal.BadEvent line))) }
{
    let count = accepted(nodes, schedule)?;
    let report = run(alloc, count, schedule.events())?;
    Ok(report)
}

/// Runs a schedule as `simulate` does, and gives the nodes after its last event, with their disks.
/// The errors are those of `simulate`.
pub fn nodes_after(alloc: Global, nodes: u8, schedule: &Schedule) -> Result<Vec<Node>, Refusal>
    ensures bad_nodes { IsErrOf result Refusal.BadNodes ↔ ((nodes < 1) ⊎ (7 < nodes)) }
    ensures bad_event { (line : ℕ) → IsErrOf result (Refusal.BadEvent line)
        ↔ ((1 ≤ nodes) × (nodes ≤ 7) × (first_fault nodes 2 schedule.now.events ≡ Some line)) }
    ensures nodes { IfOk result (λ seats. (end : cluster.Cluster) × Leads 2 schedule.now.events (new_cluster nodes) end × (seats.items ≡ end.seats)) }
    ensures own { nodes ≡ schedule.now.nodes → IfErr result (λ e. e ≡ Refusal.OutOfMemory) }
    ensures else_memory { IfErr result (λ e. (e ≡ Refusal.OutOfMemory) ⊎ (e ≡ Refusal.BadNodes) ⊎ ((line : ℕ) × (e ≡ Refusal.BadEvent line))) }
{
    let count = accepted(nodes, schedule)?;
    Ok(cluster_after(alloc, count, schedule.events())?.into_nodes())
}

/// The nodes of a run of the schedule: `nodes` is 1 to 7, and each event is at one of them.
///
/// # Errors
/// `BadNodes` outside 1 to 7; else `BadEvent` of the line of the first event whose node isn't there. On as many nodes as the
/// schedule has there is no error.
#[tactic(auto, using(crate::proofs::ScheduleLaws::no_fault))]
pub fn accepted(nodes: u8, schedule: &Schedule) -> Result<Nodes, Refusal>
    ensures valid { IsOk result ↔ ((1 ≤ nodes) × (nodes ≤ 7) × (first_fault nodes 2 schedule.now.events ≡ None)) }
    ensures value { IfOk result (λ count. count ≡ nodes) }
    ensures bad_nodes { IsErrOf result Refusal.BadNodes ↔ ((nodes < 1) ⊎ (7 < nodes)) }
    ensures bad_event { (line : ℕ) → IsErrOf result (Refusal.BadEvent line)
        ↔ ((1 ≤ nodes) × (nodes ≤ 7) × (first_fault nodes 2 schedule.now.events ≡ Some line)) }
    ensures own { nodes ≡ schedule.now.nodes → IsOk result }
    ensures refused { IfErr result (λ e. (e ≡ Refusal.BadNodes) ⊎ ((line : ℕ) × (e ≡ Refusal.BadEvent line))) }
{
    let events = schedule.events();
    let count = Nodes::new(nodes)?;
    match first_fault(count, events) {
        Some(line) => Err(Refusal::BadEvent(line)),
        None => Ok(count),
    }
}

/// The line of the first event whose node isn't there.
fn first_fault(nodes: Nodes, events: &[Event]) -> Option<u64>
    requires { length events.now ≤ 1000000 }
    ensures { result ≡ first_fault nodes 2 events.now }
{
    let mut line = 2u64;
    for event in events {
        if event.node.index() >= nodes.count() {
            return Some(line);
        }
        line += 1;
    }
    None
}

/// Runs events, and reports.
fn run(alloc: Global, nodes: Nodes, events: &[Event]) -> Result<Report, AllocError>
    requires short { length events.now ≤ 1000000 }
    requires few { nodes ≤ 7 }
    requires ranges { (m : ℕ) × AllByRecursion (IsEvent m) events.now }
    ensures world { IfOk result (λ report. IsRunOfTheWorld nodes events.now report) }
{
    let cluster = cluster_after(alloc, nodes, events)?;
    let decided = decided_list(alloc, nodes, cluster.wire())?;
    Ok(Report::new(cluster.into_lines(), decided))
}

/// The nodes, the wire and the report behind events.
fn cluster_after(alloc: Global, nodes: Nodes, events: &[Event]) -> Result<Cluster, AllocError>
    requires { length events.now ≤ 1000000 }
    ensures ok { IfOk result (λ end. Leads 2 events.now (new_cluster nodes) end) }
    ensures spelt { IfOk result (λ end. LeadsSpelt 2 events.now (new_cluster nodes) end) }
{
    let mut cluster = Cluster::new(alloc, nodes)?;
    run_events(alloc, &mut cluster, events)?;
    Ok(cluster)
}

/// Runs the events in order.
fn run_events(alloc: Global, cluster: &mut Cluster, events: &[Event]) -> Result<(), AllocError>
    requires { length events.now ≤ 1000000 }
    ensures ok { OnOk result (Leads 2 events.now cluster.old cluster.new) }
    ensures spelt { OnOk result (LeadsSpelt 2 events.now cluster.old cluster.new) }
{
    let mut line = 2u64;
    for event in events {
        cluster.step(alloc, line, event)?;
        line += 1;
    }
    Ok(())
}
