//! A run that is watched: what comes of each event.

ghost use Rattle.std.specs.Prelude.{◌≡◌, ◌≤◌, length, option_map, slice_get, IfOk, IfErr};
ghost use Rattle.rr_text.specs.Lines.{IsFault};
ghost use Rattle.rr_text.specs.Scheduled.{IsEvent};
ghost use Rattle.rr_text.specs.ScheduleTexts.{event_line};
ghost use Rattle.rr_sim.specs.Clusters.{Steps, LeadsSpelt, IsSpeltBehind};
ghost use Rattle.rr_account.specs.Accounts.{lines_told, Share, IsShareOf, AreWatched, IsAccountOn, IsOfOneRun, IsReportOf};
ghost use Rattle.rr_account.specs.Outcomes.{stance_at, rests, has_synced, idle_if, came_of_hearing, untold};

use crate::account::Account;
use crate::outcome::{Idle, Outcome};
use rr_sim::{Cluster, Stance, decided_list};
use rr_stream::{Sink, tell_step};
use rr_text::{Event, Happening, Report, Schedule};
use rr_types::{Input, Message, NodeEvent, NodeId, Refusal};
use std::alloc::Global;

/// The account of the run of the schedule whose text the bytes are. Those who watch `out` are told how far it is; `out`
/// takes nothing.
///
/// # Errors
/// `BadNodes` and `BadEvent` for bytes that are no schedule, as from `Schedule::parse`; `OutOfMemory`.
pub fn account_on<O: Sink>(alloc: Global, bytes: &[u8], out: &mut O) -> Result<Account, Refusal>
    ensures ok { IfOk result (λ account. IsAccountOn bytes.now account) }
    ensures fault { IfErr result (λ e. IsFault IsEvent event_line bytes.now e) }
    ensures unprinted { O.printing out.new ≡ O.printing out.old }
{
    match Schedule::parse(alloc, bytes) {
        Ok(schedule) => {
            let account = watch(alloc, schedule, out)?;
            Ok(account)
        }
        Err(refusal) => Err(refusal),
    }
}

/// The account of the run of a schedule. Those who watch `out` are told how far it is. `out` takes nothing.
///
/// # Errors
/// `OutOfMemory`.
pub fn watch<O: Sink>(alloc: Global, schedule: Schedule, out: &mut O) -> Result<Account, Refusal>
    ensures schedule { IfOk result (λ account. account.schedule ≡ schedule) }
    ensures run { IfOk result (λ account. IsReportOf schedule account.report) }
    ensures of_one_run { IfOk result (λ account. IsOfOneRun account) }
    ensures err { IfErr result (λ e. e ≡ Refusal.OutOfMemory) }
    ensures unprinted { O.printing out.new ≡ O.printing out.old }
{
    let watched = watched_run(alloc, &schedule, out);
    out.tell_progress(1, 1);
    let (outcomes, report) = watched?;
    Ok(Account::new(schedule, outcomes, report))
}

// What comes of each event of a schedule, in turn, and the report of the run.
fn watched_run<O: Sink>(
    alloc: Global,
    schedule: &Schedule,
    out: &mut O,
) -> Result<(Vec<Outcome>, Report), Refusal>
    ensures run { IfOk result (λ r. IsReportOf schedule.now r.1) }
    ensures of_one_run { IfOk result (λ r. IsOfOneRun (record { schedule = schedule.now; outcomes = r.0.items; report = r.1 })) }
    ensures err { IfErr result (λ e. e ≡ Refusal.OutOfMemory) }
    ensures unprinted { O.printing out.new ≡ O.printing out.old }
{
    let nodes = schedule.nodes();
    let mut cluster = Cluster::new(alloc, nodes)?;
    let outcomes = watch_events(alloc, schedule.events(), &mut cluster, out)?;
    let decided = decided_list(alloc, nodes, cluster.wire())?;
    Ok((outcomes, Report::new(cluster.into_lines(), decided)))
}

// Makes the events, of which the first stands on line 2, and gives what comes of each.
fn watch_events<O: Sink>(
    alloc: Global,
    events: &[Event],
    cluster: &mut Cluster,
    out: &mut O,
) -> Result<Vec<Outcome>, Refusal>
    requires { length events.now ≤ 1000000 }
    ensures spelt { IfOk result (λ _. LeadsSpelt 2 events.now cluster.old cluster.new) }
    ensures watched { IfOk result (λ outcomes. AreWatched 2 events.now outcomes.items cluster.old cluster.new) }
    ensures err { IfErr result (λ e. e ≡ Refusal.OutOfMemory) }
    ensures unprinted { O.printing out.new ≡ O.printing out.old }
{
    let mut outcomes = Vec::new(alloc);
    let mut line = 2u64;
    for event in events {
        tell_step(line, line, events.len() as u64, out);
        let outcome = watch_event(alloc, cluster, line, event)?;
        outcomes.push(outcome)?;
        line += 1;
    }
    Ok(outcomes)
}

// Makes the event of a line, and gives what comes of it.
fn watch_event(
    alloc: Global,
    cluster: &mut Cluster,
    line: u64,
    event: &Event,
) -> Result<Outcome, Refusal>
    ensures steps { IfOk result (λ _. Steps line event.now cluster.old cluster.new × IsSpeltBehind event.now cluster.old cluster.new) }
    ensures adds { IfOk result (λ outcome. (share : Share) × (share.outcome ≡ outcome) × IsShareOf event.now share cluster.old cluster.new) }
    ensures err { IfErr result (λ e. e ≡ Refusal.OutOfMemory) }
{
    let told = cluster.lines().len();
    let before = stance_at(cluster, event);
    cluster.step(alloc, line, event)?;
    if cluster.lines().len() == told {
        let behind = stance_at(cluster, event);
        Ok(untold_outcome(event, before, behind, cluster.wire()))
    } else {
        Ok(Outcome::Told)
    }
}

// What the node of an event waits for.
fn stance_at(cluster: &Cluster, event: &Event) -> Option<Stance>
    ensures { result ≡ stance_at event.now cluster.now }
{
    match cluster.node(event.node) {
        Some(node) => Some(node.stance()),
        None => None,
    }
}

// Whether a node is up and has no job.
fn rests(stance: Option<Stance>) -> bool
    ensures { result ≡ rests stance }
{
    matches!(stance, Some(Stance::Resting))
}

// Whether a node has a synced group that waits for its mark.
fn has_synced(stance: Option<Stance>) -> bool
    ensures { result ≡ has_synced stance }
{
    matches!(stance, Some(Stance::Flushed))
}

// An event came to nothing for this reason, or it was done.
fn idle_if(comes_to_nothing: bool, why: Idle) -> Outcome
    ensures is { result ≡ idle_if comes_to_nothing why }
    ensures untold { lines_told result ≡ 0 }
{
    if comes_to_nothing {
        Outcome::Idle(why)
    } else {
        Outcome::Quiet
    }
}

// What has come of hearing a message of those that were sent.
fn came_of_hearing(node: NodeId, number: u32, wire: &[Message]) -> Outcome
    ensures is { result ≡ came_of_hearing node number wire.now (slice_get wire.now number) }
    ensures untold { lines_told result ≡ 0 }
{
    match wire.get(number as usize) {
        None => Outcome::Idle(Idle::NoMessage(number, wire.len() as u64)),
        Some(message) => {
            let addressee = message.to;
            let why = Idle::OtherAddressee(number, addressee.index());
            idle_if(addressee != node, why)
        }
    }
}

// What has come of an event that has no line in the report, by what its node waited for before it and waits for behind it, and by
// the messages that were sent.
fn untold_outcome(
    event: &Event,
    before: Option<Stance>,
    behind: Option<Stance>,
    wire: &[Message],
) -> Outcome
    ensures is { result ≡ untold event.now before behind wire.now }
    ensures untold { lines_told result ≡ 0 }
{
    let node = event.node;
    let event = match &event.what {
        Happening::At(event) => event,
        Happening::Fail(_) => return Outcome::Idle(Idle::NoCallDue),
        Happening::Crash { .. } => return Outcome::Quiet,
    };
    match event {
        NodeEvent::Told(Input::Hear(message)) => came_of_hearing(node, *message, wire),
        NodeEvent::Take => idle_if(rests(behind), Idle::NothingStaged),
        NodeEvent::Device => idle_if(rests(before) || has_synced(before), Idle::NoCallDue),
        NodeEvent::Mark => idle_if(!has_synced(before), Idle::NothingSynced),
        NodeEvent::Send => Outcome::Idle(Idle::NothingToSend),
        NodeEvent::Acknowledge => Outcome::Idle(Idle::NothingToAcknowledge),
        NodeEvent::Told(_) | NodeEvent::Snap | NodeEvent::Restart => Outcome::Quiet,
    }
}
