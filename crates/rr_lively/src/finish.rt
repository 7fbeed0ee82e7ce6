//! The finish of a schedule.

ghost use Rattle.std.specs.Prelude.{◌≡◌, ◌≤◌, ℕ, ◌++◌, OnOk, IfOk, IfErr};
ghost use Rattle.rr_text.specs.Lines.{nodes_line, IsStop, IsFault};
ghost use Rattle.rr_text.specs.Scheduled.{IsEvent};
ghost use Rattle.rr_text.specs.ScheduleTexts.{event_line};
ghost use Rattle.rr_lively.specs.Lively.{IsSoFar, IsScheduleTo};
ghost use Rattle.rr_lively.specs.Finishes.{Adds, IsFinish};

use crate::going::Going;
use crate::plan::Plan;
use rr_sim::{Cluster, decided_list, tell_read};
use rr_stream::{Sink, tell_step};
use rr_text::MAX_EVENTS;
use rr_text::text_parse::{first_line, next_event};
use rr_text::text_report::push_decided_list;
use rr_types::{Nodes, Refusal};
use std::alloc::{AllocError, Global};

/// The line of the first event that a schedule has no room for.
const PAST_LINE: u64 = MAX_EVENTS as u64 + 2;

/// How often an event is planned at most. Each that stands in the schedule is followed by at most three that change nothing.
const PLANNED: u64 = 8 * PAST_LINE;

/// How far a schedule was finished.
#[derive(Clone, Copy, Debug, PartialEq, Eq)]
pub enum Ending {
    /// No node has anything left, as far as its messages tell: each request that it was asked for since it is up is
    /// acknowledged, and each instance of which it told a round is decided.
    Finished,
    /// The schedule has a million events.
    Full,
    /// In 64 turns, in each of which all nodes tick and go on by a round, nothing was decided or acknowledged.
    Stuck,
}

/// What a schedule was finished to.
#[derive(Debug, Drop)]
pub struct Finish {
    /// The lines of the events that were added.
    pub added: Vec<u8>,
    /// The text of the report on the schedule with these.
    pub report: Vec<u8>,
    /// How far it was finished.
    pub ending: Ending,
}

/// The run of a schedule on `nodes` nodes, whose text `bytes` is and whose lines after the first are `lines`. Those who watch
/// `out` are told how far it is.
#[tactic(auto, using(rr_sim::proofs::ToldLaws::told_stop, crate::proofs::FinishLaws::read_below))]
fn read_run<O: Sink>(
    alloc: Global,
    nodes: Nodes,
    bytes: &[u8],
    lines: &[u8],
    plan: &mut Plan,
    out: &mut O,
) -> Result<Going, Refusal>
    requires { bytes.now ≡ nodes_line nodes ++ lines.now }
    ensures so_far { IfOk result (λ going. IsSoFar nodes going.line going.cluster going.schedule.items going.report.items) }
    ensures line { IfOk result (λ going. going.line ≤ 1000002) }
    ensures read { IfOk result (λ going. IsScheduleTo nodes going.line bytes.now) }
    ensures whole { IfOk result (λ going. going.schedule.items ≡ bytes.now) }
    ensures err { IfErr result (λ e. IsStop (IsEvent nodes) event_line lines.now e) }
    ensures unprinted { O.printing out.new ≡ O.printing out.old }
{
    let _count = nodes.count();
    let mut cluster = Cluster::new(alloc, nodes)?;
    let mut report = Vec::new(alloc);
    let mut line = 2u64;
    let mut rest = lines;
    while let Some((event, behind)) = next_event(alloc, nodes, rest, line)? {
        tell_read(line, rest, lines, out);
        plan.foresee(&cluster, &event)?;
        cluster.step(alloc, line, &event)?;
        plan.learn(&cluster, &event)?;
        cluster.tell(&mut report)?;
        rest = behind;
        line += 1;
    }
    Ok(Going {
        cluster,
        line,
        schedule: Vec::from_slice(alloc, bytes)?,
        report,
    })
}

/// Makes the events that are planned, one after another. Answers how far the run is finished then.
#[tactic(auto, using(crate::proofs::FinishLaws::adds_none, crate::proofs::FinishLaws::adds_both))]
fn go_on<O: Sink>(
    alloc: Global,
    nodes: Nodes,
    plan: &mut Plan,
    going: &mut Going,
    out: &mut O,
) -> Result<Ending, AllocError>
    requires so_far { IsSoFar nodes going.old.line going.old.cluster going.old.schedule.items going.old.report.items }
    requires line { going.old.line ≤ 1000002 }
    ensures so_far { OnOk result (IsSoFar nodes going.new.line going.new.cluster going.new.schedule.items going.new.report.items) }
    ensures line { OnOk result (going.new.line ≤ 1000002) }
    ensures adds { OnOk result (Adds nodes going.old.schedule.items going.new.schedule.items) }
    ensures unprinted { O.printing out.new ≡ O.printing out.old }
{
    plan.begin();
    for step in 0..PLANNED {
        let Some(event) = plan.next_event(&going.cluster)? else {
            return Ok(plan.ending());
        };
        if going.line >= PAST_LINE {
            return Ok(Ending::Full);
        }
        tell_step(step, going.line, PAST_LINE, out);
        going.add(alloc, nodes, &event, plan)?;
    }
    Ok(Ending::Stuck)
}

/// What a run has come to, of whose schedule these bytes were given.
#[tactic(auto, using(crate::proofs::FinishLaws::adds_more))]
fn finish_of(
    alloc: Global,
    nodes: Nodes,
    given: &[u8],
    going: Going,
    ending: Ending,
) -> Result<Finish, AllocError>
    requires so_far { IsSoFar nodes going.line going.cluster going.schedule.items going.report.items }
    requires line { going.line ≤ 1000002 }
    requires read { (from : ℕ) × IsScheduleTo nodes from given.now }
    requires adds { Adds nodes given.now going.schedule.items }
    ensures ok { IfOk result (λ finish. IsFinish given.now finish.added.items finish.report.items) }
    ensures ending { IfOk result (λ finish. finish.ending ≡ ending) }
{
    let _count = nodes.count();
    let Going {
        cluster,
        line: _,
        mut schedule,
        mut report,
    } = going;
    let decided = decided_list(alloc, nodes, cluster.wire())?;
    push_decided_list(&mut report, decided.as_slice())?;
    let added = schedule.split_off(given.len())?;
    Ok(Finish {
        added,
        report,
        ending,
    })
}

/// Goes on from the end of the schedule whose text the bytes are, without faults and without clients, until no node has
/// anything left. Each node that is down restarts, nobody is suspected, all that is sent from then on is heard, and all that is
/// staged is flushed. What was on its way before counts as lost: nodes tick, so that they say again what they still have, and
/// enter later rounds where a coordinator lacks a majority. Those who watch `out` are told how far it is; `out` takes nothing.
///
/// # Errors
/// `BadNodes` and `BadEvent` for bytes that are no schedule, as from `Schedule::parse`; `OutOfMemory`, also for an event that
/// is added.
pub fn finish_run<O: Sink>(alloc: Global, bytes: &[u8], out: &mut O) -> Result<Finish, Refusal>
    ensures ok { IfOk result (λ finish. IsFinish bytes.now finish.added.items finish.report.items) }
    ensures fault { IfErr result (λ e. IsFault IsEvent event_line bytes.now e) }
    ensures unprinted { O.printing out.new ≡ O.printing out.old }
{
    match first_line(bytes) {
        Err(refusal) => Err(refusal),
        Ok((nodes, lines)) => {
            let finish = finish_on(alloc, nodes, bytes, lines, out);
            out.tell_progress(1, 1);
            finish
        }
    }
}

/// The finish of a schedule on `nodes` nodes, whose text `bytes` is and whose lines after the first are `lines`.
fn finish_on<O: Sink>(
    alloc: Global,
    nodes: Nodes,
    bytes: &[u8],
    lines: &[u8],
    out: &mut O,
) -> Result<Finish, Refusal>
    requires { bytes.now ≡ nodes_line nodes ++ lines.now }
    ensures ok { IfOk result (λ finish. IsFinish bytes.now finish.added.items finish.report.items) }
    ensures err { IfErr result (λ e. IsStop (IsEvent nodes) event_line lines.now e) }
    ensures unprinted { O.printing out.new ≡ O.printing out.old }
{
    let mut plan = Plan::new(alloc, nodes)?;
    let mut going = read_run(alloc, nodes, bytes, lines, &mut plan, out)?;
    let ending = go_on(alloc, nodes, &mut plan, &mut going, out)?;
    let finish = finish_of(alloc, nodes, bytes, going, ending)?;
    Ok(finish)
}
