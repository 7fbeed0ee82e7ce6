//! Random schedules: each step of one is drawn from the words of a generator.

ghost use Rattle.std.specs.Prelude.{◌≡◌, ◌≤◌, ◌<◌, ◌+◌, ◌%◌, ◌^◌, ◌++◌, ◌∷◌, [], length, IfOk, OnOk};
ghost use Rattle.rr_sim.specs.Clusters.{new_cluster, LeadsSpelt};
ghost use Rattle.rr_sim.specs.Random.{claim_of, hearing, event_of_kind, event_of_words, drawn, behind, opening_of, openings, opened, Draws, IsRandom};
ghost use Rattle.rr_text.specs.Scheduled.{IsEvent};

use crate::cluster::Cluster;
use rand_core::SeedableRng;
use rand_core::utils::NextWord;
use rand_pcg::Pcg32;
use rr_stream::{Sink, tell_step};
use rr_text::{Event, Fill, Happening, Schedule};
use rr_types::{
    Command, Input, Message, Name, NodeEvent, NodeId, NodeSet, Nodes, Op, RequestNo, Value,
};
use std::alloc::{AllocError, Global};

/// The most steps of a random schedule: with the openings of seven nodes they make a million events.
pub const MAX_STEPS: u32 = 999_930;

/// The device calls of an opening that formats its disk.
const CALLS_OF_AN_OPENING: usize = 9;

/// A random schedule: each node opens, and then come `steps` events. Each is drawn from two words of the generator of
/// this seed, and from the wire as the run has it by then. The same words give the same schedule, unless memory runs
/// out in a write, which then fails. Those who watch `out` are told how far it is; `out` takes nothing.
///
/// # Errors
/// Also where memory runs out for any other event of the run.
#[tactic(auto, using(crate::proofs::DrawingLemmas::openings_count))]
pub fn random<O: Sink>(
    alloc: Global,
    nodes: Nodes,
    seed: u64,
    steps: u32,
    out: &mut O,
) -> Result<Schedule, AllocError>
    requires { steps ≤ 999930 }
    ensures ok { IfOk result (λ schedule. IsRandom nodes seed steps schedule) }
    ensures unprinted { O.printing out.new ≡ O.printing out.old }
{
    let mut events = openings(alloc, nodes)?;
    let mut cluster = opened(alloc, nodes, &events)?;
    let mut generator = Pcg32::seed_from_u64(seed);
    let drawn = draw_all(
        alloc,
        nodes,
        steps,
        &mut generator,
        &mut cluster,
        &mut events,
        out,
    );
    out.tell_progress(1, 1);
    drawn?;
    Ok(Schedule::of_parts(nodes, events))
}

/// The events by which each node opens its disk.
#[tactic(auto, using(crate::proofs::DrawingLemmas::openings_more))]
pub(crate) fn openings(alloc: Global, nodes: Nodes) -> Result<Vec<Event>, AllocError>
    ensures ok { IfOk result (λ events. events.items ≡ openings nodes) }
{
    let mut events = Vec::new(alloc);
    for index in 0..nodes.count() {
        let node = NodeId::new(nodes, index).unwrap();
        push_opening(&mut events, node)?;
    }
    Ok(events)
}

/// The events by which a node opens its disk.
#[tactic(auto, using(std::proofs::lemmas::List::replicate_more))]
fn push_opening(events: &mut Vec<Event>, node: NodeId) -> Result<(), AllocError>
    ensures ok { OnOk result (events.new.items ≡ events.old.items ++ opening_of node) }
{
    events.push(Event::at(node, NodeEvent::Restart))?;
    for _call in 0..CALLS_OF_AN_OPENING {
        events.push(Event::at(node, NodeEvent::Device))?;
    }
    Ok(())
}

/// The nodes after the events by which they open their disks.
#[tactic(auto, using(crate::proofs::DrawingLemmas::openings_count))]
pub(crate) fn opened(alloc: Global, nodes: Nodes, events: &[Event]) -> Result<Cluster, AllocError>
    requires { events.now ≡ openings nodes }
    ensures ok { IfOk result (λ cluster. cluster ≡ opened nodes) }
    ensures spelt { IfOk result (λ cluster. LeadsSpelt 2 events.now (new_cluster nodes) cluster) }
{
    let mut cluster = Cluster::new(alloc, nodes)?;
    let mut line = 2u64;
    for event in events {
        cluster.step_in_memory(alloc, line, event)?;
        line += 1;
    }
    Ok(cluster)
}

/// Draws `steps` events, which follow those already in `events`, runs them, and tells the sink how far it is.
fn draw_all<O: Sink>(
    alloc: Global,
    nodes: Nodes,
    steps: u32,
    generator: &mut Pcg32,
    cluster: &mut Cluster,
    events: &mut Vec<Event>,
    out: &mut O,
) -> Result<(), AllocError>
    requires short { length events.old.items + steps ≤ 1000000 }
    ensures ok { OnOk result (Draws nodes steps generator.old cluster.old events.old.items events.new.items) }
    ensures unprinted { O.printing out.new ≡ O.printing out.old }
{
    for step in 0..steps {
        tell_step(u64::from(step), u64::from(step), u64::from(steps), out);
        let line = events.len() as u64 + 2;
        let event = draw(alloc, nodes, generator, cluster.wire())?;
        cluster.step_in_memory(alloc, line, &event)?;
        events.push(event)?;
    }
    Ok(())
}

/// The event that the next two words of a generator give.
pub(crate) fn draw(
    alloc: Global,
    nodes: Nodes,
    generator: &mut Pcg32,
    wire: &[Message],
) -> Result<Event, AllocError>
    ensures value { IfOk result (λ event. event ≡ drawn nodes wire.now generator.old) }
    ensures valid { IfOk result (λ event. IsEvent nodes event) }
    ensures words { generator.new ≡ behind (behind generator.old) }
{
    let first = generator.next_word();
    let second = generator.next_word();
    event_of_words(alloc, nodes, wire, first, second)
}

/// The event that two words give: the first says the node and the kind, the second the rest.
fn event_of_words(
    alloc: Global,
    nodes: Nodes,
    wire: &[Message],
    first: u32,
    second: u32,
) -> Result<Event, AllocError>
    ensures value { IfOk result (λ event. event ≡ event_of_words nodes wire.now first second) }
    ensures valid { IfOk result (λ event. IsEvent nodes event) }
{
    let index = first % u32::from(nodes.count());
    match NodeId::new(nodes, index as u8) {
        Some(node) => event_of_kind(alloc, nodes, wire, node, first / 256 % 32, second),
        None => unreachable!(),
    }
}

/// The event of a kind from 0 to 31 at a node, by a word.
fn event_of_kind(
    alloc: Global,
    nodes: Nodes,
    wire: &[Message],
    node: NodeId,
    kind: u32,
    word: u32,
) -> Result<Event, AllocError>
    requires kind { kind < 32 }
    requires node { node < nodes }
    ensures value { IfOk result (λ event. event ≡ event_of_kind nodes wire.now node kind word) }
    ensures valid { IfOk result (λ event. IsEvent nodes event) }
{
    Ok(match kind {
        0 => Event::told(node, Input::Submit(claim_of(word))),
        1..=7 => hearing(nodes, wire, node, word),
        8 => Event::told(node, Input::Suspect(suspects_of(nodes, word))),
        9 => Event::told(node, Input::Tick),
        10 => Event::told(node, Input::Advance),
        11..=12 => Event::at(node, NodeEvent::Take),
        13..=20 => Event::at(node, NodeEvent::Device),
        21..=22 => Event::at(node, NodeEvent::Mark),
        23..=26 => Event::at(node, NodeEvent::Send),
        27 => Event::at(node, NodeEvent::Acknowledge),
        28 => Event::at(node, NodeEvent::Snap),
        29 => Event {
            node,
            what: Happening::Fail(fill_of(alloc, word)?),
        },
        30 => Event {
            node,
            what: Happening::Crash {
                cut_0: word / 256 % 1024,
                cut_1: word / 256 % 1024,
                fill: fill_of(alloc, word)?,
            },
        },
        _ => Event::at(node, NodeEvent::Restart),
    })
}

/// The claim that a word gives.
fn claim_of(word: u32) -> Command
    ensures { result ≡ claim_of word }
{
    let letter = b'a' + (word / 32 % 4) as u8;
    let request = RequestNo {
        client: word % 4,
        seq: u64::from(word / 4 % 8),
    };
    match (Name::new(&[letter]), Value::new(&[])) {
        (Ok(name), Ok(value)) => Command {
            request,
            op: Op::Claim(name, value),
        },
        _ => unreachable!(),
    }
}

/// The hearing of the message of the wire that a word names, by its addressee.
fn hearing(nodes: Nodes, wire: &[Message], node: NodeId, word: u32) -> Event
    requires { node < nodes }
    ensures value { result ≡ hearing nodes wire.now node word }
    ensures valid { IsEvent nodes result }
{
    if wire.is_empty() {
        return Event::told(node, Input::Hear(0));
    }
    let number = word as usize % wire.len();
    let to = wire[number].to;
    let node = if to.index() < nodes.count() { to } else { node };
    Event::told(node, Input::Hear(number as u32))
}

/// The nodes whose bits a word has.
fn suspects_of(nodes: Nodes, word: u32) -> NodeSet
    ensures value { result ≡ word % 2 ^ nodes }
    ensures range { word % 2 ^ nodes < 2 ^ nodes }
{
    match NodeSet::from_bits(nodes, (word % (1 << nodes.count())) as u8) {
        Some(set) => set,
        None => unreachable!(),
    }
}

/// A fill of one byte.
fn fill_of(alloc: Global, word: u32) -> Result<Fill, AllocError>
    ensures ok { IfOk result (λ fill. fill ≡ word % 256 ∷ []) }
{
    Ok(Fill::new(Vec::from_slice(alloc, &[(word % 256) as u8])?))
}
