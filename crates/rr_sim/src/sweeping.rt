//! A sweep, event by event.

ghost use Rattle.std.specs.Prelude.{◌≡◌, ◌≤◌, ◌++◌, ◌∷◌, [], ℕ, List, IfOk};
ghost use Rattle.rr_text.specs.declared.event.Event.{Event as SomeEvent};
ghost use Rattle.rr_node.specs.Seats.{crashed};
ghost use Rattle.rr_sim.specs.declared.sweeping.SweepLine.{SweepLine as SomeLine};
ghost use Rattle.rr_sim.specs.Endings.{all_endings, cut_of, fill_of};
ghost use Rattle.rr_sim.specs.Openings.{IsInSome, Opens};
ghost use Rattle.rr_sim.specs.Sweeps.{AreCrashes, AreCrashesBehind, behind_event, HasSwept, IsNext, MayCrash};

use crate::cluster::Cluster;
use crate::ending::Ending;
use crate::opening::open;
use rand_core::SeedableRng;
use rand_core::utils::NextWord;
use rand_pcg::Pcg32;
use rr_node::Node;
use rr_text::{Event, Happening, ReportLine};
use rr_types::{NodeEvent, NodeId, Nodes};
use std::alloc::{AllocError, Global};

/// A line of a sweep.
#[derive(Debug, Drop)]
pub struct SweepLine {
    /// The line of the device call in the schedule, from 1.
    pub line: u64,
    /// How the crash ends it.
    pub ending: Ending,
    /// The last line of the report on the events up to the call, the crash and the opening of the node: its restart.
    pub restart: ReportLine,
}

/// A sweep under way: the nodes after the events so far, and the words of the crashes to come.
#[derive(Drop)]
pub struct Sweeping {
    cluster: Cluster,
    generator: Pcg32,
}

impl Sweeping {
    /// A sweep of `nodes` nodes before the first event, with the words of this seed.
    pub fn new(alloc: Global, nodes: Nodes, seed: u64) -> Result<Sweeping, AllocError>
        ensures ok { (m : ℕ) → nodes ≤ 7 → IfOk result (λ sweeping. HasSwept nodes m seed [] [] sweeping) }
    {
        Ok(Sweeping {
            cluster: Cluster::new(alloc, nodes)?,
            generator: Pcg32::seed_from_u64(seed),
        })
    }

    /// Makes the event of a line, and gives the lines of the sweep that it has: five if it is a device call, else none.
    ///
    /// # Errors
    /// Also where memory runs out for the event or for an opening.
    pub fn step(
        &mut self,
        alloc: Global,
        line: u64,
        event: &Event,
    ) -> Result<Vec<SweepLine>, AllocError>
        requires { (n : ℕ) × (m : ℕ) × (seed : ℕ) × (events : List SomeEvent) × (lines : List SomeLine) × IsNext n m seed events lines line event.now self.old }
        ensures ok { (n m seed : ℕ) (events : List SomeEvent) (lines : List SomeLine) → IsNext n m seed events lines line event.now self.old
            → IfOk result (λ more. HasSwept n m seed (events ++ event.now ∷ []) (lines ++ more.items) self.new) }
    {
        self.cluster.step_in_memory(alloc, line, event)?;
        self.cluster.forget_lines();
        self.crashes(alloc, line, event)
    }

    /// The lines of the crashes behind the event of a line: five of a device call, which takes a word, else none.
    fn crashes(
        &mut self,
        alloc: Global,
        line: u64,
        event: &Event,
    ) -> Result<Vec<SweepLine>, AllocError>
        requires { MayCrash event.now.node event.now.what self.old.cluster }
        ensures cluster { self.new.cluster ≡ self.old.cluster }
        ensures words { self.new.generator ≡ behind_event event.now.what self.old.generator }
        ensures lines { IfOk result (λ lines. AreCrashesBehind line event.now.node event.now.what self.old lines.items) }
    {
        match event.what {
            Happening::At(NodeEvent::Device) => {
                let word = self.generator.next_word();
                match self.cluster.node(event.node) {
                    Some(seat) => endings(alloc, line, event.node, seat, word),
                    None => unreachable!(),
                }
            }
            _ => Ok(Vec::new(alloc)),
        }
    }
}

/// The lines of a device call, one for each ending.
fn endings(
    alloc: Global,
    line: u64,
    node: NodeId,
    seat: &Node,
    word: u32,
) -> Result<Vec<SweepLine>, AllocError>
    requires { (n : ℕ) × (p : ℕ) × IsInSome n p seat.now }
    ensures ok { IfOk result (λ lines. AreCrashes line node seat.now word all_endings lines.items) }
{
    let mut lines = Vec::new(alloc);
    lines.push(line_of(alloc, line, node, seat, Ending::Open, word)?)?;
    lines.push(line_of(alloc, line, node, seat, Ending::Closed, word)?)?;
    lines.push(line_of(alloc, line, node, seat, Ending::Cut, word)?)?;
    lines.push(line_of(alloc, line, node, seat, Ending::Kept, word)?)?;
    lines.push(line_of(alloc, line, node, seat, Ending::Drawn, word)?)?;
    Ok(lines)
}

/// The line of an ending.
fn line_of(
    alloc: Global,
    line: u64,
    node: NodeId,
    seat: &Node,
    ending: Ending,
    word: u32,
) -> Result<SweepLine, AllocError>
    requires { (n : ℕ) × (p : ℕ) × IsInSome n p seat.now }
    ensures line { IfOk result (λ l. l.line ≡ line) }
    ensures ending { IfOk result (λ l. l.ending ≡ ending) }
    ensures restart { IfOk result (λ l. Opens node (crashed (cut_of ending word) (cut_of ending word) (fill_of ending word) seat.now) l.restart) }
{
    let crashed = crash(alloc, seat, ending, word)?;
    let restart = open(alloc, node, crashed)?;
    Ok(SweepLine {
        line,
        ending,
        restart,
    })
}

/// A node as a crash with this ending leaves it.
fn crash(alloc: Global, seat: &Node, ending: Ending, word: u32) -> Result<Node, AllocError>
    ensures left { IfOk result (λ node. node ≡ crashed (cut_of ending word) (cut_of ending word) (fill_of ending word) seat.now) }
{
    let cut = ending.cut(word);
    match ending.fill(word) {
        Some(byte) => seat.after_crash(alloc, cut, cut, &[byte]),
        None => seat.after_crash(alloc, cut, cut, &[]),
    }
}
