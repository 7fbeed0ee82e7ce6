//! What all threads of a run share.
//!
//! No contract knows what a switch says, nor whether a run is over. When a life ends by them is `ends`; that they are asked for it is read.

ghost use Rattle.std.specs.Prelude.{◌≡◌, ◌||◌, ◌==◌, false, not};
ghost use Rattle.std.specs.Option.{option_map_or};
ghost use Rattle.rr_turn.specs.Asked.{Call};

use crate::failing::{Breaker, Outage};
use crate::pacing::{Pace, pace_of};
use crate::publishing::Published;
use crate::recorder::Recorder;
use crate::running::Running;
use crate::switches::{DOWN, Switches};
use crate::wires::Mail;
use rr_turn::{DownEnds, Next, stay_down};
use rr_types::{NodeId, Nodes, Refusal, majority};
use std::sync::Wait;
use std::time::Duration;

/// By which start a node comes up: at which move of its switch. Only `Start::first` and `Shared::next_life` give this.
#[derive(Debug, Drop)]
pub struct Start {
    moves: u64,
}

impl Start {
    /// That of a run's begin: no switch was moved.
    pub fn first() -> Start
        ensures { result.moves ≡ 0 }
    {
        Start { moves: 0 }
    }
}

/// That a node is noted to be down. Only `Shared::note_down` gives this.
#[derive(Debug, Drop)]
pub struct Gone {
    noted: (),
}

/// Which nodes run and how often they tick, how the run ends, who records it, who stops nodes, and what its loops and flushers
/// pass.
pub struct Shared<'x, T> {
    pub nodes: Nodes,
    pub tick: Duration,
    pub running: Running,
    pub recorder: Option<&'x Recorder>,
    pub switches: Option<&'x Switches>,
    pub turnstile: &'x T,
}

impl<'x, T> Shared<'x, T> {
    /// Whether a node that came up by this start goes down.
    pub fn is_ending(&self, node: NodeId, start: &Start) -> bool {
        let stands = match self.switches {
            Some(switches) => Some(switches.moves(node)),
            None => None,
        };
        ends(start.moves, stands, self.running.is_over())
    }

    /// How a node stands to the others that are up.
    pub fn pace(&self, node: NodeId) -> Pace {
        let rounds = self.running.rounds();
        let Some(own) = rounds.of(node) else {
            return Pace::Along;
        };
        let mut others = [None; 7];
        for index in 0..self.nodes.count() {
            if let Some(other) = NodeId::new(self.nodes, index) {
                if index != node.index() && self.is_up(other) {
                    others[usize::from(index)] = rounds.of(other);
                }
            }
        }
        pace_of(own, &others, majority(self.nodes))
    }

    // Whether a node is up. Where nobody stops nodes, all are.
    fn is_up(&self, node: NodeId) -> bool {
        match self.switches {
            Some(switches) => switches.is_up(node),
            None => true,
        }
    }

    /// By which a node or the run ends where the node fails.
    pub fn breaker(&self) -> Breaker<'_>
        ensures { result.switches ≡ self.now.switches }
    {
        Breaker {
            running: &self.running,
            switches: self.switches,
        }
    }

    /// A node fails.
    pub fn fail<R: Wait>(&self, rt: &R, node: NodeId, refusal: Refusal) -> Outage {
        self.breaker().fail(rt, node, refusal)
    }

    /// A node has come up by this start: what its disk had is published.
    pub fn note_up(&self, node: NodeId, start: &Start, _published: Published) {
        if let Some(switches) = self.switches {
            switches.note_up(node, start.moves);
        }
    }

    /// A node has gone down.
    pub fn note_down(&self, node: NodeId) -> Gone {
        if let Some(switches) = self.switches {
            switches.note_down(node);
        }
        Gone { noted: () }
    }

    /// Waits until a node that is noted to be down is to come up, and answers by which start. None: it isn't any more. Meanwhile its
    /// inbox is emptied again and again, so that what is kept is late.
    pub fn next_life<R: Wait>(
        &self,
        rt: &R,
        node: NodeId,
        _gone: Gone,
        mail: &mut Option<Mail>,
    ) -> Option<Start> {
        let switches = self.switches?;
        let running = &self.running;
        let mut downtime = Downtime {
            rt,
            running,
            switches,
            node,
            mail,
        };
        for _ in rt.forever() {
            match stay_down(&mut downtime) {
                Next::Start(moves) => return Some(Start { moves }),
                Next::End => break,
                Next::Turn => {}
            }
        }
        None
    }
}

// Whether a life of a node ends that began at this move of its switch, where the switch, if there is one, stands at that one now.
fn ends(began: u64, stands: Option<u64>, is_over: bool) -> bool
    ensures { result ≡ (option_map_or (λ moves. not (moves == began)) stands false || is_over) }
{
    match stands {
        Some(moves) => moves != began || is_over,
        None => is_over,
    }
}

// Empties the inbox of a node that has its mail.
fn keep_any<R: Wait>(rt: &R, mail: &mut Option<Mail>) {
    if let Some(mail) = mail {
        mail.keep_all(rt);
    }
}

/// What the thread of a node that is down looks at. No contract knows what these hold: each call is a line or two, to be read.
#[derive(Drop)]
struct Downtime<'x, R> {
    rt: &'x R,
    running: &'x Running,
    switches: &'x Switches,
    node: NodeId,
    mail: &'x mut Option<Mail>,
}

impl<'x, R: Wait> DownEnds for Downtime<'x, R> {
    ghost gives = { λ _ _ _. Unit {0} };

    fn is_over(&mut self) -> bool {
        self.running.is_over()
    }

    fn is_closed(&mut self) -> bool {
        self.switches.is_closed()
    }

    fn keep_all(&mut self) {
        keep_any(self.rt, self.mail);
    }

    fn moves_if_on(&mut self) -> Option<u64> {
        self.switches.moves_if_on(self.node)
    }

    fn rest(&mut self) {
        let bell = self.running.bell(self.node).parker();
        bell.park_timeout(self.rt, Duration::from_millis(DOWN));
    }
}
