//! What a guest and an overseer have beside names: the runtime, and the switches of nodes.
//!
//! No contract knows what a switch or an atomic holds. What a node is by what was looked at has its clause (`standing_of`). That a switch
//! is turned, and all three are looked at, is read: `turn` and `look_at`, a line or two each.

ghost use Rattle.std.specs.Prelude.{◌≡◌, true, false, IfErr, IfOk, IfSome};
ghost use Rattle.rr_client.specs.Asking.{IsUntimed};
ghost use Rattle.rr_client.specs.Standings.{standing_of, is_settled};

use crate::error::ClusterError;
use crate::waiting::Waiting;
use rr_threads::Switches;
use rr_types::{NodeId, Nodes, Refusal};
use std::sync::Wait;
use std::sync::atomic::{AtomicBool, AtomicU64, Ordering};
use std::time::Clock;

/// What a guest and an overseer may do beside asking: print, read the clock, sleep, allocate, and wait for locks.
pub trait GuestRuntime: Print + Clock + AllocGlobal + Wait {}

impl<R: Print + Clock + AllocGlobal + Wait> GuestRuntime for R {}

/// What a node is.
#[derive(Clone, Copy, Debug)]
pub enum Standing {
    Up,
    /// It was started, and isn't up yet.
    Starting,
    /// It was stopped or has failed, and isn't down yet.
    Stopping,
    /// It is down, since it was stopped or left out.
    Down,
    /// It is down by this refusal, and hasn't been started since.
    Failed(Refusal),
}

impl Standing {
    /// Whether the node stays so, unless it fails or somebody stops or starts it.
    pub fn is_settled(&self) -> bool
        ensures { result ≡ is_settled self.now }
    {
        !matches!(self, Standing::Starting | Standing::Stopping)
    }
}

// What a node is by its switch, by whether it is up, and by the refusal by which it went down last.
fn standing_of(is_on: bool, is_up: bool, failure: Option<Refusal>) -> Standing
    ensures { result ≡ standing_of is_on is_up failure }
{
    match (is_on, is_up, failure) {
        (true, true, _) => Standing::Up,
        (true, false, _) => Standing::Starting,
        (false, true, _) => Standing::Stopping,
        (false, false, None) => Standing::Down,
        (false, false, Some(refusal)) => Standing::Failed(refusal),
    }
}

/// That a node's switch was turned, and what the node was behind that. Only `Host::stop` and `Host::start` give this.
#[derive(Clone, Copy, Debug)]
pub struct Turned {
    node: NodeId,
    is_on: bool,
    standing: Standing,
}

impl Turned {
    /// Which node.
    pub fn node(&self) -> NodeId
        ensures { result ≡ self.now.node }
    {
        self.node
    }

    /// Whether it was started; else it was stopped.
    pub fn is_on(&self) -> bool
        ensures { result ≡ self.now.is_on }
    {
        self.is_on
    }

    /// What it was then.
    pub fn standing(&self) -> Standing
        ensures { result ≡ self.now.standing }
    {
        self.standing
    }
}

/// The switches of a run's nodes, how often one was turned on, and whether the run has ended.
#[derive(Drop)]
pub(crate) struct Steering {
    switches: Switches,
    starts: AtomicU64,
    has_ended: AtomicBool,
}

impl Steering {
    /// Steers a run by these switches.
    pub(crate) fn new(switches: Switches) -> Steering
        ensures { result.switches ≡ switches }
    {
        Steering {
            switches,
            starts: AtomicU64::new(0),
            has_ended: AtomicBool::new(false),
        }
    }

    // What a node is.
    fn look_at<R: Wait>(&self, rt: &R, node: NodeId) -> Standing {
        let is_on = self.switches.is_on(node);
        let is_up = self.switches.is_up(node);
        standing_of(is_on, is_up, self.switches.failure(rt, node))
    }

    // Turns a node's switch. (That it was turned on is counted behind it: who then counts as before has not missed it.)
    fn turn<R: Wait>(&self, rt: &R, node: NodeId, is_on: bool) -> Turned
        ensures { (result.node ≡ node) × (result.is_on ≡ is_on) }
    {
        if is_on {
            self.switches.start(node);
            self.starts.fetch_add(1, Ordering::SeqCst);
        } else {
            self.switches.stop(node);
        }
        Turned {
            node,
            is_on,
            standing: self.look_at(rt, node),
        }
    }
}

/// What a guest and an overseer have beside names.
#[derive(Drop)]
pub struct Host<'x, H> {
    rt: &'x H,
    nodes: Nodes,
    steering: &'x Steering,
}

impl<'x, H> Host<'x, H> {
    /// A host of a run of these nodes.
    pub(crate) fn new(rt: &'x H, nodes: Nodes, steering: &'x Steering) -> Host<'x, H>
        ensures { result.nodes ≡ nodes }
    {
        Host {
            rt,
            nodes,
            steering,
        }
    }

    /// What prints, reads the clock, sleeps, allocates, and waits for locks.
    pub fn rt(&self) -> &H {
        self.rt
    }

    /// How many nodes there are.
    pub fn nodes(&self) -> Nodes
        ensures { result ≡ self.now.nodes }
    {
        self.nodes
    }

    /// The switches of the nodes.
    pub(crate) fn switches(&self) -> &Switches
        ensures { result.now ≡ self.now.steering.now.switches }
    {
        &self.steering.switches
    }

    /// How often a node was started.
    pub(crate) fn starts(&self) -> u64 {
        self.steering.starts.load(Ordering::SeqCst)
    }

    /// No node is started any more, and who waits for one goes on.
    pub(crate) fn close(&self) {
        self.steering.switches.close();
    }

    /// The run has ended, and who waits for its nodes goes on.
    pub(crate) fn end(&self) {
        self.steering.has_ended.store(true, Ordering::SeqCst);
        self.close();
    }

    /// Whether the run has ended: each guest is done, or the nodes' run has failed.
    pub fn is_over(&self) -> bool {
        self.steering.has_ended.load(Ordering::SeqCst)
    }
}

impl<'x, H: Wait> Host<'x, H> {
    /// What a node is.
    pub fn standing(&self, node: NodeId) -> Standing {
        self.steering.look_at(self.rt, node)
    }

    /// Waits until a node has come up or gone down, or a while.
    pub(crate) fn wait(&self) {
        self.steering.switches.wait(self.rt);
    }

    /// Stops a node. It goes down as by a crash of its threads: of what it knew there is left what its disk has. Its guests are told
    /// `Over`, and are called again once it is started.
    ///
    /// A guest of the node itself goes on until it returns, and only then is the node down.
    pub fn stop(&self, node: NodeId) -> Turned
        ensures { (result.node ≡ node) × (result.is_on ≡ false) }
    {
        self.steering.turn(self.rt, node, false)
    }

    /// Starts a node, which recovers from its disk. One whose disk is refused is `Failed`.
    pub fn start(&self, node: NodeId) -> Turned
        ensures { (result.node ≡ node) × (result.is_on ≡ true) }
    {
        self.steering.turn(self.rt, node, true)
    }
}

impl<'x, H: Wait + Clock> Host<'x, H> {
    /// Waits until a node is up or down, and says which. None: so many milliseconds are over before.
    ///
    /// # Errors
    /// `System`, where the clock can't be read.
    pub fn settle(&self, node: NodeId, milliseconds: u64) -> Result<Option<Standing>, ClusterError>
        ensures settled { IfOk result (λ r. IfSome r (λ standing. is_settled standing ≡ true)) }
        ensures err { IfErr result IsUntimed }
    {
        let mut waiting = Waiting::new(self.rt, milliseconds)?;
        for _ in self.rt.forever() {
            let left = waiting.left(self.rt)?;
            let standing = self.standing(node);
            if standing.is_settled() {
                return Ok(Some(standing));
            }
            if left.is_zero() {
                return Ok(None);
            }
            waiting.rest(self.rt, left);
        }
        unreachable!()
    }
}
