//! What is read of a handle's node: by what is decided and safe there. The node stays as it is.

ghost use Rattle.std.specs.Prelude.{◌≡◌, None, Some, Err, Ok, false, IfOk, IfErr, OnErr, MatchResult, slice_get};
ghost use Rattle.std.specs.Option.{option_map_or};
ghost use Rattle.rr_types.specs.Registry.{registry_of, holding_of};
ghost use Rattle.rr_model.specs.NodeState.{decided_prefix};
ghost use Rattle.rr_host.specs.Hosts.{is_up, core_in};
ghost use Rattle.rr_handle.specs.Seen.{node_in, state_in, read, of_core, standing_of, status_of, answered_at, IsNextOf, IsNextIn};

use crate::handle::RrNode;
use core::mem::replace_with;
use rr_core::Core;
use rr_host::{Host, holding, next_about, standing};
use rr_registry::Holding;
use rr_types::{Command, Name, Op, Refusal, Reply, Value, made_of};

/// How a node that is up stands.
#[derive(Clone, Copy, Debug)]
pub struct Standing {
    /// How many commands are decided and safe here.
    pub decided: u64,
    /// How many of its facts are safe.
    pub facts: u64,
    /// The nodes that it suspects to be down, by bits.
    pub suspects: u8,
}

/// Which node it is, of how many, and how it stands where it is up.
#[derive(Clone, Copy, Debug)]
pub struct Status {
    pub nodes: u8,
    pub node: u8,
    pub standing: Option<Standing>,
}

// What comes of a look at the node of a handle. A closed handle is `Down`.
macro_rules! in_host {
    ($handle:expr, $with:expr, |$host:ident, $given:ident| $call:expr) => {
        replace_with($handle, $with, |handle, $given| match handle.into_host() {
            Err(closed) => (closed, Err(Refusal::Down)),
            Ok($host) => {
                let said = $call;
                (RrNode::of($host), said)
            }
        })
    };
}

impl RrNode {
    /// Whether the node is up. A closed handle's isn't.
    pub fn is_up(&mut self) -> bool
        ensures answer { result ≡ option_map_or (λ h. is_up h.doing) (node_in self.old) false }
        ensures same { node_in self.new ≡ node_in self.old }
    {
        replace_with(self, (), |handle, _nothing| match handle.into_host() {
            Err(closed) => (closed, false),
            Ok(host) => {
                let is_up = host.is_up();
                (RrNode::of(host), is_up)
            }
        })
    }

    /// Which node it is, and how it stands.
    ///
    /// # Errors
    /// `Down` where the handle is closed.
    pub fn status(&mut self) -> Result<Status, Refusal>
        ensures answer { result ≡ option_map_or (λ h. Ok (status_of h)) (node_in self.old) (Err Refusal.Down) }
        ensures same { node_in self.new ≡ node_in self.old }
    {
        in_host!(self, (), |host, _nothing| Ok(status_now(&host)))
    }

    /// Who has a name, with its value.
    ///
    /// # Errors
    /// `Down`.
    pub fn look(&mut self, name: &Name) -> Result<Option<Holding>, Refusal>
        ensures answer { result ≡ read (of_core (λ s. holding_of (registry_of (decided_prefix s)) name.now)) (node_in self.old) }
        ensures down { OnErr result (state_in (node_in self.old) ≡ None) }
        ensures same { node_in self.new ≡ node_in self.old }
    {
        in_host!(self, name, |host, name| look(&host, name))
    }

    /// The bound name at a place, in byte order, and who has it.
    ///
    /// # Errors
    /// `Down`.
    pub fn bound(&mut self, place: usize) -> Result<Option<(Name, Holding)>, Refusal>
        ensures answer { result ≡ read (of_core (λ s. slice_get (registry_of (decided_prefix s)) place)) (node_in self.old) }
        ensures down { OnErr result (state_in (node_in self.old) ≡ None) }
        ensures same { node_in self.new ≡ node_in self.old }
    {
        in_host!(self, place, |host, place| bound(&host, place))
    }

    /// The command at a place of the decided list, with the registry's reply to its request.
    ///
    /// # Errors
    /// `Down`.
    pub fn decided(&mut self, place: usize) -> Result<Option<(Command, Option<Reply>)>, Refusal>
        ensures answer { result ≡ read (of_core (answered_at place)) (node_in self.old) }
        ensures down { OnErr result (state_in (node_in self.old) ≡ None) }
        ensures same { node_in self.new ≡ node_in self.old }
    {
        made_of!(Command, Op, Name, Value, Reply);
        in_host!(self, place, |host, place| decided(&host, place))
    }

    /// The first place of the decided list, from one on, whose command is of this name; the list's length where there is none.
    ///
    /// # Errors
    /// `Down`.
    pub fn watch(&mut self, from: usize, name: &Name) -> Result<usize, Refusal>
        ensures answer { IfOk result (IsNextIn (node_in self.old) from name.now) }
        ensures down { IfErr result (λ e. (e ≡ Refusal.Down) × (state_in (node_in self.old) ≡ None)) }
        ensures same { node_in self.new ≡ node_in self.old }
    {
        in_host!(self, (from, name), |host, about| {
            let (from, name) = about;
            watch(&host, from, name)
        })
    }
}

// The core of a node that is up.
fn core_of(host: &Host) -> Result<&Core, Refusal>
    ensures { MatchResult result (λ core. core_in host.now.doing ≡ Some core.now) (λ e. (e ≡ Refusal.Down) × (core_in host.now.doing ≡ None)) }
{
    match host.core() {
        None => Err(Refusal::Down),
        Some(core) => Ok(core),
    }
}

fn status_now(host: &Host) -> Status
    ensures { result ≡ status_of host.now }
{
    let (nodes, node) = host.owner();
    let standing = match host.core() {
        None => None,
        Some(core) => Some(standing_now(core)),
    };
    Status {
        nodes: nodes.count(),
        node: node.index(),
        standing,
    }
}

fn standing_now(core: &Core) -> Standing
    ensures { result ≡ standing_of core.now }
{
    let now = standing(core);
    Standing {
        decided: now.decided,
        facts: now.facts,
        suspects: now.suspects,
    }
}

fn look(host: &Host, name: &Name) -> Result<Option<Holding>, Refusal>
    ensures answer { result ≡ of_core (λ s. holding_of (registry_of (decided_prefix s)) name.now) host.now.doing }
    ensures down { OnErr result (core_in host.now.doing ≡ None) }
{
    Ok(holding(core_of(host)?, name))
}

fn bound(host: &Host, place: usize) -> Result<Option<(Name, Holding)>, Refusal>
    ensures answer { result ≡ of_core (λ s. slice_get (registry_of (decided_prefix s)) place) host.now.doing }
    ensures down { OnErr result (core_in host.now.doing ≡ None) }
{
    Ok(bound_at(core_of(host)?, place))
}

fn bound_at(core: &Core, place: usize) -> Option<(Name, Holding)>
    ensures { result ≡ slice_get (registry_of (decided_prefix core.now)) place }
{
    core.bindings().nth(place)
}

fn decided(host: &Host, place: usize) -> Result<Option<(Command, Option<Reply>)>, Refusal>
    ensures answer { result ≡ of_core (answered_at place) host.now.doing }
    ensures down { OnErr result (core_in host.now.doing ≡ None) }
{
    made_of!(Command, Op, Name, Value, Reply);
    let core = core_of(host)?;
    match core.decided_at(place) {
        None => Ok(None),
        Some(command) => Ok(Some((command, core.reply(command.request)))),
    }
}

fn watch(host: &Host, from: usize, name: &Name) -> Result<usize, Refusal>
    ensures { MatchResult result (IsNextOf (core_in host.now.doing) from name.now) (λ e. (e ≡ Refusal.Down) × (core_in host.now.doing ≡ None)) }
{
    Ok(next_about(core_of(host)?, from, name))
}
