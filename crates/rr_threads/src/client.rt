//! Clients of a node, and what they ask it with.
//!
//! No contract knows what lies on a counter, under the node's lock or in an atomic. So when a node goes down, which snapshot is asked for,
//! and whose promise and which reused numbers are told has no clause: `is_over`, `snapshot`, `promise`, `reused` and `serve` are read.

ghost use Rattle.std.specs.Prelude.{◌≡◌, ◌⊎◌, ◌+◌, ◌<◌, ◌≤◌, true, None, Some, length, IfSome, IfOk, OnOk, OnErr, IfErr};
ghost use mathlib.Core.List.{IsPrefix};
ghost use Rattle.rr_types.specs.declared.refusal.Refusal.TheVariants.{NoGuard, OutOfMemory};
ghost use Rattle.rr_types.specs.Limits.{instance_count};
ghost use Rattle.rr_types.specs.Registry.{registry_of};
ghost use Rattle.rr_model.specs.NodeState.{NodeState, decided_prefix};
ghost use Rattle.rr_turn.specs.Asked.{Call};
ghost use Rattle.rr_window.specs.Sights.{bindings_with};
ghost use Rattle.rr_window.specs.Watches.{IsWatched};
ghost use Rattle.rr_threads.specs.Asking.{IsAnswered, IsSeen, IsAnswerTo, wanted_after};
ghost use Rattle.rr_threads.specs.Errands.{errand_gives};
ghost use Rattle.rr_threads.specs.Fates.{fate_of};
ghost use Rattle.rr_threads.specs.Summaries.{IsSummary};
ghost use Rattle.rr_threads.specs.Syncing.{to_itself};

use crate::desk::{Counter, Desk, Roused, Wanted, Written};
use crate::fate::{Fate, fate_in};
use crate::rest::{FIRST, LONG, Rest};
use crate::reused::{Reused, reused_at};
use crate::shared::Shared;
use crate::summary::summary_of;
use rr_text::{Answer, ScriptLine};
use rr_turn::{Awaited, ClientEnds, Rung, Turnstile, await_receipt};
use rr_types::{
    Binding, Command, INSTANCES, Name, NodeId, NodeSummary, Op, Promise, Refusal, Reply, RequestNo,
    Value, made_of,
};
use rr_window::{Change, Receipt, Seat, Sight, Watch, WindowName};
use std::alloc::Global;
use std::marker::Model;
use std::sync::Wait;

/// A name that is looked at for what the look learns.
const ANY: &[u8] = b"any";

/// How many times a client looks for its receipt before it gives up: for some days.
const POLLS: u32 = 10_000_000;

/// Someone who asks one node, in a thread of its own and with a seat of its own.
pub trait Client {
    /// Asks what it has to ask, by this handle. The run lasts until each client has returned from here. An error ends
    /// it, but `Down` where the node is being stopped: then this is called again once the node is started.
    fn run<W: WindowName, T: Turnstile, R: Wait>(
        &mut self,
        handle: &mut Handle<'_, '_, W, T, R>,
    ) -> Result<(), Refusal>;
}

/// What a client asks its node with. Contracts see the node, the longest list that the client's seat has seen or learned, how often the
/// client has rested while it waited for replies, and which command it has put on its counter last, to be submitted.
#[derive(Drop)]
pub struct Handle<'d, 'x, W: WindowName, T, R> {
    rt: &'d R,
    shared: &'d Shared<'x, T>,
    desk: &'d Desk<W>,
    counter: &'d Counter<W>,
    node: NodeId,
    seat: Seat<W>,
    rests: u64,
    wanted: Option<Wanted>,
}

impl<'d, 'x, W: WindowName, T, R> Model for Handle<'d, 'x, W, T, R> {
    ghost use Rattle.std.specs.Option.{option_map};
    ghost use Rattle.rr_threads.specs.Asking.{Asking};

    ghost Value = { Asking };

    ghost view = { λ h. record { node = h.node; known = h.seat; rests = h.rests; wanted = option_map (λ w. w.command) h.wanted } };
}

/// What a client has at its node while it waits for a reply, and what it has put on its counter. What the others hold no contract knows: each
/// of those calls is a line, to be read.
#[derive(Drop)]
struct Errand<'d, 'x, W: WindowName, T, R> {
    rt: &'d R,
    shared: &'d Shared<'x, T>,
    desk: &'d Desk<W>,
    counter: &'d Counter<W>,
    wanted: Option<Wanted>,
    rest: Rest,
}

impl<'d, 'x, W: WindowName, T: Turnstile, R: Wait> ClientEnds<W> for Errand<'d, 'x, W, T, R> {
    ghost gives = { λ old call new. errand_gives old.wanted call new.wanted };

    fn want(&mut self, command: &Command) {
        self.wanted = Some(self.counter.want(self.rt, command));
    }

    fn note_wanted(&mut self) {
        self.desk.note_wanted();
    }

    fn wake_loop(&mut self, node: NodeId) -> Rung {
        self.shared.running.ring(node)
    }

    fn is_told(&mut self) -> bool {
        self.counter.is_told(self.rt)
    }

    fn is_ending(&mut self) -> bool {
        self.desk.is_ending(self.shared)
    }

    fn rest(&mut self) {
        self.rest.wait(self.rt, &self.counter.bell);
    }

    fn collect(&mut self) -> Option<Receipt<W>> {
        self.counter.take(self.rt)
    }
}

// The receipt, if it is that of this request.
#[tactic(auto, using(crate::proofs::Replies::same_request))]
fn receipt_of<W: WindowName>(receipt: Option<Receipt<W>>, request: RequestNo) -> Option<Receipt<W>>
    ensures { IfSome result (λ receipt. receipt.request ≡ request) }
{
    let receipt = receipt?;
    if receipt.request().is_same(request) {
        Some(receipt)
    } else {
        None
    }
}

// What a client has got for a command, how often it has rested, and what it has put on its counter.
#[derive(Drop)]
struct Served<W: WindowName> {
    receipt: Option<Receipt<W>>,
    rests: u32,
    wanted: Option<Wanted>,
}

// The receipt of a command, which is put on the client's counter, once the node has it decided and published; none where it is refused, the
// node goes down before, or the client gives up, after so many looks.
fn receipt_for<W: WindowName, T: Turnstile, R: Wait>(
    rt: &R,
    shared: &Shared<'_, T>,
    desk: &Desk<W>,
    counter: &Counter<W>,
    looks: u32,
    command: &Command,
) -> Served<W>
    ensures receipt { IfSome result.receipt (λ receipt. receipt.request ≡ command.now.request) }
    ensures wanted { result.wanted ≡ Some (record { command = command.now }) }
    ensures few { result.rests ≤ looks }
{
    let mut errand = Errand {
        rt,
        shared,
        desk,
        counter,
        wanted: None,
        rest: Rest::rung(),
    };
    let Awaited { receipt, rests } = await_receipt(&mut errand, desk.node, looks, command);
    Served {
        receipt: receipt_of(receipt, command.request),
        rests,
        wanted: errand.wanted,
    }
}

// The command with this request number that leaves the registry as it is.
fn command_to_itself(request: RequestNo, name: Name) -> Command
    ensures { result ≡ to_itself request name }
{
    Command {
        request,
        op: Op::Transfer(name, request.client),
    }
}

impl<'d, 'x, W: WindowName, T: Turnstile, R: Wait> Handle<'d, 'x, W, T, R> {
    /// What the client may wait with.
    pub fn rt(&self) -> &R {
        self.rt
    }

    /// The node that it asks.
    pub fn node(&self) -> NodeId
        ensures { result ≡ self.now.node }
    {
        self.node
    }

    /// Whether the node goes down, since it is stopped or the run is over. Then no submit is acknowledged any more.
    pub fn is_over(&self) -> bool {
        self.desk.is_ending(self.shared)
    }

    /// The node in brief.
    pub fn summary(&self) -> NodeSummary
        ensures { IsSummary result }
    {
        summary_of(self.desk.locked.lock(self.rt).core())
    }

    /// Has the node write a snapshot of its facts to the other area of its disk, and waits for so many looks, as `submit_within`
    /// does. None: it isn't written yet. A snapshot that is refused ends the run.
    pub fn snapshot(&self, looks: u32) -> Option<Written> {
        let asked = self.desk.snapshots.ask(self.rt)?;
        self.written_within(looks, self.desk.rouse(asked))
    }

    // Waits until the snapshot is written for which the flusher was rung, for so many looks.
    fn written_within(&self, looks: u32, roused: Roused) -> Option<Written>
        ensures { IfSome result (λ written. written.number ≡ roused.asked.number) }
    {
        let mut rest = Rest::new(FIRST, LONG);
        for _ in 0..looks {
            if let Some(written) = self.desk.snapshots.written(self.rt, roused) {
                return Some(written);
            }
            if self.is_over() {
                break;
            }
            rest.wait(self.rt, &self.counter.bell);
        }
        None
    }

    /// Submits a command, and waits for its reply, some days at most: it rests ten million times. What is looked at from then on has it. A run ends whose tape
    /// may lack the submit.
    pub fn submit(&mut self, command: &Command) -> Answer
        ensures answer { IsAnswered command.now.request self.new result }
        ensures asked { self.new.wanted ≡ Some command.now }
        ensures later { IsPrefix self.old.known self.new.known }
        ensures same { self.new.node ≡ self.old.node }
        ensures rests { self.new.rests ≤ self.old.rests + 10_000_000 }
    {
        self.submit_within(POLLS, command)
    }

    /// Submits a command as `submit` does, and gives up after so many looks for its reply: 100 take four seconds. A command that
    /// isn't acknowledged by then may come to be decided, and so may its reply come to a later submit of it.
    #[tactic(auto, using(crate::proofs::Replies::later_reply))]
    pub fn submit_within(&mut self, looks: u32, command: &Command) -> Answer
        ensures answer { IsAnswered command.now.request self.new result }
        ensures asked { self.new.wanted ≡ Some command.now }
        ensures later { IsPrefix self.old.known self.new.known }
        ensures same { self.new.node ≡ self.old.node }
        ensures rests { self.new.rests ≤ self.old.rests + looks }
    {
        let node = self.node;
        let request = command.request;
        let Served {
            receipt,
            rests,
            wanted,
        } = receipt_for(
            self.rt,
            self.shared,
            self.desk,
            self.counter,
            looks,
            command,
        );
        self.rests = self.rests.saturating_add(u64::from(rests));
        self.wanted = wanted;
        match receipt {
            None => Answer::Unacknowledged { node, request },
            Some(receipt) => {
                self.seat.learn(&receipt);
                let reply = receipt.reply();
                Answer::Acknowledged {
                    node,
                    request,
                    reply,
                }
            }
        }
    }

    /// Submits a command once more that wasn't acknowledged, under its request number, as `submit_within` does. However often it
    /// is submitted, it counts once.
    pub fn submit_again(&mut self, looks: u32, command: &Command) -> Answer
        ensures answer { IsAnswered command.now.request self.new result }
        ensures asked { self.new.wanted ≡ Some command.now }
        ensures later { IsPrefix self.old.known self.new.known }
        ensures same { self.new.node ≡ self.old.node }
        ensures rests { self.new.rests ≤ self.old.rests + looks }
    {
        self.submit_within(looks, command)
    }

    /// Waits until this client knows all that was acknowledged anywhere before it asked: a look behind that has it. The request
    /// number has to be a new one. Under it a command is decided that leaves the registry as it is, the transfer of this name to the
    /// client itself, so each call takes a place of the decided list. It gives up as `submit_within` does. An answer that isn't
    /// `Acknowledged` tells nothing.
    pub fn sync(&mut self, looks: u32, request: RequestNo, name: &Name) -> Answer
        ensures answer { IsAnswered request self.new result }
        ensures asked { self.new.wanted ≡ Some (to_itself request name.now) }
        ensures later { IsPrefix self.old.known self.new.known }
        ensures same { self.new.node ≡ self.old.node }
        ensures rests { self.new.rests ≤ self.old.rests + looks }
    {
        self.submit_within(looks, &command_to_itself(request, *name))
    }

    /// Waits until this client knows a full list, so all that can ever be decided, as `sync` waits. Answers whether it does. Behind a
    /// full list no command is decided, so `sync` can't tell then. A node that lacks some of them asks the others at its ticks.
    pub fn know_all(&mut self, looks: u32) -> bool
        ensures known { result ≡ true → length self.new.known ≡ instance_count }
        ensures all { length self.old.known ≡ instance_count → result ≡ true }
        ensures later { IsPrefix self.old.known self.new.known }
        ensures same { self.new.node ≡ self.old.node }
        ensures rests { self.new.rests ≤ self.old.rests + looks }
        ensures asked { self.new.wanted ≡ self.old.wanted }
    {
        let mut rest = Rest::new(FIRST, LONG);
        let mut knows = self.knows_all();
        for looked in 0..looks {
            if knows || self.is_over() {
                break;
            }
            self.rest_once(&mut rest);
            knows = self.knows_all();
        }
        knows
    }

    // Waits a little for what the node publishes.
    fn rest_once(&mut self, rest: &mut Rest)
        ensures known { self.new.known ≡ self.old.known }
        ensures same { self.new.node ≡ self.old.node }
        ensures rests { self.new.rests ≤ self.old.rests + 1 }
        ensures asked { self.new.wanted ≡ self.old.wanted }
    {
        rest.wait(self.rt, &self.counter.bell);
        self.rests = self.rests.saturating_add(1);
    }

    // Whether this client knows a full list, once it has seen what is published.
    fn knows_all(&mut self) -> bool
        ensures known { result ≡ true → length self.new.known ≡ instance_count }
        ensures all { length self.old.known ≡ instance_count → result ≡ true }
        ensures later { IsPrefix self.old.known self.new.known }
        ensures same { self.new.node ≡ self.old.node }
        ensures rests { self.new.rests ≡ self.old.rests }
        ensures asked { self.new.wanted ≡ self.old.wanted }
    {
        if self.seat.count() == u64::from(INSTANCES) {
            return true;
        }
        // (a look at any name sees what is published; one that is given no guard sees nothing new)
        if let Ok(name) = Name::new(ANY) {
            let _ = self.seat.look(&name);
        }
        self.seat.count() == u64::from(INSTANCES)
    }

    /// What this node's list of decided commands says of a command.
    pub fn fate(&self, command: &Command) -> Fate
        ensures { (s : NodeState) × (result ≡ fate_of (decided_prefix s) command.now) }
    {
        let locked = self.desk.locked.lock(self.rt);
        fate_in(locked.core(), command)
    }

    /// The submits of a script at this node, in its order, for whose request numbers this node's list of decided commands has
    /// other commands.
    ///
    /// # Errors
    /// `OutOfMemory`.
    pub fn reused(&self, alloc: Global, lines: &[ScriptLine]) -> Result<Vec<Reused>, Refusal> {
        let locked = self.desk.locked.lock(self.rt);
        Ok(reused_at(alloc, locked.core(), self.node, lines)?)
    }

    /// Where each instance stands by the facts that this node knows to be on its disk.
    ///
    /// # Errors
    /// `OutOfMemory`.
    pub fn promise(&self, alloc: Global) -> Result<Promise, Refusal> {
        Ok(self.desk.locked.lock(self.rt).core().marked_promise(alloc)?)
    }

    /// Looks at a name, without waiting.
    pub fn look(&mut self, name: &Name) -> Answer
        ensures answer { IsSeen name.now self.old self.new result }
        ensures later { IsPrefix self.old.known self.new.known }
        ensures same { self.new.node ≡ self.old.node }
        ensures rests { self.new.rests ≡ self.old.rests }
        ensures asked { self.new.wanted ≡ self.old.wanted }
    {
        made_of!(Op, Sight, Value);
        let node = self.node;
        let name = *name;
        match self.seat.look(&name) {
            Err(_) => Answer::Unseen { node, name },
            Ok(sight) => match &sight {
                Sight::Free => Answer::Free { node, name },
                Sight::Bound(owner, value) => Answer::Bound {
                    node,
                    name,
                    owner: *owner,
                    value: *value,
                },
            },
        }
    }

    /// Lists the bindings whose names begin with these bytes, in byte order, without waiting.
    ///
    /// # Errors
    /// `OutOfMemory`. `NoGuard`, where the window gave no guard. Then the client knows what it knew.
    pub fn list(&mut self, alloc: Global, prefix: &[u8]) -> Result<Vec<Binding>, Refusal>
        ensures bindings { IfOk result (λ bindings. bindings.items ≡ bindings_with prefix.now (registry_of self.new.known)) }
        ensures later { IsPrefix self.old.known self.new.known }
        ensures kept { OnErr result (self.new ≡ self.old) }
        ensures same { self.new.node ≡ self.old.node }
        ensures rests { self.new.rests ≡ self.old.rests }
        ensures asked { self.new.wanted ≡ self.old.wanted }
        ensures err { IfErr result (λ e. (e ≡ OutOfMemory) ⊎ (e ≡ NoGuard)) }
    {
        self.seat.list(alloc, prefix)
    }

    /// A watch of what this node publishes: from what the client has seen and learned on, `changes` tells of it.
    pub fn watch(&self) -> Watch<W>
        ensures { result ≡ self.now.known }
    {
        self.seat.watch()
    }

    /// The changes that this node has published since those that the watch was told before, of names that begin with these bytes:
    /// each once, in the order of the list, and without waiting. None: more than 1,024 commands were published since. The watch then
    /// goes on behind them, and a list tells what they left.
    ///
    /// # Errors
    /// As of `list`. Then the watch is where it was, too.
    pub fn changes(
        &mut self,
        alloc: Global,
        prefix: &[u8],
        watch: &mut Watch<W>,
    ) -> Result<Option<Vec<Change>>, Refusal>
        ensures told { IfOk result (λ r. IfSome r (λ changes. IsWatched prefix.now watch.old self.new.known changes.items)) }
        ensures late { IfOk result (λ r. r ≡ None → length watch.old + 1024 < length self.new.known) }
        ensures reached { OnOk result (watch.new ≡ self.new.known) }
        ensures later { IsPrefix self.old.known self.new.known }
        ensures kept { OnErr result ((self.new ≡ self.old) × (watch.new ≡ watch.old)) }
        ensures same { self.new.node ≡ self.old.node }
        ensures rests { self.new.rests ≡ self.old.rests }
        ensures asked { self.new.wanted ≡ self.old.wanted }
        ensures err { IfErr result (λ e. (e ≡ OutOfMemory) ⊎ (e ≡ NoGuard)) }
    {
        self.seat.changes(alloc, prefix, watch)
    }

    /// Asks this node what a line asks, no matter which node the line names.
    pub fn ask(&mut self, line: &ScriptLine) -> Answer
        ensures answer { IsAnswerTo line.now self.old self.new result }
        ensures asked { self.new.wanted ≡ wanted_after line.now self.old }
        ensures later { IsPrefix self.old.known self.new.known }
        ensures same { self.new.node ≡ self.old.node }
        ensures rests { self.new.rests ≤ self.old.rests + 10_000_000 }
    {
        self.ask_within(POLLS, line)
    }

    /// Asks as `ask` does, and gives a submit up after so many looks for its reply, as `submit_within` does.
    pub fn ask_within(&mut self, looks: u32, line: &ScriptLine) -> Answer
        ensures answer { IsAnswerTo line.now self.old self.new result }
        ensures asked { self.new.wanted ≡ wanted_after line.now self.old }
        ensures later { IsPrefix self.old.known self.new.known }
        ensures same { self.new.node ≡ self.old.node }
        ensures rests { self.new.rests ≤ self.old.rests + looks }
    {
        made_of!(Answer, ScriptLine, Command, Op, Name, Reply, Value);
        match line {
            ScriptLine::Submit { node: _, command } => self.submit_within(looks, command),
            ScriptLine::Look { node: _, name } => self.look(name),
        }
    }
}

/// Serves the client at this place of its node. Gives the client back where the node goes down before it is done.
pub fn serve<'d, 'x, W: WindowName, T: Turnstile, R: Wait, C: Client + Drop>(
    rt: &'d R,
    shared: &'d Shared<'x, T>,
    desk: &'d Desk<W>,
    place: usize,
    seat: Seat<W>,
    client: C,
) -> Option<C> {
    let mut client = client;
    let told = match desk.counter(place) {
        Some(counter) => {
            let mut handle = Handle {
                rt,
                shared,
                desk,
                counter,
                node: desk.node,
                seat,
                rests: 0,
                wanted: None,
            };
            client.run(&mut handle)
        }
        None => Ok(()),
    };
    match told {
        Err(Refusal::Down) if desk.is_ending(shared) => return Some(client),
        Err(refusal) => {
            shared.running.fail(rt, desk.node, refusal);
        }
        Ok(()) => {}
    }
    shared.running.leave(rt, client);
    None
}
