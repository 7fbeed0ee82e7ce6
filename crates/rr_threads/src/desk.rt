//! What the threads of a node share.
//!
//! No contract knows what lies under a lock or in an atomic. What is done to it there has its clauses at `Waiting` and `Count`. The calls of
//! `Counter`, `Snapshots` and `Desk` that reach it are a line or two each, and are read: that they do it, and that they ring behind it.

ghost use Rattle.std.specs.Prelude.{◌≡◌, ◌<◌, ◌≤◌, ◌+◌, ◌^◌, min, slice_get, true, false, Some, IfNone, IfSome};
ghost use Rattle.std.specs.Option.{option_copied};
ghost use Rattle.rr_types.specs.Registry.{is_same_request, reply_of};
ghost use Rattle.rr_types.specs.declared.command.Command.{Command};
ghost use Rattle.rr_types.specs.declared.command.RequestNo.{RequestNo};
ghost use Rattle.rr_types.specs.declared.refusal.Refusal.{Refusal};

use crate::publishing::Published;
use crate::shared::{Shared, Start};
use crate::switching::Switched;
use rr_turn::{FlusherBell, FlusherRung, Locked, PublisherBell};
use rr_types::{Command, NodeId, Op, Refusal, Reply, RequestNo, made_of};
use rr_window::{Publisher, Receipt, WindowName};
use std::mem;
use std::sync::atomic::{AtomicBool, Ordering};
use std::sync::{Mutex, Wait};
use std::thread::Parker;

/// What a client waits for, and what has come of it.
#[derive(Drop)]
enum Waiting<W: WindowName> {
    Nothing,
    /// The node's loop is to submit this.
    Submit(Command),
    Reply(RequestNo),
    Refused(Refusal),
    Told(Receipt<W>),
}

impl<W: WindowName> Waiting<W> {
    // The command that is to be submitted, if there is one. Its reply is waited for from now on, so it is given once.
    fn take_wanted(&mut self) -> Option<Command>
        ensures some { IfSome result (λ command. (self.old ≡ Waiting.Submit command) × (self.new ≡ Waiting.Reply command.request)) }
        ensures none { IfNone result (self.new ≡ self.old) }
        ensures all { (command : Command) → self.old ≡ Waiting.Submit command → result ≡ Some command }
    {
        made_of!(Op);
        let command = match &*self {
            Waiting::Submit(command) => *command,
            _ => return None,
        };
        *self = Waiting::Reply(command.request);
        Some(command)
    }

    // The receipt that has come, if one has. Nothing is waited for any more.
    fn take_receipt(&mut self) -> Option<Receipt<W>>
        ensures some { IfSome result (λ receipt. self.old ≡ Waiting.Told receipt) }
        ensures all { (receipt : _) → self.old ≡ Waiting.Told receipt → result ≡ Some receipt }
        ensures then { self.new ≡ Waiting.Nothing }
    {
        match mem::replace(self, Waiting::Nothing) {
            Waiting::Told(receipt) => Some(receipt),
            _ => None,
        }
    }

    // Whether a receipt has come, or a refusal.
    fn is_told(&self) -> bool
        ensures told { (receipt : _) → self.now ≡ Waiting.Told receipt → result ≡ true }
        ensures refused { (refusal : Refusal) → self.now ≡ Waiting.Refused refusal → result ≡ true }
        ensures wants { (command : Command) → self.now ≡ Waiting.Submit command → result ≡ false }
        ensures waits { (request : RequestNo) → self.now ≡ Waiting.Reply request → result ≡ false }
        ensures nothing { self.now ≡ Waiting.Nothing → result ≡ false }
    {
        match self {
            Waiting::Told(_) => true,
            Waiting::Refused(_) => true,
            _ => false,
        }
    }

    // Whether the reply to this request is waited for.
    fn is_for(&self, request: RequestNo) -> bool
        ensures waits { (own : RequestNo) → self.now ≡ Waiting.Reply own → result ≡ is_same_request own request }
        ensures only { result ≡ true → (own : RequestNo) × (self.now ≡ Waiting.Reply own) }
    {
        match self {
            Waiting::Reply(own) => own.is_same(request),
            _ => false,
        }
    }
}

/// That a command was put on a counter, to be submitted. Only `Counter::want` gives this.
#[derive(Clone, Copy, Debug)]
pub struct Wanted {
    command: Command,
}

/// Where a client waits for its receipts: what it waits for, and its bell.
#[derive(Drop)]
pub struct Counter<W: WindowName> {
    pub bell: Parker,
    waiting: Mutex<Waiting<W>>,
}

impl<W: WindowName> Counter<W> {
    /// Nobody waits here yet.
    pub fn new() -> Counter<W> {
        Counter {
            bell: Parker::new(),
            waiting: Mutex::new(Waiting::Nothing),
        }
    }

    /// From now on the client waits until this command is submitted, and then for the reply.
    pub fn want<R: Wait>(&self, rt: &R, command: &Command) -> Wanted
        ensures { result.command ≡ command.now }
    {
        made_of!(Op);
        *self.waiting.lock(rt) = Waiting::Submit(*command);
        Wanted { command: *command }
    }

    /// The command that is to be submitted, if there is one. Its client waits for the reply from now on.
    pub fn take_wanted<R: Wait>(&self, rt: &R) -> Option<Command> {
        self.waiting.lock(rt).take_wanted()
    }

    /// The command that was to be submitted is refused, and its client is rung.
    pub fn refuse<R: Wait>(&self, rt: &R, refusal: Refusal) {
        *self.waiting.lock(rt) = Waiting::Refused(refusal);
        self.bell.unpark();
    }

    /// The client waits for nothing any more. A receipt that has come is its.
    pub fn take<R: Wait>(&self, rt: &R) -> Option<Receipt<W>> {
        self.waiting.lock(rt).take_receipt()
    }

    /// Whether a receipt has come, or a refusal.
    pub fn is_told<R: Wait>(&self, rt: &R) -> bool {
        self.waiting.lock(rt).is_told()
    }

    /// If the client waits for the reply to this request, it gets a receipt.
    fn tell<R: Wait>(&self, rt: &R, publisher: &Publisher<W>, request: RequestNo, reply: Reply)
        requires { reply_of publisher.now.published request ≡ Some reply }
    {
        let mut waiting = self.waiting.lock(rt);
        if waiting.is_for(request) {
            *waiting = Waiting::Told(publisher.receipt(request, reply));
            self.bell.unpark();
        }
    }
}

/// That a snapshot of a node that was asked for is written, as its flusher has noted. Only `Handle::snapshot` gives this.
#[derive(Drop)]
pub struct Written {
    number: u64,
}

/// That a snapshot of a node was asked for. Only `Snapshots::ask` gives this.
#[derive(Clone, Copy, Debug)]
pub struct Asked {
    number: u64,
}

/// That the flusher was rung for a snapshot that was asked for before. Only `Desk::rouse` gives this.
#[derive(Clone, Copy, Debug)]
pub struct Roused {
    asked: Asked,
    rung: FlusherRung,
}

/// That a snapshot is due, and which was the last that was asked for. Only `Snapshots::next` gives this.
#[derive(Clone, Copy, Debug)]
pub struct Due {
    number: u64,
}

/// How many snapshots of a node were asked for, and how many of these are written.
#[derive(Drop)]
struct Count {
    asked: u64,
    written: u64,
    ghost fits: { written ≤ asked },
}

impl Count {
    // None was asked for.
    fn new() -> Count
        ensures none { result.asked ≡ 0 }
    {
        Count {
            asked: 0,
            written: 0,
        }
    }

    // Asks for one more, which isn't written. None: no number is left.
    fn ask(&mut self) -> Option<Asked>
        ensures unwritten { IfSome result (λ asked. self.old.written < asked.number) }
        ensures counted { IfSome result (λ asked. (self.new.asked ≡ asked.number) × (self.new.written ≡ self.old.written)) }
        ensures none { IfNone result ((self.new ≡ self.old) × (self.old.asked + 1 ≡ 2 ^ 64)) }
    {
        let number = self.asked.checked_add(1)?;
        self.asked = number;
        Some(Asked { number })
    }

    // That the last that was asked for is due, unless it is written.
    fn next(&self) -> Option<Due>
        ensures due { IfSome result (λ due. (due.number ≡ self.now.asked) × (self.now.written < due.number)) }
        ensures none { IfNone result (self.now.written ≡ self.now.asked) }
    {
        let number = self.asked;
        if self.written < number {
            Some(Due { number })
        } else {
            None
        }
    }

    // Of those that were asked for the ones up to this are written.
    fn note(&mut self, due: Due)
        ensures { (self.new.asked ≡ self.old.asked) × (self.new.written ≡ min due.number self.old.asked) }
    {
        self.written = due.number.min(self.asked);
    }

    // That the one that was asked for is written, once it is.
    fn written(&self, asked: Asked) -> Option<Written>
        ensures some { IfSome result (λ written. (written.number ≡ asked.number) × (written.number ≤ self.now.written)) }
        ensures none { IfNone result (self.now.written < asked.number) }
    {
        let number = asked.number;
        if number <= self.written {
            Some(Written { number })
        } else {
            None
        }
    }
}

/// Snapshots of a node, under a lock: those that were asked for, and those that are written.
#[derive(Drop)]
pub struct Snapshots {
    count: Mutex<Count>,
}

impl Snapshots {
    fn new() -> Snapshots {
        Snapshots {
            count: Mutex::new(Count::new()),
        }
    }

    /// Asks for one more, which isn't written. None: no number is left.
    pub fn ask<R: Wait>(&self, rt: &R) -> Option<Asked>
        ensures { IfSome result (λ asked. 0 < asked.number) }
    {
        self.count.lock(rt).ask()
    }

    /// That the last that was asked for is due, unless it is written.
    pub fn next<R: Wait>(&self, rt: &R) -> Option<Due>
        ensures { IfSome result (λ due. 0 < due.number) }
    {
        self.count.lock(rt).next()
    }

    /// Those up to the one that is written are written, since their asks came before it was begun.
    pub fn note<R: Wait>(&self, rt: &R, switched: Switched) {
        self.count.lock(rt).note(switched.due());
    }

    /// That the snapshot that the flusher was rung for is written, once it is.
    pub fn written<R: Wait>(&self, rt: &R, roused: Roused) -> Option<Written>
        ensures { IfSome result (λ written. written.number ≡ roused.asked.number) }
    {
        self.count.lock(rt).written(roused.asked)
    }
}

/// Which node it is, by which start it came up, the node under its lock, a bell for its flusher and its publisher,
/// its snapshots, a counter for each client, and whether a command was put on one since the loop last looked.
#[derive(Drop)]
pub struct Desk<W: WindowName> {
    pub node: NodeId,
    start: Start,
    pub locked: Mutex<Locked>,
    pub flusher: FlusherBell,
    pub publisher: PublisherBell,
    pub snapshots: Snapshots,
    pub counters: Vec<Counter<W>>,
    has_wanted: AtomicBool,
}

impl<W: WindowName> Desk<W> {
    /// A node that has come up by this start, with a counter for each of its clients.
    pub fn new(node: NodeId, start: Start, locked: Locked, counters: Vec<Counter<W>>) -> Desk<W>
        ensures whose { (result.node ≡ node) × (result.start ≡ start) }
        ensures counters { result.counters ≡ counters }
    {
        Desk {
            node,
            start,
            locked: Mutex::new(locked),
            flusher: FlusherBell::new(),
            publisher: PublisherBell::new(),
            snapshots: Snapshots::new(),
            counters,
            has_wanted: AtomicBool::new(false),
        }
    }

    /// A client wants a command to be submitted.
    pub fn note_wanted(&self) {
        self.has_wanted.store(true, Ordering::SeqCst);
    }

    /// Whether a client wanted that since the last call.
    pub fn take_note(&self) -> bool {
        self.has_wanted.load(Ordering::SeqCst) && self.has_wanted.swap(false, Ordering::SeqCst)
    }

    /// The node has come up: what its disk had is published.
    pub fn note_up<T>(&self, shared: &Shared<'_, T>, published: Published) {
        shared.note_up(self.node, &self.start, published);
    }

    /// Whether the node goes down, since it is stopped or the run is over.
    pub fn is_ending<T>(&self, shared: &Shared<'_, T>) -> bool {
        shared.is_ending(self.node, &self.start)
    }

    /// The counter of the client at `place`, if there is one.
    pub fn counter(&self, place: usize) -> Option<&Counter<W>>
        ensures { option_copied result ≡ slice_get self.now.counters.items place }
    {
        self.counters.get(place)
    }

    /// Rings for the flusher, behind the ask for a snapshot.
    pub fn rouse(&self, asked: Asked) -> Roused
        ensures { result.asked ≡ asked }
    {
        let rung = self.flusher.ring();
        Roused { asked, rung }
    }

    /// Rings for all of the node's threads but its loop.
    pub fn ring_all(&self) {
        self.flusher.ring();
        self.publisher.ring();
        for counter in &self.counters {
            counter.bell.unpark();
        }
    }

    /// Each client that waits for the reply to this request gets a receipt.
    pub fn tell_all<R: Wait>(
        &self,
        rt: &R,
        publisher: &Publisher<W>,
        request: RequestNo,
        reply: Reply,
    )
        requires { reply_of publisher.now.published request ≡ Some reply }
    {
        for counter in &self.counters {
            counter.tell(rt, publisher, request, reply);
        }
    }
}
