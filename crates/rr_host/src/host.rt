//! A node as its host sees it.

ghost use Rattle.std.specs.Prelude.{◌≡◌, ◌≢◌, ◌<◌, ◌≤◌, ◌^◌, ◌↔◌, ◌⊎◌, IsTrue, IsErr, [], None, Some, Ok, Err, true, false, IfOk, IfErr, OnOk, OnErr, MatchOption};
ghost use Rattle.rr_types.specs.declared.input.Input.TheVariants as told;
ghost use Rattle.rr_frame.specs.Refused.{answer_of};
ghost use Rattle.rr_frame.specs.MessageFormat.{message_in};
ghost use Rattle.rr_host.specs.Ups.{IsRefused};
ghost use Rattle.rr_host.specs.Doings.{written_in, IsOf};
ghost use Rattle.rr_host.specs.Hosts.{is_up, core_in, Tells, IsWhy, Hears, HearsBytes, TicksOn, StopsTicking, MarksOn, FlushesOn, SnapsOn, GoesOn, LeavesOn, AcknowledgesOn};

use crate::disk::{HostDisk, Written};
use crate::doing::{Doing, open_on};
use crate::up::{Leaving, Stop, Up};
use rr_core::{Core, Opening};
use rr_frame::decode;
use rr_types::{
    Body, Command, Input, Message, NodeId, NodeSet, Nodes, Op, Refusal, Reply, RequestNo, made_of,
};
use std::alloc::Global;
use std::mem;

/// A node of a host. It makes no call of its own: it asks the host for a write (`due`), and the host says whether it made it (`done`).
pub struct Host {
    alloc: Global,
    nodes: Nodes,
    node: NodeId,
    doing: Doing,
}

impl Drop for Host {
    // Whatever runs is given up.
    fn drop(self) {
        let Host {
            alloc: _,
            nodes: _,
            node: _,
            doing,
        } = self;
        doing.give_up();
    }
}

impl Host {
    /// Opens one of the nodes over what its areas hold, which the host has synced and read. A new node's areas are empty, and no others:
    /// a node whose files vanished isn't opened.
    ///
    /// # Errors
    /// `BadNodes`; `Damaged`, where the areas are empty and the node isn't new, or the other way round, or where they hold no facts;
    /// `OutOfMemory`; `TooLarge`, where an area of version 1 has no next epoch.
    pub fn open(
        alloc: Global,
        nodes: u8,
        node: u8,
        first: Vec<u8>,
        second: Vec<u8>,
        is_new: bool,
    ) -> Result<Host, Refusal>
        ensures vanished { OnOk result (IsTrue is_new ↔ ((first.items ≡ []) × (second.items ≡ []))) }
        ensures exists { OnOk result ((nodes ≤ 7) × (node < nodes)) }
        ensures whose { IfOk result (λ h. (h.nodes ≡ nodes) × (h.node ≡ node) × IsOf nodes node h.doing) }
    {
        let nodes = Nodes::new(nodes)?;
        let node = NodeId::new(nodes, node).ok_or(Refusal::BadNodes)?;
        if is_new != (first.is_empty() && second.is_empty()) {
            return Err(Refusal::Damaged { area: 0, offset: 0 });
        }
        let disk = HostDisk::new(alloc, first, second);
        let doing = open_on(alloc, Opening::start(nodes, node, disk))?;
        Ok(Host {
            alloc,
            nodes,
            node,
            doing,
        })
    }

    /// How many nodes there are, and which this is.
    pub fn owner(&self) -> (Nodes, NodeId)
        ensures { result ≡ (self.now.nodes, self.now.node) }
    {
        (self.nodes, self.node)
    }

    /// The write that the host is asked for: it makes it, syncs the area, and says so by `done`.
    pub fn due(&self) -> Option<&Written>
        ensures { MatchOption result (written_in self.now.doing ≡ None) (λ w. written_in self.now.doing ≡ Some w.now) }
    {
        self.doing.written()
    }

    /// Whether the node is up.
    pub fn is_up(&self) -> bool
        ensures { result ≡ is_up self.now.doing }
    {
        match &self.doing {
            Doing::Up(_) => true,
            _ => false,
        }
    }

    /// The core of a node that is up.
    pub fn core(&self) -> Option<&Core>
        ensures { MatchOption result (core_in self.now.doing ≡ None) (λ core. core_in self.now.doing ≡ Some core.now) }
    {
        match &self.doing {
            Doing::Up(up) => Some(up.core()),
            _ => None,
        }
    }

    /// The node does this from now on.
    fn becomes(&mut self, doing: Doing)
        ensures { self.new ≡ record self.old { doing = doing } }
    {
        mem::replace(&mut self.doing, doing).give_up();
    }

    /// The host says of the write that is due that it was made and synced, or that it couldn't be: then the node is down.
    ///
    /// # Errors
    /// `StrangeMark` where no write is due, and nothing has changed; with any other the node is down: `Device`, as the host said, and
    /// those of an opening.
    pub fn done(&mut self, is_done: bool) -> Result<(), Refusal>
        ensures strange { written_in self.old.doing ≡ None → (result ≡ Err Refusal.StrangeMark) × (self.new ≡ self.old) }
        ensures failed { written_in self.old.doing ≢ None → is_done ≡ false → (result ≡ Err Refusal.Device) × (self.new ≡ record self.old { doing = Doing.Down }) }
        ensures ok { OnOk result (GoesOn self.old.doing self.new.doing) }
        ensures err { written_in self.old.doing ≢ None → OnErr result (self.new.doing ≡ Doing.Down) }
        ensures whose { (self.new.nodes ≡ self.old.nodes) × (self.new.node ≡ self.old.node) }
    {
        if self.due().is_none() {
            return Err(Refusal::StrangeMark);
        }
        if !is_done {
            self.becomes(Doing::Down);
            return Err(Refusal::Device);
        }
        let alloc = self.alloc;
        match go_on(alloc, mem::replace(&mut self.doing, Doing::Down)) {
            Ok(doing) => {
                self.becomes(doing);
                Ok(())
            }
            Err(refusal) => Err(refusal),
        }
    }

    /// A node that is up is told this.
    fn tell(&mut self, input: &Input<Message>) -> Result<(), Refusal>
        ensures ok { OnOk result (Tells input.now self.old.doing self.new.doing) }
        ensures err { OnErr result (self.new ≡ self.old) }
        ensures cause { IfErr result (IsWhy input.now self.old.doing) }
        ensures rest { self.new ≡ record self.old { doing = self.new.doing } }
    {
        match &mut self.doing {
            Doing::Up(up) => up.tell(input),
            _ => Err(Refusal::Down),
        }
    }

    /// A client asks for this command.
    ///
    /// # Errors
    /// `Down`; `ListFull`, for a new command where all instances are decided here; `TooLarge`; `OutOfMemory`. Nothing has changed then.
    pub fn submit(&mut self, command: Command) -> Result<(), Refusal>
        ensures ok { OnOk result (Tells (told.Submit command) self.old.doing self.new.doing) }
        ensures err { OnErr result (self.new ≡ self.old) }
        ensures cause { IfErr result (IsWhy (told.Submit command) self.old.doing) }
        ensures rest { self.new ≡ record self.old { doing = self.new.doing } }
    {
        self.tell(&Input::Submit(command))
    }

    /// These nodes, by bits, are suspected to be down, and no others.
    ///
    /// # Errors
    /// `BadNodes`, where a bit is of no node; `Down`; `TooLarge`; `OutOfMemory`. Nothing has changed then.
    pub fn suspect(&mut self, bits: u8) -> Result<(), Refusal>
        ensures ok { OnOk result ((bits < 2 ^ self.old.nodes) × Tells (told.Suspect bits) self.old.doing self.new.doing) }
        ensures err { OnErr result (self.new ≡ self.old) }
        ensures rest { self.new ≡ record self.old { doing = self.new.doing } }
    {
        let Some(suspects) = NodeSet::from_bits(self.nodes, bits) else {
            return Err(Refusal::BadNodes);
        };
        self.tell(&Input::Suspect(suspects))
    }

    /// A message came, as these bytes.
    ///
    /// # Errors
    /// `Malformed`, and nothing has changed; `Down`, the same; else those of the core.
    pub fn hear(&mut self, bytes: &[u8]) -> Result<(), Refusal>
        ensures ok { OnOk result (HearsBytes self.old.nodes bytes.now self.old.doing self.new.doing) }
        ensures malformed { IfErr (answer_of (message_in self.old.nodes bytes.now)) (λ e. (result ≡ Err e) × (self.new ≡ self.old)) }
        ensures down { is_up self.old.doing ≡ false → OnErr result (self.new ≡ self.old) }
        ensures rest { self.new ≡ record self.old { doing = self.new.doing } }
    {
        made_of!(Body, Command, Op);
        let message = decode(self.nodes, bytes)?;
        self.hear_message(&message)
    }

    /// A message came.
    fn hear_message(&mut self, message: &Message) -> Result<(), Refusal>
        ensures ok { OnOk result (Hears message.now self.old.doing self.new.doing) }
        ensures down { is_up self.old.doing ≡ false → (result ≡ Err Refusal.Down) × (self.new ≡ self.old) }
        ensures rest { self.new ≡ record self.old { doing = self.new.doing } }
    {
        match &mut self.doing {
            Doing::Up(up) => up.hear(message),
            _ => Err(Refusal::Down),
        }
    }

    /// A tick of the host's clock.
    ///
    /// # Errors
    /// `Down`, and nothing has changed; else those of the core.
    pub fn tick(&mut self) -> Result<(), Refusal>
        ensures ok { OnOk result (TicksOn self.old.doing self.new.doing) }
        ensures err { IfErr result (StopsTicking self.old.doing self.new.doing) }
        ensures rest { self.new ≡ record self.old { doing = self.new.doing } }
    {
        match &mut self.doing {
            Doing::Up(up) => up.tick(),
            _ => Err(Refusal::Down),
        }
    }

    /// A group whose last write is synced is marked: what it backs may leave from then on.
    ///
    /// # Errors
    /// `Down`, `OutOfMemory`, `StrangeMark`. Nothing has changed then.
    pub fn mark(&mut self) -> Result<(), Refusal>
        ensures ok { OnOk result (MarksOn self.old.doing self.new.doing) }
        ensures err { OnErr result (self.new ≡ self.old) }
        ensures rest { self.new ≡ record self.old { doing = self.new.doing } }
    {
        match &mut self.doing {
            Doing::Up(up) => up.mark(),
            _ => Err(Refusal::Down),
        }
    }

    /// The oldest staged facts, at most 64, go to the disk where no job runs: the host is asked for the first write.
    ///
    /// # Errors
    /// `Down`; `TooLarge`, where the area would pass byte 4,294,967,295; `OutOfMemory`. Nothing has changed then. With `Device` and `Failed`
    /// the node is down.
    pub fn flush(&mut self) -> Result<(), Refusal>
        ensures ok { OnOk result (FlushesOn self.old.doing self.new.doing) }
        ensures err { OnErr result ((self.new ≡ self.old) ⊎ (self.new.doing ≡ Doing.Down)) }
        ensures rest { self.new ≡ record self.old { doing = self.new.doing } }
    {
        let alloc = self.alloc;
        let said = match &mut self.doing {
            Doing::Up(up) => up.flush(alloc),
            _ => Err(Stop::Refused(Refusal::Down)),
        };
        self.stop(said)
    }

    /// A call at the node stopped so. Where a device call failed the node is down.
    fn stop(&mut self, said: Result<(), Stop>) -> Result<(), Refusal>
        ensures ok { OnOk said ((result ≡ Ok tt) × (self.new ≡ self.old)) }
        ensures err { IfErr said (λ stop. IsErr result × (IsRefused stop → self.new ≡ self.old) × ((IsRefused stop → ⊥) → self.new ≡ record self.old { doing = Doing.Down })) }
    {
        match said {
            Ok(()) => Ok(()),
            Err(Stop::Refused(refusal)) => Err(refusal),
            Err(Stop::Fallen(refusal)) => {
                self.becomes(Doing::Down);
                Err(refusal)
            }
        }
    }

    /// A switch to a snapshot of what is marked begins, where no job runs. It goes on by `done`.
    ///
    /// # Errors
    /// `Down`; `Busy` while a job runs; `TooLarge`; `OutOfMemory`. Nothing has changed then. With `Device` and `Failed` the node may be down.
    pub fn snapshot(&mut self) -> Result<(), Refusal>
        ensures ok { OnOk result (SnapsOn self.old.doing self.new.doing) }
        ensures err { OnErr result ((self.new ≡ self.old) ⊎ (self.new.doing ≡ Doing.Down)) }
        ensures rest { self.new ≡ record self.old { doing = self.new.doing } }
    {
        let alloc = self.alloc;
        let said = match &mut self.doing {
            Doing::Up(up) => up.snapshot(alloc),
            _ => Err(Stop::Refused(Refusal::Down)),
        };
        self.stop(said)
    }

    /// The oldest message that may leave: the facts behind it are synced. One for the node itself is heard, and not handed out.
    ///
    /// # Errors
    /// `Down`, and nothing has changed; else the message is lost, as a network may lose one.
    pub fn next_message(&mut self) -> Result<Leaving, Refusal>
        ensures up { LeavesOn self.old.doing result self.new.doing }
        ensures rest { self.new ≡ record self.old { doing = self.new.doing } }
    {
        let alloc = self.alloc;
        match &mut self.doing {
            Doing::Up(up) => up.next_message(alloc),
            _ => Err(Refusal::Down),
        }
    }

    /// The oldest request that waits here and is decided, with the registry's reply to it. None of a node that isn't up.
    pub fn next_ack(&mut self) -> Option<(RequestNo, Reply)>
        ensures up { AcknowledgesOn self.old.doing result self.new.doing }
        ensures rest { self.new ≡ record self.old { doing = self.new.doing } }
    {
        match &mut self.doing {
            Doing::Up(up) => up.next_ack(),
            _ => None,
        }
    }
}

/// The host has made the write that was due, and synced it.
fn go_on(alloc: Global, doing: Doing) -> Result<Doing, Refusal>
    ensures { IfOk result (GoesOn doing) }
{
    match doing {
        Doing::Down => Err(Refusal::Down),
        Doing::Opening(opening) => open_on(alloc, opening),
        Doing::Up(up) => up_on(up),
    }
}

// The same at a node that is up.
fn up_on(up: Up) -> Result<Doing, Refusal>
    ensures { IfOk result (GoesOn (Doing.Up up)) }
{
    let mut up = up;
    match up.done() {
        Ok(()) => Ok(Doing::Up(up)),
        Err(refusal) => {
            up.give_up();
            Err(refusal)
        }
    }
}
