//! What a handle can be asked to do: each call is one event of its node, or two in this order.

ghost use Rattle.std.specs.Prelude.{◌≡◌, ◌≢◌, ◌⊎◌, None, Err, Ok, false, IsErr, IsSome, IfOk, IfErr, OnOk, OnErr};
ghost use Rattle.rr_host.specs.Doings.{written_in};
ghost use Rattle.rr_host.specs.declared.doing.Doing.TheVariants as does;
ghost use Rattle.rr_types.specs.declared.input.Input.TheVariants as told;
ghost use Rattle.rr_host.specs.Hosts.{core_in, Tells, IsWhy, TicksOn, StopsTicking, SnapsOn, GoesOn, LeavesOn, AcknowledgesOn};
ghost use Rattle.rr_handle.specs.Seen.{node_in, state_in, IsWhyIn, Comes, Stages, StopsStaging, IsDue, written_by, HearsIn, IsMalformed};

use crate::handle::RrNode;
use core::mem::replace_with;
use rr_disk::Area;
use rr_host::{Host, Leaving};
use rr_types::{Command, Name, Op, Refusal, Reply, RequestNo, Value, made_of};
use std::alloc::Global;

/// Where a write is due, and how many bytes it has.
#[derive(Clone, Copy, Debug)]
pub struct DueWrite {
    pub area: Area,
    pub at: u64,
    pub len: usize,
}

// What comes of the node of a handle, which is taken out and put back. A closed handle is `Down`.
macro_rules! on_host {
    ($handle:expr, $with:expr, |$host:ident, $given:ident| $call:expr) => {
        replace_with($handle, $with, |handle, $given| match handle.into_host() {
            Err(closed) => (closed, Err(Refusal::Down)),
            Ok(mut $host) => {
                let said = $call;
                (RrNode::of($host), said)
            }
        })
    };
}

impl RrNode {
    /// A client asks for this command.
    ///
    /// # Errors
    /// `Down`; `ListFull`, for a new command where all instances are decided here; `TooLarge`; `OutOfMemory`. Nothing has changed then.
    pub fn submit(&mut self, command: &Command) -> Result<(), Refusal>
        ensures ok { OnOk result (Comes (Tells (told.Submit command.now)) (node_in self.old) (node_in self.new)) }
        ensures err { OnErr result (node_in self.new ≡ node_in self.old) }
        ensures cause { IfErr result (IsWhyIn (told.Submit command.now) (node_in self.old)) }
        ensures closed { node_in self.old ≡ None → result ≡ Err Refusal.Down }
    {
        on_host!(self, command, |host, command| submit(&mut host, command))
    }

    /// A message came, as these bytes.
    ///
    /// # Errors
    /// `Malformed` and `Down`, and nothing has changed; else those of the core.
    pub fn hear(&mut self, bytes: &[u8]) -> Result<(), Refusal>
        ensures ok { OnOk result (HearsIn bytes.now (node_in self.old) (node_in self.new)) }
        ensures malformed { IsMalformed bytes.now (node_in self.old) → IsErr result × (node_in self.new ≡ node_in self.old) }
        ensures closed { node_in self.old ≡ None → (result ≡ Err Refusal.Down) × (node_in self.new ≡ None) }
    {
        on_host!(self, bytes, |host, bytes| host.hear(bytes))
    }

    /// A tick of the caller's clock.
    ///
    /// # Errors
    /// `Down`, and nothing has changed; else those of the core.
    pub fn tick(&mut self) -> Result<(), Refusal>
        ensures ok { OnOk result (Comes TicksOn (node_in self.old) (node_in self.new)) }
        ensures stops { IfErr result (λ e. IsSome (node_in self.old) → Comes (λ d k. StopsTicking d k e) (node_in self.old) (node_in self.new)) }
        ensures closed { node_in self.old ≡ None → (result ≡ Err Refusal.Down) × (node_in self.new ≡ None) }
    {
        on_host!(self, (), |host, _nothing| host.tick())
    }

    /// These nodes are suspected to be down, and no others.
    ///
    /// # Errors
    /// `BadNodes`, where a bit is of no node; `Down`; `TooLarge`; `OutOfMemory`. Nothing has changed then.
    pub fn suspect(&mut self, bits: u8) -> Result<(), Refusal>
        ensures ok { OnOk result (Comes (Tells (told.Suspect bits)) (node_in self.old) (node_in self.new)) }
        ensures err { OnErr result (node_in self.new ≡ node_in self.old) }
        ensures closed { node_in self.old ≡ None → result ≡ Err Refusal.Down }
    {
        on_host!(self, bits, |host, bits| host.suspect(bits))
    }

    /// Begins a switch to a snapshot.
    ///
    /// # Errors
    /// `Down`; `Busy` while a job runs; `TooLarge`; `OutOfMemory`. With `Device` and `Failed` the node may be down.
    pub fn snapshot(&mut self) -> Result<(), Refusal>
        ensures ok { OnOk result (Comes SnapsOn (node_in self.old) (node_in self.new)) }
        ensures err { OnErr result ((node_in self.new ≡ node_in self.old) ⊎ Comes (λ d e. e ≡ does.Down) (node_in self.old) (node_in self.new)) }
        ensures closed { node_in self.old ≡ None → (result ≡ Err Refusal.Down) × (node_in self.new ≡ None) }
    {
        on_host!(self, (), |host, _nothing| host.snapshot())
    }

    /// The due write was made and synced, or it couldn't be: the node is down then.
    ///
    /// # Errors
    /// `StrangeMark` where no write is due, and `Down` where the handle is closed: nothing has changed. With any other the node is down.
    pub fn done(&mut self, is_done: bool) -> Result<(), Refusal>
        ensures ok { OnOk result (Comes GoesOn (node_in self.old) (node_in self.new)) }
        ensures said { OnOk result (is_done ≢ false) }
        ensures due { OnOk result (written_by (node_in self.old) ≢ None) }
        ensures strange { written_by (node_in self.old) ≡ None → IsErr result × (node_in self.new ≡ node_in self.old) }
        ensures down { written_by (node_in self.old) ≢ None → OnErr result (Comes (λ d e. e ≡ does.Down) (node_in self.old) (node_in self.new)) }
    {
        on_host!(self, is_done, |host, is_done| host.done(is_done))
    }

    /// What is synced is marked, and then the oldest staged facts go to the disk. It tells the write that is due then, with a copy of its bytes where they
    /// have this room.
    ///
    /// # Errors
    /// `Down`; `OutOfMemory`; `TooLarge`; `StrangeMark`. With `Device` and `Failed` the node is down.
    pub fn due(
        &mut self,
        alloc: Global,
        room: usize,
    ) -> Result<Option<(DueWrite, Vec<u8>)>, Refusal>
        ensures ok { OnOk result (Comes Stages (node_in self.old) (node_in self.new)) }
        ensures answer { IfOk result (λ due. IsDue room due (written_by (node_in self.new))) }
        ensures err { OnErr result ((node_in self.new ≡ node_in self.old) ⊎ Comes StopsStaging (node_in self.old) (node_in self.new)) }
        ensures closed { node_in self.old ≡ None → (result ≡ Err Refusal.Down) × (node_in self.new ≡ None) }
    {
        on_host!(
            self,
            (alloc, room),
            |host, given| next_write(&mut host, given.0, given.1)
        )
    }

    /// The oldest message that may leave. One for the node itself is heard.
    ///
    /// # Errors
    /// `Down`, and nothing has changed; else the message is lost, as a network may lose one.
    pub fn next_message(&mut self) -> Result<Leaving, Refusal>
        ensures leaves { IsSome (node_in self.old) → Comes (λ d e. LeavesOn d result e) (node_in self.old) (node_in self.new) }
        ensures closed { node_in self.old ≡ None → (result ≡ Err Refusal.Down) × (node_in self.new ≡ None) }
    {
        on_host!(self, (), |host, _nothing| host.next_message())
    }

    /// The oldest request that waits here and is decided, with the registry's reply.
    ///
    /// # Errors
    /// `Down`.
    pub fn next_ack(&mut self) -> Result<Option<(RequestNo, Reply)>, Refusal>
        ensures ok { IfOk result (λ answer. Comes (λ d e. AcknowledgesOn d answer e) (node_in self.old) (node_in self.new)) }
        ensures err { OnErr result (node_in self.new ≡ node_in self.old) }
        ensures down { IfErr result (λ e. (e ≡ Refusal.Down) × (state_in (node_in self.old) ≡ None)) }
        ensures closed { node_in self.old ≡ None → result ≡ Err Refusal.Down }
    {
        on_host!(self, (), |host, _nothing| next_ack(&mut host))
    }
}

// A client asks for this command.
fn submit(host: &mut Host, command: &Command) -> Result<(), Refusal>
    ensures ok { OnOk result (Tells (told.Submit command.now) host.old.doing host.new.doing) }
    ensures err { OnErr result (host.new ≡ host.old) }
    ensures cause { IfErr result (IsWhy (told.Submit command.now) host.old.doing) }
    ensures rest { host.new ≡ record host.old { doing = host.new.doing } }
{
    made_of!(Command, Op, Name, Value);
    host.submit(*command)
}

// What is synced is marked, and then the oldest staged facts go to the disk.
fn stage(host: &mut Host) -> Result<(), Refusal>
    ensures ok { OnOk result (Stages host.old.doing host.new.doing) }
    ensures err { OnErr result (StopsStaging host.old.doing host.new.doing) }
    ensures rest { host.new ≡ record host.old { doing = host.new.doing } }
{
    if !host.is_up() {
        return match host.due() {
            Some(_) => Ok(()),
            None => Err(Refusal::Down),
        };
    }
    match host.mark() {
        Ok(()) => host.flush(),
        Err(refusal) => Err(refusal),
    }
}

// The same, and the write that is due then.
fn next_write(
    host: &mut Host,
    alloc: Global,
    room: usize,
) -> Result<Option<(DueWrite, Vec<u8>)>, Refusal>
    ensures ok { OnOk result (Stages host.old.doing host.new.doing) }
    ensures answer { IfOk result (λ due. IsDue room due (written_in host.new.doing)) }
    ensures err { OnErr result (StopsStaging host.old.doing host.new.doing) }
    ensures rest { host.new ≡ record host.old { doing = host.new.doing } }
{
    match stage(host) {
        Ok(()) => due_write(host, alloc, room),
        Err(refusal) => Err(refusal),
    }
}

// The write that is due, with a copy of its bytes where they have this room.
fn due_write(
    host: &Host,
    alloc: Global,
    room: usize,
) -> Result<Option<(DueWrite, Vec<u8>)>, Refusal>
    ensures { IfOk result (λ due. IsDue room due (written_in host.now.doing)) }
{
    match host.due() {
        None => Ok(None),
        Some(written) => {
            let bytes = written.bytes();
            let write = DueWrite {
                area: written.area(),
                at: written.at(),
                len: bytes.len(),
            };
            let mut copy = Vec::new(alloc);
            if write.len <= room {
                copy.extend_from_slice(bytes)?;
            }
            Ok(Some((write, copy)))
        }
    }
}

// The oldest request that waits and is decided.
fn next_ack(host: &mut Host) -> Result<Option<(RequestNo, Reply)>, Refusal>
    ensures ok { IfOk result (λ answer. AcknowledgesOn host.old.doing answer host.new.doing) }
    ensures err { OnErr result (host.new ≡ host.old) }
    ensures down { IfErr result (λ e. (e ≡ Refusal.Down) × (core_in host.old.doing ≡ None)) }
    ensures rest { host.new ≡ record host.old { doing = host.new.doing } }
{
    if host.is_up() {
        Ok(host.next_ack())
    } else {
        Err(Refusal::Down)
    }
}
