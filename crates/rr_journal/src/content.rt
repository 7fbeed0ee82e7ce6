//! The content of an area: the promise of its facts, and the place of the last gate.

ghost use Rattle.std.specs.Prelude.{◌≡◌, ◌+◌, ◌<◌, ◌^◌, length, Some, None, MatchOption, IfSome, IfOk, Result, Ok, Err};
ghost use Rattle.rr_journal.specs.Image.{frame_behind, with_group, after_payload, content_from};
ghost use Rattle.rr_journal.specs.Ends.{Ends};

use crate::entries::Entries;
use crate::promised::take_on_all;
use rr_frame::{Reader, Version, decode_group};
use rr_types::{Group, Kept, NodeId, Nodes, Promise, Refusal};
use std::alloc::{AllocError, Global};
use std::marker::Model;

/// An open gate. Every other byte is a closed one.
pub const OPEN_GATE: u8 = 0xA5;

/// What an active area holds: its epoch, the promise of the facts, the number of the next one, and the
/// place of the last gate.
#[derive(Debug, Drop)]
pub struct Content {
    epoch: u64,
    entries: Vec<Kept>,
    next: u64,
    gate: u64,
}

impl Model for Content {
    ghost use Rattle.rr_types.specs.Promises.{IsAscending};
    ghost use Rattle.rr_journal.specs.Image.{Content as ContentOf};

    ghost Value = { ContentOf };

    ghost view = { λ c. record { epoch = c.epoch; promise = c.entries.items; next = c.next; gate = c.gate } };

    ghost invariant = { λ c. IsAscending c.entries.items };
}

/// Why reading an area stopped.
#[derive(Clone, Copy, Debug, PartialEq, Eq)]
pub enum Halt {
    /// A growth was refused.
    OutOfMemory,
    /// The open gate at this offset stands before bytes that are no lawful frame there.
    Broken(u64),
}

impl Content {
    /// The content of an area that begins with a snapshot of this promise.
    pub fn new(epoch: u64, promise: Promise, next: u64, gate: u64) -> Content
        ensures { result ≡ record { epoch = epoch; promise = promise; next = next; gate = gate } }
    {
        let entries = promise.into_entries();
        Content {
            epoch,
            entries,
            next,
            gate,
        }
    }

    /// The epoch of the area.
    pub fn epoch(&self) -> u64
        ensures { result ≡ self.now.epoch }
    {
        self.epoch
    }

    /// The number of the next fact.
    pub fn next(&self) -> u64
        ensures { result ≡ self.now.next }
    {
        self.next
    }

    /// The place of the last gate, which is closed.
    pub fn gate(&self) -> u64
        ensures { result ≡ self.now.gate }
    {
        self.gate
    }

    /// The promise of the facts.
    pub fn into_promise(self) -> Promise
        ensures { result ≡ self.promise }
    {
        let Content {
            epoch: _,
            entries,
            next: _,
            gate: _,
        } = self;
        Promise::new(entries)
    }
}

/// The frame behind an open gate: its payload, and the bytes from the next gate on. None where it isn't whole.
#[tactic(auto, unfolding(rr_frame::specs::Reading::number_at))]
pub fn frame_behind(bytes: &[u8]) -> Option<(&[u8], &[u8])>
    ensures value { MatchOption result (frame_behind bytes.now ≡ None) (λ x. frame_behind bytes.now ≡ Some (x.0.now, x.1.now)) }
    ensures parts { IfSome result (λ x. 4 + length x.0.now + length x.1.now ≡ length bytes.now) }
{
    if bytes.len() < 4 {
        return None;
    }
    let mut reader = Reader::new(bytes);
    let Ok(count) = reader.u32() else {
        return None;
    };
    let count = count as usize;
    let (_, behind) = bytes.split_at(4);
    if behind.len() <= count {
        return None;
    }
    let (payload, rest) = behind.split_at(count);
    Some((payload, rest))
}

/// A content while groups are read.
#[derive(Drop)]
struct Reading {
    epoch: u64,
    entries: Entries,
    next: u64,
    gate: u64,
}

impl Model for Reading {
    ghost use Rattle.rr_journal.specs.Image.{Content as ContentOf};

    ghost Value = { ContentOf };

    ghost view = { λ r. record { epoch = r.epoch; promise = r.entries; next = r.next; gate = r.gate } };
}

impl Reading {
    /// A content to go on with.
    fn of(alloc: Global, content: Content) -> Result<Reading, AllocError>
        ensures { IfOk result (λ r. r ≡ content) }
    {
        let Content {
            epoch,
            entries,
            next,
            gate,
        } = content;
        let entries = Entries::of(alloc, entries)?;
        Ok(Reading {
            epoch,
            entries,
            next,
            gate,
        })
    }

    /// What was read.
    fn into_content(self) -> Result<Content, AllocError>
        ensures { IfOk result (λ c. c ≡ self) }
    {
        let Reading {
            epoch,
            entries,
            next,
            gate,
        } = self;
        let entries = entries.into_vec()?;
        Ok(Content {
            epoch,
            entries,
            next,
            gate,
        })
    }

    /// The place of the last gate.
    fn gate(&self) -> u64
        ensures { result ≡ self.now.gate }
    {
        let gate = self.gate;
        gate
    }

    /// The content after a group, which fits if it begins with the next fact and each fact fits the promise before.
    fn with_group(
        self,
        alloc: Global,
        nodes: Nodes,
        node: NodeId,
        group: &Group,
        size: u64,
    ) -> Result<Option<Reading>, AllocError>
        requires { self.gate + 5 + size < 2 ^ 64 }
        ensures { IfOk result (λ c. c ≡ with_group nodes node group.now size self) }
    {
        let Reading {
            epoch,
            mut entries,
            next,
            gate,
        } = self;
        let facts = group.facts();
        if group.serial() != next {
            return Ok(None);
        }
        match take_on_all(alloc, nodes, node, &mut entries, facts) {
            Ok(true) => Ok(Some(Reading {
                epoch,
                entries,
                next: next + facts.len() as u64,
                gate: gate + 5 + size,
            })),
            Ok(false) => Ok(None),
            Err(e) => Err(e),
        }
    }

    /// The content after the group of this payload, if it is lawful there in an area of this version.
    fn after_payload(
        self,
        alloc: Global,
        version: Version,
        nodes: Nodes,
        node: NodeId,
        payload: &[u8],
    ) -> Result<Option<Reading>, AllocError>
        requires { self.gate + 5 + length payload.now < 2 ^ 64 }
        ensures { IfOk result (λ c. c ≡ after_payload version nodes node self payload.now) }
    {
        match decode_group(alloc, version, payload) {
            Ok(group) => self.with_group(alloc, nodes, node, &group, payload.len() as u64),
            Err(Refusal::OutOfMemory) => Err(AllocError),
            Err(_) => Ok(None),
        }
    }
}

/// Reads the groups of an area of this version from the gate on that these bytes begin with.
pub fn read_groups(
    alloc: Global,
    version: Version,
    nodes: Nodes,
    node: NodeId,
    content: Content,
    bytes: &[u8],
) -> Result<Content, Halt>
    requires { content.gate + length bytes.now < 2 ^ 64 }
    ensures { Ends result (content_from version (length bytes.now) nodes node content bytes.now) }
{
    let Ok(mut reading) = Reading::of(alloc, content) else {
        return Err(Halt::OutOfMemory);
    };
    let mut rest = bytes;
    while !rest.is_empty() && rest[0] == OPEN_GATE {
        let gate = reading.gate();
        let Some((payload, after)) = frame_behind(&rest[1..]) else {
            return Err(Halt::Broken(gate));
        };
        match reading.after_payload(alloc, version, nodes, node, payload) {
            Ok(Some(next)) => {
                reading = next;
                rest = after;
            }
            Ok(None) => return Err(Halt::Broken(gate)),
            Err(_) => return Err(Halt::OutOfMemory),
        }
    }
    match reading.into_content() {
        Ok(content) => Ok(content),
        Err(_) => Err(Halt::OutOfMemory),
    }
}
