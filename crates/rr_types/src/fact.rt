//! Facts: what a node writes to its disk before it promises anything by a message.

ghost use Rattle.std.specs.Prelude.{◌≡◌, ◌+◌, ◌^◌, ◌<◌, ◌≤◌, ◌↔◌, length, IsSome, IfSome, IsOk, IfOk, IfErr};
ghost use Rattle.rr_types.specs.Facts.{instance_of};
ghost use Rattle.rr_types.specs.Limits.{last_round, max_group};

use crate::command::Command;
use crate::round::{Instance, Round};
use std::marker::Model;

/// The most facts of a group.
pub const GROUP: usize = 64;

/// An estimate with which a node is in a round: the command, and the round in which the node adopted it,
/// its stamp, which lies before the round that it is in. Stamp 0: never adopted.
#[derive(Clone, Copy, Debug)]
pub struct Estimate {
    round: u32,
    stamp: u32,
    command: Command,
}

impl Model for Estimate {
    ghost use Rattle.std.specs.Prelude.{◌<◌, ◌≤◌};
    ghost use Rattle.rr_types.specs.Rounds.{Estimated};
    ghost use Rattle.rr_types.specs.Limits.{last_round};

    ghost Value = { Estimated };

    ghost view = { λ e. record { round = e.round; stamp = e.stamp; command = e.command } };

    ghost invariant = { λ e. (e.stamp < e.round) × (e.round ≤ last_round) };

    ghost inverse = { λ e. record { round = e.round; stamp = e.stamp; command = e.command } };
}

impl Estimate {
    /// The estimate with this stamp, where that lies before the round.
    pub fn new(round: Round, stamp: u32, command: Command) -> Option<Estimate>
        ensures valid { IsSome result ↔ (stamp < round) }
        ensures value { IfSome result (λ e. e ≡ record { round = round; stamp = stamp; command = command }) }
    {
        let round = round.number();
        if stamp < round {
            Some(Estimate {
                round,
                stamp,
                command,
            })
        } else {
            None
        }
    }

    /// The estimate with this stamp, which is known to lie before the round.
    pub fn at(round: Round, stamp: u32, command: Command) -> Estimate
        requires { stamp < round }
        ensures { result ≡ record { round = round; stamp = stamp; command = command } }
    {
        Estimate {
            round: round.number(),
            stamp,
            command,
        }
    }

    /// The round that the node is in.
    pub fn round(&self) -> Round
        ensures value { result ≡ self.now.round }
        ensures stamp { self.now.stamp < result }
    {
        Round::at(self.round)
    }

    /// The round in which the node adopted the command, or 0.
    pub fn stamp(&self) -> u32
        ensures value { result ≡ self.now.stamp }
        ensures range { result < last_round }
    {
        self.stamp
    }

    /// The command.
    pub fn command(&self) -> Command
        ensures { result ≡ self.now.command }
    {
        self.command
    }

    /// The same without a copy: a command is large.
    pub fn command_ref(&self) -> &Command
        ensures { result.now ≡ self.now.command }
    {
        &self.command
    }
}

/// A fact of a node. Its node keeps each fact for good once a sync has covered it.
#[derive(Clone, Copy, Debug)]
pub enum Fact {
    /// The node enters a round of an instance, with an estimate.
    Enter(Instance, Estimate),
    /// The node, which coordinates the round, proposes a command in it.
    Propose(Instance, Round, Command),
    /// The node adopts the command that was proposed in the round.
    Adopt(Instance, Round, Command),
    /// The instance has decided on this command.
    Decide(Instance, Command),
}

impl Fact {
    /// The instance that the fact is about.
    pub fn instance(&self) -> Instance
        ensures { result ≡ instance_of self.now }
    {
        match self {
            Fact::Enter(instance, _)
            | Fact::Propose(instance, _, _)
            | Fact::Adopt(instance, _, _)
            | Fact::Decide(instance, _) => *instance,
        }
    }
}

/// A group of facts that one flush writes: 1 to 64 facts, and the number of the first.
/// The facts of a node are numbered from 0 over its whole life.
#[derive(Debug, Drop)]
pub struct Group {
    serial: u64,
    facts: Vec<Fact>,
}

impl Model for Group {
    ghost use Rattle.std.specs.Prelude.{◌+◌, ◌^◌, ◌<◌, ◌≤◌, length};
    ghost use Rattle.rr_types.specs.Groups.{Grouped};
    ghost use Rattle.rr_types.specs.Limits.{max_group};

    ghost Value = { Grouped };

    ghost view = { λ g. record { serial = g.serial; facts = g.facts.items } };

    ghost invariant = { λ g. (1 ≤ length g.facts.items) × (length g.facts.items ≤ max_group) × (g.serial + length g.facts.items < 2 ^ 64) };
}

impl Group {
    /// The group of these facts, where they are 1 to 64 and their numbers fit. It keeps the vector.
    pub fn new(serial: u64, facts: Vec<Fact>) -> Result<Group, Vec<Fact>>
        ensures valid { IsOk result ↔ ((1 ≤ length facts.items) × (length facts.items ≤ max_group) × (serial + length facts.items < 2 ^ 64)) }
        ensures ok { IfOk result (λ g. g ≡ record { serial = serial; facts = facts.items }) }
        ensures err { IfErr result (λ back. back ≡ facts) }
    {
        let count = facts.len();
        if count == 0 || count > GROUP || serial > u64::MAX - count as u64 {
            return Err(facts);
        }
        Ok(Group { serial, facts })
    }

    /// The number of the first fact.
    pub fn serial(&self) -> u64
        ensures value { result ≡ self.now.serial }
        ensures room { result + length self.now.facts < 2 ^ 64 }
    {
        let facts = self.facts.as_slice();
        let _count = facts.len();
        self.serial
    }

    /// The facts, 1 to 64, oldest first.
    pub fn facts(&self) -> &[Fact]
        ensures value { result.now ≡ self.now.facts }
        ensures some { 1 ≤ length result.now }
        ensures few { length result.now ≤ max_group }
    {
        let facts = &self.facts;
        facts
    }

    /// The facts as the vector that the group was made of.
    pub fn into_facts(self) -> Vec<Fact>
        ensures { result.items ≡ self.facts }
    {
        let Group { serial: _, facts } = self;
        facts
    }
}
