//! The facts that aren't marked yet. Those of the running group keep their places, so that it can be put back
//! without memory.

ghost use Rattle.std.specs.Prelude.{◌≡◌, ◌+◌, ◌-◌, ◌≤◌, ◌++◌, [], ◌∷◌, None, Some, length, take, drop, is_some, IfOk, OnOk, OnErr};
ghost use Rattle.std.specs.Option.{option_map_or};

use rr_types::{Command, Fact, Op, made_of};
use std::alloc::{AllocError, Global};
use std::marker::Model;

/// The facts that aren't marked yet, oldest first, and how many of them the running group has.
#[derive(Debug, Drop)]
pub struct Unmarked {
    facts: Vec<Fact>,
    running: Option<usize>,
}

impl Model for Unmarked {
    ghost use Rattle.std.specs.Prelude.{◌≤◌, length, take, drop, option_map, unwrap_or};
    ghost use Rattle.rr_state.specs.Staging.{Staging};

    ghost Value = { Staging };

    ghost view = { λ u. record { running = option_map (λ n. take n u.facts.items) u.running; staged = drop (unwrap_or u.running 0) u.facts.items } };

    ghost invariant = { λ u. unwrap_or u.running 0 ≤ length u.facts.items };
}

/// The first facts, at most `limit`.
#[tactic(auto, using(std::proofs::lemmas::List::take_all))]
fn front_of(facts: &[Fact], limit: usize) -> &[Fact]
    ensures { result.now ≡ take limit facts.now }
{
    if limit < facts.len() {
        &facts[..limit]
    } else {
        facts
    }
}

impl Unmarked {
    /// No facts.
    pub fn new(alloc: Global) -> Unmarked
        ensures { result ≡ record { running = None; staged = [] } }
    {
        Unmarked {
            facts: Vec::new(alloc),
            running: None,
        }
    }

    /// How many there are.
    pub fn count(&self) -> usize
        ensures { result ≡ option_map_or length self.now.running 0 + length self.now.staged }
    {
        self.facts.len()
    }

    /// Stages facts last, all of them or, after an error, none.
    pub fn push_all(&mut self, facts: &[Fact]) -> Result<(), AllocError>
        ensures ok { OnOk result (self.new ≡ record self.old { staged = self.old.staged ++ facts.now }) }
        ensures kept { OnErr result (self.new ≡ self.old) }
    {
        made_of!(Command, Op);
        self.facts.extend_from_slice(facts)?;
        Ok(())
    }

    /// Removes as many of the last staged facts as `facts` has. It needs no memory.
    pub fn take_back(&mut self, facts: &[Fact])
        requires { length facts.now ≤ length self.old.staged }
        ensures { self.new ≡ record self.old { staged = take (length self.old.staged - length facts.now) self.old.staged } }
    {
        made_of!(Command, Op);
        let count = self.facts.len() - facts.len();
        self.facts.truncate(count);
    }

    /// Whether a group runs.
    pub fn is_running(&self) -> bool
        ensures { result ≡ is_some self.now.running }
    {
        self.running.is_some()
    }

    /// The facts of the running group, or none.
    pub fn running(&self) -> &[Fact]
        ensures { result.now ≡ option_map_or (λ facts. facts) self.now.running [] }
    {
        let count = match self.running {
            Some(count) => count,
            None => 0,
        };
        let facts = self.facts.as_slice();
        &facts[..count]
    }

    /// A copy of the oldest staged facts, at most `limit`, where no group runs.
    pub fn front(&self, alloc: Global, limit: usize) -> Result<Vec<Fact>, AllocError>
        requires { self.now.running ≡ None }
        ensures ok { IfOk result (λ facts. facts.items ≡ take limit self.now.staged) }
    {
        let front = front_of(&self.facts, limit);
        let front = Vec::from_slice(alloc, front)?;
        Ok(front)
    }

    /// The oldest staged facts run, at most `limit`.
    #[tactic(auto, using(std::proofs::lemmas::List::take_all, std::proofs::lemmas::List::drop_all))]
    pub fn run(&mut self, limit: usize)
        requires { self.old.running ≡ None }
        ensures { self.new ≡ record { running = Some (take limit self.old.staged); staged = drop limit self.old.staged } }
    {
        let count = self.facts.len();
        if limit < count {
            self.running = Some(limit);
        } else {
            self.running = Some(count);
        }
    }

    /// The running group is staged again. It needs no memory.
    pub fn put_back(&mut self)
        ensures { self.new ≡ record { running = None; staged = option_map_or (λ facts. facts) self.old.running [] ++ self.old.staged } }
    {
        self.running = None;
    }

    /// The facts of the running group go. It needs no memory.
    #[tactic(auto, using(std::proofs::lemmas::List::drop_all))]
    pub fn drop_running(&mut self)
        ensures { self.new ≡ record self.old { running = None } }
    {
        let count = match self.running {
            Some(count) => count,
            None => 0,
        };
        self.running = None;
        if count == self.facts.len() {
            self.facts.clear();
        } else {
            drop(self.facts.drain(..count));
        }
    }
}
