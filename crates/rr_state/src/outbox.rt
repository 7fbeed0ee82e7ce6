//! What a node owes, in order.

ghost use Rattle.std.specs.Prelude.{◌≡◌, ◌<◌, ◌≤◌, ◌+◌, ◌-◌, ◌++◌, ◌∷◌, take, [], true, None, Some, All, length, get_or, slice_get, find, MatchOption, OnOk, OnErr};
ghost use Rattle.std.specs.List.{remove, remove_range};
ghost use Rattle.rr_model.specs.NodeStep.{may_leave};
ghost use Rattle.rr_state.specs.Owing.{without_first, IsOwn};
ghost use Rattle.rr_state.specs.Passed.{IsPassed, Found};

use crate::owed::Owed;
use rr_types::{Body, Command, Message, NodeId, Op, made_of};
use std::alloc::{AllocError, Global};
use std::collections::VecDeque;
use std::marker::Model;

/// The messages that a node owes, in order. Each is its own, and free where no fact backs it.
///
/// The search for one that may leave goes on from where the last one ended. It begins anew where a mark lets a message go
/// that was passed. So asks and removals look at each message once, and at all of them for each such mark.
#[derive(Debug, Drop)]
pub struct Outbox {
    node: NodeId,
    owed: VecDeque<Owed>,
    passed: Passed,
}

/// How far the search went. Facts numbered `least` or above back the first `count` messages. It goes on at the place
/// `next`, and what lies between has left: its places are free for messages that are passed.
#[derive(Clone, Copy, Debug)]
struct Passed {
    count: usize,
    next: usize,
    least: u128,
}

impl Model for Outbox {
    ghost use Rattle.std.specs.Prelude.{All};
    ghost use Rattle.std.specs.List.{remove_range};
    ghost use Rattle.rr_state.specs.Owing.{Owing, IsOwn};
    ghost use Rattle.rr_state.specs.Passed.{IsPassed};

    ghost Value = { Owing };

    ghost view = { λ b. record { node = b.node; owed = remove_range b.owed.items b.passed.count b.passed.next } };

    ghost invariant = { λ b. All (IsOwn b.node) (remove_range b.owed.items b.passed.count b.passed.next) × IsPassed b.passed.count b.passed.next b.passed.least b.owed.items };
}

/// Nothing was searched yet.
const NOTHING: Passed = Passed {
    count: 0,
    next: 0,
    least: u128::MAX,
};

/// The fact that holds a message back: one that backs it and isn't marked.
fn holder(owed: &Owed, end: u64) -> Option<u128>
    ensures { MatchOption result (may_leave end owed.now ≡ true) (λ k. (owed.now.backing ≡ Some k) × (end ≤ k)) }
{
    match owed.backing {
        Some(number) if u128::from(end) <= number => Some(number),
        _ => None,
    }
}

/// The message at one place comes behind the passed ones.
#[tactic(auto, using(crate::proofs::OutboxLemmas::moved_last, crate::proofs::OutboxLemmas::moved_same, crate::proofs::OutboxLemmas::stays_last, crate::proofs::OutboxLemmas::stays_same))]
fn pass_one(owed: &mut VecDeque<Owed>, count: usize, next: usize)
    requires { (count ≤ next) × (next < length owed.old.items) }
    ensures same { remove_range owed.new.items (count + 1) (next + 1) ≡ remove_range owed.old.items count next }
    ensures len { length owed.new.items ≡ length owed.old.items }
    ensures last { (d : Owed) → take (count + 1) owed.new.items ≡ take count owed.old.items ++ get_or owed.old.items next d ∷ [] }
{
    made_of!(Body, Command, Message, Op);
    if count < next {
        let one = owed[next];
        owed[count] = one;
    }
}

/// Passes messages up to the first that may leave.
#[tactic(auto, using(crate::proofs::OutboxLemmas::passed_more))]
fn pass(owed: &mut VecDeque<Owed>, from: Passed, end: u64) -> Passed
    requires { IsPassed from.count from.next from.least owed.old.items × (end ≤ from.least) }
    ensures same { remove_range owed.new.items result.count result.next ≡ remove_range owed.old.items from.count from.next }
    ensures passed { IsPassed result.count result.next result.least owed.new.items × (end ≤ result.least) }
    ensures found { (o : Owed) → result.next < length owed.new.items → may_leave end (get_or owed.new.items result.next o) ≡ true }
{
    let mut at = from;
    while at.next < owed.len() {
        let Some(number) = holder(&owed[at.next], end) else {
            return at;
        };
        pass_one(owed, at.count, at.next);
        at = Passed {
            count: at.count + 1,
            next: at.next + 1,
            least: at.least.min(number),
        };
    }
    at
}

/// The search begins anew. The places of messages that have left are closed up, which needs no memory.
fn begin(owed: &mut VecDeque<Owed>, passed: Passed) -> Passed
    requires { (passed.count ≤ passed.next) × (passed.next ≤ length owed.old.items) }
    ensures items { owed.new.items ≡ remove_range owed.old.items passed.count passed.next }
    ensures fresh { result ≡ NOTHING }
{
    made_of!(Body, Command, Message, Op);
    if passed.count < passed.next {
        drop(owed.drain(passed.count..passed.next));
    }
    NOTHING
}

/// Searches up to the first message that may leave: on from the passed ones, or anew where a mark lets one of them go.
#[tactic(auto, using(crate::proofs::OutboxLemmas::whole, crate::proofs::OutboxLemmas::none_passed))]
fn search(owed: &mut VecDeque<Owed>, passed: Passed, end: u64) -> Passed
    requires { IsPassed passed.count passed.next passed.least owed.old.items }
    ensures same { remove_range owed.new.items result.count result.next ≡ remove_range owed.old.items passed.count passed.next }
    ensures passed { IsPassed result.count result.next result.least owed.new.items × (end ≤ result.least) }
    ensures found { (o : Owed) → result.next < length owed.new.items → may_leave end (get_or owed.new.items result.next o) ≡ true }
{
    if passed.least < u128::from(end) {
        let from = begin(owed, passed);
        pass(owed, from, end)
    } else {
        pass(owed, passed, end)
    }
}

/// The place of the message at which a search has ended.
#[tactic(auto, using(crate::proofs::OutboxLemmas::found, crate::proofs::OutboxLemmas::found_none, crate::proofs::OutboxLemmas::all_held_back))]
fn found_place(owed: &VecDeque<Owed>, passed: Passed, end: u64) -> Option<usize>
    requires passed { IsPassed passed.count passed.next passed.least owed.now.items × (end ≤ passed.least) }
    requires found { (o : Owed) → passed.next < length owed.now.items → may_leave end (get_or owed.now.items passed.next o) ≡ true }
    ensures { MatchOption result (find (may_leave end) (remove_range owed.now.items passed.count passed.next) ≡ None) (Found (may_leave end) (remove_range owed.now.items passed.count passed.next)) }
{
    if passed.next < owed.len() {
        Some(passed.count)
    } else {
        None
    }
}

/// Messages come last, all of them or, after an error, none.
#[tactic(auto, using(crate::proofs::OutboxLemmas::more_owed))]
fn extend(owed: &mut VecDeque<Owed>, more: &[Owed]) -> Result<(), AllocError>
    ensures ok { OnOk result (owed.new.items ≡ owed.old.items ++ more.now) }
    ensures kept { OnErr result (owed.new.items ≡ owed.old.items) }
{
    made_of!(Body, Command, Message, Op);
    owed.reserve(more.len())?;
    for one in more {
        owed.push_back_reserved(*one);
    }
    Ok(())
}

impl Outbox {
    /// Nothing is owed.
    pub fn new(alloc: Global, node: NodeId) -> Outbox
        ensures { result ≡ record { node = node; owed = [] } }
    {
        Outbox {
            node,
            owed: VecDeque::new(alloc),
            passed: NOTHING,
        }
    }

    /// The node owes these messages, all of them or, after an error, none.
    #[tactic(auto, using(crate::proofs::OutboxLemmas::more_last))]
    pub fn owe_all(&mut self, more: &[Owed]) -> Result<(), AllocError>
        requires { All (IsOwn self.old.node) more.now }
        ensures ok { OnOk result (self.new ≡ record self.old { owed = self.old.owed ++ more.now }) }
        ensures kept { OnErr result (self.new ≡ self.old) }
    {
        extend(&mut self.owed, more)
    }

    /// A law for the holder of an outbox: each message is the node's own, and free where no fact backs it. It does
    /// nothing when it runs.
    pub fn owes_own(&self)
        ensures { All (IsOwn self.now.node) self.now.owed }
    {
        let _node = self.node;
    }

    /// The messages but the last `count` ones. It needs no memory.
    #[tactic(auto, using(crate::proofs::OutboxLemmas::whole))]
    pub fn forget_last(&mut self, count: usize)
        requires { count ≤ length self.old.owed }
        ensures { self.new ≡ record self.old { owed = take (length self.old.owed - count) self.old.owed } }
    {
        self.passed = begin(&mut self.owed, self.passed);
        self.owed.truncate(self.owed.len() - count);
    }

    /// The place of the oldest message that may leave where the facts below `end` are marked: it is free, or one of them
    /// backs it. It needs no memory.
    pub fn leaving_place(&mut self, end: u64) -> Option<usize>
        ensures same { self.new ≡ self.old }
        ensures found { MatchOption result (find (may_leave end) self.old.owed ≡ None) (λ k. (k < length self.old.owed) × (find (may_leave end) self.old.owed ≡ slice_get self.old.owed k) × (without_first (may_leave end) self.old.owed ≡ remove self.old.owed k)) }
    {
        self.passed = search(&mut self.owed, self.passed, end);
        found_place(&self.owed, self.passed, end)
    }

    /// The message at a place, lent: a message is large.
    #[tactic(auto, using(crate::proofs::OutboxLemmas::read_before, crate::proofs::OutboxLemmas::read_behind, crate::proofs::OutboxLemmas::length_around))]
    pub fn at(&self, place: usize) -> &Owed
        requires { place < length self.now.owed }
        ensures value { Some result.now ≡ slice_get self.now.owed place }
        ensures own { IsOwn self.now.node result.now }
    {
        if place < self.passed.count {
            &self.owed[place]
        } else {
            &self.owed[self.passed.next + (place - self.passed.count)]
        }
    }

    /// Takes the message at a place away. It needs no memory.
    #[tactic(auto, using(crate::proofs::OutboxLemmas::one_gone, crate::proofs::OutboxLemmas::whole, crate::proofs::OutboxLemmas::length_around, crate::proofs::OutboxLemmas::fresh, crate::proofs::OutboxLemmas::own_left))]
    pub fn remove(&mut self, place: usize)
        requires { place < length self.old.owed }
        ensures { self.new ≡ record self.old { owed = remove self.old.owed place } }
    {
        made_of!(Body, Command, Message, Op);
        let Passed { count, next, .. } = self.passed;
        // Mostly the oldest message leaves. One behind passed messages leaves its place, and the places are closed up once
        // they are half of all.
        if place == 0 && next == 0 {
            self.owed.pop_front();
        } else if place == count && next - count < self.owed.len() / 2 {
            self.passed.next = next + 1;
        } else {
            self.passed = begin(&mut self.owed, self.passed);
            self.owed.remove(place);
        }
    }
}
