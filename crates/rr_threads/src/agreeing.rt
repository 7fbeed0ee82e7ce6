//! Whether nodes agree, before any of them serves.

ghost use Rattle.std.specs.Prelude.{◌≡◌, ◌≤◌, [], true, length, All, None, IfSome};
ghost use Rattle.rr_model.specs.NodeState.{decided_prefix};
ghost use Rattle.rr_threads.specs.Agreeing.{do_agree, AgreeWithOne};
ghost use Rattle.rr_threads.specs.Beginnings.{decided_of};

use crate::beginning::Begun;
use rr_core::Core;
use rr_disk::Disk;
use rr_types::{Op, made_of};

// Whether no instance is decided differently in the decided lists of two nodes.
fn do_agree(one: &Core, other: &Core) -> bool
    ensures { result ≡ do_agree (decided_prefix one.now) (decided_prefix other.now) }
{
    for place in 0..one.decided_count() {
        made_of!(Op);
        let Some(command) = one.decided_at(place) else {
            unreachable!()
        };
        let Some(beside) = other.decided_at(place) else {
            return true;
        };
        if !command.is_same(&beside) {
            return false;
        }
    }
    true
}

// Of two nodes one with the longer decided list.
fn longer<'p>(one: &'p Core, other: &'p Core) -> &'p Core
    ensures one { length (decided_prefix one.now) ≤ length (decided_prefix result.now) }
    ensures other { length (decided_prefix other.now) ≤ length (decided_prefix result.now) }
{
    if one.decided_count() < other.decided_count() {
        other
    } else {
        one
    }
}

// The same where the second node may be left out.
fn longer_up<'p, D: Disk>(one: &'p Core, begun: &'p Begun<D>) -> &'p Core
    ensures one { length (decided_prefix one.now) ≤ length (decided_prefix result.now) }
    ensures other { length (decided_of begun.now) ≤ length (decided_prefix result.now) }
{
    match begun.core() {
        Some(other) => longer(one, other),
        None => one,
    }
}

// Of these nodes one with a decided list that is as long as any.
fn longest<'p, D: Disk, C>(first: &'p Core, parts: &'p [(Begun<D>, Vec<C>)]) -> &'p Core
    ensures { All (λ p. length (decided_of p.0) ≤ length (decided_prefix result.now)) parts.now }
{
    let mut best = first;
    for node in parts {
        best = longer_up(best, &node.0);
    }
    best
}

// Whether a node, if it is up, has decided no instance differently.
fn does_agree<D: Disk>(begun: &Begun<D>, whole: &Core) -> bool
    ensures { result ≡ do_agree (decided_of begun.now) (decided_prefix whole.now) }
{
    match begun.core() {
        Some(core) => do_agree(core, whole),
        None => true,
    }
}

// Whether the decided list of each of these nodes has no instance that is decided differently in another list.
fn agree_with<D: Disk, C>(parts: &[(Begun<D>, Vec<C>)], whole: &Core) -> bool
    ensures { result ≡ true → All (λ p. do_agree (decided_of p.0) (decided_prefix whole.now) ≡ true) parts.now }
{
    for node in parts {
        if !does_agree(&node.0, whole) {
            return false;
        }
    }
    true
}

// The first of these nodes that is up. None: nobody knows what any of them has decided.
fn first_up<'p, D: Disk, C>(parts: &'p [(Begun<D>, Vec<C>)]) -> Option<&'p Core>
    ensures { result ≡ None → All (λ p. decided_of p.0 ≡ []) parts.now }
{
    for node in parts {
        if let Some(core) = node.0.core() {
            return Some(core);
        }
    }
    None
}

// Whether no instance is decided differently in the decided lists of the nodes that are up. Each is compared with the longest: those that
// are beginnings of it don't differ from one another.
fn do_all_agree<D: Disk, C>(parts: &[(Begun<D>, Vec<C>)]) -> bool
    ensures { result ≡ true → AgreeWithOne (λ p. decided_of p.0) parts.now }
{
    let Some(first) = first_up(parts) else {
        return true;
    };
    agree_with(parts, longest(first, parts))
}

/// Nodes of which those that are up agree, each with its clients. Only `all_agree` gives this.
#[derive(Drop)]
pub struct Agreed<D: Disk, C> {
    parts: Vec<(Begun<D>, Vec<C>)>,
}

impl<D: Disk, C> Agreed<D, C> {
    /// The nodes, to be read.
    pub fn parts(&self) -> &[(Begun<D>, Vec<C>)]
        ensures { result.now ≡ self.now.parts.items }
    {
        &self.parts
    }

    /// The nodes.
    pub fn into_parts(self) -> Vec<(Begun<D>, Vec<C>)>
        ensures { result ≡ self.parts }
    {
        let Agreed { parts } = self;
        parts
    }
}

/// These nodes, if no instance is decided differently in the decided lists of those that are up.
pub fn all_agree<D: Disk + Drop, C: Drop>(parts: Vec<(Begun<D>, Vec<C>)>) -> Option<Agreed<D, C>>
    ensures own { IfSome result (λ agreed. agreed.parts ≡ parts) }
    ensures agree { IfSome result (λ agreed. AgreeWithOne (λ p. decided_of p.0) agreed.parts.items) }
{
    if do_all_agree(&parts) {
        Some(Agreed { parts })
    } else {
        None
    }
}
