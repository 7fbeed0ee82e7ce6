//! What a node has decided is published, and who waits for it is told.

ghost use Rattle.std.specs.Prelude.{◌≡◌, [], Some, None, IfOk, IfNone, IfSome, OnOk, length, nat_lt, if◌then◌else◌};
ghost use Rattle.rr_types.specs.Registry.{reply_of};
ghost use Rattle.rr_model.specs.NodeState.{NodeState, decided_prefix};
ghost use Rattle.rr_model.specs.NodeStep.{next_acknowledged, acknowledged};
ghost use Rattle.rr_turn.specs.Asked.{Call, acknowledges, tells_clients};
ghost use Rattle.rr_turn.specs.Listed.{listed};
ghost use Rattle.rr_turn.specs.Tells.{with_acknowledged, Follows, Tells, Publishes};

use crate::following::Follower;
use crate::locked::Locked;
use rr_types::{Refusal, Reply, RequestNo};
use rr_window::{Publisher, WindowName};
use std::collections::VecDeque;
use std::sync::{Mutex, Wait};

/// The requests that clients of a node wait for: at the node, and at their counters.
pub trait Counters<W: WindowName> {
    /// That a call may have brought them from one state to another.
    ghost gives: { Self → Call → Self → Type 0 };

    /// The node's oldest waiting request that its decided prefix has stops waiting. An error is that the event has no place on a tape.
    fn acknowledge(&mut self, locked: &mut Locked) -> Result<Option<(RequestNo, Reply)>, Refusal>
        ensures call { IfOk result (λ told. gives self.old (acknowledges locked.old told) self.new) }
        ensures none { IfOk result (λ told. IfNone told ((next_acknowledged locked.old ≡ None) × (locked.new ≡ locked.old))) }
        ensures some { IfOk result (λ told. IfSome told (λ a. (next_acknowledged locked.old ≡ Some a.0) × (reply_of (decided_prefix locked.old) a.0 ≡ Some a.1) × (locked.new ≡ acknowledged locked.old))) };

    /// Each client that waits for the reply to this request gets a receipt, and is rung.
    fn tell_all(&mut self, publisher: &Publisher<W>, request: RequestNo, reply: Reply)
        requires { reply_of publisher.now.published request ≡ Some reply }
        ensures { gives self.old (tells_clients publisher.now.published request reply) self.new };
}

/// Takes on what is marked, and the oldest acknowledgement.
fn follow<W: WindowName, C: Counters<W>>(
    locked: &mut Locked,
    follower: &mut Follower<W>,
    counters: &mut C,
) -> Result<Option<(RequestNo, Reply)>, Refusal>
    ensures { IfOk result (λ told. Follows C.gives locked.old told follower.old follower.new counters.old counters.new) }
{
    follower.follow(locked.core())?;
    counters.acknowledge(locked)
}

/// As `follow`, in one section of the node's lock.
fn follow_in<W: WindowName, C: Counters<W>, R: Wait>(
    rt: &R,
    node: &Mutex<Locked>,
    follower: &mut Follower<W>,
    counters: &mut C,
) -> Result<Option<(RequestNo, Reply)>, Refusal>
    ensures { IfOk result (λ told. (s : NodeState) × Follows C.gives s told follower.old follower.new counters.old counters.new) }
{
    let mut locked = node.lock(rt);
    follow(&mut *locked, follower, counters)
}

/// The clients that wait for the oldest request that was acknowledged get receipts, once its reply is published. Answers
/// whether there was one.
fn tell_next<W: WindowName, C: Counters<W>>(
    follower: &Follower<W>,
    acknowledged: &mut VecDeque<RequestNo>,
    counters: &mut C,
) -> bool
    ensures { Tells C.gives follower.now.published acknowledged.old.items acknowledged.new.items result counters.old counters.new }
{
    let Some(request) = acknowledged.front() else {
        return false;
    };
    let request = *request;
    let publisher = follower.publisher();
    let Some(reply) = publisher.reply(request) else {
        return false;
    };
    counters.tell_all(publisher, request, reply);
    drop(acknowledged.pop_front());
    true
}

/// A request that is acknowledged waits to be told.
fn note(
    acknowledged: &mut VecDeque<RequestNo>,
    told: Option<(RequestNo, Reply)>,
) -> Result<(), Refusal>
    ensures { OnOk result (acknowledged.new.items ≡ with_acknowledged told acknowledged.old.items) }
{
    match told {
        None => Ok(()),
        Some((request, _)) => {
            acknowledged.push_back(request)?;
            Ok(())
        }
    }
}

/// Publishes all that is listed, where that is more than so many commands. Answers whether it is.
fn publish_behind<W: WindowName, R: Wait>(
    rt: &R,
    before: u64,
    follower: &mut Follower<W>,
) -> Result<bool, Refusal>
    ensures has { IfOk result (λ has. has ≡ nat_lt before (length (listed follower.old))) }
    ensures published { OnOk result (follower.new ≡ (if nat_lt before (length (listed follower.old)) then record { published = listed follower.old; appended = [] } else follower.old)) }
{
    if follower.publisher().count() <= before {
        return Ok(false);
    }
    follower.publish(rt)?;
    Ok(true)
}

/// A turn of a publisher: takes on what is marked, and the oldest acknowledgement; publishes what it took on; and gives receipts for
/// the oldest acknowledgement that has none yet. Answers whether there was something to do.
///
/// # Errors
/// `OutOfMemory`, and `BadEvent` of an acknowledgement that has no place on the tape.
pub fn publish_next<W: WindowName, C: Counters<W>, R: Wait>(
    rt: &R,
    node: &Mutex<Locked>,
    follower: &mut Follower<W>,
    acknowledged: &mut VecDeque<RequestNo>,
    counters: &mut C,
) -> Result<bool, Refusal>
    ensures { IfOk result (λ has. Publishes C.gives has follower.old acknowledged.old.items counters.old follower.new acknowledged.new.items counters.new) }
{
    let before = follower.publisher().count();
    let told = follow_in(rt, node, follower, counters)?;
    note(acknowledged, told)?;
    let has_more = publish_behind(rt, before, follower)?;
    let has_told = tell_next(follower, acknowledged, counters);
    Ok(has_more | has_told)
}
