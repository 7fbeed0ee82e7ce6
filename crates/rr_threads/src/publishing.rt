//! A publisher.
//!
//! A turn has its clauses in rr_turn. That turn follows turn until the node goes down is read: `publish_all`.

ghost use Rattle.std.specs.Prelude.{◌≡◌, [], OnOk};
ghost use Rattle.rr_model.specs.NodeState.{decided_prefix};
ghost use Rattle.rr_turn.specs.Listed.{listed};
ghost use Rattle.rr_turn.specs.Asked.{Call};

use crate::course::Aside;
use crate::desk::Desk;
use crate::recorder::Scribe;
use crate::shared::Shared;
use rr_core::Core;
use rr_turn::{Counters, Follower, Locked, publish_next, settle};
use rr_types::{Refusal, Reply, RequestNo};
use rr_window::{Publisher, WindowName};
use std::alloc::Global;
use std::collections::VecDeque;
use std::sync::Wait;

/// That what a node had from its disk is published. Only `publish_first` gives this.
#[derive(Clone, Copy, Debug)]
pub struct Published {
    first: (),
}

/// Publishes what a node has from its disk, so that no client looks at less. Nothing was listed before.
pub fn publish_first<W: WindowName, R: Wait>(
    rt: &R,
    core: &Core,
    follower: &mut Follower<W>,
) -> Result<Published, Refusal>
    requires { listed follower.old ≡ [] }
    ensures { OnOk result (follower.new ≡ record { published = decided_prefix core.now; appended = [] }) }
{
    follower.follow(core)?;
    follower.publish(rt)?;
    Ok(Published { first: () })
}

/// Who waits at a node for replies. No contract knows who waits at its counters: that call is one line, to be read.
#[derive(Drop)]
struct Waiters<'x, W: WindowName, R> {
    rt: &'x R,
    scribe: Scribe<'x, R>,
    desk: &'x Desk<W>,
}

impl<'x, W: WindowName, R: Wait> Counters<W> for Waiters<'x, W, R> {
    ghost gives = { λ _ _ _. Unit {0} };

    fn acknowledge(&mut self, locked: &mut Locked) -> Result<Option<(RequestNo, Reply)>, Refusal> {
        self.scribe.acknowledge(locked)
    }

    fn tell_all(&mut self, publisher: &Publisher<W>, request: RequestNo, reply: Reply) {
        self.desk.tell_all(self.rt, publisher, request, reply);
    }
}

/// Publishes what is marked, until the node goes down.
pub fn publish_all<W: WindowName, T, R: Wait>(
    rt: &R,
    alloc: Global,
    shared: &Shared<'_, T>,
    desk: &Desk<W>,
    follower: &mut Follower<W>,
) {
    let mut waiters = Waiters {
        rt,
        scribe: Scribe::new(rt, shared.recorder),
        desk,
    };
    let mut acknowledged = VecDeque::new(alloc);
    let mut aside = Aside::new(rt, shared.breaker(), desk.node, desk.publisher.parker());
    for _ in rt.forever() {
        if desk.is_ending(shared) {
            break;
        }
        let turned = publish_next(rt, &desk.locked, follower, &mut acknowledged, &mut waiters);
        settle(&mut aside, turned);
    }
}
