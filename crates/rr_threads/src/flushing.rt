//! A flusher.
//!
//! When its loop ends, and that what became of a group comes to be taken, is in no contract: `flush_all` and `give_back` are read.

ghost use Rattle.std.specs.Prelude.{◌≡◌};
ghost use Rattle.rr_turn.specs.Asked.{Call};
ghost use Rattle.rr_threads.specs.Belts.{belt_gives};

use crate::course::Aside;
use crate::desk::Desk;
use crate::running::Running;
use crate::shared::Shared;
use crate::snapshotting::write_next;
use rr_disk::Disk;
use rr_journal::{Journal, Synced};
use rr_turn::{Course, FlusherEnds, Rung, Turnstile, Unflushed, flush_group, settle};
use rr_types::{Group, NodeId};
use rr_window::{Giver, Taker, TrySendError, WindowName};
use std::alloc::Global;
use std::sync::Wait;
use std::thread::yield_now;

/// What a flusher owns: the disk of its node, and its ends of the hand-overs.
#[derive(Drop)]
pub struct Flusher<D: Disk> {
    pub journal: Journal<D>,
    pub groups: Taker<Group>,
    pub backs: Giver<Result<Synced, Unflushed>>,
}

/// Gives back what became of a group, once there is room. Where nobody takes it, the node goes down.
fn give_back<B: Drop, R: Wait>(rt: &R, backs: &mut Giver<B>, back: B)
    ensures { backs.new.queue ≡ backs.old.queue }
{
    let mut waiting = back;
    for _ in rt.forever() {
        match backs.give(rt, waiting) {
            Err(TrySendError::Full(refused)) => waiting = refused,
            _ => break,
        }
        yield_now();
    }
}

/// The ends of a flusher, which it owns, and the bell that it rings. Contracts see which group is taken. What is given back is put where
/// there is room, and no contract knows that there will be: that call is one line, to be read.
#[derive(Drop)]
struct Belt<'x, R> {
    rt: &'x R,
    running: &'x Running,
    groups: Taker<Group>,
    backs: Giver<Result<Synced, Unflushed>>,
}

impl<'x, R: Wait> FlusherEnds for Belt<'x, R> {
    ghost gives = { λ old call new. belt_gives old.groups old.backs.queue call new.groups new.backs.queue };

    #[tactic(auto, using(crate::proofs::Belting::received))]
    fn receive(&mut self) -> Option<Group> {
        self.groups.take(self.rt)
    }

    fn hand_back(&mut self, back: Result<Synced, Unflushed>) {
        give_back(self.rt, &mut self.backs, back);
    }

    fn wake_loop(&mut self, node: NodeId) -> Rung {
        self.running.ring(node)
    }
}

/// Flushes the groups that come, and writes snapshots where none comes, until the node goes down. Gives its disk back.
pub fn flush_all<W: WindowName, D: Disk + Drop, T: Turnstile, R: Wait>(
    rt: &R,
    alloc: Global,
    shared: &Shared<'_, T>,
    desk: &Desk<W>,
    flusher: Flusher<D>,
) -> D {
    let Flusher {
        mut journal,
        groups,
        backs,
    } = flusher;
    let (turnstile, node) = (shared.turnstile, desk.node);
    let mut belt = Belt {
        rt,
        running: &shared.running,
        groups,
        backs,
    };
    let mut aside = Aside::new(rt, shared.breaker(), node, desk.flusher.parker());
    for _ in rt.forever() {
        if flush_group(alloc, turnstile, node, &mut journal, &mut belt) {
            aside.go_on();
            continue;
        }
        if desk.is_ending(shared) {
            break;
        }
        let turned = write_next(rt, alloc, turnstile, desk, &mut journal);
        settle(&mut aside, turned);
    }
    journal.into_disk()
}
