//! A node's window: it shows what the node's core has decided and marked.

ghost use Rattle.std.specs.Prelude.{◌≡◌, [], IfOk, OnOk, OnErr};
ghost use mathlib.Core.List.{IsPrefix};
ghost use Rattle.rr_model.specs.NodeState.{decided_prefix};
ghost use Rattle.rr_turn.specs.Listed.{listed};

use rr_core::Core;
use rr_types::{Op, made_of};
use rr_window::{NewList, Publisher, Seats, WindowName, open};
use std::alloc::{AllocError, Global};
use std::marker::Model;
use std::sync::Wait;

/// The publisher of a node's window. Only `follow` appends to it, and that takes its commands from a core: so nobody can show what no
/// core has decided. It can't be dropped: close it.
pub struct Follower<W: WindowName> {
    publisher: Publisher<W>,
}

impl<W: WindowName> Model for Follower<W> {
    ghost use Rattle.rr_window.specs.Windows.{Publishing};

    ghost Value = { Publishing };

    ghost view = { λ f. f.publisher };
}

impl<W: WindowName> Follower<W> {
    /// Opens a window on an empty list, as `rr_window::open`: its follower, and its readers' places.
    pub fn open(alloc: Global, list: NewList) -> Result<(Follower<W>, Seats<W>), AllocError>
        requires { list ≡ W.book }
        ensures ok { IfOk result (λ ends. ends.0 ≡ record { published = []; appended = [] }) }
    {
        let (publisher, seats) = open::<W>(alloc, list)?.split();
        Ok((Follower { publisher }, seats))
    }

    /// Appends the commands of the marked prefix that aren't appended yet. Where what is published and appended is a
    /// beginning of that prefix, it is then all of it. After an error it is a beginning still.
    pub fn follow(&mut self, core: &Core) -> Result<(), AllocError>
        ensures all { IsPrefix (listed self.old) (decided_prefix core.now) → OnOk result (listed self.new ≡ decided_prefix core.now) }
        ensures some { IsPrefix (listed self.old) (decided_prefix core.now) → OnErr result (IsPrefix (listed self.new) (decided_prefix core.now)) }
        ensures kept { IsPrefix (listed self.old) (listed self.new) }
        ensures published { self.new.published ≡ self.old.published }
    {
        follow(core, &mut self.publisher)
    }

    /// Shows readers all that was appended. It waits for those that still read an older list. After an error what
    /// is published and what was appended are as they were.
    pub fn publish<R: Wait>(&mut self, rt: &R) -> Result<(), AllocError>
        ensures ok { OnOk result (self.new ≡ record { published = listed self.old; appended = [] }) }
        ensures kept { OnErr result (self.new ≡ self.old) }
    {
        drop(self.publisher.publish(rt)?);
        Ok(())
    }

    /// The publisher, to be asked for replies and receipts.
    pub fn publisher(&self) -> &Publisher<W>
        ensures { result.now ≡ self.now }
    {
        &self.publisher
    }

    /// Ends the window: no later look gets a guard. It waits for those that are reading.
    pub fn close<R: Wait>(self, rt: &R) {
        let Follower { publisher } = self;
        publisher.close(rt);
    }
}

// As `Follower::follow`.
fn follow<W: WindowName>(core: &Core, publisher: &mut Publisher<W>) -> Result<(), AllocError>
    ensures all { IsPrefix (listed publisher.old) (decided_prefix core.now) → OnOk result (listed publisher.new ≡ decided_prefix core.now) }
    ensures some { IsPrefix (listed publisher.old) (decided_prefix core.now) → OnErr result (IsPrefix (listed publisher.new) (decided_prefix core.now)) }
    ensures kept { IsPrefix (listed publisher.old) (listed publisher.new) }
    ensures published { publisher.new.published ≡ publisher.old.published }
{
    let end = core.decided_count();
    let count = publisher.count();
    if count >= end as u64 {
        return Ok(());
    }
    for place in count as usize..end {
        made_of!(Op);
        let Some(command) = core.decided_at(place) else {
            unreachable!()
        };
        match publisher.append(command) {
            Ok(()) => {}
            Err(wanting) => return Err(wanting),
        }
    }
    Ok(())
}
