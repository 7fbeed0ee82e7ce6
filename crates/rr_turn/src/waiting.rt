//! A client has a command submitted, and waits for the reply.

ghost use Rattle.std.specs.Prelude.{◌≡◌, option_map};
ghost use Rattle.rr_turn.specs.Asked.{Call, wants_reply, notes_wanted, wakes_loop, sees_told, sees_end, rests_there, collects};
ghost use Rattle.rr_turn.specs.Waits.{WaitsAt, Awaits};

use crate::bells::Rung;
use rr_types::{Command, NodeId};
use rr_window::{Receipt, WindowName};

/// What a client has at its node: its counter, where it puts what it wants and gets its receipt, and the bell of the node's loop.
pub trait ClientEnds<W: WindowName> {
    /// That a call may have brought them from one state to another.
    ghost gives: { Self → Call → Self → Type 0 };

    /// Puts a command on the counter, which is to be submitted.
    fn want(&mut self, command: &Command)
        ensures { gives self.old (wants_reply command.now) self.new };

    /// Notes for the node's loop that a command lies on a counter.
    fn note_wanted(&mut self)
        ensures { gives self.old notes_wanted self.new };

    /// Rings for the loop of this node.
    fn wake_loop(&mut self, node: NodeId) -> Rung
        ensures call { gives self.old (wakes_loop node) self.new }
        ensures rung { result.node ≡ node };

    /// Whether a receipt has come, or a refusal.
    fn is_told(&mut self) -> bool
        ensures { gives self.old (sees_told result) self.new };

    /// Whether the node goes down, so that nothing comes any more.
    fn is_ending(&mut self) -> bool
        ensures { gives self.old (sees_end result) self.new };

    /// Rests until someone rings for the client, or a while.
    fn rest(&mut self)
        ensures { gives self.old rests_there self.new };

    /// The receipt, if one has come. The client waits for nothing any more.
    fn collect(&mut self) -> Option<Receipt<W>>
        ensures { gives self.old (collects (option_map (λ r. r.request) result)) self.new };
}

/// The receipt that a client has waited for, if it came, and how often the client has rested.
#[derive(Drop)]
pub struct Awaited<W: WindowName> {
    pub receipt: Option<Receipt<W>>,
    pub rests: u32,
}

// Waits until something is told or the node goes down, for so many looks at most. Gives how often the client has rested.
fn wait_at<W: WindowName, E: ClientEnds<W>>(ends: &mut E, looks: u32) -> u32
    ensures { WaitsAt E.gives looks result ends.old ends.new }
{
    for rests in 0..looks {
        if ends.is_told() {
            return rests;
        }
        if ends.is_ending() {
            return rests;
        }
        ends.rest();
    }
    looks
}

/// A client has a command submitted: it puts it on its counter, notes that, and then rings for the loop of its node. It waits until it is
/// told or the node goes down, for so many looks at most, and takes the receipt that has come.
pub fn await_receipt<W: WindowName, E: ClientEnds<W>>(
    ends: &mut E,
    node: NodeId,
    looks: u32,
    command: &Command,
) -> Awaited<W>
    ensures { Awaits E.gives node command.now looks result.rests (option_map (λ r. r.request) result.receipt) ends.old ends.new }
{
    ends.want(command);
    ends.note_wanted();
    ends.wake_loop(node);
    let rests = wait_at(ends, looks);
    let receipt = ends.collect();
    Awaited { receipt, rests }
}
