//! Decisions against a node's own.
//!
//! Nodes that keep their disks decide each instance once. So a decision that a node hears against its own tells that a disk was altered or
//! exchanged, its own or another's. No contract knows what lies under a switch's lock. That a dispute is noted there, before the node
//! fails by it, is read: `hear_undisputed`.

ghost use Rattle.std.specs.Prelude.{◌≡◌, None, Some, Err, OnOk};
ghost use Rattle.rr_types.specs.declared.input.Input.TheVariants as told;
ghost use Rattle.rr_types.specs.declared.refusal.Refusal.{Refusal};
ghost use Rattle.rr_model.specs.NodeState.{decided_prefix};
ghost use Rattle.rr_model.specs.NodeStep.{node_step};
ghost use Rattle.rr_threads.specs.Disputes.{dispute_in};
ghost use Rattle.rr_threads.specs.declared.disputing.Dispute.{Dispute};

use crate::recorder::Scribe;
use crate::switches::Switches;
use rr_core::Core;
use rr_turn::{Locked, Sent};
use rr_types::{Body, Command, Instance, Message, Name, NodeId, Op, Refusal, Value, made_of};
use std::sync::Wait;

/// The refusal where two nodes decide an instance differently.
pub const DIFFERENT: Refusal = Refusal::Damaged { area: 0, offset: 0 };

/// An instance that a node has decided, and that another has decided differently, as the node has heard.
#[derive(Clone, Copy, Debug)]
pub struct Dispute {
    pub instance: Instance,
    /// What the node has decided.
    pub own: Command,
    /// What it has heard.
    pub heard: Command,
}

// What a message disputes of a node's list of decided commands. Of all messages a decision alone is looked up.
fn dispute_in(core: &Core, message: &Message) -> Option<Dispute>
    ensures { result ≡ dispute_in (decided_prefix core.now) message.now }
{
    made_of!(Command, Name, Op, Value);
    let Body::Decision(instance, heard) = &message.body else {
        return None;
    };
    let own = core.decided(*instance)?;
    if own.is_same(heard) {
        return None;
    }
    Some(Dispute {
        instance: *instance,
        own,
        heard: *heard,
    })
}

/// The node hears a message. One that disputes what the node has decided is not heard: it is noted at the node's switch, if there is one.
///
/// # Errors
/// Those of `Scribe::hear`, and `Damaged { area: 0, offset: 0 }` where the message disputes.
pub fn hear_undisputed<R: Wait>(
    rt: &R,
    switches: Option<&Switches>,
    scribe: &Scribe<'_, R>,
    node: NodeId,
    locked: &mut Locked,
    sent: &Sent,
) -> Result<(), Refusal>
    ensures step { OnOk result (locked.new ≡ node_step (told.Hear sent.now.message) locked.old) }
    ensures undisputed { OnOk result (dispute_in (decided_prefix locked.old) sent.now.message ≡ None) }
    ensures disputed { (d : Dispute) → dispute_in (decided_prefix locked.old) sent.now.message ≡ Some d
        → (result ≡ Err (Refusal.Damaged 0 0)) × (locked.new ≡ locked.old) }
{
    if let Some(dispute) = dispute_in(locked.core(), sent.message()) {
        if let Some(switches) = switches {
            switches.note_dispute(rt, node, &dispute);
        }
        return Err(DIFFERENT);
    }
    scribe.hear(locked, sent)
}
