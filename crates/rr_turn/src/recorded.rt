//! Each event of a node together with its record. A caller that holds the node and the tape makes both in one section, so
//! that the tape has the events of all nodes as they were made.
//!
//! Where an event was made and couldn't be recorded, the tape has no place for it, and the run ends.

ghost use Rattle.std.specs.Prelude.{◌≡◌, ◌≢◌, ◌⊎◌, [], None, Some, IfOk, IfErr, IfNone, IfSome, IsSome, OnOk, OnErr};
ghost use Rattle.rr_model.specs.NodeState.{decided_prefix};
ghost use Rattle.rr_model.specs.NodeStep.{node_step, refusal_of, group_taken, running_group, marked_running, next_leaving, message_left, next_acknowledged, acknowledged};
ghost use Rattle.rr_types.specs.declared.input.Input.TheVariants as told;
ghost use Rattle.rr_types.specs.Inputs.{HearsNothing};
ghost use Rattle.rr_types.specs.Registry.{reply_of};
ghost use Rattle.rr_text.specs.declared.tape_event.Recorded.TheVariants as tape;
ghost use Rattle.rr_text.specs.Taped.{of_node};
ghost use Rattle.rr_turn.specs.Recorded.{numbered, event_of, sent_on, with_event, HasNoPlace};

use crate::locked::Locked;
use crate::recording::Recording;
use crate::sent::Sent;
use rr_journal::Synced;
use rr_text::{Recorded, TapeEvent};
use rr_types::{
    Body, Command, Estimate, Group, Input, Message, NodeId, Op, Refusal, Reply, RequestNo, made_of,
};

/// An input, where the message that it hears, if it hears one, goes by this number.
fn numbered(number: u32, input: &Input<Message>) -> Input<u32>
    ensures { result ≡ numbered number input.now }
{
    match input {
        Input::Hear(_) => Input::Hear(number),
        _ => input.unheard(),
    }
}

/// An input of a node as an event of a tape, on which a message that it hears has this number.
fn event_of(node: NodeId, number: u32, input: &Input<Message>) -> TapeEvent
    ensures { result ≡ event_of node number input.now }
{
    made_of!(Command, Op);
    TapeEvent {
        node,
        what: Recorded::Told(numbered(number, input)),
    }
}

// A node is told this. A message that it hears has this number on the tape.
fn told_on(
    locked: &mut Locked,
    recording: &mut Recording,
    input: &Input<Message>,
    number: u32,
) -> Result<(), Refusal>
    ensures step { OnOk result ((locked.new ≡ node_step input.now locked.old) × (refusal_of input.now locked.old ≡ None)) }
    ensures event { OnOk result (recording.new ≡ with_event recording.old (event_of locked.old.node number input.now)) }
    ensures kept { OnErr result (recording.new ≡ recording.old) }
    ensures cause { IfErr result (λ e. ((locked.new ≡ locked.old) × ((e ≡ Refusal.OutOfMemory) ⊎ (refusal_of input.now locked.old ≡ Some e)))
        ⊎ ((locked.new ≡ node_step input.now locked.old) × HasNoPlace recording.old (event_of locked.old.node number input.now) e)) }
{
    let event = event_of(locked.node(), number, input);
    locked.step(input)?;
    recording.note(&event)
}

/// A node is told this, which is no message: a message comes with its number, by `hear_on`.
pub fn input_on(
    locked: &mut Locked,
    recording: &mut Recording,
    input: &Input<Message>,
) -> Result<(), Refusal>
    requires { HearsNothing input.now }
    ensures step { OnOk result ((locked.new ≡ node_step input.now locked.old) × (refusal_of input.now locked.old ≡ None)) }
    ensures event { OnOk result (recording.new ≡ with_event recording.old (event_of locked.old.node 0 input.now)) }
    ensures kept { OnErr result (recording.new ≡ recording.old) }
    ensures cause { IfErr result (λ e. ((locked.new ≡ locked.old) × ((e ≡ Refusal.OutOfMemory) ⊎ (refusal_of input.now locked.old ≡ Some e)))
        ⊎ ((locked.new ≡ node_step input.now locked.old) × HasNoPlace recording.old (event_of locked.old.node 0 input.now) e)) }
{
    told_on(locked, recording, input, 0)
}

/// A node hears a message, under the number that it was sent with.
pub fn hear_on(locked: &mut Locked, recording: &mut Recording, sent: &Sent) -> Result<(), Refusal>
    ensures step { OnOk result ((locked.new ≡ node_step (told.Hear sent.now.message) locked.old) × (refusal_of (told.Hear sent.now.message) locked.old ≡ None)) }
    ensures event { OnOk result (recording.new ≡ with_event recording.old (of_node locked.old.node (tape.Told (told.Hear sent.now.number)))) }
    ensures kept { OnErr result (recording.new ≡ recording.old) }
    ensures cause { IfErr result (λ e. ((locked.new ≡ locked.old) × ((e ≡ Refusal.OutOfMemory) ⊎ (refusal_of (told.Hear sent.now.message) locked.old ≡ Some e)))
        ⊎ ((locked.new ≡ node_step (told.Hear sent.now.message) locked.old) × HasNoPlace recording.old (of_node locked.old.node (tape.Told (told.Hear sent.now.number))) e)) }
{
    told_on(locked, recording, &sent.input(), sent.number())
}

/// The oldest staged facts of a node become its running group. `None`: nothing is staged, and nothing is recorded.
pub fn take_on(locked: &mut Locked, recording: &mut Recording) -> Result<Option<Group>, Refusal>
    ensures none { IfOk result (λ g. g ≡ None → (locked.new ≡ locked.old) × (locked.old.staged ≡ []) × (recording.new ≡ recording.old)) }
    ensures some { IfOk result (λ g. IsSome g → (locked.new ≡ group_taken locked.old) × (g ≡ running_group locked.new)) }
    ensures event { IfOk result (λ g. IsSome g → (locked.old.staged ≢ []) × (locked.old.running ≡ None) × (recording.new ≡ with_event recording.old (of_node locked.old.node tape.Take))) }
    ensures kept { OnErr result (recording.new ≡ recording.old) }
    ensures cause { IfErr result (λ e. ((locked.new ≡ locked.old) × ((e ≡ Refusal.OutOfMemory) ⊎ ((e ≡ Refusal.Busy) × IsSome locked.old.running)))
        ⊎ ((locked.new ≡ group_taken locked.old) × HasNoPlace recording.old (of_node locked.old.node tape.Take) e)) }
{
    let node = locked.node();
    match locked.take_group()? {
        None => Ok(None),
        Some(group) => {
            let what = Recorded::Take;
            recording.note(&TapeEvent { node, what })?;
            Ok(Some(group))
        }
    }
}

/// The running group of a node, synced, is marked. One that isn't its running group is `StrangeMark`.
pub fn mark_on(
    locked: &mut Locked,
    recording: &mut Recording,
    synced: Synced,
) -> Result<(), Refusal>
    ensures step { OnOk result ((locked.new ≡ marked_running locked.old) × (running_group locked.old ≡ Some synced.group) × (synced.node ≡ locked.old.node)) }
    ensures event { OnOk result (recording.new ≡ with_event recording.old (of_node locked.old.node tape.Mark)) }
    ensures kept { OnErr result (recording.new ≡ recording.old) }
    ensures cause { IfErr result (λ e. ((locked.new ≡ locked.old) × ((e ≡ Refusal.OutOfMemory) ⊎ ((e ≡ Refusal.StrangeMark) × ((synced.node ≢ locked.old.node) ⊎ (running_group locked.old ≢ Some synced.group)))))
        ⊎ ((locked.new ≡ marked_running locked.old) × HasNoPlace recording.old (of_node locked.old.node tape.Mark) e)) }
{
    let node = locked.node();
    match locked.mark(synced) {
        Err((refusal, _)) => Err(refusal),
        Ok(()) => {
            let what = Recorded::Mark;
            recording.note(&TapeEvent { node, what })
        }
    }
}

/// The oldest message of a node that may leave takes the next number of the tape. `None`: none may leave.
#[inline(never)]
pub fn send_on(locked: &mut Locked, recording: &mut Recording) -> Result<Option<Sent>, Refusal>
    ensures none { IfOk result (λ sent. IfNone sent ((next_leaving locked.old ≡ None) × (locked.new ≡ locked.old) × (recording.new ≡ recording.old))) }
    ensures some { IfOk result (λ sent. IfSome sent (λ sent. (next_leaving locked.old ≡ Some sent.message) × (locked.new ≡ message_left locked.old) × (sent.number ≡ sent_on recording.old))) }
    ensures event { IfOk result (λ sent. IfSome sent (λ sent. recording.new ≡ with_event recording.old (of_node locked.old.node (tape.Sent sent.number sent.message)))) }
    ensures kept { OnErr result (recording.new ≡ recording.old) }
    ensures cause { IfErr result (λ e. (message : _) × (next_leaving locked.old ≡ Some message) × (locked.new ≡ message_left locked.old) × HasNoPlace recording.old (of_node locked.old.node (tape.Sent (sent_on recording.old) message)) e) }
{
    made_of!(Body, Command, Estimate, Op);
    let node = locked.node();
    match locked.next_message() {
        None => Ok(None),
        Some(cleared) => {
            let number = recording.sent();
            let message = cleared.message();
            let what = Recorded::Sent { number, message };
            recording.note(&TapeEvent { node, what })?;
            Ok(Some(Sent::new(number, cleared)))
        }
    }
}

/// The oldest waiting request of a node that its decided prefix holds is acknowledged. `None`: none waits that it holds.
pub fn ack_on(
    locked: &mut Locked,
    recording: &mut Recording,
) -> Result<Option<(RequestNo, Reply)>, Refusal>
    ensures none { IfOk result (λ a. IfNone a ((next_acknowledged locked.old ≡ None) × (locked.new ≡ locked.old) × (recording.new ≡ recording.old))) }
    ensures some { IfOk result (λ a. IfSome a (λ a. (next_acknowledged locked.old ≡ Some a.0) × (reply_of (decided_prefix locked.old) a.0 ≡ Some a.1) × (locked.new ≡ acknowledged locked.old))) }
    ensures event { IfOk result (λ a. IfSome a (λ a. recording.new ≡ with_event recording.old (of_node locked.old.node (tape.Acked a.0 a.1)))) }
    ensures kept { OnErr result (recording.new ≡ recording.old) }
    ensures cause { IfErr result (λ e. (request : _) × (reply : _) × (next_acknowledged locked.old ≡ Some request) × (reply_of (decided_prefix locked.old) request ≡ Some reply)
        × (locked.new ≡ acknowledged locked.old) × HasNoPlace recording.old (of_node locked.old.node (tape.Acked request reply)) e) }
{
    let node = locked.node();
    match locked.acknowledge() {
        None => Ok(None),
        Some((request, reply)) => {
            let what = Recorded::Acked { request, reply };
            recording.note(&TapeEvent { node, what })?;
            Ok(Some((request, reply)))
        }
    }
}
