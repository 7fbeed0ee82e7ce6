//! What is said to a line, in words or with JSON.

ghost use Rattle.std.specs.Prelude.{◌≡◌, ◌++◌, OnOk};
ghost use Rattle.rr_shell.specs.Forms.{answer_said, full_said, used_said, nothing_said, outcome_said, synced_said, sync_said, list_said, watching_said, changed_said, freed_said, late_said, move_said, stop_said, start_said, snapshot_said, trouble_said, status_said, help_said, fault_said};

use crate::line_text::{
    push_answer, push_changed, push_fault, push_freed, push_help, push_late, push_listing,
    push_move, push_snapshot, push_start, push_status, push_stop, push_synced, push_trouble,
    push_watching,
};
use crate::listing::Listing;
use crate::object_text::{
    push_answer_object, push_changed_object, push_fault_object, push_freed_object,
    push_full_object, push_help_object, push_late_object, push_listing_objects, push_node_object,
    push_nothing_object, push_status_object, push_synced_object, push_trouble_object,
    push_used_object, push_watching_object,
};
use crate::outcome::{Outcome, push_full_text, push_nothing_text, push_used_text};
use crate::shell_line::LineFault;
use crate::status::{NodeStatus, NodeTrouble};
use rr_explain::ShellWord;
use rr_text::Answer;
use rr_text::text_word::{push_byte, push_bytes};
use rr_types::{Binding, Command, Name, NodeId, Nodes};
use std::alloc::{AllocError, Global};

/// Appends an answer: of a submit the reply, of a look the name and what was seen. It names no node.
///
/// # Errors
/// Bytes of the line may then stand at the end.
pub fn say_answer(out: &mut Vec<u8>, json: bool, answer: &Answer) -> Result<(), AllocError>
    ensures ok { OnOk result (out.new.items ≡ out.old.items ++ answer_said json answer.now) }
{
    if json {
        push_answer_object(out, answer)
    } else {
        push_answer(out, answer)
    }
}

// Appends that the list is full.
fn say_full(out: &mut Vec<u8>, json: bool) -> Result<(), AllocError>
    ensures ok { OnOk result (out.new.items ≡ out.old.items ++ full_said json) }
{
    if json {
        return push_full_object(out);
    }
    push_bytes(out, b"full list: ")?;
    push_full_text(out)?;
    push_byte(out, b'\n')
}

// Appends that a request number was already used for this command.
fn say_used(
    alloc: Global,
    out: &mut Vec<u8>,
    json: bool,
    command: &Command,
) -> Result<(), AllocError>
    ensures ok { OnOk result (out.new.items ≡ out.old.items ++ used_said json command.now) }
{
    if json {
        return push_used_object(alloc, out, command);
    }
    push_bytes(out, b"error: ")?;
    push_used_text(out, command)?;
    push_byte(out, b'\n')
}

// Appends that nothing is asked again.
fn say_nothing(out: &mut Vec<u8>, json: bool) -> Result<(), AllocError>
    ensures ok { OnOk result (out.new.items ≡ out.old.items ++ nothing_said json) }
{
    if json {
        return push_nothing_object(out);
    }
    push_bytes(out, b"error: ")?;
    push_nothing_text(out)?;
    push_byte(out, b'\n')
}

// Appends that a node has learned what was acknowledged anywhere.
fn say_synced(out: &mut Vec<u8>, json: bool) -> Result<(), AllocError>
    ensures ok { OnOk result (out.new.items ≡ out.old.items ++ synced_said json) }
{
    if json {
        push_synced_object(out)
    } else {
        push_synced(out)
    }
}

/// Appends what came of a submit.
///
/// # Errors
/// Bytes of the line may then stand at the end.
pub fn say_outcome(
    alloc: Global,
    out: &mut Vec<u8>,
    json: bool,
    outcome: &Outcome,
) -> Result<(), AllocError>
    ensures ok { OnOk result (out.new.items ≡ out.old.items ++ outcome_said json outcome.now) }
{
    match outcome {
        Outcome::Answered(answer) => say_answer(out, json, answer),
        Outcome::ListFull => say_full(out, json),
        Outcome::Used(command) => say_used(alloc, out, json, command),
        Outcome::Nothing => say_nothing(out, json),
        Outcome::Whole => say_synced(out, json),
    }
}

/// Appends what came of a sync.
///
/// # Errors
/// Bytes of the line may then stand at the end.
pub fn say_sync(
    alloc: Global,
    out: &mut Vec<u8>,
    json: bool,
    outcome: &Outcome,
) -> Result<(), AllocError>
    ensures ok { OnOk result (out.new.items ≡ out.old.items ++ sync_said json outcome.now) }
{
    match outcome {
        Outcome::Answered(Answer::Acknowledged { .. }) => say_synced(out, json),
        _ => say_outcome(alloc, out, json, outcome),
    }
}

/// Appends the bound names that were seen, a line each behind one that says how many they are; or that none was seen.
///
/// # Errors
/// Bytes of the line may then stand at the end.
pub fn say_listing(out: &mut Vec<u8>, json: bool, listing: &Listing) -> Result<(), AllocError>
    ensures ok { OnOk result (out.new.items ≡ out.old.items ++ list_said json listing.now.names) }
{
    if json {
        push_listing_objects(out, listing)
    } else {
        push_listing(out, listing)
    }
}

/// Appends that a watch has begun.
///
/// # Errors
/// Bytes of the line may then stand at the end.
pub fn say_watching(out: &mut Vec<u8>, json: bool) -> Result<(), AllocError>
    ensures ok { OnOk result (out.new.items ≡ out.old.items ++ watching_said json) }
{
    if json {
        push_watching_object(out)
    } else {
        push_watching(out)
    }
}

/// Appends a name that is bound from now on as it wasn't before.
///
/// # Errors
/// Bytes of the line may then stand at the end.
pub fn say_changed(out: &mut Vec<u8>, json: bool, binding: &Binding) -> Result<(), AllocError>
    ensures ok { OnOk result (out.new.items ≡ out.old.items ++ changed_said json binding.now) }
{
    if json {
        push_changed_object(out, binding)
    } else {
        push_changed(out, binding)
    }
}

/// Appends a name that is free from now on.
///
/// # Errors
/// Bytes of the line may then stand at the end.
pub fn say_freed(out: &mut Vec<u8>, json: bool, name: &Name) -> Result<(), AllocError>
    ensures ok { OnOk result (out.new.items ≡ out.old.items ++ freed_said json name.now) }
{
    if json {
        push_freed_object(out, name)
    } else {
        push_freed(out, name)
    }
}

/// Appends that a watch is over, as changes were missed.
///
/// # Errors
/// Bytes of the line may then stand at the end.
pub fn say_late(out: &mut Vec<u8>, json: bool) -> Result<(), AllocError>
    ensures ok { OnOk result (out.new.items ≡ out.old.items ++ late_said json) }
{
    if json {
        push_late_object(out)
    } else {
        push_late(out)
    }
}

/// Appends that this node is asked from now on.
///
/// # Errors
/// Bytes of the line may then stand at the end.
pub fn say_move(out: &mut Vec<u8>, json: bool, node: NodeId) -> Result<(), AllocError>
    ensures ok { OnOk result (out.new.items ≡ out.old.items ++ move_said json node) }
{
    if json {
        push_node_object(out, b"at", node)
    } else {
        push_move(out, node)
    }
}

/// Appends that this node is down from now on.
///
/// # Errors
/// Bytes of the line may then stand at the end.
pub fn say_stop(out: &mut Vec<u8>, json: bool, node: NodeId) -> Result<(), AllocError>
    ensures ok { OnOk result (out.new.items ≡ out.old.items ++ stop_said json node) }
{
    if json {
        push_node_object(out, b"stopped", node)
    } else {
        push_stop(out, node)
    }
}

/// Appends that this node is up from now on.
///
/// # Errors
/// Bytes of the line may then stand at the end.
pub fn say_start(out: &mut Vec<u8>, json: bool, node: NodeId) -> Result<(), AllocError>
    ensures ok { OnOk result (out.new.items ≡ out.old.items ++ start_said json node) }
{
    if json {
        push_node_object(out, b"started", node)
    } else {
        push_start(out, node)
    }
}

/// Appends that this node has written a snapshot.
///
/// # Errors
/// Bytes of the line may then stand at the end.
pub fn say_snapshot(out: &mut Vec<u8>, json: bool, node: NodeId) -> Result<(), AllocError>
    ensures ok { OnOk result (out.new.items ≡ out.old.items ++ snapshot_said json node) }
{
    if json {
        push_node_object(out, b"snapshot", node)
    } else {
        push_snapshot(out, node)
    }
}

/// Appends that this node doesn't do what is asked of it.
///
/// # Errors
/// Bytes of the line may then stand at the end.
pub fn say_trouble(
    out: &mut Vec<u8>,
    json: bool,
    trouble: NodeTrouble,
    node: NodeId,
) -> Result<(), AllocError>
    ensures ok { OnOk result (out.new.items ≡ out.old.items ++ trouble_said trouble json node) }
{
    if json {
        push_trouble_object(out, trouble, node)
    } else {
        push_trouble(out, trouble, node)
    }
}

/// Appends what a node tells of itself.
///
/// # Errors
/// Bytes of the line may then stand at the end.
pub fn say_status(out: &mut Vec<u8>, json: bool, status: &NodeStatus) -> Result<(), AllocError>
    ensures ok { OnOk result (out.new.items ≡ out.old.items ++ status_said json status.now) }
{
    if json {
        push_status_object(out, status)
    } else {
        push_status(out, status)
    }
}

/// Appends the commands, or how one is used.
///
/// # Errors
/// Bytes of the lines may then stand at the end.
pub fn say_help(out: &mut Vec<u8>, json: bool, word: Option<ShellWord>) -> Result<(), AllocError>
    ensures ok { OnOk result (out.new.items ≡ out.old.items ++ help_said json word) }
{
    if json {
        push_help_object(out, word)
    } else {
        push_help(out, word)
    }
}

/// Appends a fault: what is wrong, and what is expected, where there are `nodes` nodes.
///
/// # Errors
/// Bytes of the line may then stand at the end.
pub fn say_fault(
    out: &mut Vec<u8>,
    json: bool,
    nodes: Nodes,
    fault: LineFault,
) -> Result<(), AllocError>
    ensures ok { OnOk result (out.new.items ≡ out.old.items ++ fault_said json nodes fault) }
{
    if json {
        push_fault_object(out, nodes, fault)
    } else {
        push_fault(out, nodes, fault)
    }
}
