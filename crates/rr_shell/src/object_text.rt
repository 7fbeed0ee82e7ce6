//! What is said to a line as JSON: an object for each line of words.

ghost use Rattle.std.specs.Prelude.{◌≡◌, ◌∷◌, ◌++◌, [], OnOk, codes, option_map};
ghost use Rattle.std.specs.List.{flat_map};
ghost use Rattle.rr_text.specs.ReportTexts.{owner_words, reply_words};
ghost use Rattle.rr_shell.specs.Texts.{trouble_text, help_text, fault_text, used_text, full_text, nothing_text, late_text, left_behind};
ghost use Rattle.rr_json.specs.Json.{escaped_byte, label, text_member, number_member, opened, object_line};
ghost use Rattle.rr_shell.specs.Objects.{reply_members, bound_members, bound_object, answer_object, synced_object, binding_object, list_objects, watching_object, changed_object, freed_object, node_object, down_members, state_members, status_object, text_opened, text_closed, text_object};

use crate::line_text::{push_fault_text, push_help_text, push_late_text, push_trouble_text};
use crate::listing::Listing;
use crate::outcome::{push_full_text, push_nothing_text, push_used_text};
use crate::shell_line::LineFault;
use crate::status::{NodeStatus, NodeTrouble, left_behind};
use rr_explain::ShellWord;
use rr_json::{
    push_end, push_escaped, push_label, push_number_member, push_open, push_text_member,
    push_words_member,
};
use rr_text::Answer;
use rr_text::text_word::{push_byte, push_bytes};
use rr_types::{Binding, Command, Name, NodeId, NodeSummary, Nodes, Reply, Value};
use std::alloc::{AllocError, Global};

// The word of a reply, and the owner that is named in it.
#[tactic(auto, unfolding(rr_json::specs::Json::number_member))]
fn push_owned_member(out: &mut Vec<u8>, word: &[u8], owner: Option<u32>) -> Result<(), AllocError>
    ensures ok { OnOk result (out.new.items ≡ out.old.items ++ reply_members (word.now ∷ owner_words owner)) }
{
    push_text_member(out, b"reply", word)?;
    match owner {
        None => Ok(()),
        Some(owner) => push_number_member(out, b"owner", u64::from(owner)),
    }
}

fn push_reply_members(out: &mut Vec<u8>, reply: Reply) -> Result<(), AllocError>
    ensures ok { OnOk result (out.new.items ≡ out.old.items ++ reply_members (reply_words reply)) }
{
    push_owned_member(out, reply.kind().word().as_bytes(), reply.owner())
}

fn push_reply(out: &mut Vec<u8>, reply: Reply) -> Result<(), AllocError>
    ensures ok { OnOk result (out.new.items ≡ out.old.items ++ opened (codes "reply") ++ reply_members (reply_words reply) ++ 125 ∷ 10 ∷ []) }
{
    push_open(out, b"reply")?;
    push_reply_members(out, reply)?;
    push_end(out)
}

// That a name is free, or that nothing was seen of it.
fn push_name(out: &mut Vec<u8>, kind: &[u8], name: &Name) -> Result<(), AllocError>
    ensures ok { OnOk result (out.new.items ≡ out.old.items ++ opened kind.now ++ text_member (codes "name") name.now ++ 125 ∷ 10 ∷ []) }
{
    push_open(out, kind)?;
    push_text_member(out, b"name", name.as_bytes())?;
    push_end(out)
}

fn push_bound_members(
    out: &mut Vec<u8>,
    name: &Name,
    owner: u32,
    value: &Value,
) -> Result<(), AllocError>
    ensures ok { OnOk result (out.new.items ≡ out.old.items ++ bound_members name.now owner value.now) }
{
    push_text_member(out, b"name", name.as_bytes())?;
    push_number_member(out, b"owner", u64::from(owner))?;
    push_words_member(out, b"value", value.as_bytes())
}

fn push_bound(out: &mut Vec<u8>, name: &Name, owner: u32, value: &Value) -> Result<(), AllocError>
    ensures ok { OnOk result (out.new.items ≡ out.old.items ++ bound_object name.now owner value.now) }
{
    push_open(out, b"bound")?;
    push_bound_members(out, name, owner, value)?;
    push_end(out)
}

// An object that has only its kind.
fn push_kind(out: &mut Vec<u8>, kind: &[u8]) -> Result<(), AllocError>
    ensures ok { OnOk result (out.new.items ≡ out.old.items ++ object_line kind.now []) }
{
    push_open(out, kind)?;
    push_end(out)
}

/// Appends an answer as an object.
///
/// # Errors
/// Bytes of the line may then stand at the end.
pub fn push_answer_object(out: &mut Vec<u8>, answer: &Answer) -> Result<(), AllocError>
    ensures ok { OnOk result (out.new.items ≡ out.old.items ++ answer_object answer.now) }
{
    match answer {
        Answer::Acknowledged { reply, .. } => push_reply(out, *reply),
        Answer::Unacknowledged { .. } => push_kind(out, b"unacknowledged"),
        Answer::Free { name, .. } => push_name(out, b"free", name),
        Answer::Bound {
            name,
            owner,
            value,
            ..
        } => push_bound(out, name, *owner, value),
        Answer::Unseen { name, .. } => push_name(out, b"unseen", name),
    }
}

/// Appends that a node has learned what was acknowledged anywhere as an object.
///
/// # Errors
/// Bytes of the line may then stand at the end.
pub fn push_synced_object(out: &mut Vec<u8>) -> Result<(), AllocError>
    ensures ok { OnOk result (out.new.items ≡ out.old.items ++ synced_object) }
{
    push_kind(out, b"synced")
}

fn push_bound_objects(out: &mut Vec<u8>, names: &[Binding]) -> Result<(), AllocError>
    ensures ok { OnOk result (out.new.items ≡ out.old.items ++ flat_map binding_object names.now) }
{
    for binding in names {
        push_bound(out, &binding.name, binding.owner, &binding.value)?;
    }
    Ok(())
}

// How many bound names there are, and an object for each.
fn push_bound_names(out: &mut Vec<u8>, names: &[Binding]) -> Result<(), AllocError>
    ensures ok { OnOk result (out.new.items ≡ out.old.items ++ list_objects (Some names.now)) }
{
    push_open(out, b"list")?;
    push_number_member(out, b"names", names.len() as u64)?;
    push_end(out)?;
    push_bound_objects(out, names)
}

/// Appends the bound names that were seen as objects, behind one that says how many they are; or that none was seen.
///
/// # Errors
/// Bytes of the lines may then stand at the end.
pub fn push_listing_objects(out: &mut Vec<u8>, listing: &Listing) -> Result<(), AllocError>
    ensures ok { OnOk result (out.new.items ≡ out.old.items ++ list_objects listing.now.names) }
{
    match &listing.names {
        None => push_kind(out, b"unseen"),
        Some(names) => push_bound_names(out, names.as_slice()),
    }
}

/// Appends that a watch has begun as an object.
///
/// # Errors
/// Bytes of the line may then stand at the end.
pub fn push_watching_object(out: &mut Vec<u8>) -> Result<(), AllocError>
    ensures ok { OnOk result (out.new.items ≡ out.old.items ++ watching_object) }
{
    push_kind(out, b"watching")
}

/// Appends a name that is bound from now on as it wasn't before, as an object.
///
/// # Errors
/// Bytes of the line may then stand at the end.
pub fn push_changed_object(out: &mut Vec<u8>, binding: &Binding) -> Result<(), AllocError>
    ensures ok { OnOk result (out.new.items ≡ out.old.items ++ changed_object binding.now) }
{
    push_open(out, b"changed")?;
    push_bound_members(out, &binding.name, binding.owner, &binding.value)?;
    push_end(out)
}

/// Appends a name that is free from now on as an object.
///
/// # Errors
/// Bytes of the line may then stand at the end.
pub fn push_freed_object(out: &mut Vec<u8>, name: &Name) -> Result<(), AllocError>
    ensures ok { OnOk result (out.new.items ≡ out.old.items ++ freed_object name.now) }
{
    push_name(out, b"freed", name)
}

/// Appends that a watch is over, as changes were missed, as an object.
///
/// # Errors
/// Bytes of the line may then stand at the end.
pub fn push_late_object(out: &mut Vec<u8>) -> Result<(), AllocError>
    ensures ok { OnOk result (out.new.items ≡ out.old.items ++ text_object (codes "late") late_text) }
{
    push_text_open(out, b"late")?;
    push_late_text(out)?;
    push_text_close(out)
}

/// Appends that a node is asked, is down or is up from now on, as an object of this kind.
///
/// # Errors
/// Bytes of the line may then stand at the end.
pub fn push_node_object(out: &mut Vec<u8>, kind: &[u8], node: NodeId) -> Result<(), AllocError>
    ensures ok { OnOk result (out.new.items ≡ out.old.items ++ node_object kind.now node) }
{
    push_open(out, kind)?;
    push_number_member(out, b"node", u64::from(node.index()))?;
    push_end(out)
}

// That a node is up.
fn push_up(out: &mut Vec<u8>) -> Result<(), AllocError>
    ensures ok { OnOk result (out.new.items ≡ out.old.items ++ label (codes "up") ++ codes "true") }
{
    push_label(out, b"up")?;
    push_bytes(out, b"true")
}

// That a node is up, and what it knows.
fn push_summary(out: &mut Vec<u8>, summary: &NodeSummary) -> Result<(), AllocError>
    ensures ok { OnOk result (out.new.items ≡ out.old.items ++ state_members (Some summary.now) None) }
{
    push_up(out)?;
    push_number_member(out, b"facts", summary.facts)?;
    push_number_member(out, b"decided", summary.decided)?;
    push_number_member(out, b"left", left_behind(summary.decided))?;
    push_number_member(out, b"suspects", u64::from(summary.suspects.bits()))
}

// That a node is down, and if it has failed, why.
fn push_no_summary(out: &mut Vec<u8>, failure: &Option<Vec<u8>>) -> Result<(), AllocError>
    ensures ok { OnOk result (out.new.items ≡ out.old.items ++ down_members (option_map (λ v. v.items) failure.now)) }
{
    push_label(out, b"up")?;
    push_bytes(out, b"false")?;
    match failure {
        None => Ok(()),
        Some(failure) => push_words_member(out, b"failed", failure.as_slice()),
    }
}

/// Appends what a node tells of itself as an object.
///
/// # Errors
/// Bytes of the line may then stand at the end.
pub fn push_status_object(out: &mut Vec<u8>, status: &NodeStatus) -> Result<(), AllocError>
    ensures ok { OnOk result (out.new.items ≡ out.old.items ++ status_object status.now) }
{
    push_open(out, b"node")?;
    push_number_member(out, b"node", u64::from(status.node.index()))?;
    match &status.summary {
        None => push_no_summary(out, &status.failure)?,
        Some(summary) => push_summary(out, summary)?,
    }
    push_end(out)
}

// The beginning of an object that has a text.
fn push_text_open(out: &mut Vec<u8>, kind: &[u8]) -> Result<(), AllocError>
    ensures ok { OnOk result (out.new.items ≡ out.old.items ++ text_opened kind.now) }
{
    push_open(out, kind)?;
    push_label(out, b"text")?;
    push_byte(out, b'"')
}

// The end of an object that has a text, and of its line.
fn push_text_close(out: &mut Vec<u8>) -> Result<(), AllocError>
    ensures ok { OnOk result (out.new.items ≡ out.old.items ++ text_closed) }
{
    push_bytes(out, b"\"}\n")
}

/// Appends that this node doesn't do what is asked of it, as an object.
///
/// # Errors
/// Bytes of the line may then stand at the end.
pub fn push_trouble_object(
    out: &mut Vec<u8>,
    trouble: NodeTrouble,
    node: NodeId,
) -> Result<(), AllocError>
    ensures ok { OnOk result (out.new.items ≡ out.old.items ++ text_object (codes "error") (trouble_text trouble node)) }
{
    push_text_open(out, b"error")?;
    push_trouble_text(out, trouble, node)?;
    push_text_close(out)
}

/// Appends the commands as an object.
///
/// # Errors
/// Bytes of the line may then stand at the end.
pub fn push_help_object(out: &mut Vec<u8>, word: Option<ShellWord>) -> Result<(), AllocError>
    ensures ok { OnOk result (out.new.items ≡ out.old.items ++ text_object (codes "help") (help_text word)) }
{
    push_text_open(out, b"help")?;
    push_help_text(out, word)?;
    push_text_close(out)
}

/// Appends a fault as an object: what is wrong, and what is expected, where there are `nodes` nodes.
///
/// # Errors
/// Bytes of the line may then stand at the end.
pub fn push_fault_object(
    out: &mut Vec<u8>,
    nodes: Nodes,
    fault: LineFault,
) -> Result<(), AllocError>
    ensures ok { OnOk result (out.new.items ≡ out.old.items ++ text_object (codes "error") (fault_text nodes fault)) }
{
    push_text_open(out, b"error")?;
    push_fault_text(out, nodes, fault)?;
    push_text_close(out)
}

/// Appends that the list is full, as an object.
///
/// # Errors
/// Bytes of the line may then stand at the end.
pub fn push_full_object(out: &mut Vec<u8>) -> Result<(), AllocError>
    ensures ok { OnOk result (out.new.items ≡ out.old.items ++ text_object (codes "full list") full_text) }
{
    push_text_open(out, b"full list")?;
    push_full_text(out)?;
    push_text_close(out)
}

/// Appends that nothing is asked again, as an object.
///
/// # Errors
/// Bytes of the line may then stand at the end.
pub fn push_nothing_object(out: &mut Vec<u8>) -> Result<(), AllocError>
    ensures ok { OnOk result (out.new.items ≡ out.old.items ++ text_object (codes "error") nothing_text) }
{
    push_text_open(out, b"error")?;
    push_nothing_text(out)?;
    push_text_close(out)
}

/// Appends that a request number was already used for this command, as an object.
///
/// # Errors
/// Bytes of the line may then stand at the end.
pub fn push_used_object(
    alloc: Global,
    out: &mut Vec<u8>,
    command: &Command,
) -> Result<(), AllocError>
    ensures ok { OnOk result (out.new.items ≡ out.old.items ++ text_object (codes "error") (flat_map escaped_byte (used_text command.now))) }
{
    let mut text = Vec::new(alloc);
    push_used_text(&mut text, command)?;
    push_text_open(out, b"error")?;
    push_escaped(out, text.as_slice())?;
    push_text_close(out)
}
