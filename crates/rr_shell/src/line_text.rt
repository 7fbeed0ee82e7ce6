//! What is said to a line: an answer, a move, the help or a fault.

ghost use Rattle.std.specs.Prelude.{◌≡◌, ◌∷◌, ◌++◌, OnOk, decimal, option_map};
ghost use Rattle.std.specs.List.{flat_map};
ghost use Rattle.rr_text.specs.Words.{spaced};
ghost use Rattle.rr_shell.specs.Texts.{bound_words, answer_words, answer_line, bound_line, list_lines, watching_line, changed_line, freed_line, late_text, late_line, synced_line, move_line, stop_line, start_line, snapshot_line, node_text, trouble_text, trouble_line, counts_words, up_words, down_words, status_line, forms_text, example_text, use_text, help_text, example_line, use_lines, all_lines, help_lines, no_node_text, words_text, meant_text, no_command_text, form_behind, no_name_text, no_value_text, fault_text, fault_line};

use crate::listing::Listing;
use crate::shell_line::{LineFault, MAX_LINE};
use crate::status::{NodeStatus, NodeTrouble, left_behind};
use rr_explain::{ShellWord, push_help_lines, push_word_help, shell_words};
use rr_text::Answer;
use rr_text::text_word::{
    push_byte, push_bytes, push_number, push_number_word, push_reply, push_set, push_word,
};
use rr_types::{Binding, Name, NodeId, NodeSummary, Nodes, OpKind, Value};
use std::alloc::AllocError;

// The text of too long a line names the most bytes.
const _: () = prove!(MAX_LINE == 4096);

// Who has a name, and its value. The empty value is no word.
fn push_bound(out: &mut Vec<u8>, name: &Name, owner: u32, value: &Value) -> Result<(), AllocError>
    ensures ok { OnOk result (out.new.items ≡ out.old.items ++ spaced (bound_words name.now owner value.now)) }
{
    push_bytes(out, name.as_bytes())?;
    push_word(out, b"bound")?;
    push_number_word(out, u64::from(owner))?;
    let value = value.as_bytes();
    match value {
        [] => Ok(()),
        [_, ..] => push_word(out, value),
    }
}

fn push_answer_words(out: &mut Vec<u8>, answer: &Answer) -> Result<(), AllocError>
    ensures ok { OnOk result (out.new.items ≡ out.old.items ++ spaced (answer_words answer.now)) }
{
    match answer {
        Answer::Acknowledged { reply, .. } => push_reply(out, *reply),
        Answer::Unacknowledged { .. } => push_bytes(out, b"unacknowledged"),
        Answer::Free { name, .. } => {
            push_bytes(out, name.as_bytes())?;
            push_word(out, b"free")
        }
        Answer::Bound {
            name,
            owner,
            value,
            ..
        } => push_bound(out, name, *owner, value),
        Answer::Unseen { name, .. } => {
            push_bytes(out, name.as_bytes())?;
            push_word(out, b"unseen")
        }
    }
}

/// Appends the line of an answer: of a submit the reply, of a look the name and what was seen. It names no node.
///
/// # Errors
/// Bytes of the line may then stand at the end.
pub fn push_answer(out: &mut Vec<u8>, answer: &Answer) -> Result<(), AllocError>
    ensures ok { OnOk result (out.new.items ≡ out.old.items ++ answer_line answer.now) }
{
    push_answer_words(out, answer)?;
    push_byte(out, b'\n')
}

fn push_bound_lines(out: &mut Vec<u8>, names: &[Binding]) -> Result<(), AllocError>
    ensures ok { OnOk result (out.new.items ≡ out.old.items ++ flat_map bound_line names.now) }
{
    for binding in names {
        push_bound(out, &binding.name, binding.owner, &binding.value)?;
        push_byte(out, b'\n')?;
    }
    Ok(())
}

// How many bound names there are, and a line for each.
fn push_bound_names(out: &mut Vec<u8>, names: &[Binding]) -> Result<(), AllocError>
    ensures ok { OnOk result (out.new.items ≡ out.old.items ++ list_lines (Some names.now)) }
{
    push_bytes(out, b"list")?;
    push_number_word(out, names.len() as u64)?;
    push_byte(out, b'\n')?;
    push_bound_lines(out, names)
}

/// Appends the lines of the bound names that were seen, behind one that says how many they are; or the line that none was seen.
///
/// # Errors
/// Bytes of the lines may then stand at the end.
pub fn push_listing(out: &mut Vec<u8>, listing: &Listing) -> Result<(), AllocError>
    ensures ok { OnOk result (out.new.items ≡ out.old.items ++ list_lines listing.now.names) }
{
    match &listing.names {
        None => push_bytes(out, b"list unseen\n"),
        Some(names) => push_bound_names(out, names.as_slice()),
    }
}

/// Appends the line that a watch has begun.
///
/// # Errors
/// Bytes of the line may then stand at the end.
pub fn push_watching(out: &mut Vec<u8>) -> Result<(), AllocError>
    ensures ok { OnOk result (out.new.items ≡ out.old.items ++ watching_line) }
{
    push_bytes(out, b"watching")?;
    push_byte(out, b'\n')
}

/// Appends the line of a name that is bound from now on as it wasn't before.
///
/// # Errors
/// Bytes of the line may then stand at the end.
pub fn push_changed(out: &mut Vec<u8>, binding: &Binding) -> Result<(), AllocError>
    ensures ok { OnOk result (out.new.items ≡ out.old.items ++ changed_line binding.now) }
{
    push_bytes(out, b"changed")?;
    push_byte(out, b' ')?;
    push_bound(out, &binding.name, binding.owner, &binding.value)?;
    push_byte(out, b'\n')
}

/// Appends the line of a name that is free from now on.
///
/// # Errors
/// Bytes of the line may then stand at the end.
pub fn push_freed(out: &mut Vec<u8>, name: &Name) -> Result<(), AllocError>
    ensures ok { OnOk result (out.new.items ≡ out.old.items ++ freed_line name.now) }
{
    push_bytes(out, b"freed")?;
    push_word(out, name.as_bytes())?;
    push_byte(out, b'\n')
}

/// Appends that a watch is over, as changes were missed.
pub(crate) fn push_late_text(out: &mut Vec<u8>) -> Result<(), AllocError>
    ensures ok { OnOk result (out.new.items ≡ out.old.items ++ late_text) }
{
    push_bytes(out, b"changes were missed: list the names, and watch again")
}

/// Appends the line that a watch is over, as changes were missed.
///
/// # Errors
/// Bytes of the line may then stand at the end.
pub fn push_late(out: &mut Vec<u8>) -> Result<(), AllocError>
    ensures ok { OnOk result (out.new.items ≡ out.old.items ++ late_line) }
{
    push_bytes(out, b"late: ")?;
    push_late_text(out)?;
    push_byte(out, b'\n')
}

/// Appends the line that a node has learned what was acknowledged anywhere.
///
/// # Errors
/// Bytes of the line may then stand at the end.
pub fn push_synced(out: &mut Vec<u8>) -> Result<(), AllocError>
    ensures ok { OnOk result (out.new.items ≡ out.old.items ++ synced_line) }
{
    push_bytes(out, b"synced")?;
    push_byte(out, b'\n')
}

/// Appends the line that this node is asked from now on.
///
/// # Errors
/// Bytes of the line may then stand at the end.
pub fn push_move(out: &mut Vec<u8>, node: NodeId) -> Result<(), AllocError>
    ensures ok { OnOk result (out.new.items ≡ out.old.items ++ move_line node) }
{
    push_bytes(out, b"at")?;
    push_number_word(out, u64::from(node.index()))?;
    push_byte(out, b'\n')
}

/// Appends the line that this node is down from now on.
///
/// # Errors
/// Bytes of the line may then stand at the end.
pub fn push_stop(out: &mut Vec<u8>, node: NodeId) -> Result<(), AllocError>
    ensures ok { OnOk result (out.new.items ≡ out.old.items ++ stop_line node) }
{
    push_bytes(out, b"stopped")?;
    push_number_word(out, u64::from(node.index()))?;
    push_byte(out, b'\n')
}

/// Appends the line that this node is up from now on.
///
/// # Errors
/// Bytes of the line may then stand at the end.
pub fn push_start(out: &mut Vec<u8>, node: NodeId) -> Result<(), AllocError>
    ensures ok { OnOk result (out.new.items ≡ out.old.items ++ start_line node) }
{
    push_bytes(out, b"started")?;
    push_number_word(out, u64::from(node.index()))?;
    push_byte(out, b'\n')
}

/// Appends the line that this node has written a snapshot.
///
/// # Errors
/// Bytes of the line may then stand at the end.
pub fn push_snapshot(out: &mut Vec<u8>, node: NodeId) -> Result<(), AllocError>
    ensures ok { OnOk result (out.new.items ≡ out.old.items ++ snapshot_line node) }
{
    push_bytes(out, b"snapshot")?;
    push_number_word(out, u64::from(node.index()))?;
    push_byte(out, b'\n')
}

#[tactic(auto, unfolding(crate::specs::Texts::node_text))]
fn push_node(out: &mut Vec<u8>, node: NodeId) -> Result<(), AllocError>
    ensures ok { OnOk result (out.new.items ≡ out.old.items ++ node_text node) }
{
    push_bytes(out, b"node")?;
    push_number_word(out, u64::from(node.index()))
}

/// Appends that this node doesn't do what is asked of it.
pub(crate) fn push_trouble_text(
    out: &mut Vec<u8>,
    trouble: NodeTrouble,
    node: NodeId,
) -> Result<(), AllocError>
    ensures ok { OnOk result (out.new.items ≡ out.old.items ++ trouble_text trouble node) }
{
    push_node(out, node)?;
    match trouble {
        NodeTrouble::Down => push_bytes(out, b" is down: start it, or ask another"),
        NodeTrouble::NoSnapshot => push_bytes(out, b" wrote no snapshot: down or busy"),
        NodeTrouble::NoStart => push_bytes(out, b" has failed again: status says why"),
    }
}

/// Appends the line that this node doesn't do what is asked of it.
///
/// # Errors
/// Bytes of the line may then stand at the end.
pub fn push_trouble(out: &mut Vec<u8>, trouble: NodeTrouble, node: NodeId) -> Result<(), AllocError>
    ensures ok { OnOk result (out.new.items ≡ out.old.items ++ trouble_line trouble node) }
{
    push_bytes(out, b"error: ")?;
    push_trouble_text(out, trouble, node)?;
    push_byte(out, b'\n')
}

// A space, and the counts of a node.
fn push_counts(out: &mut Vec<u8>, summary: &NodeSummary) -> Result<(), AllocError>
    ensures ok { OnOk result (out.new.items ≡ out.old.items ++ 32 ∷ spaced (counts_words summary.now)) }
{
    push_word(out, b"facts")?;
    push_number_word(out, summary.facts)?;
    push_word(out, b"decided")?;
    push_number_word(out, summary.decided)?;
    push_word(out, b"left")?;
    push_number_word(out, left_behind(summary.decided))
}

// A space, that a node is up, and what it knows.
fn push_summary(out: &mut Vec<u8>, summary: &NodeSummary) -> Result<(), AllocError>
    ensures ok { OnOk result (out.new.items ≡ out.old.items ++ 32 ∷ spaced (up_words summary.now)) }
{
    push_word(out, b"up")?;
    push_counts(out, summary)?;
    push_word(out, b"suspects")?;
    push_set(out, summary.suspects)
}

// A space, and that a node is down, or has failed and why.
fn push_no_summary(out: &mut Vec<u8>, failure: &Option<Vec<u8>>) -> Result<(), AllocError>
    ensures ok { OnOk result (out.new.items ≡ out.old.items ++ 32 ∷ down_words (option_map (λ v. v.items) failure.now)) }
{
    match failure {
        None => push_word(out, b"down"),
        Some(failure) => {
            push_word(out, b"failed: ")?;
            push_bytes(out, failure.as_slice())
        }
    }
}

/// Appends the line of what a node tells of itself.
///
/// # Errors
/// Bytes of the line may then stand at the end.
pub fn push_status(out: &mut Vec<u8>, status: &NodeStatus) -> Result<(), AllocError>
    ensures ok { OnOk result (out.new.items ≡ out.old.items ++ status_line status.now) }
{
    push_bytes(out, b"node")?;
    push_number_word(out, u64::from(status.node.index()))?;
    match &status.summary {
        None => push_no_summary(out, &status.failure)?,
        Some(summary) => push_summary(out, summary)?,
    }
    push_byte(out, b'\n')
}

// Appends the forms of all commands.
fn push_forms(out: &mut Vec<u8>) -> Result<(), AllocError>
    ensures ok { OnOk result (out.new.items ≡ out.old.items ++ forms_text) }
{
    push_bytes(out, OpKind::forms().as_bytes())?;
    push_bytes(
        out,
        b", look NAME, list [PREFIX], watch [PREFIX], sync, at NODE, stop NODE, start NODE, snapshot NODE, status, again, help [COMMAND], quit or exit",
    )
}

// Appends an example of a command behind how it is used.
fn push_example(out: &mut Vec<u8>, word: ShellWord) -> Result<(), AllocError>
    ensures ok { OnOk result (out.new.items ≡ out.old.items ++ example_text word) }
{
    push_bytes(out, b"; for example: ")?;
    push_bytes(out, word.example().as_bytes())
}

// Appends how a command is used, and an example in the same line.
fn push_use(out: &mut Vec<u8>, word: ShellWord) -> Result<(), AllocError>
    ensures ok { OnOk result (out.new.items ≡ out.old.items ++ use_text word) }
{
    push_word_help(out, word)?;
    push_example(out, word)
}

/// Appends the commands, or how one is used.
pub(crate) fn push_help_text(out: &mut Vec<u8>, word: Option<ShellWord>) -> Result<(), AllocError>
    ensures ok { OnOk result (out.new.items ≡ out.old.items ++ help_text word) }
{
    match word {
        None => push_forms(out),
        Some(word) => push_use(out, word),
    }
}

// Appends a line for each command.
fn push_all_help(out: &mut Vec<u8>) -> Result<(), AllocError>
    ensures ok { OnOk result (out.new.items ≡ out.old.items ++ all_lines) }
{
    let words = shell_words();
    push_help_lines(out, &words)
}

// Appends the end of a line, and a line with an example of a command.
fn push_example_line(out: &mut Vec<u8>, word: ShellWord) -> Result<(), AllocError>
    ensures ok { OnOk result (out.new.items ≡ out.old.items ++ example_line word) }
{
    push_bytes(out, b"\nfor example: ")?;
    push_bytes(out, word.example().as_bytes())?;
    push_byte(out, b'\n')
}

// Appends the line of how a command is used, and one with an example.
fn push_use_lines(out: &mut Vec<u8>, word: ShellWord) -> Result<(), AllocError>
    ensures ok { OnOk result (out.new.items ≡ out.old.items ++ use_lines word) }
{
    push_word_help(out, word)?;
    push_example_line(out, word)
}

/// Appends the lines that tell the commands, or how one is used.
///
/// # Errors
/// Bytes of the lines may then stand at the end.
pub fn push_help(out: &mut Vec<u8>, word: Option<ShellWord>) -> Result<(), AllocError>
    ensures ok { OnOk result (out.new.items ≡ out.old.items ++ help_lines word) }
{
    match word {
        None => push_all_help(out),
        Some(word) => push_use_lines(out, word),
    }
}

fn push_no_node(out: &mut Vec<u8>, nodes: Nodes) -> Result<(), AllocError>
    ensures ok { OnOk result (out.new.items ≡ out.old.items ++ no_node_text nodes) }
{
    push_bytes(out, b"no such node: a number is expected that is below")?;
    push_number_word(out, u64::from(nodes.count()))
}

// Appends the words of all commands.
fn push_words(out: &mut Vec<u8>) -> Result<(), AllocError>
    ensures ok { OnOk result (out.new.items ≡ out.old.items ++ words_text) }
{
    push_bytes(out, OpKind::words().as_bytes())?;
    push_bytes(
        out,
        b", look, list, watch, sync, at, stop, start, snapshot, status, again, help, quit or exit is expected",
    )
}

// Appends which command was meant.
fn push_meant(out: &mut Vec<u8>, word: ShellWord) -> Result<(), AllocError>
    ensures ok { OnOk result (out.new.items ≡ out.old.items ++ meant_text word) }
{
    push_bytes(out, b"did you mean `")?;
    push_bytes(out, word.word().as_bytes())?;
    push_bytes(out, b"`?")
}

fn push_no_command(out: &mut Vec<u8>, meant: Option<ShellWord>) -> Result<(), AllocError>
    ensures ok { OnOk result (out.new.items ≡ out.old.items ++ no_command_text meant) }
{
    push_bytes(out, b"no such command: ")?;
    match meant {
        None => push_words(out),
        Some(word) => push_meant(out, word),
    }
}

// Appends how a command is written, behind what is wrong.
fn push_form(out: &mut Vec<u8>, word: ShellWord) -> Result<(), AllocError>
    ensures ok { OnOk result (out.new.items ≡ out.old.items ++ form_behind word) }
{
    push_bytes(out, b"; the form is `")?;
    push_bytes(out, word.form().as_bytes())?;
    push_byte(out, b'`')
}

// Appends that no name stands where this command wants one.
fn push_no_name(out: &mut Vec<u8>, word: ShellWord) -> Result<(), AllocError>
    ensures ok { OnOk result (out.new.items ≡ out.old.items ++ no_name_text word) }
{
    push_bytes(
        out,
        b"no name: 1 to 64 bytes of a to z, 0 to 9 and - are expected",
    )?;
    push_form(out, word)
}

// Appends that what stands where this command has a value is none.
fn push_no_value(out: &mut Vec<u8>, word: ShellWord) -> Result<(), AllocError>
    ensures ok { OnOk result (out.new.items ≡ out.old.items ++ no_value_text word) }
{
    push_bytes(
        out,
        b"no value: 0 to 64 bytes from ! to ~ are expected, and no space",
    )?;
    push_form(out, word)
}

/// Appends what is wrong with a line, and what is expected.
pub(crate) fn push_fault_text(
    out: &mut Vec<u8>,
    nodes: Nodes,
    fault: LineFault,
) -> Result<(), AllocError>
    ensures ok { OnOk result (out.new.items ≡ out.old.items ++ fault_text nodes fault) }
{
    match fault {
        LineFault::NoCommand(meant) => push_no_command(out, meant),
        LineFault::BadName(word) => push_no_name(out, word),
        LineFault::BadValue(word) => push_no_value(out, word),
        LineFault::BadOwner(word) => {
            push_bytes(out, b"no owner: a number below 4294967296 is expected")?;
            push_form(out, word)
        }
        LineFault::NoNode(word) => {
            push_no_node(out, nodes)?;
            push_form(out, word)
        }
        LineFault::Behind(word) => {
            push_bytes(out, b"too many words")?;
            push_form(out, word)
        }
        LineFault::TooLong => {
            push_bytes(out, b"too long a line: at most 4096 bytes are expected")
        }
    }
}

/// Appends the line of a fault: what is wrong, and what is expected, where there are `nodes` nodes.
///
/// # Errors
/// Bytes of the line may then stand at the end.
pub fn push_fault(out: &mut Vec<u8>, nodes: Nodes, fault: LineFault) -> Result<(), AllocError>
    ensures ok { OnOk result (out.new.items ≡ out.old.items ++ fault_line nodes fault) }
{
    push_bytes(out, b"error: ")?;
    push_fault_text(out, nodes, fault)?;
    push_byte(out, b'\n')
}
