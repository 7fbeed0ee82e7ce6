//! What is said to a line that asks for something.

ghost use Rattle.std.specs.Prelude.{◌≡◌, ◌<◌, true, false, Some, None, IfOk};
ghost use Rattle.rr_shell.specs.Deeds.{finds_on, finds_off};
ghost use Rattle.rr_shell.specs.Talks.{Stated, asks_node, IsSaidToSync, IsSaidToRequest};
ghost use Rattle.rr_shell.specs.Troubles.{answer_trouble, outcome_trouble, listing_trouble};
ghost use Rattle.rr_shell.specs.Forms.{answer_said, outcome_said, list_said, move_said, stop_said, start_said, snapshot_said, trouble_said, help_said, fault_said};

use crate::answering::Asked;
use crate::listing::Listing;
use crate::outcome::Outcome;
use crate::said_text::{
    say_answer, say_fault, say_help, say_listing, say_move, say_outcome, say_snapshot, say_start,
    say_status, say_stop, say_sync, say_trouble,
};
use crate::shell_line::{LineFault, ShellLine};
use crate::status::NodeTrouble;
use crate::troubles::{Trouble, answer_trouble, listing_trouble, outcome_trouble, sync_trouble};
use crate::watching::Watched;
use rr_explain::ShellWord;
use rr_text::Answer;
use rr_types::{Name, NodeId, Nodes, Op, Refusal, Reply, Value, made_of};
use std::alloc::Global;

/// What is said to a line, which node is asked from then on, why that isn't what the line asked for, if it isn't, and what is
/// watched until the next line.
#[derive(Debug, Drop)]
pub struct Said {
    pub node: NodeId,
    pub text: Vec<u8>,
    pub trouble: Option<Trouble>,
    pub watched: Option<Watched>,
}

fn answered(alloc: Global, json: bool, node: NodeId, answer: &Answer) -> Result<Said, Refusal>
    ensures { IfOk result (λ s. (s.node ≡ node) × (s.text.items ≡ answer_said json answer.now) × (s.trouble ≡ answer_trouble answer.now) × (s.watched ≡ None)) }
{
    let mut text = Vec::new(alloc);
    say_answer(&mut text, json, answer)?;
    let trouble = answer_trouble(answer);
    Ok(Said {
        node,
        text,
        trouble,
        watched: None,
    })
}

// What came of a submit.
fn submitted(alloc: Global, json: bool, node: NodeId, outcome: &Outcome) -> Result<Said, Refusal>
    ensures { IfOk result (λ s. (s.node ≡ node) × (s.text.items ≡ outcome_said json outcome.now) × (s.trouble ≡ outcome_trouble outcome.now) × (s.watched ≡ None)) }
{
    let mut text = Vec::new(alloc);
    say_outcome(alloc, &mut text, json, outcome)?;
    let trouble = outcome_trouble(outcome);
    Ok(Said {
        node,
        text,
        trouble,
        watched: None,
    })
}

// Asks a node for a sync. What came of it.
fn synced<A: Asked>(alloc: Global, json: bool, node: NodeId, asked: &mut A) -> Result<Said, Refusal>
    ensures { IfOk result (IsSaidToSync A.did json node (A.syncs asked.old)) }
{
    let outcome = asked.sync(node)?;
    let mut text = Vec::new(alloc);
    say_sync(alloc, &mut text, json, &outcome)?;
    let trouble = sync_trouble(&outcome);
    Ok(Said {
        node,
        text,
        trouble,
        watched: None,
    })
}

fn listed(alloc: Global, json: bool, node: NodeId, listing: &Listing) -> Result<Said, Refusal>
    ensures { IfOk result (λ s. (s.node ≡ node) × (s.text.items ≡ list_said json listing.now.names) × (s.trouble ≡ listing_trouble listing.now.names) × (s.watched ≡ None)) }
{
    let mut text = Vec::new(alloc);
    say_listing(&mut text, json, listing)?;
    let trouble = listing_trouble(listing);
    Ok(Said {
        node,
        text,
        trouble,
        watched: None,
    })
}

fn moved(alloc: Global, json: bool, node: NodeId) -> Result<Said, Refusal>
    ensures { IfOk result (λ s. (s.node ≡ node) × (s.text.items ≡ move_said json node) × (s.trouble ≡ None) × (s.watched ≡ None)) }
{
    let mut text = Vec::new(alloc);
    say_move(&mut text, json, node)?;
    let trouble = None;
    Ok(Said {
        node,
        text,
        trouble,
        watched: None,
    })
}

fn stopped(alloc: Global, json: bool, node: NodeId, next: NodeId) -> Result<Said, Refusal>
    ensures { IfOk result (λ s. (s.node ≡ node) × (s.text.items ≡ stop_said json next) × (s.trouble ≡ None) × (s.watched ≡ None)) }
{
    let mut text = Vec::new(alloc);
    say_stop(&mut text, json, next)?;
    let trouble = None;
    Ok(Said {
        node,
        text,
        trouble,
        watched: None,
    })
}

fn started(alloc: Global, json: bool, node: NodeId, next: NodeId) -> Result<Said, Refusal>
    ensures { IfOk result (λ s. (s.node ≡ node) × (s.text.items ≡ start_said json next) × (s.trouble ≡ None) × (s.watched ≡ None)) }
{
    let mut text = Vec::new(alloc);
    say_start(&mut text, json, next)?;
    let trouble = None;
    Ok(Said {
        node,
        text,
        trouble,
        watched: None,
    })
}

fn written(alloc: Global, json: bool, node: NodeId, next: NodeId) -> Result<Said, Refusal>
    ensures { IfOk result (λ s. (s.node ≡ node) × (s.text.items ≡ snapshot_said json next) × (s.trouble ≡ None) × (s.watched ≡ None)) }
{
    let mut text = Vec::new(alloc);
    say_snapshot(&mut text, json, next)?;
    let trouble = None;
    Ok(Said {
        node,
        text,
        trouble,
        watched: None,
    })
}

// A node doesn't do what is asked of it.
fn troubled(
    alloc: Global,
    json: bool,
    node: NodeId,
    trouble: NodeTrouble,
    next: NodeId,
) -> Result<Said, Refusal>
    ensures { IfOk result (λ s. (s.node ≡ node) × (s.text.items ≡ trouble_said trouble json next) × (s.trouble ≡ Some Trouble.Error) × (s.watched ≡ None)) }
{
    let mut text = Vec::new(alloc);
    say_trouble(&mut text, json, trouble, next)?;
    let trouble = Some(Trouble::Error);
    Ok(Said {
        node,
        text,
        trouble,
        watched: None,
    })
}

// What all nodes tell of themselves.
fn stated<A: Asked>(
    alloc: Global,
    json: bool,
    nodes: Nodes,
    node: NodeId,
    asked: &mut A,
) -> Result<Said, Refusal>
    ensures { IfOk result (λ s. (s.node ≡ node) × Stated A.did json nodes s.text.items × (s.trouble ≡ None) × (s.watched ≡ None)) }
{
    let mut text = Vec::new(alloc);
    for index in 0..nodes.count() {
        let Some(next) = NodeId::new(nodes, index) else {
            unreachable!()
        };
        let status = asked.status(next)?;
        say_status(&mut text, json, &status)?;
    }
    let trouble = None;
    Ok(Said {
        node,
        text,
        trouble,
        watched: None,
    })
}

fn helped(alloc: Global, json: bool, node: NodeId, word: Option<ShellWord>) -> Result<Said, Refusal>
    ensures { IfOk result (λ s. (s.node ≡ node) × (s.text.items ≡ help_said json word) × (s.trouble ≡ None) × (s.watched ≡ None)) }
{
    let mut text = Vec::new(alloc);
    say_help(&mut text, json, word)?;
    let trouble = None;
    Ok(Said {
        node,
        text,
        trouble,
        watched: None,
    })
}

/// What is said to a line that asks for nothing.
pub fn faulted(
    alloc: Global,
    json: bool,
    nodes: Nodes,
    node: NodeId,
    fault: LineFault,
) -> Result<Said, Refusal>
    ensures { IfOk result (λ s. (s.node ≡ node) × (s.text.items ≡ fault_said json nodes fault) × (s.trouble ≡ Some Trouble.Error) × (s.watched ≡ None)) }
{
    let mut text = Vec::new(alloc);
    say_fault(&mut text, json, nodes, fault)?;
    let trouble = Some(Trouble::Error);
    Ok(Said {
        node,
        text,
        trouble,
        watched: None,
    })
}

// Whether a line asks something of the node that is asked.
fn asks_node(line: &ShellLine) -> bool
    ensures { result ≡ asks_node line.now }
{
    match line {
        ShellLine::Submit(_) => true,
        ShellLine::Look(_) => true,
        ShellLine::Names(_) => true,
        ShellLine::Watch(_) => true,
        ShellLine::Sync => true,
        ShellLine::Again => true,
        _ => false,
    }
}

// Whether a line asks something of the node that is asked, and that is down.
fn asks_in_vain<A: Asked>(asked: &A, node: NodeId, line: &ShellLine) -> bool
    ensures asks { result ≡ true → asks_node line.now ≡ true }
    ensures off { result ≡ true → A.did (finds_off node) }
    ensures on { result ≡ false → asks_node line.now ≡ true → A.did (finds_on node) }
{
    asks_node(line) && !asked.is_on(node)
}

/// What is said to a line that asks for this at a node. None: the talk is over.
pub fn said_to_request<A: Asked>(
    alloc: Global,
    json: bool,
    nodes: Nodes,
    node: NodeId,
    asked: &mut A,
    line: &ShellLine,
) -> Result<Option<Said>, Refusal>
    ensures { IfOk result (IsSaidToRequest A.did json nodes node line.now) }
{
    made_of!(Answer, Name, Op, Reply, Value);
    if asks_in_vain(asked, node, line) {
        return Ok(Some(troubled(alloc, json, node, NodeTrouble::Down, node)?));
    }
    match line {
        ShellLine::Submit(op) => Ok(Some(submitted(alloc, json, node, &asked.submit(node, op)?)?)),
        ShellLine::Again => Ok(Some(submitted(alloc, json, node, &asked.again(node)?)?)),
        ShellLine::Look(name) => Ok(Some(answered(alloc, json, node, &asked.look(node, name)?)?)),
        ShellLine::Sync => Ok(Some(synced(alloc, json, node, asked)?)),
        ShellLine::Names(prefix) => Ok(Some(listed(
            alloc,
            json,
            node,
            &asked.list(node, prefix)?,
        )?)),
        ShellLine::Watch(prefix) => Ok(Some(Said {
            node,
            text: Vec::new(alloc),
            trouble: None,
            watched: Some(Watched { prefix: *prefix }),
        })),
        ShellLine::At(next) => Ok(Some(moved(alloc, json, *next)?)),
        ShellLine::Stop(next) => {
            asked.stop(*next)?;
            Ok(Some(stopped(alloc, json, node, *next)?))
        }
        ShellLine::Start(next) => {
            if asked.start(*next)? {
                Ok(Some(started(alloc, json, node, *next)?))
            } else {
                let trouble = NodeTrouble::NoStart;
                Ok(Some(troubled(alloc, json, node, trouble, *next)?))
            }
        }
        ShellLine::Snapshot(next) => {
            if asked.snapshot(*next)? {
                Ok(Some(written(alloc, json, node, *next)?))
            } else {
                let trouble = NodeTrouble::NoSnapshot;
                Ok(Some(troubled(alloc, json, node, trouble, *next)?))
            }
        }
        ShellLine::Status => Ok(Some(stated(alloc, json, nodes, node, asked)?)),
        ShellLine::Help(word) => Ok(Some(helped(alloc, json, node, *word)?)),
        ShellLine::Quit => Ok(None),
    }
}
