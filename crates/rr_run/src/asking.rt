//! What a shell asks a node's client, and what it takes from what that tells.

ghost use Rattle.std.specs.Prelude.{◌≡◌, true, Some};
ghost use Rattle.rr_shell.specs.Listings.{is_listing_at};
ghost use Rattle.rr_shell.specs.Talks.{is_reply_at, is_outcome_at, is_sight_at, request_of, IsOf, IsSyncBy};
ghost use Rattle.rr_shell.specs.Watches.{bytes_of};
ghost use Rattle.rr_run.specs.Questions.{node_of, answer_in, outcome_at, outcome_in, synced_in, sight_in, listing_in, is_written, summary_in};

use crate::news::NewEar;
use crate::used::Greatest;
use rr_shell::{Listing, Outcome, is_listing_at, is_sight_at};
use rr_text::Answer;
use rr_threads::Written;
use rr_types::{Command, Name, NodeId, NodeSummary, Reply, RequestNo, Value, made_of};

/// What a shell asks a node.
#[derive(Clone, Copy, Debug)]
pub(crate) enum Question {
    /// To submit a command.
    Submit { node: NodeId, command: Command },
    /// To decide a command that changes nothing, under this request number.
    Sync { node: NodeId, request: RequestNo },
    /// Who has a name.
    Look { node: NodeId, name: Name },
    /// Which bound names begin so, or all.
    Names { node: NodeId, prefix: Option<Name> },
    /// To watch the names that begin so, or all.
    Watch { node: NodeId, prefix: Option<Name> },
    /// What has changed of the names that it watches.
    Changes { node: NodeId },
    /// The node in brief.
    Summary { node: NodeId },
    /// A snapshot of its facts.
    Snapshot { node: NodeId },
    /// The greatest request number of a client that its facts name.
    Greatest { node: NodeId, client: u32 },
}

impl Question {
    /// The node that is asked.
    pub(crate) fn node(&self) -> NodeId
        ensures { result ≡ node_of self.now }
    {
        match self {
            Question::Submit { node, .. } => *node,
            Question::Sync { node, .. } => *node,
            Question::Look { node, .. } => *node,
            Question::Names { node, .. } => *node,
            Question::Watch { node, .. } => *node,
            Question::Changes { node } => *node,
            Question::Summary { node } => *node,
            Question::Snapshot { node } => *node,
            Question::Greatest { node, .. } => *node,
        }
    }
}

/// What a node tells.
#[derive(Drop)]
pub(crate) enum Told {
    /// What came of a submit or a sync, and the node in brief then.
    Outcome(Outcome, NodeSummary),
    Sight(Answer),
    Listing(Listing),
    /// Where the changes are heard from now on.
    Watching(NewEar),
    /// Whether the changes of a watch were told: none were missed.
    Changed(bool),
    Summary(NodeSummary),
    /// That a snapshot is written, if it is.
    Written(Option<Written>),
    Greatest(Greatest),
    /// Nothing: the node has gone down before it told something.
    Gone,
}

/// What names begin with: with anything, where no prefix is asked for.
pub(crate) fn bytes_of(prefix: &Option<Name>) -> &[u8]
    ensures { result.now ≡ bytes_of prefix.now }
{
    match prefix {
        Some(prefix) => prefix.as_bytes(),
        None => &[],
    }
}

// The answer to a request at a node, by the answer that is told.
fn answer_in(node: NodeId, request: RequestNo, answer: &Answer) -> Answer
    ensures by { result ≡ answer_in node request answer.now }
    ensures at { is_reply_at node result ≡ true }
    ensures of { request_of result ≡ Some request }
{
    match answer {
        Answer::Acknowledged {
            request: own,
            reply,
            ..
        } => {
            if own.is_same(request) {
                Answer::Acknowledged {
                    node,
                    request,
                    reply: *reply,
                }
            } else {
                Answer::Unacknowledged { node, request }
            }
        }
        _ => Answer::Unacknowledged { node, request },
    }
}

// What a submit of a request at a node has come to, by what is told that it has.
fn outcome_at(node: NodeId, request: RequestNo, outcome: &Outcome) -> Outcome
    ensures by { result ≡ outcome_at node request outcome.now }
    ensures at { is_outcome_at node result ≡ true }
    ensures of { IsOf request result }
{
    match outcome {
        Outcome::Answered(answer) => Outcome::Answered(answer_in(node, request, answer)),
        Outcome::ListFull => Outcome::ListFull,
        Outcome::Used(other) => Outcome::Used(Command {
            request,
            op: other.op,
        }),
        Outcome::Nothing | Outcome::Whole => {
            Outcome::Answered(Answer::Unacknowledged { node, request })
        }
    }
}

/// What a submit of a request at a node has come to, by what is told.
pub(crate) fn outcome_in(node: NodeId, request: RequestNo, told: &Told) -> Outcome
    ensures by { result ≡ outcome_in node request told.now }
    ensures at { is_outcome_at node result ≡ true }
    ensures of { IsOf request result }
{
    match told {
        Told::Outcome(outcome, _) => outcome_at(node, request, outcome),
        _ => Outcome::Answered(Answer::Unacknowledged { node, request }),
    }
}

/// What a sync at a node has come to, by what is told.
#[tactic(auto, using(crate::proofs::SyncLemmas::may_come))]
pub(crate) fn synced_in(node: NodeId, request: RequestNo, told: &Told) -> Outcome
    ensures by { result ≡ synced_in node request told.now }
    ensures at { is_outcome_at node result ≡ true }
    ensures of { IsSyncBy request.client node result }
{
    match told {
        Told::Outcome(Outcome::Whole, _) => Outcome::Whole,
        _ => outcome_in(node, request, told),
    }
}

/// What a look at a name at a node has seen, by what is told.
pub(crate) fn sight_in(node: NodeId, name: &Name, told: &Told) -> Answer
    ensures by { result ≡ sight_in node name.now told.now }
    ensures at { is_sight_at node name.now result ≡ true }
{
    made_of!(Answer, Reply, Value);
    let name = *name;
    match told {
        Told::Sight(answer) => {
            if is_sight_at(node, &name, answer) {
                *answer
            } else {
                Answer::Unseen { node, name }
            }
        }
        _ => Answer::Unseen { node, name },
    }
}

/// The names at a node that begin so, or all, by what is told.
pub(crate) fn listing_in(node: NodeId, prefix: &Option<Name>, told: Told) -> Listing
    ensures by { result ≡ listing_in node prefix.now told }
    ensures at { is_listing_at node prefix.now result ≡ true }
{
    match told {
        Told::Listing(listing) => {
            if is_listing_at(node, prefix, &listing) {
                listing
            } else {
                Listing { node, names: None }
            }
        }
        _ => Listing { node, names: None },
    }
}

/// Whether a snapshot is written, by what is told.
pub(crate) fn is_written(told: &Told) -> bool
    ensures { result ≡ is_written told.now }
{
    match told {
        Told::Written(written) => written.is_some(),
        _ => false,
    }
}

/// A node in brief, by what is told.
pub(crate) fn summary_in(told: &Told) -> Option<NodeSummary>
    ensures { result ≡ summary_in told.now }
{
    match told {
        Told::Summary(summary) => Some(*summary),
        _ => None,
    }
}
