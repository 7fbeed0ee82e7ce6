//! Whom a shell asks.

ghost use Rattle.std.specs.Prelude.{◌≡◌, ℕ, true, false, List, [], ◌++◌, Option, IfOk, IfSome, OnOk};
ghost use Rattle.rr_types.specs.declared.command.Command.{Command};
ghost use Rattle.rr_window.specs.declared.change.Change.{Change};
ghost use Rattle.rr_shell.specs.Listings.{is_listing_at};
ghost use Rattle.rr_shell.specs.declared.outcome.Outcome.{Outcome};
ghost use Rattle.rr_shell.specs.Deeds.{Deed, submits, repeats, catches_up, looks, lists, observes, finds_on, finds_off, stops, starts, snaps, tells, waits};
ghost use Rattle.rr_shell.specs.Talks.{is_reply_at, is_outcome_at, is_sight_at, IsKept, IsAskedAgain};
ghost use Rattle.rr_shell.specs.Watches.{bytes_of, IsPiece};

use crate::listing::Listing;
use crate::outcome::Outcome;
use crate::status::NodeStatus;
use rr_text::Answer;
use rr_types::{Name, NodeId, Op, Refusal};
use rr_window::Change;

/// Nodes that a shell asks.
pub trait Asked {
    /// That this was done. A function over any such nodes has it done by the calls below alone, so its clauses can name what it has
    /// had done.
    ghost did: { Deed → Type 0 };

    /// Waits until they can be asked.
    ///
    /// # Errors
    /// Why they can't be.
    fn wait_until_ready(&mut self) -> Result<(), Refusal>
        ensures { OnOk result (did waits) };

    /// The command that isn't acknowledged yet and that `again` submits once more.
    ghost unanswered: { Self → Option Command };

    /// Submits an operation at a node under a request number of its own, and waits for the reply. A command that isn't
    /// acknowledged is kept.
    ///
    /// # Errors
    /// Why the nodes can't be asked any more.
    fn submit(&mut self, node: NodeId, op: &Op) -> Result<Outcome, Refusal>
        ensures outcome { IfOk result (λ o. is_outcome_at node o ≡ true) }
        ensures submitted { IfOk result (λ o. did (submits node op.now o)) }
        ensures kept { IfOk result (λ o. IsKept op.now (unanswered self.new) o) };

    /// Submits the command that is kept once more at a node, under its request number.
    ///
    /// # Errors
    /// Why the nodes can't be asked any more.
    fn again(&mut self, node: NodeId) -> Result<Outcome, Refusal>
        ensures outcome { IfOk result (λ o. is_outcome_at node o ≡ true) }
        ensures submitted { IfOk result (λ o. did (repeats node o)) }
        ensures kept { IfOk result (λ o. IsAskedAgain (unanswered self.old) (unanswered self.new) o) };

    /// What may come of a sync at a node.
    ghost syncs: { Self → ℕ → Outcome → Type 0 };

    /// Waits until a look at a node has all that was acknowledged anywhere before. For that a command that changes nothing is
    /// decided, under a request number of its own. It isn't kept to be asked again.
    ///
    /// # Errors
    /// Why the nodes can't be asked any more.
    fn sync(&mut self, node: NodeId) -> Result<Outcome, Refusal>
        ensures outcome { IfOk result (λ o. is_outcome_at node o ≡ true) }
        ensures own { IfOk result (λ o. syncs self.old node o) }
        ensures submitted { IfOk result (λ o. did (catches_up node o)) }
        ensures kept { unanswered self.new ≡ unanswered self.old };

    /// What a person is told behind an answer, in a second line.
    fn hint(&mut self) -> Option<Hint>
        ensures { unanswered self.new ≡ unanswered self.old };

    /// Looks at a name at a node.
    ///
    /// # Errors
    /// Why the nodes can't be asked any more.
    fn look(&mut self, node: NodeId, name: &Name) -> Result<Answer, Refusal>
        ensures sight { IfOk result (λ a. is_sight_at node name.now a ≡ true) }
        ensures looked { IfOk result (λ a. did (looks node name.now a)) };

    /// Lists the bound names at a node that begin so, or all.
    ///
    /// # Errors
    /// Why the nodes can't be asked any more.
    fn list(&mut self, node: NodeId, prefix: &Option<Name>) -> Result<Listing, Refusal>
        ensures listing { IfOk result (λ l. is_listing_at node prefix.now l ≡ true) }
        ensures listed { IfOk result (λ l. did (lists node prefix.now l)) };

    /// The changes that were told since the last watch has begun.
    ghost told: { Self → List Change };

    /// Begins to watch the names at a node that begin so, or all: from now on `changes` tells what it publishes.
    ///
    /// # Errors
    /// Why the nodes can't be asked any more.
    fn watch(&mut self, node: NodeId, prefix: &Option<Name>) -> Result<(), Refusal>
        ensures fresh { OnOk result (told self.new ≡ []) }
        ensures begun { OnOk result (did (observes node prefix.now)) };

    /// What the node that is watched has published since the last call, of the names that begin so, or of all. It doesn't wait for
    /// a change. None: changes were missed.
    ///
    /// # Errors
    /// Why the nodes can't be asked any more.
    fn changes(&mut self, prefix: &Option<Name>) -> Result<Option<Vec<Change>>, Refusal>
        ensures more { IfOk result (λ r. IfSome r (λ changes. told self.new ≡ told self.old ++ changes.items)) }
        ensures piece { IfOk result (λ r. IfSome r (λ changes. IsPiece (bytes_of prefix.now) (told self.new))) };

    /// Waits a while before the next look for changes.
    fn rest(&mut self)
        ensures { told self.new ≡ told self.old };

    /// Whether a node can be asked: it hasn't been stopped since it was last started.
    fn is_on(&self, node: NodeId) -> bool
        ensures on { result ≡ true → did (finds_on node) }
        ensures off { result ≡ false → did (finds_off node) };

    /// Stops a node, and waits until it is down. The others go on.
    ///
    /// # Errors
    /// Why the nodes can't be asked any more.
    fn stop(&mut self, node: NodeId) -> Result<(), Refusal>
        ensures { OnOk result (did (stops node)) };

    /// Starts a node, and waits until it is up, or has failed again. Answers whether it is up.
    ///
    /// # Errors
    /// Why the nodes can't be asked any more.
    fn start(&mut self, node: NodeId) -> Result<bool, Refusal>
        ensures { IfOk result (λ is_up. did (starts node is_up)) };

    /// Has a node write a snapshot of its facts. Answers whether it is written.
    ///
    /// # Errors
    /// Why the nodes can't be asked any more.
    fn snapshot(&mut self, node: NodeId) -> Result<bool, Refusal>
        ensures { IfOk result (λ is_written. did (snaps node is_written)) };

    /// What a node tells of itself.
    ///
    /// # Errors
    /// Why the nodes can't be asked any more.
    fn status(&mut self, node: NodeId) -> Result<NodeStatus, Refusal>
        ensures node { IfOk result (λ s. s.node ≡ node) }
        ensures own { IfOk result (λ s. did (tells s)) };
}

/// What a person is told behind an answer.
#[derive(Clone, Copy, Debug)]
pub enum Hint {
    /// The line `again` asks the command once more, so that it counts once.
    Again,
    /// So few commands can still be decided.
    Left(u64),
    /// This node has failed.
    Failed(NodeId),
}

/// Whether this came of a submit at this node.
pub fn is_outcome_at(node: NodeId, outcome: &Outcome) -> bool
    ensures { result ≡ is_outcome_at node outcome.now }
{
    match outcome {
        Outcome::Answered(answer) => is_reply_at(node, answer),
        _ => true,
    }
}

/// Whether an answer is this node's to a submit.
pub fn is_reply_at(node: NodeId, answer: &Answer) -> bool
    ensures { result ≡ is_reply_at node answer.now }
{
    match answer {
        Answer::Acknowledged { node: own, .. } => own.index() == node.index(),
        Answer::Unacknowledged { node: own, .. } => own.index() == node.index(),
        _ => false,
    }
}

/// Whether an answer is this node's to a look at this name.
pub fn is_sight_at(node: NodeId, name: &Name, answer: &Answer) -> bool
    ensures { result ≡ is_sight_at node name.now answer.now }
{
    match answer {
        Answer::Free {
            node: own,
            name: seen,
        } => own.index() == node.index() && seen == name,
        Answer::Bound {
            node: own,
            name: seen,
            ..
        } => own.index() == node.index() && seen == name,
        Answer::Unseen {
            node: own,
            name: seen,
        } => own.index() == node.index() && seen == name,
        _ => false,
    }
}
