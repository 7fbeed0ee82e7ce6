//! The nodes that a shell asks, through its board.

ghost use Rattle.std.specs.Prelude.{◌≡◌, ◌<◌, ◌++◌, true, None, IfOk, IfSome, OnOk};
ghost use Rattle.rr_shell.specs.Deeds.{waits};
ghost use Rattle.rr_shell.specs.Talks.{is_outcome_at, IsOf, IsKept, IsSyncBy};
ghost use Rattle.rr_shell.specs.Watches.{bytes_of, IsPiece};
ghost use Rattle.rr_run.specs.Boards.{Came, CameOfSync, DidBy, IsToldDown};
ghost use Rattle.rr_run.specs.Ears.{heard_by};
ghost use Rattle.rr_run.specs.Hints.{hint_of_room, hint_behind, warned_behind, IsHinted};
ghost use Rattle.rr_run.specs.Numbers.{greatest_told, HaveTold, IsNext, IsBehindAll};

use crate::asking::{
    Question, Told, is_written, listing_in, outcome_in, sight_in, summary_in, synced_in,
};
use crate::board::{Board, ask, switch, wait_until_begun};
use crate::failures::why_text;
use crate::news::{Ear, next_changes};
use rr_folders::{Block, Locks, Reasons};
use rr_shell::{Asked, Hint, Listing, NodeStatus, Outcome, is_nearly_full, left_behind};
use rr_text::Answer;
use rr_types::{
    Command, Name, NodeId, NodeSet, Nodes, Op, Refusal, Reply, RequestNo, Value, made_of,
};
use rr_window::Change;
use std::fs::OpenFile;
use std::io::{Read, Seek, Write};
use std::os::unix::fs::FileExt;
use std::rt::Files;
use std::sync::Wait;

/// The nodes that a shell asks, as this client, with the request numbers of a folder that is locked; the command that isn't
/// acknowledged and may be asked again; what a person is to be told; where the changes are heard that are watched; and of which failed nodes a person was told.
#[derive(Drop)]
pub(crate) struct Console<'x, 'y, B, F, R> {
    pub(crate) rt: &'x R,
    pub(crate) reasons: &'y Reasons,
    pub(crate) locks: Locks<F>,
    pub(crate) nodes: Nodes,
    pub(crate) client: u32,
    pub(crate) block: Block,
    pub(crate) board: B,
    pub(crate) unanswered: Option<Command>,
    pub(crate) hint: Option<Hint>,
    pub(crate) has_warned: bool,
    pub(crate) ear: Option<Ear>,
    pub(crate) failed: NodeSet,
}

// The command that is kept to be asked again, behind what a submit of it has come to.
fn kept_behind(command: &Command, outcome: &Outcome) -> Option<Command>
    ensures { IsOf command.now.request outcome.now → IsKept command.now.op result outcome.now }
{
    match outcome {
        Outcome::Answered(Answer::Unacknowledged { .. }) => Some(*command),
        _ => None,
    }
}

// The changes that are heard next, of the names that begin so.
fn next_heard(ear: &mut Option<Ear>, prefix: &Option<Name>) -> Option<Vec<Change>>
    ensures more { IfSome result (λ changes. heard_by ear.new ≡ heard_by ear.old ++ changes.items) }
    ensures piece { IfSome result (λ changes. IsPiece (bytes_of prefix.now) (heard_by ear.new)) }
{
    match ear {
        Some(ear) => next_changes(&mut ear.news, prefix),
        None => None,
    }
}

// What a person is told once few commands are left.
fn hint_of_room(told: &Told, has_warned: bool) -> Option<Hint>
    ensures { result ≡ hint_of_room told.now has_warned }
{
    match told {
        Told::Outcome(_, summary) => {
            let left = left_behind(summary.decided);
            if !has_warned && is_nearly_full(left) {
                Some(Hint::Left(left))
            } else {
                None
            }
        }
        _ => None,
    }
}

// What a person is told behind what a submit has come to.
fn hint_behind(outcome: &Outcome, told: &Told, has_warned: bool) -> Option<Hint>
    ensures { result ≡ hint_behind outcome.now told.now has_warned }
{
    match outcome {
        Outcome::Answered(Answer::Unacknowledged { .. }) => Some(Hint::Again),
        _ => hint_of_room(told, has_warned),
    }
}

// Whether a person was told how few commands are left, before or now.
fn warned_behind(has_warned: bool, hint: &Option<Hint>) -> bool
    ensures { result ≡ warned_behind has_warned hint.now }
{
    match hint {
        Some(Hint::Left(_)) => true,
        _ => has_warned,
    }
}

// Of which failed nodes a person is told, who was told of these, with the lowest of the others; and that one, if there is one.
fn told_next(nodes: Nodes, failed: NodeSet, told: NodeSet) -> (NodeSet, Option<NodeId>) {
    let mut still = NodeSet::empty();
    let mut next = None;
    for place in 0..nodes.count() {
        if let Some(node) = NodeId::new(nodes, place) {
            if failed.contains(node) && (told.contains(node) || next.is_none()) {
                still = still.with(node);
                if !told.contains(node) {
                    next = Some(node);
                }
            }
        }
    }
    (still, next)
}

// The greatest number of a client that facts name, with one that is told.
fn greatest_told(most: Option<u64>, told: &Told) -> Option<u64>
    ensures { result ≡ greatest_told most told.now }
{
    let Told::Greatest(greatest) = told else {
        return most;
    };
    match (most, greatest.number()) {
        (most, None) => most,
        (None, Some(number)) => Some(number),
        (Some(most), Some(number)) => Some(most.max(number)),
    }
}

// The greatest number of a client that the facts of the nodes name.
fn greatest_used<B: Board, R: Wait>(
    board: &mut B,
    rt: &R,
    nodes: Nodes,
    client: u32,
) -> Result<Option<u64>, Refusal>
    ensures { IfOk result (HaveTold B.gives client nodes) }
{
    let mut most = None;
    for index in 0..nodes.count() {
        let Some(node) = NodeId::new(nodes, index) else {
            unreachable!()
        };
        let told = ask(board, rt, &Question::Greatest { node, client })?;
        most = greatest_told(most, &told);
    }
    Ok(most)
}

impl<'x, 'y, B: Drop, F, R> Console<'x, 'y, B, F, R> {
    /// The locks of its folder alone.
    pub(crate) fn into_locks(self) -> Locks<F>
        ensures { result ≡ self.entry.locks }
    {
        let Console {
            rt: _,
            reasons: _,
            locks,
            nodes: _,
            client: _,
            block: _,
            board: _,
            unanswered: _,
            hint: _,
            has_warned: _,
            ear: _,
            failed: _,
        } = self;
        locks
    }
}

impl<
    'x,
    'y,
    B: Board,
    F: Read + Write + Seek + FileExt + OpenFile + Drop,
    R: Files<File = F> + AllocGlobal + Wait,
> Console<'x, 'y, B, F, R> {
    // A request number that was never given. At the end of a block the next one is reserved, which begins no earlier than this one ends.
    fn next_request(&mut self) -> Result<RequestNo, Refusal>
        ensures own { IfOk result (λ q. q.client ≡ self.old.client) }
        ensures next { IfOk result (λ q. IsNext self.old.block self.new.block q.seq) }
        ensures kept { self.new.unanswered ≡ self.old.unanswered }
    {
        let client = self.client;
        if let Some(seq) = self.block.take() {
            return Ok(RequestNo { client, seq });
        }
        let least = self.block.next();
        self.block = self.locks.reserve(self.rt, least, self.reasons)?;
        match self.block.take() {
            Some(seq) => Ok(RequestNo { client, seq }),
            None => Err(Refusal::TooLarge),
        }
    }

    // Gives no number up to this one, which a node's facts name. None is reserved.
    fn pass_number(&mut self, used: u64) -> Result<(), Refusal>
        ensures above { OnOk result (used < self.new.block.next) }
        ensures kept { self.new.unanswered ≡ self.old.unanswered }
    {
        let Some(least) = used.checked_add(1) else {
            return Err(Refusal::TooLarge);
        };
        if !self.block.begin_at(least) {
            self.block = Block::behind(least);
        }
        Ok(())
    }

    // Gives no number that the facts of a node name as this client's.
    fn pass_numbers(&mut self) -> Result<(), Refusal>
        ensures behind { OnOk result (IsBehindAll B.gives self.old.client self.old.nodes self.new.block) }
    {
        match greatest_used(&mut self.board, self.rt, self.nodes, self.client)? {
            Some(used) => self.pass_number(used),
            None => Ok(()),
        }
    }

    // Submits a command at a node.
    fn put(&mut self, node: NodeId, command: &Command) -> Result<Outcome, Refusal>
        ensures outcome { IfOk result (λ o. is_outcome_at node o ≡ true) }
        ensures of { IfOk result (IsOf command.now.request) }
        ensures came { IfOk result (Came B.gives (Question.Submit node command.now) command.now.request) }
        ensures kept { IfOk result (λ o. IsKept command.now.op self.new.unanswered o) }
        ensures hinted { IfOk result (λ o. IsHinted B.gives (Question.Submit node command.now) (λ t. hint_behind o t self.old.has_warned) self.new.hint) }
        ensures warned { OnOk result (self.new.has_warned ≡ warned_behind self.old.has_warned self.new.hint) }
    {
        made_of!(Answer, Command, Op, Name, Reply, Value);
        let command = *command;
        let told = ask(
            &mut self.board,
            self.rt,
            &Question::Submit { node, command },
        )?;
        let outcome = outcome_in(node, command.request, &told);
        self.unanswered = kept_behind(&command, &outcome);
        let hint = hint_behind(&outcome, &told, self.has_warned);
        self.has_warned = warned_behind(self.has_warned, &hint);
        self.hint = hint;
        Ok(outcome)
    }

    // Has a node decide a command that changes nothing, under this request number.
    fn put_sync(&mut self, node: NodeId, request: RequestNo) -> Result<Outcome, Refusal>
        ensures outcome { IfOk result (λ o. is_outcome_at node o ≡ true) }
        ensures of { IfOk result (IsSyncBy request.client node) }
        ensures came { IfOk result (CameOfSync B.gives node request) }
        ensures kept { self.new.unanswered ≡ self.old.unanswered }
        ensures hinted { OnOk result (IsHinted B.gives (Question.Sync node request) (λ t. hint_of_room t self.old.has_warned) self.new.hint) }
        ensures warned { OnOk result (self.new.has_warned ≡ warned_behind self.old.has_warned self.new.hint) }
    {
        let told = ask(&mut self.board, self.rt, &Question::Sync { node, request })?;
        self.hint = hint_of_room(&told, self.has_warned);
        self.has_warned = warned_behind(self.has_warned, &self.hint);
        Ok(synced_in(node, request, &told))
    }

    // The nodes that have failed.
    fn failed_nodes(&self) -> NodeSet {
        let mut failed = NodeSet::empty();
        for index in 0..self.nodes.count() {
            if let Some(node) = NodeId::new(self.nodes, index) {
                if self.board.failure(self.rt, node).is_some() {
                    failed = failed.with(node);
                }
            }
        }
        failed
    }

    // A node that has failed since a person was told of it last.
    fn take_failed(&mut self) -> Option<NodeId>
        ensures kept { self.new.unanswered ≡ self.old.unanswered }
    {
        let failed = self.failed_nodes();
        let (told, next) = told_next(self.nodes, failed, self.failed);
        self.failed = told;
        next
    }

    // What a node is told to be that is down: stopped, or failed and why.
    fn down_status(&self, node: NodeId) -> Result<NodeStatus, Refusal>
        ensures { IfOk result (IsToldDown B.gives node) }
    {
        let dispute = self.board.dispute(self.rt, node);
        let refusal = self.board.failure(self.rt, node);
        let failure = why_text(self.rt.alloc(), self.reasons, node, &dispute, &refusal)?;
        Ok(NodeStatus {
            node,
            summary: None,
            failure,
        })
    }

    // What a person is told now, and then no more.
    fn take_hint(&mut self) -> Option<Hint>
        ensures told { result ≡ self.old.hint }
        ensures once { self.new.hint ≡ None }
        ensures kept { self.new.unanswered ≡ self.old.unanswered }
    {
        self.hint.take()
    }
}

impl<
    'x,
    'y,
    B: Board,
    F: Read + Write + Seek + FileExt + OpenFile + Drop,
    R: Files<File = F> + AllocGlobal + Wait,
> Asked for Console<'x, 'y, B, F, R> {
    ghost did = { DidBy B.gives };

    ghost unanswered = { λ c. c.unanswered };

    ghost syncs = { λ c. IsSyncBy c.client };

    ghost told = { λ c. heard_by c.ear };

    fn wait_until_ready(&mut self) -> Result<(), Refusal>
        ensures waited { OnOk result (DidBy B.gives waits) }
        ensures behind { OnOk result (IsBehindAll B.gives self.old.client self.old.nodes self.new.block) }
    {
        wait_until_begun(&self.board, self.rt)?;
        self.pass_numbers()
    }

    fn submit(&mut self, node: NodeId, op: &Op) -> Result<Outcome, Refusal> {
        made_of!(Name, Value);
        let request = self.next_request()?;
        self.put(node, &Command { request, op: *op })
    }

    fn again(&mut self, node: NodeId) -> Result<Outcome, Refusal> {
        made_of!(Op, Name, Value);
        match self.unanswered {
            Some(command) => self.put(node, &command),
            None => Ok(Outcome::Nothing),
        }
    }

    fn sync(&mut self, node: NodeId) -> Result<Outcome, Refusal> {
        let request = self.next_request()?;
        self.put_sync(node, request)
    }

    fn hint(&mut self) -> Option<Hint> {
        match self.take_hint() {
            Some(hint) => Some(hint),
            None => Some(Hint::Failed(self.take_failed()?)),
        }
    }

    fn look(&mut self, node: NodeId, name: &Name) -> Result<Answer, Refusal> {
        let name = *name;
        let told = ask(&mut self.board, self.rt, &Question::Look { node, name })?;
        Ok(sight_in(node, &name, &told))
    }

    fn list(&mut self, node: NodeId, prefix: &Option<Name>) -> Result<Listing, Refusal> {
        made_of!(Name);
        let prefix = *prefix;
        let told = ask(&mut self.board, self.rt, &Question::Names { node, prefix })?;
        Ok(listing_in(node, &prefix, told))
    }

    fn watch(&mut self, node: NodeId, prefix: &Option<Name>) -> Result<(), Refusal> {
        made_of!(Name);
        let prefix = *prefix;
        self.ear = None;
        let told = ask(&mut self.board, self.rt, &Question::Watch { node, prefix })?;
        if let Told::Watching(new) = told {
            self.ear = Some(new.ear);
        }
        Ok(())
    }

    fn changes(&mut self, prefix: &Option<Name>) -> Result<Option<Vec<Change>>, Refusal> {
        let Some(ear) = &self.ear else {
            return Ok(None);
        };
        let node = ear.node;
        let told = ask(&mut self.board, self.rt, &Question::Changes { node })?;
        if !matches!(told, Told::Changed(true)) {
            return Ok(None);
        }
        Ok(next_heard(&mut self.ear, prefix))
    }

    fn rest(&mut self) {
        self.board.linger(self.rt);
    }

    fn is_on(&self, node: NodeId) -> bool {
        self.board.is_on(node)
    }

    fn stop(&mut self, node: NodeId) -> Result<(), Refusal> {
        let _is_down = switch(&mut self.board, self.rt, node, false)?;
        Ok(())
    }

    fn start(&mut self, node: NodeId) -> Result<bool, Refusal> {
        switch(&mut self.board, self.rt, node, true)
    }

    fn snapshot(&mut self, node: NodeId) -> Result<bool, Refusal> {
        if !self.board.is_on(node) {
            return Ok(false);
        }
        let told = ask(&mut self.board, self.rt, &Question::Snapshot { node })?;
        Ok(is_written(&told))
    }

    fn status(&mut self, node: NodeId) -> Result<NodeStatus, Refusal> {
        if !self.board.is_on(node) {
            return self.down_status(node);
        }
        let told = ask(&mut self.board, self.rt, &Question::Summary { node })?;
        match summary_in(&told) {
            Some(summary) => Ok(NodeStatus {
                node,
                summary: Some(summary),
                failure: None,
            }),
            None => self.down_status(node),
        }
    }
}
