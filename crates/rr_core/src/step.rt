//! A step of a node: the node as it was before, borrowed, and what the step has changed.

ghost use Rattle.std.specs.Prelude.{◌≡◌, ◌++◌, ◌∷◌, [], ◌^◌, ◌<◌, ◌&&◌, nat_lt, true, false, None, Some, IsTrue, option_map, MatchOption, IfOk, IfSome, OnOk};
ghost use Rattle.std.specs.List.{list_any};
ghost use Rattle.rr_types.specs.Registry.{has_request};
ghost use Rattle.rr_types.specs.Facts.{instance_of, after_fact, decision_of};
ghost use Rattle.rr_types.specs.Standings.{round_of, IsInRound};
ghost use Rattle.rr_model.specs.NodeState.{next_number, standing_at, row_of, put_row, is_decided, first_undecided, open_instances, is_open, is_decided_request, everyone, others};
ghost use Rattle.rr_model.specs.NodeDetector.{all_ticked, heard_beat, late_nodes, reduced};
ghost use Rattle.rr_model.specs.NodeParts.{owe, pool_add, stage, rows_after, pool_after};
ghost use Rattle.rr_model.specs.NodeDue.{due};
ghost use Rattle.rr_model.specs.NodeStep.{wait_for, is_waiting, lowest_in_round};
ghost use Rattle.rr_state.specs.Owing.{is_free};
ghost use Rattle.rr_core.specs.Places.{first_free, reached};
ghost use Rattle.rr_core.specs.Steps.{stepped, combined, KeepsDecision, KeepsStanding, IsFitting, IsDecidedFact, IsSpent};

use crate::estimates::{enters_with_last, leaves_estimate};
use crate::known::is_among;
use crate::owing::Reach;
use crate::state::State;
use crate::{estimates, over, owing};
use rr_state::{Backing, Heartbeat, OpenInstances, Owed, Row, Suspects};
use rr_types::{
    Body, Command, Fact, Instance, NodeId, NodeSet, Nodes, OPEN_INSTANCES, Op, Refusal, RequestNo,
    Standing, made_of,
};
use std::alloc::{AllocError, Global};
use std::marker::Model;

/// What a step has changed: rows, the newest first; staged facts; the request numbers that decisions took out of
/// the pool, and commands pooled; the suspects and the watches; requests that wait; messages owed; whether the pool is
/// known to have no command for an instance that no fact names, and the pool but the command that was pooled last; whether
/// nothing is known to be due.
#[derive(Debug, Drop)]
pub struct Changes {
    pub rows: Vec<Row>,
    pub staged: Vec<Fact>,
    pub taken: Vec<RequestNo>,
    pub pooled: Vec<Command>,
    pub suspects: Suspects,
    pub heartbeat: Heartbeat,
    pub waiting: Vec<RequestNo>,
    pub owed: Vec<Owed>,
    pub is_spent: bool,
    pub is_front_spent: bool,
    pub is_settled: bool,
}

impl Model for Changes {
    ghost use Rattle.rr_core.specs.Steps.{Changed};

    ghost Value = { Changed };

    ghost view = { λ c. record {
      rows = c.rows.items;
      staged = c.staged.items;
      taken = c.taken.items;
      pooled = c.pooled.items;
      suspects = c.suspects;
      watches = c.heartbeat;
      waiting = c.waiting.items;
      owed = c.owed.items;
      spent = c.is_spent;
      front = c.is_front_spent;
      settled = c.is_settled;
    } };
}

impl Changes {
    /// Those of a step that has changed nothing of this node.
    #[tactic(auto, using(crate::proofs::SpentLemmas::none_spent, crate::proofs::SettledLemmas::none_settled))]
    pub fn none(alloc: Global, base: &State) -> Changes
        ensures value { combined base.now result ≡ base.now }
        ensures fits { IsFitting base.now result }
    {
        Changes {
            rows: Vec::new(alloc),
            staged: Vec::new(alloc),
            taken: Vec::new(alloc),
            pooled: Vec::new(alloc),
            suspects: base.suspects,
            heartbeat: base.heartbeat,
            waiting: Vec::new(alloc),
            owed: Vec::new(alloc),
            is_spent: base.is_spent,
            is_front_spent: false,
            is_settled: base.is_settled,
        }
    }

    /// Nothing is due with them.
    fn settle(&mut self, is_spent: bool)
        ensures { self.new ≡ record self.old { spent = is_spent; settled = true } }
    {
        self.is_spent = is_spent;
        self.is_settled = true;
    }

    /// Whether the pool is known to have no command for an instance that no fact names.
    fn spend(&mut self, is_known: bool)
        ensures { self.new ≡ record self.old { spent = is_known } }
    {
        self.is_spent = is_known;
    }

    /// The same in the room of other changes.
    #[tactic(auto, using(crate::proofs::SpentLemmas::none_spent, crate::proofs::SettledLemmas::none_settled))]
    fn clear(&mut self, base: &State)
        ensures value { combined base.now self.new ≡ base.now }
        ensures fits { IsFitting base.now self.new }
    {
        self.rows.clear();
        self.staged.clear();
        self.taken.clear();
        self.pooled.clear();
        self.suspects = base.suspects;
        self.heartbeat = base.heartbeat;
        self.waiting.clear();
        self.owed.clear();
        self.is_spent = base.is_spent;
        self.is_front_spent = false;
        self.is_settled = base.is_settled;
    }
}

/// A node within a step. Where the step is refused it is dropped, and the node is as it was.
#[derive(Drop)]
pub struct Step<'a> {
    base: &'a State,
    changes: Box<Changes>,
}

impl<'a> Model for Step<'a> {
    ghost use Rattle.rr_core.specs.Steps.{Stepped, combined, IsFitting};

    ghost Value = { Stepped };

    ghost view = { λ s. record { base = s.base.now; state = combined s.base.now s.changes.value } };

    ghost invariant = { λ s. IsFitting s.base.now s.changes.value };
}

impl<'a> Step<'a> {
    /// A step that has changed nothing yet, in the room of other changes.
    pub fn new(room: Box<Changes>, base: &'a State) -> Step<'a>
        ensures { result ≡ record { base = base.now; state = base.now } }
    {
        let mut changes = room;
        changes.clear(base);
        Step { base, changes }
    }

    /// What the step has changed.
    pub fn into_changes(self) -> Box<Changes>
        ensures value { combined self.entry.base result.value ≡ self.entry.state }
        ensures fits { IsFitting self.entry.base result.value }
    {
        let Step { base: _, changes } = self;
        changes
    }

    /// How many nodes there are.
    pub fn nodes(&self) -> Nodes
        ensures { result ≡ self.now.state.nodes }
    {
        let base = self.base;
        base.nodes
    }

    /// Which node this is.
    pub fn node(&self) -> NodeId
        ensures { result ≡ self.now.state.node }
    {
        let base = self.base;
        base.node
    }

    /// The nodes that the completeness reduction suspects.
    pub fn suspects(&self) -> NodeSet
        ensures { result ≡ self.now.state.suspects }
    {
        self.changes.suspects.output()
    }

    /// The nodes that the heartbeat detector suspects; a node disregards itself.
    #[tactic(auto, using(rr_state::proofs::BitLemmas::late_beside))]
    pub fn late_nodes(&self) -> NodeSet
        ensures { result ≡ late_nodes self.now.state.node self.now.state.watches }
    {
        let base = self.base;
        self.changes.heartbeat.suspects().without(base.node)
    }

    /// The number of the next fact.
    #[tactic(auto, using(crate::proofs::PoolLemmas::count_both))]
    pub fn next_number(&self) -> u128
        ensures value { result ≡ next_number self.now.state }
        ensures room { result < 2 ^ 67 }
    {
        let base = self.base;
        base.next_number() + self.changes.staged.len() as u128
    }

    /// The row of an instance.
    #[inline(always)]
    pub fn row(&self, instance: Instance) -> Option<&Row>
        ensures { MatchOption result (row_of self.now.state.rows instance ≡ None) (λ r. row_of self.now.state.rows instance ≡ Some r.now) }
    {
        over::row_over(self.base, &self.changes.rows, instance)
    }

    /// Where an instance stands by all facts.
    #[inline(always)]
    pub fn standing(&self, instance: Instance) -> Option<Standing>
        ensures { result ≡ standing_at self.now.state instance }
    {
        match self.row(instance) {
            Some(row) => Some(row.standing()),
            None => None,
        }
    }

    /// The numbers that back the messages of an instance that a fact names.
    pub fn backing(&self, instance: Instance) -> Option<Backing>
        ensures { result ≡ option_map (λ r. r.backing) (row_of self.now.state.rows instance) }
    {
        match self.row(instance) {
            Some(row) => Some(row.backing()),
            None => None,
        }
    }

    /// The lowest undecided instance; 1,048,576 where all are decided.
    pub fn first_undecided(&self) -> u32
        ensures { result ≡ first_undecided self.now.state }
    {
        over::undecided_over(self.base, &self.changes.rows, 0)
    }

    /// The open instances, ascending. It takes no memory.
    #[tactic(auto, unfolding(rr_model::specs::NodeState::open_instances))]
    pub fn open_instances(&self) -> OpenInstances
        ensures { result ≡ open_instances self.now.state }
    {
        over::open_over(self.base, &self.changes.rows)
    }

    /// Whether an instance is open.
    #[tactic(auto, unfolding(rr_model::specs::NodeState::open_instances))]
    pub fn is_open(&self, instance: Instance) -> bool
        ensures { result ≡ is_open self.now.state instance }
    {
        over::is_open_over(self.base, &self.changes.rows, instance)
    }

    /// The lowest open instance that has a round. It takes no memory.
    #[tactic(auto, unfolding(rr_model::specs::NodeState::open_instances))]
    pub fn lowest_in_round(&self) -> Option<Instance>
        ensures value { result ≡ lowest_in_round self.now.state }
        ensures round { IfSome result (λ i. 0 < round_of (standing_at self.now.state i)) }
    {
        over::lowest_in_round_over(self.base, &self.changes.rows, OPEN_INSTANCES)
    }

    /// Whether some instance has decided a command with this request number.
    pub fn is_decided_request(&self, request: RequestNo) -> bool
        ensures { result ≡ is_decided_request self.now.state request }
    {
        over::is_decided_request_over(self.base, &self.changes.rows, request)
    }

    /// Whether a later instance than `first` has decided.
    pub fn has_decided_above(&self, first: Instance) -> bool
        ensures { result ≡ list_any (λ r. nat_lt first r.instance && is_decided r) self.now.state.rows }
    {
        over::has_decided_above_over(self.base, &self.changes.rows, first)
    }

    /// Whether a request waits for its acknowledgement.
    #[tactic(auto, using(crate::proofs::PoolLemmas::waiting_in_both))]
    pub fn is_waiting(&self, request: RequestNo) -> bool
        ensures { result ≡ is_waiting self.now.state request }
    {
        let base = self.base;
        base.is_waiting(request) || is_among(&self.changes.waiting, request)
    }

    /// Whether the pool has a command with this request number.
    #[tactic(auto, using(crate::proofs::PoolLemmas::has_in_both))]
    fn has_pooled(&self, request: RequestNo) -> bool
        ensures { result ≡ has_request self.now.state.pool request }
    {
        let base = self.base;
        let has_come = base.has_pooled(request)
            || owing::has_request(&self.changes.pooled, request);
        has_come && !is_among(&self.changes.taken, request)
    }

    /// The first pool command that is no estimate of one of these instances but one, lent: a command is large.
    #[tactic(auto, using(crate::proofs::PoolLemmas::free_in_base, crate::proofs::PoolLemmas::free_in_pooled))]
    pub fn first_free(&self, instances: &[Instance], instance: Instance) -> Option<&Command>
        ensures { option_map (λ v. v.now) result ≡ first_free self.now.state.rows instances.now instance self.now.state.pool }
    {
        let base = self.base;
        let taken = self.changes.taken.as_slice();
        match estimates::first_free_in(self, instances, instance, taken, base.pool.iter()) {
            Some(command) => Some(command),
            None => estimates::first_free_of(
                self,
                instances,
                instance,
                taken,
                &self.changes.pooled,
            ),
        }
    }

    /// The request waits for its acknowledgement, once.
    #[tactic(auto, using(std::proofs::Common::append_assoc, crate::proofs::PoolLemmas::request_new), unfolding(rr_model::specs::NodeStep::wait_for))]
    pub fn wait_for(&mut self, request: RequestNo) -> Result<(), AllocError>
        ensures ok { OnOk result (self.new ≡ stepped (wait_for request) self.old) }
    {
        if !self.is_waiting(request) {
            self.changes.waiting.push(request)?;
        }
        Ok(())
    }

    /// The node owes a message to one node; where no fact backs it, it is free.
    #[tactic(auto, using(std::proofs::Common::append_assoc), unfolding(rr_model::specs::NodeParts::owe))]
    pub fn owe(&mut self, body: Body, backing: Option<u128>, to: NodeId) -> Result<(), AllocError>
        requires { backing ≡ None → IsTrue (is_free body) }
        ensures ok { OnOk result (self.new ≡ stepped (owe body backing (to ∷ [])) self.old) }
    {
        let base = self.base;
        let from = base.node;
        let owed = &mut self.changes.owed;
        owing::push_to(owed, from, to, &body, backing)
    }

    // The node owes a message to the nodes that it reaches, ascending; where no fact backs it, it is free.
    #[tactic(auto, using(std::proofs::Common::append_assoc), unfolding(rr_model::specs::NodeParts::owe))]
    fn owe_reached(
        &mut self,
        reach: Reach,
        body: &Body,
        backing: Option<u128>,
    ) -> Result<(), AllocError>
        requires { backing ≡ None → IsTrue (is_free body.now) }
        ensures ok { OnOk result (self.new ≡ stepped (λ s. owe body.now backing (reached reach s.node s.nodes) s) self.old) }
    {
        let base = self.base;
        let owed = &mut self.changes.owed;
        owing::push_to_reached(owed, base.nodes, base.node, reach, body, backing)
    }

    /// The node owes a message to every node, itself included, ascending; where no fact backs it, it is free.
    pub fn owe_everyone(&mut self, body: Body, backing: Option<u128>) -> Result<(), AllocError>
        requires { backing ≡ None → IsTrue (is_free body) }
        ensures ok { OnOk result (self.new ≡ stepped (λ s. owe body backing (everyone s) s) self.old) }
    {
        self.owe_reached(Reach::Everyone, &body, backing)
    }

    /// The node owes a message to each other node, ascending; where no fact backs it, it is free.
    #[tactic(auto, unfolding(crate::specs::Places::nodes_beside))]
    pub fn owe_others(&mut self, body: Body, backing: Option<u128>) -> Result<(), AllocError>
        requires { backing ≡ None → IsTrue (is_free body) }
        ensures ok { OnOk result (self.new ≡ stepped (λ s. owe body backing (others s) s) self.old) }
    {
        self.owe_reached(Reach::Others, &body, backing)
    }

    /// Adds a command to the pool, unless its request number is there or decided.
    #[tactic(auto, using(crate::proofs::PoolLemmas::command_new, crate::proofs::PoolLemmas::pooled_last, crate::proofs::SpentLemmas::front_pushed), unfolding(rr_model::specs::NodeParts::pool_add))]
    pub fn pool_add(&mut self, command: &Command) -> Result<(), AllocError>
        ensures ok { OnOk result (self.new ≡ stepped (pool_add command.now) self.old) }
    {
        made_of!(Op);
        if self.has_pooled(command.request) || self.is_decided_request(command.request) {
            return Ok(());
        }
        self.changes.pooled.push(*command)?;
        self.changes.is_front_spent = self.changes.is_spent;
        self.changes.is_spent = false;
        self.changes.is_settled = false;
        Ok(())
    }

    /// This is the row of its instance from now on; a decision there stays.
    #[tactic(auto, using(crate::proofs::OverLemmas::decided_stay))]
    fn put_row(&mut self, row: Row) -> Result<(), AllocError>
        requires { KeepsDecision self.old.state.rows row }
        ensures ok { OnOk result (self.new ≡ stepped (λ s. record s { rows = put_row row s.rows }) self.old) }
    {
        self.changes.is_spent = false;
        self.changes.is_front_spent = false;
        self.changes.is_settled = false;
        over::put_newest(&mut self.changes.rows, row)
    }

    /// The same of a row that stands where its instance stood. What the pool has for the others stays.
    #[tactic(auto, using(crate::proofs::OverLemmas::decided_stay, crate::proofs::OverLemmas::tally_keeps, crate::proofs::SpentLemmas::tally_spent))]
    pub(crate) fn put_tally(&mut self, row: Row) -> Result<(), AllocError>
        requires { option_map (λ r. r.standing) (row_of self.old.state.rows row.instance) ≡ Some row.standing }
        ensures ok { OnOk result (self.new ≡ stepped (λ s. record s { rows = put_row row s.rows }) self.old) }
    {
        let base = self.base;
        // That the rows ascend is told by this call alone.
        let _row = base.row(row.instance);
        if row.is_decided() {
            self.changes.is_spent = false;
        }
        self.changes.is_front_spent = false;
        self.changes.is_settled = false;
        over::put_newest(&mut self.changes.rows, row)
    }

    /// Whether the pool is known to have no command for an instance that no fact names.
    pub fn is_spent(&self) -> bool
        ensures { IsTrue result → IsSpent self.now.state.rows self.now.state.pool }
    {
        self.changes.is_spent
    }

    /// Whether nothing is known to be due.
    #[tactic(auto, using(crate::proofs::SettledLemmas::none_due))]
    pub fn is_settled(&self) -> bool
        ensures { IsTrue result → due self.now.state ≡ None }
    {
        self.changes.is_settled
    }

    /// Nothing is due. `is_spent`: whether the pool is known to have no command for an instance that no fact names.
    pub fn note_settled(&mut self, is_spent: bool)
        requires due { due self.old.state ≡ None }
        requires spent { IsTrue is_spent → IsSpent self.old.state.rows self.old.state.pool }
        ensures { self.new ≡ self.old }
    {
        self.changes.settle(is_spent);
    }

    /// The newest changed row takes a fact on, where it is of the fact's instance. It tells whether it is.
    fn change_newest(&mut self, fact: &Fact) -> Result<bool, AllocError>
        requires round { IsInRound (standing_at self.old.state (instance_of fact.now)) fact.now }
        requires keeps { KeepsStanding (standing_at self.old.state (instance_of fact.now)) (after_fact (standing_at self.old.state (instance_of fact.now)) fact.now) }
        ensures newest { IfOk result (λ is_newest. IsTrue is_newest → self.new ≡ stepped (λ s. record s { rows = rows_after (next_number s) fact.now s.rows }) self.old) }
        ensures other { IfOk result (λ is_newest. is_newest ≡ false → self.new ≡ self.old) }
    {
        let number = self.next_number();
        let alloc = *self.changes.rows.allocator();
        let base = self.base;
        if over::change_newest(base, &mut self.changes.rows, alloc, number, fact)? {
            self.changes.is_spent = false;
            self.changes.is_front_spent = false;
            self.changes.is_settled = false;
            return Ok(true);
        }
        Ok(false)
    }

    /// A changed copy of the row of a fact's instance is the row from now on; a decision there stays.
    #[tactic(auto, using(crate::proofs::OverLemmas::after_keeps, crate::proofs::OverLemmas::first_keeps, crate::proofs::OverLemmas::rows_put, crate::proofs::OverLemmas::rows_begin, crate::proofs::OverLemmas::rows_stay))]
    fn put_changed_row(&mut self, fact: &Fact) -> Result<(), AllocError>
        requires round { IsInRound (standing_at self.old.state (instance_of fact.now)) fact.now }
        requires keeps { KeepsStanding (standing_at self.old.state (instance_of fact.now)) (after_fact (standing_at self.old.state (instance_of fact.now)) fact.now) }
        ensures ok { OnOk result (self.new ≡ stepped (λ s. record s { rows = rows_after (next_number s) fact.now s.rows }) self.old) }
    {
        let number = self.next_number();
        let alloc = *self.changes.rows.allocator();
        match self.row(fact.instance()) {
            Some(row) => {
                let row = row.after(alloc, number, fact)?;
                self.put_row(row)
            }
            None => match Row::first(alloc, number, fact)? {
                Some(row) => self.put_row(row),
                None => Ok(()),
            },
        }
    }

    /// The row of a fact's instance is changed by it; a decision there stays.
    fn put_row_after(&mut self, fact: &Fact) -> Result<(), AllocError>
        requires round { IsInRound (standing_at self.old.state (instance_of fact.now)) fact.now }
        requires keeps { KeepsStanding (standing_at self.old.state (instance_of fact.now)) (after_fact (standing_at self.old.state (instance_of fact.now)) fact.now) }
        ensures ok { OnOk result (self.new ≡ stepped (λ s. record s { rows = rows_after (next_number s) fact.now s.rows }) self.old) }
    {
        if self.change_newest(fact)? {
            return Ok(());
        }
        self.put_changed_row(fact)
    }

    /// The request number of a decision is taken out of the pool.
    #[tactic(auto, using(crate::proofs::PoolLemmas::without_one, crate::proofs::PoolLemmas::taken_more))]
    fn take_decided(&mut self, fact: &Fact) -> Result<(), AllocError>
        requires { IsDecidedFact fact.now self.old.state.rows }
        ensures ok { OnOk result (self.new ≡ stepped (λ s. record s { pool = pool_after fact.now s.pool }) self.old) }
    {
        match fact {
            Fact::Decide(_, command) => {
                self.changes.taken.push(command.request)?;
                self.changes.is_spent = false;
                self.changes.is_front_spent = false;
                self.changes.is_settled = false;
                Ok(())
            }
            Fact::Enter(..) | Fact::Propose(..) | Fact::Adopt(..) => Ok(()),
        }
    }

    /// A fact is staged last.
    #[tactic(auto, using(std::proofs::Common::append_assoc))]
    fn push_staged(&mut self, fact: &Fact) -> Result<(), AllocError>
        ensures ok { OnOk result (self.new ≡ stepped (λ s. record s { staged = s.staged ++ fact.now ∷ [] }) self.old) }
    {
        made_of!(Command, Op);
        self.changes.staged.push(*fact)?;
        Ok(())
    }

    /// Whether the pool is known to have no command for an instance that no fact names once this fact is staged. Either that is
    /// known now, and the fact leaves its instance the estimate or decides on it. Or it is known of all commands but the last,
    /// with which an open instance enters its first round.
    fn stays_spent(&self, fact: &Fact) -> bool
        requires { KeepsStanding (standing_at self.now.state (instance_of fact.now)) (after_fact (standing_at self.now.state (instance_of fact.now)) fact.now) }
        ensures { IsTrue result → IsSpent (stage fact.now self.now.state).rows (stage fact.now self.now.state).pool }
    {
        let base = self.base;
        // That the rows ascend is told by this call alone.
        let _row = base.row(fact.instance());
        match self.open(fact.instance()) {
            Some(at) => self.changes.is_spent && leaves_estimate(at, fact),
            None => {
                if self.changes.is_spent {
                    return true;
                }
                self.changes.is_front_spent
                    && enters_with_last(fact, &self.changes.pooled)
                    && self.is_open(fact.instance())
            }
        }
    }

    /// The pool has no command for an instance that no fact names, if that is known.
    fn note_spent(&mut self, is_spent: bool)
        requires { IsTrue is_spent → IsSpent self.old.state.rows self.old.state.pool }
        ensures { self.new ≡ self.old }
    {
        self.changes.spend(is_spent);
    }

    /// Stages a fact about an instance; a decision there stays.
    #[tactic(auto, using(crate::proofs::OverLemmas::decision_decides), unfolding(rr_model::specs::NodeParts::stage))]
    pub fn stage(&mut self, fact: &Fact) -> Result<(), AllocError>
        requires round { IsInRound (standing_at self.old.state (instance_of fact.now)) fact.now }
        requires keeps { KeepsStanding (standing_at self.old.state (instance_of fact.now)) (after_fact (standing_at self.old.state (instance_of fact.now)) fact.now) }
        ensures ok { OnOk result (self.new ≡ stepped (stage fact.now) self.old) }
    {
        let is_spent = self.stays_spent(fact);
        self.put_row_after(fact)?;
        self.take_decided(fact)?;
        self.push_staged(fact)?;
        self.note_spent(is_spent);
        Ok(())
    }

    /// These are the suspects from now on.
    pub fn suspect(&mut self, suspects: NodeSet)
        ensures { self.new ≡ stepped (λ s. record s { suspects = suspects }) self.old }
    {
        self.changes.suspects = Suspects::new(suspects);
        self.changes.is_settled = false;
    }

    /// A node has told its suspects: these too, but not the node, which spoke.
    pub fn reduce(&mut self, node: NodeId, set: NodeSet)
        ensures { self.new ≡ stepped (λ s. record s { suspects = reduced s.suspects node set }) self.old }
    {
        self.changes.suspects.receive(node, set);
        self.changes.is_settled = false;
    }

    /// A tick for the heartbeat detector.
    pub fn tick_watches(&mut self)
        ensures { self.new ≡ stepped (λ s. record s { watches = all_ticked s.watches }) self.old }
    {
        self.changes.heartbeat.tick();
    }

    /// A beat of a node; one that isn't there changes nothing.
    pub fn beat(&mut self, node: NodeId)
        ensures { self.new ≡ stepped (λ s. record s { watches = heard_beat node s.watches }) self.old }
    {
        self.changes.heartbeat.heard(node);
    }
}
