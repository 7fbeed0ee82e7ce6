//! The table of instances.

ghost use Rattle.std.specs.Prelude.{◌≡◌, ◌≤◌, ◌&&◌, ◌++◌, [], None, Some, map, length, slice_get, nat_lt, IfOk, OnOk, OnErr, MatchOption};
ghost use Rattle.std.specs.List.{list_any};
ghost use Rattle.rr_types.specs.Promises.{IsAscending, take_on_all, decided_from};
ghost use Rattle.rr_types.specs.Limits.{instance_count};
ghost use Rattle.rr_model.specs.NodeState.{row_of, is_decided, undecided_from};
ghost use Rattle.rr_model.specs.NodeStep.{promised_row};
ghost use Rattle.rr_state.specs.Listed.{put_rows, KeepsDecisions, KeepsPromised, HaveRows, AllInRound};
ghost use Rattle.rr_state.specs.Rowed.{AscendFrom, has_decided};
ghost use Rattle.rr_state.specs.Opened.{open_in};

use crate::marks::Marks;
use crate::open_instances::OpenInstances;
use crate::row::Row;
use crate::rows::{Rows, is_any_decided};
use rr_types::{Command, Fact, Instance, Kept, Op, RequestNo, Standing};
use std::alloc::{AllocError, Global};
use std::marker::Model;

/// The instances that the facts name, each by its row, and the promise of the marked facts. A look-up costs the
/// logarithm of how many there are, and a change as much for each row or fact of it, beside the instances that it
/// opens or brings into the decided prefix.
#[derive(Drop)]
pub struct Instances {
    rows: Rows,
    window: OpenInstances,
    marks: Marks,
}

impl Model for Instances {
    ghost use Rattle.rr_state.specs.Listed.{Listed};
    ghost use Rattle.rr_state.specs.Marked.{marked_in};
    ghost use Rattle.rr_state.specs.Opened.{IsListed};

    ghost Value = { Listed };

    ghost view = { λ t. record { rows = t.rows; marked = marked_in t.rows t.marks } };

    ghost invariant = { λ t. IsListed t.rows t.window t.marks };
}

impl Instances {
    /// The table of a node that knows its promise and nothing else; `next` is the number of its next fact.
    pub fn restored(alloc: Global, promise: &[Kept], next: u64) -> Result<Instances, AllocError>
        requires { IsAscending promise.now }
        ensures ok { IfOk result (λ t. t ≡ record { rows = map (promised_row next) promise.now; marked = promise.now }) }
    {
        let mut rows = Rows::new(alloc);
        match rows.restore(alloc, promise, next) {
            Ok(()) => {
                let mut marks = Marks::new(alloc);
                marks.restore(&rows, promise)?;
                let window = rows.fill(OpenInstances::new(), 0);
                Ok(Instances {
                    rows,
                    window,
                    marks,
                })
            }
            Err(refusal) => Err(refusal),
        }
    }

    /// The row of an instance; the rows ascend.
    pub fn row(&self, instance: Instance) -> Option<&Row>
        ensures row { MatchOption result (row_of self.now.rows instance ≡ None) (λ r. row_of self.now.rows instance ≡ Some r.now) }
        ensures ascend { AscendFrom 0 self.now.rows }
    {
        match self.rows.row(instance.number()) {
            Some(row) => Some(row),
            None => None,
        }
    }

    /// The open instances: the eight lowest undecided ones, ascending.
    pub fn open(&self) -> &[Instance]
        ensures value { result.now ≡ open_in self.now.rows }
        ensures range { length result.now ≤ 8 }
    {
        let window = &self.window;
        window.as_slice()
    }

    /// The open instances as a value of their own.
    pub fn window(&self) -> OpenInstances
        ensures value { result ≡ open_in self.now.rows }
        ensures ascend { AscendFrom 0 self.now.rows }
    {
        self.window.copied()
    }

    /// The lowest undecided instance from this one on; 1,048,576 where there is none. Beyond the open instances it
    /// is looked for one after another.
    pub fn undecided_from(&self, from: u32) -> u32
        requires { from ≤ instance_count }
        ensures value { result ≡ undecided_from from self.now.rows }
        ensures range { result ≤ instance_count }
        ensures above { from ≤ result }
        ensures ascend { AscendFrom 0 self.now.rows }
    {
        self.rows.undecided_from(&self.window, from)
    }

    /// Whether some instance has decided a command with this request number.
    pub fn has_decided(&self, request: RequestNo) -> bool
        ensures { result ≡ list_any (has_decided request) self.now.rows }
    {
        self.rows.has_decided(request)
    }

    /// Whether an instance above this one has decided.
    pub fn has_decided_above(&self, instance: Instance) -> bool
        ensures { result ≡ list_any (λ r. nat_lt instance r.instance && is_decided r) self.now.rows }
    {
        self.rows.has_decided_above(instance)
    }

    /// Puts these rows, all of them or, after an error, none. No decision may change. The rows leave the vector, unless
    /// an error comes.
    pub fn absorb(&mut self, alloc: Global, rows: &mut Vec<Row>) -> Result<(), AllocError>
        requires { KeepsDecisions self.old.rows (put_rows self.old.rows rows.old.items) }
        ensures ok { OnOk result (self.new ≡ record self.old { rows = put_rows self.old.rows rows.old.items }) }
        ensures taken { OnOk result (rows.new.items ≡ []) }
        ensures kept { OnErr result (self.new ≡ self.old) }
    {
        if rows.is_empty() {
            return Ok(());
        }
        self.marks.make_places(rows)?;
        let is_decision_new = is_any_decided(rows);
        match self.rows.absorb(alloc, rows) {
            Ok(()) => {
                self.window = self.rows.slide_behind(&self.window, is_decision_new);
                Ok(())
            }
            Err(refusal) => Err(refusal),
        }
    }

    /// How many commands the decided prefix has.
    pub fn prefix_len(&self) -> usize
        ensures { result ≡ length (decided_from 0 self.now.marked) }
    {
        self.marks.prefix_len(&self.rows)
    }

    /// The command at a place of the decided prefix.
    pub fn command_at(&self, place: usize) -> Option<Command>
        ensures { result ≡ slice_get (decided_from 0 self.now.marked) place }
    {
        self.marks.command_at(&self.rows, place)
    }

    /// The commands that come behind the decided prefix once these facts are marked. No decision may change.
    pub fn commands_after(&self, alloc: Global, facts: &[Fact]) -> Result<Vec<Command>, AllocError>
        requires { KeepsPromised self.now.marked (take_on_all self.now.marked facts.now) }
        ensures ok { IfOk result (λ more. decided_from 0 (take_on_all self.now.marked facts.now) ≡ decided_from 0 self.now.marked ++ more.items) }
    {
        self.marks.commands_after(alloc, &self.rows, facts)
    }

    /// Marks these facts, each of whose instances has a row. No decision may change. It needs no memory.
    pub fn mark(&mut self, facts: &[Fact])
        requires rounds { AllInRound self.old.marked facts.now }
        requires keeps { KeepsPromised self.old.marked (take_on_all self.old.marked facts.now) }
        requires rows { HaveRows (take_on_all self.old.marked facts.now) self.old.rows }
        ensures { self.new ≡ record self.old { marked = take_on_all self.old.marked facts.now } }
    {
        self.marks.mark(&self.rows, facts);
    }

    /// The promise of the marked facts.
    pub fn marked_entries(&self, alloc: Global) -> Result<Vec<Kept>, AllocError>
        ensures ok { IfOk result (λ entries. entries.items ≡ self.now.marked) }
        ensures ascending { IfOk result (λ entries. IsAscending entries.items) }
    {
        self.marks.promise(alloc, &self.rows)
    }
}
