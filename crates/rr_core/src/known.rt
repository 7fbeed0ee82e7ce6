//! What a state says of instances, request numbers and commands.

ghost use Rattle.std.specs.Prelude.{◌≡◌, ◌≤◌, ◌<◌, ◌^◌, ◌&&◌, nat_lt, None, Some, MatchOption};
ghost use Rattle.std.specs.List.{list_any};
ghost use Rattle.rr_types.specs.Registry.{has_request, is_same_request};
ghost use Rattle.rr_model.specs.NodeState.{next_number, row_of, is_decided, is_decided_request, undecided_from, standing_at};
ghost use Rattle.rr_types.specs.Standings.{round_of};
ghost use Rattle.rr_types.specs.Limits.{instance_count, last_round};
ghost use Rattle.rr_model.specs.NodeStep.{is_waiting, is_list_full, lowest_in_round};
ghost use Rattle.rr_state.specs.Rowed.{AscendFrom};
ghost use Rattle.rr_state.specs.Opened.{open_in};

use crate::over::lowest_in_round_over;
use crate::state::State;
use rr_state::{OpenInstances, Row};
use rr_types::{INSTANCES, Instance, OPEN_INSTANCES, RequestNo};

impl State {
    /// The number of the next fact.
    pub(crate) fn next_number(&self) -> u128
        ensures value { result ≡ next_number self.now }
        ensures room { result < 2 ^ 65 }
    {
        self.marked_end as u128 + self.unmarked.count() as u128
    }

    /// The row of an instance; the rows ascend.
    pub(crate) fn row(&self, instance: Instance) -> Option<&Row>
        ensures row { MatchOption result (row_of self.now.rows instance ≡ None) (λ r. row_of self.now.rows instance ≡ Some r.now) }
        ensures ascend { AscendFrom 0 self.now.rows }
    {
        self.instances.row(instance)
    }

    /// The open instances; the rows ascend.
    pub(crate) fn window(&self) -> OpenInstances
        ensures value { result ≡ open_in self.now.rows }
        ensures ascend { AscendFrom 0 self.now.rows }
    {
        self.instances.window()
    }

    /// The open instances, lent.
    pub(crate) fn open(&self) -> &[Instance]
        ensures { result.now ≡ open_in self.now.rows }
    {
        self.instances.open()
    }

    /// The lowest undecided instance from `from` on; the rows ascend.
    pub(crate) fn undecided_from(&self, from: u32) -> u32
        requires { from ≤ instance_count }
        ensures value { result ≡ undecided_from from self.now.rows }
        ensures range { result ≤ instance_count }
        ensures above { from ≤ result }
        ensures ascend { AscendFrom 0 self.now.rows }
    {
        self.instances.undecided_from(from)
    }

    /// Whether all instances are decided here.
    pub fn is_list_full(&self) -> bool
        ensures { result ≡ is_list_full self.now }
    {
        INSTANCES <= self.undecided_from(0)
    }

    /// The lowest open instance that has a round. It takes no memory.
    #[tactic(auto, unfolding(rr_model::specs::NodeState::open_instances))]
    pub fn lowest_in_round(&self) -> Option<Instance>
        ensures { result ≡ lowest_in_round self.now }
    {
        lowest_in_round_over(self, &[], OPEN_INSTANCES)
    }

    /// The round of an instance; 0 where it has none.
    pub fn round(&self, instance: Instance) -> u32
        ensures value { result ≡ round_of (standing_at self.now instance) }
        ensures range { result ≤ last_round }
    {
        match self.row(instance) {
            Some(row) => row.round(),
            None => 0,
        }
    }

    /// Whether some instance has decided a command with this request number.
    pub fn is_decided_request(&self, request: RequestNo) -> bool
        ensures { result ≡ is_decided_request self.now request }
    {
        self.instances.has_decided(request)
    }

    /// Whether a later instance than `first` has decided.
    pub(crate) fn has_decided_above(&self, first: Instance) -> bool
        ensures { result ≡ list_any (λ r. nat_lt first r.instance && is_decided r) self.now.rows }
    {
        self.instances.has_decided_above(first)
    }

    /// Whether the pool has a command with this request number.
    pub(crate) fn has_pooled(&self, request: RequestNo) -> bool
        ensures { result ≡ has_request self.now.pool request }
    {
        self.pool.has(request)
    }

    /// Whether a request waits for its acknowledgement.
    pub fn is_waiting(&self, request: RequestNo) -> bool
        ensures { result ≡ is_waiting self.now request }
    {
        self.waiting.has(request)
    }
}

/// Whether a request number is one of these.
pub fn is_among(requests: &[RequestNo], request: RequestNo) -> bool
    ensures { result ≡ list_any (λ q. is_same_request q request) requests.now }
{
    for one in requests {
        if one.is_same(request) {
            return true;
        }
    }
    false
}
