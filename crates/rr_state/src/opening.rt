//! The open instances: the eight lowest undecided ones.

ghost use Rattle.std.specs.Prelude.{◌≡◌, ◌<◌, ◌≤◌, ◌-◌, ◌++◌, ◌∷◌, List, [], length, filter, is_some, IsTrue};
ghost use Rattle.std.specs.List.{list_any};
ghost use Rattle.rr_types.specs.Limits.{instance_count};
ghost use Rattle.rr_model.specs.NodeState.{is_decided, undecided_from, lowest_undecided};
ghost use Rattle.rr_model.specs.NodeState as model;
ghost use Rattle.rr_state.specs.Listed.{decision_at, put_rows, KeepsDecisions};
ghost use Rattle.rr_state.specs.Rowed.{AscendFrom, is_undecided};
ghost use Rattle.rr_state.specs.Opened.{open_in};

use crate::open_instances::OpenInstances;
use crate::rows::Rows;
use rr_types::{INSTANCES, Instance, OPEN_INSTANCES};

impl Rows {
    /// Whether the instance with this number has decided.
    pub(crate) fn is_decided(&self, number: u32) -> bool
        ensures value { result ≡ is_some (decision_at self.now number) }
        ensures range { IsTrue result → number < instance_count }
        ensures ascend { AscendFrom 0 self.now }
    {
        match self.row(number) {
            Some(row) => row.is_decided(),
            None => false,
        }
    }

    /// The lowest undecided instance from this one on, found one after another.
    pub(crate) fn search(&self, from: u32) -> u32
        requires { from ≤ instance_count }
        ensures value { result ≡ undecided_from from self.now }
        ensures range { result ≤ instance_count }
        ensures above { from ≤ result }
    {
        for number in from..INSTANCES {
            if !self.is_decided(number) {
                return number;
            }
        }
        if self.is_decided(INSTANCES) {
            unreachable!()
        }
        INSTANCES
    }

    /// Those of the instances that are undecided.
    fn kept(&self, window: &OpenInstances) -> OpenInstances
        ensures { result ≡ filter (is_undecided self.now) window.now }
    {
        let mut kept = OpenInstances::new();
        for instance in window.as_slice() {
            if !self.is_decided(instance.number()) {
                kept.push(*instance);
            }
        }
        kept
    }

    /// The instances, and behind them the lowest undecided ones from this one on, eight in all.
    #[tactic(auto, using(crate::proofs::OpenLemmas::lowest_next, crate::proofs::OpenLemmas::lowest_done, crate::proofs::OpenLemmas::push_next))]
    pub(crate) fn fill(&self, kept: OpenInstances, from: u32) -> OpenInstances
        requires { from ≤ instance_count }
        ensures { result ≡ kept ++ lowest_undecided (8 - length kept) from self.now }
    {
        let mut lowest = kept;
        let mut from = from;
        let room = OPEN_INSTANCES - lowest.as_slice().len();
        for _turn in 0..room {
            match Instance::new(self.search(from)) {
                None => return lowest,
                Some(instance) => {
                    lowest.push(instance);
                    from = instance.number() + 1;
                }
            }
        }
        lowest
    }

    /// The open instances, where these were open before some more had decided.
    pub(crate) fn slide(&self, window: &OpenInstances) -> OpenInstances
        requires { AscendFrom 0 self.now }
        ensures { (before : List model.Row) → AscendFrom 0 before → KeepsDecisions before self.now → window.now ≡ open_in before → result ≡ open_in self.now }
    {
        let kept = self.kept(window);
        let instances = window.as_slice();
        if instances.len() < OPEN_INSTANCES {
            return kept;
        }
        self.fill(kept, instances[OPEN_INSTANCES - 1].number() + 1)
    }

    /// The open instances behind rows that were put, where these were open before. They are the same unless a row has
    /// decided.
    pub(crate) fn slide_behind(
        &self,
        window: &OpenInstances,
        is_decision_new: bool,
    ) -> OpenInstances
        requires { AscendFrom 0 self.now }
        ensures { (before changes : List model.Row) → AscendFrom 0 before → KeepsDecisions before self.now → self.now ≡ put_rows before changes → is_decision_new ≡ list_any (λ r. is_decided r) changes → window.now ≡ open_in before → result ≡ open_in self.now }
    {
        if is_decision_new {
            self.slide(window)
        } else {
            window.copied()
        }
    }

    /// The lowest undecided instance from this one on. As long as it isn't above all these open instances, it is
    /// one of them.
    pub(crate) fn undecided_from(&self, window: &OpenInstances, from: u32) -> u32
        requires range { from ≤ instance_count }
        requires shown { window.now ≡ open_in self.now }
        requires ascend { AscendFrom 0 self.now }
        ensures value { result ≡ undecided_from from self.now }
        ensures range { result ≤ instance_count }
        ensures above { from ≤ result }
    {
        let instances = window.as_slice();
        for instance in instances {
            if from <= instance.number() {
                return instance.number();
            }
        }
        // Fewer than eight are open only where nothing behind them is undecided.
        let from = if instances.len() < OPEN_INSTANCES {
            INSTANCES
        } else {
            from
        };
        self.search(from)
    }
}
