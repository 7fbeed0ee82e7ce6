//! The group of facts that is being flushed: taking it, putting it back, and marking it.

ghost use Rattle.std.specs.Prelude.{◌≡◌, ◌≢◌, ◌+◌, ◌^◌, ◌<◌, ◌≤◌, ◌++◌, ◌↔◌, ◌⊎◌, [], None, Some, length, IsTrue, IsSome, IfOk, IfErr, OnOk, OnErr, MatchOption};
ghost use Rattle.std.specs.Option.{option_map_or};
ghost use Rattle.rr_types.specs.Promises.{take_on_all, decided_from};
ghost use Rattle.rr_model.specs.NodeState.{next_number, decided_prefix};
ghost use Rattle.rr_model.specs.NodeStep.{group_taken, running_group, group_put_back, marked_running};
ghost use Rattle.rr_core.specs.Lawful.{IsLawful};
ghost use Rattle.rr_core.specs.Marks.{mark_of};

use crate::mark::Mark;
use crate::state::State;
use rr_journal::Synced;
use rr_state::are_same_facts;
use rr_types::{Command, GROUP, Group, Refusal};
use std::alloc::{AllocError, Global};

/// The oldest staged facts, at most 64, become the running group. While one runs it is `Busy`.
#[tactic(auto, unfolding(rr_model::specs::NodeStep::group_taken))]
pub fn take_group(state: &mut State, alloc: Global) -> Result<Option<Group>, Refusal>
    requires { next_number state.old < 2 ^ 64 }
    ensures none { IfOk result (λ g. g ≡ None → (state.new ≡ state.old) × (state.old.staged ≡ [])) }
    ensures some { IfOk result (λ g. IsSome g → (state.new ≡ group_taken state.old) × (g ≡ running_group state.new)) }
    ensures there { IfOk result (λ g. IsSome g → state.old.staged ≢ []) }
    ensures free { OnOk result (state.old.running ≡ None) }
    ensures err { OnErr result (state.new ≡ state.old) }
    ensures refused { IfErr result (λ e. (e ≡ Refusal.OutOfMemory) ⊎ ((e ≡ Refusal.Busy) × IsSome state.old.running)) }
{
    if state.unmarked.is_running() {
        return Err(Refusal::Busy);
    }
    if state.unmarked.count() == 0 {
        return Ok(None);
    }
    let facts = state.unmarked.front(alloc, GROUP)?;
    match Group::new(state.marked_end, facts) {
        Ok(group) => {
            state.unmarked.run(GROUP);
            Ok(Some(group))
        }
        Err(_) => unreachable!(),
    }
}

/// Whether a group is the running one, by its number and its facts.
pub fn is_running_group(state: &State, group: &Group) -> bool
    ensures { IsTrue result ↔ (running_group state.now ≡ Some group.now) }
{
    state.unmarked.is_running()
        && group.serial() == state.marked_end
        && are_same_facts(state.unmarked.running(), group.facts())
}

/// The running group is staged again. It needs no memory.
#[tactic(auto, unfolding(rr_model::specs::NodeStep::group_put_back))]
pub fn put_back(state: &mut State)
    ensures { state.new ≡ group_put_back state.old }
{
    state.unmarked.put_back();
}

/// The commands that come behind the decided prefix once the running group is marked.
#[tactic(auto, using(crate::proofs::MarkLemmas::decisions_stay))]
pub fn commands_after(state: &State, alloc: Global) -> Result<Vec<Command>, AllocError>
    requires { IsLawful state.now }
    ensures ok { IfOk result (λ more. decided_from 0 (take_on_all state.now.marked (option_map_or (λ facts. facts) state.now.running [])) ≡ decided_prefix state.now ++ more.items) }
{
    state
        .instances
        .commands_after(alloc, state.unmarked.running())
}

/// The running group is marked, since it is synced: the mark behind it. It needs no memory.
#[tactic(auto, using(crate::proofs::GroupLemmas::marked_by, crate::proofs::MarkOfLemmas::marked_mark, crate::proofs::MarkLemmas::in_round, crate::proofs::MarkLemmas::decisions_stay, crate::proofs::MarkLemmas::have_rows), unfolding(rr_model::specs::NodeStep::marked_running))]
pub fn mark_running(state: &mut State, synced: &Synced) -> Mark
    requires lawful { IsLawful state.old }
    requires own { synced.now.node ≡ state.old.node }
    requires runs { running_group state.old ≡ Some synced.now.group }
    ensures marked { state.new ≡ marked_running state.old }
    ensures mark { result ≡ mark_of state.new }
{
    let mark = Mark::synced(synced);
    let facts = state.unmarked.running();
    state.instances.mark(facts);
    state.marked_end = mark.end();
    state.unmarked.drop_running();
    mark
}
