//! What leaves a node: the oldest message that may, and the oldest acknowledgement.

ghost use Rattle.std.specs.Prelude.{◌≡◌, true, None, Some, is_some, find, MatchOption, IfSome};
ghost use Rattle.std.specs.List.{list_any};
ghost use Rattle.rr_model.specs.NodeStep.{may_leave, next_leaving, message_left};
ghost use Rattle.rr_registry.specs.Kept.{kept_reply};
ghost use Rattle.rr_state.specs.Arrived.{without_first};
ghost use Rattle.rr_state.specs.Owing.{IsOwn};
ghost use Rattle.rr_core.specs.Kept.{IsKept};
ghost use Rattle.rr_core.specs.Marks.{IsFreeOrBacked, mark_of};
ghost use Rattle.rr_core.specs.Searched.{IsSearched};

use crate::cleared::{Cleared, Draft};
use crate::mark::Mark;
use crate::state::State;
use rr_registry::Registry;
use rr_state::{Owed, Waiting};
use rr_types::{Reply, RequestNo};

/// How many commands of the decided prefix were searched for waiting requests and have none. It is stale once a
/// request waits again that was decided before.
#[derive(Clone, Copy, Debug)]
pub struct Searched {
    pub count: usize,
    pub is_stale: bool,
}

/// Searches on up to the first command whose request waits. It goes past each command once.
fn search_on(state: &State, searched: Searched) -> Searched
    requires { IsSearched searched.count searched.is_stale state.now }
    ensures { IsSearched result.count result.is_stale state.now }
{
    let end = state.instances.prefix_len();
    let mut count = searched.count;
    while count < end {
        match state.instances.command_at(count) {
            Some(command) if !state.waiting.has(command.request) => count += 1,
            _ => return Searched { count, ..searched },
        }
    }
    Searched { count, ..searched }
}

/// Whether one of these requests has a reply.
pub fn is_any_answered(requests: &[RequestNo], registry: &Registry) -> bool
    ensures { result ≡ list_any (λ q. is_some (kept_reply registry.now q)) requests.now }
{
    requests
        .iter()
        .any(|request| registry.reply(*request).is_some())
}

/// The oldest request that has a reply.
fn find_answered(waiting: &Waiting, registry: &Registry) -> Option<(RequestNo, Reply)>
    ensures { MatchOption result
        (find (λ q. is_some (kept_reply registry.now q)) waiting.now ≡ None)
        (λ a. (find (λ q. is_some (kept_reply registry.now q)) waiting.now ≡ Some a.0) × (kept_reply registry.now a.0 ≡ Some a.1)) }
{
    let mut left = waiting.iter();
    while let Some(request) = left.next() {
        if let Some(reply) = registry.reply(request) {
            return Some((request, reply));
        }
    }
    None
}

/// Takes the oldest request that has a reply. It needs no memory.
fn take_answered(waiting: &mut Waiting, registry: &Registry) -> Option<(RequestNo, Reply)>
    ensures { MatchOption result
        ((find (λ q. is_some (kept_reply registry.now q)) waiting.old ≡ None) × (waiting.new ≡ waiting.old))
        (λ a. (find (λ q. is_some (kept_reply registry.now q)) waiting.old ≡ Some a.0) × (kept_reply registry.now a.0 ≡ Some a.1)
        × (waiting.new ≡ without_first (λ q. is_some (kept_reply registry.now q)) waiting.old)) }
{
    match find_answered(waiting, registry) {
        None => None,
        Some((request, reply)) => {
            waiting.remove(request);
            Some((request, reply))
        }
    }
}

/// The message of one that may leave: a free one at once, another one by its draft.
fn cleared(owed: &Owed, mark: &Mark) -> Option<Cleared>
    requires own { IsOwn mark.now.node owed.now }
    requires leaving { may_leave mark.now.end owed.now ≡ true }
    ensures { result ≡ Some owed.now.message }
{
    match owed.backing {
        Some(number) => Draft::new(&owed.message, number).clear(mark),
        None => Cleared::free(&owed.message),
    }
}

/// Takes the oldest owed message that may leave by the node's mark. It needs no memory.
#[tactic(auto, using(crate::proofs::LeavingLemmas::without_leaving, crate::proofs::CoveredLemmas::found_leaves, crate::proofs::CoveredLemmas::found_backed))]
pub fn take_leaving(state: &mut State, mark: &Mark) -> Option<Cleared>
    requires { mark.now ≡ mark_of state.old }
    ensures taken { MatchOption result
        ((next_leaving state.old ≡ None) × (state.new ≡ state.old))
        (λ m. (next_leaving state.old ≡ Some m) × (state.new ≡ message_left state.old)) }
    ensures backed { IfSome result (IsFreeOrBacked (mark_of state.old) state.old.owed) }
{
    let Some(place) = state.owed.leaving_place(mark.end()) else {
        return None;
    };
    let leaving = cleared(state.owed.at(place), mark);
    state.owed.remove(place);
    leaving
}

/// Takes the oldest waiting request that has a reply. Where all of the decided prefix was searched, there is none.
pub fn take_acknowledged(
    state: &mut State,
    registry: &Registry,
    searched: &mut Searched,
) -> Option<(RequestNo, Reply)>
    requires kept { IsKept state.old registry.now }
    requires before { IsSearched searched.old.count searched.old.is_stale state.old }
    ensures taken { MatchOption result
        ((find (λ q. is_some (kept_reply registry.now q)) state.old.waiting ≡ None) × (state.new ≡ state.old))
        (λ a. (find (λ q. is_some (kept_reply registry.now q)) state.old.waiting ≡ Some a.0) × (kept_reply registry.now a.0 ≡ Some a.1)
        × (state.new ≡ record state.old { waiting = without_first (λ q. is_some (kept_reply registry.now q)) state.old.waiting })) }
    ensures behind { IsSearched searched.new.count searched.new.is_stale state.new }
{
    *searched = search_on(state, *searched);
    let count = state.instances.prefix_len();
    if !searched.is_stale && searched.count == count {
        return None;
    }
    if let Some(answered) = take_answered(&mut state.waiting, registry) {
        return Some(answered);
    }
    *searched = Searched {
        count,
        is_stale: false,
    };
    None
}
