//! What waits in the inbox is heard.

ghost use Rattle.std.specs.Prelude.{◌≡◌, IfOk, OnOk};
ghost use Rattle.rr_model.specs.NodeState.{NodeState};
ghost use Rattle.rr_turn.specs.Asked.{Ran};
ghost use Rattle.rr_turn.specs.Looks.{Hears, Looks, MeetsAny, HearsKept};
ghost use Rattle.rr_turn.specs.Turns.{met, met_chase, meeting};

use crate::chase::{Chase, Hearing};
use crate::kept::Kept;
use crate::links::Links;
use crate::locked::Locked;
use crate::sent::Sent;
use rr_types::Refusal;
use std::sync::{Mutex, Wait};

// A message comes: the node hears it, or what its chase has it hear.
fn meet<L: Links>(
    locked: &mut Locked,
    chase: &mut Chase,
    links: &mut L,
    sent: &Sent,
) -> Result<(), Refusal>
    ensures calls { OnOk result (Ran L.gives (meeting sent.now locked.old chase.old) links.old links.new) }
    ensures state { OnOk result (locked.new ≡ met sent.now locked.old chase.old) }
    ensures chase { chase.new ≡ met_chase sent.now locked.old chase.old }
{
    if chase.is_plain(locked.core().decided_count() as u64, sent) {
        return links.hear(locked, sent);
    }
    meet_chased(locked, chase, links, sent)
}

// As `meet`, where the chase may have more to say.
#[inline(never)]
fn meet_chased<L: Links>(
    locked: &mut Locked,
    chase: &mut Chase,
    links: &mut L,
    sent: &Sent,
) -> Result<(), Refusal>
    ensures calls { OnOk result (Ran L.gives (meeting sent.now locked.old chase.old) links.old links.new) }
    ensures state { OnOk result (locked.new ≡ met sent.now locked.old chase.old) }
    ensures chase { chase.new ≡ met_chase sent.now locked.old chase.old }
{
    match chase.meet(locked.core().decided_count() as u64, sent) {
        Hearing::Alone => links.hear(locked, sent),
        Hearing::Nothing => Ok(()),
        Hearing::After(held) => {
            links.hear(locked, &held)?;
            links.hear(locked, sent)
        }
        Hearing::Before(next) => {
            links.hear(locked, sent)?;
            links.hear(locked, &next)
        }
    }
}

/// The messages of the inbox come, of more than `most` the first. Answers whether there was one.
pub fn hear_all<L: Links>(
    locked: &mut Locked,
    chase: &mut Chase,
    links: &mut L,
    most: usize,
) -> Result<bool, Refusal>
    ensures { IfOk result (λ has. Hears L.gives locked.old locked.new most has chase.old links.old chase.new links.new) }
{
    let mut has_heard = false;
    for turn in 0..most {
        match links.take() {
            None => break,
            Some(sent) => {
                meet(locked, chase, links, &sent)?;
                has_heard = true;
            }
        }
    }
    Ok(has_heard)
}

/// As `hear_all`, in one section of the node's lock.
fn hear_in<L: Links, R: Wait>(
    rt: &R,
    node: &Mutex<Locked>,
    chase: &mut Chase,
    links: &mut L,
    most: usize,
) -> Result<bool, Refusal>
    ensures { IfOk result (λ has. (s t : NodeState) × Hears L.gives s t most has chase.old links.old chase.new links.new) }
{
    let mut locked = node.lock(rt);
    hear_all(&mut *locked, chase, links, most)
}

/// As `hear_all`, in one section of the node's lock. Mostly nothing waits, and then it takes none.
pub fn hear_next<L: Links, R: Wait>(
    rt: &R,
    node: &Mutex<Locked>,
    chase: &mut Chase,
    links: &mut L,
    most: usize,
) -> Result<bool, Refusal>
    ensures { IfOk result (λ has. Looks L.gives most has chase.old links.old chase.new links.new) }
{
    if links.is_idle() {
        return Ok(false);
    }
    hear_in(rt, node, chase, links, most)
}

// A message that may be there comes.
fn meet_any<L: Links>(
    locked: &mut Locked,
    chase: &mut Chase,
    links: &mut L,
    sent: Option<Sent>,
) -> Result<(), Refusal>
    ensures { OnOk result (MeetsAny L.gives sent locked.old chase.old links.old locked.new chase.new links.new) }
{
    match sent {
        None => Ok(()),
        Some(sent) => meet(locked, chase, links, &sent),
    }
}

// What is kept comes, a message after the other.
fn meet_kept<L: Links>(
    locked: &mut Locked,
    chase: &mut Chase,
    links: &mut L,
    kept: &Kept,
) -> Result<(), Refusal>
    ensures { OnOk result (HearsKept L.gives kept.now locked.old chase.old links.old chase.new links.new) }
{
    meet_any(locked, chase, links, kept.request())?;
    meet_any(locked, chase, links, kept.opening())?;
    meet_any(locked, chase, links, kept.decision())
}

/// At the start of a node what is kept of what came before comes first: the last request, then the estimate or proposal and the decision of
/// the highest instances. It stays kept: the node may be stopped again before it has caught up.
///
/// # Errors
/// Those of the node, and of a tape that has no place.
pub fn hear_kept<L: Links, R: Wait>(
    rt: &R,
    node: &Mutex<Locked>,
    chase: &mut Chase,
    links: &mut L,
    kept: &Kept,
) -> Result<(), Refusal>
    ensures { OnOk result ((s : NodeState) × HearsKept L.gives kept.now s chase.old links.old chase.new links.new) }
{
    let mut locked = node.lock(rt);
    meet_kept(&mut *locked, chase, links, kept)
}
