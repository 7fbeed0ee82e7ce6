//! When a node ticks and advances.

ghost use Rattle.std.specs.Prelude.{◌≡◌, [], ◌∷◌, true, false, IfOk, OnOk};
ghost use Rattle.std.specs.Option.{option_map_or};
ghost use Rattle.std.specs.Duration.{as_nanos};
ghost use Rattle.rr_types.specs.declared.input.Input.TheVariants as told;
ghost use Rattle.rr_model.specs.NodeState.{NodeState};
ghost use Rattle.rr_model.specs.NodeStep.{node_step};
ghost use Rattle.rr_turn.specs.Ticks.{is_tick_due, ticks_after, standstill_after};
ghost use Rattle.rr_turn.specs.Asked.{Ran, hears};
ghost use Rattle.rr_turn.specs.Looks.{TicksFrom, Ticked};
ghost use Rattle.rr_turn.specs.Turns.{heard_again, hearing_again, is_catching_up, ticked_chase, advancing, found_in, beating};

use crate::chase::Chase;
use crate::hearing::hear_all;
use crate::links::Links;
use crate::locked::Locked;
use crate::sent::Sent;
use crate::standstill::{Found, Standstill};
use crate::ticks::Ticks;
use rr_core::Core;
use rr_types::{Input, Refusal, majority};
use std::sync::{Mutex, Wait};
use std::time::Duration;

/// When a node ticks, and for how many ticks it has got no further.
#[derive(Debug, Drop)]
pub struct Clockwork {
    pub ticks: Ticks,
    pub standstill: Standstill,
}

/// The node hears a message, if there is one.
fn hear_any<L: Links>(locked: &mut Locked, links: &mut L, sent: Option<Sent>) -> Result<(), Refusal>
    ensures calls { OnOk result (Ran L.gives (option_map_or (λ sent. hears locked.old sent ∷ []) sent []) links.old links.new) }
    ensures state { OnOk result (locked.new ≡ option_map_or (λ sent. node_step (told.Hear sent.message) locked.old) sent locked.old) }
{
    match sent {
        None => Ok(()),
        Some(sent) => links.hear(locked, &sent),
    }
}

/// Where a tick is due the node hears its key again, or what was held back: an answer may be lost. Answers whether it does
/// without the tick, since it is catching up. Nobody waits then for a node that can't follow yet, as others would for a
/// coordinator of which a tick says that it is up.
fn hear_again<L: Links>(
    locked: &mut Locked,
    chase: &mut Chase,
    links: &mut L,
) -> Result<bool, Refusal>
    ensures calls { OnOk result (Ran L.gives (hearing_again locked.old chase.old) links.old links.new) }
    ensures state { OnOk result (locked.new ≡ heard_again locked.old chase.old) }
    ensures gaining { IfOk result (λ is_gaining. is_gaining ≡ is_catching_up locked.old chase.old) }
    ensures chase { OnOk result (chase.new ≡ ticked_chase locked.old chase.old) }
{
    let decided = locked.core().decided_count() as u64;
    hear_any(locked, links, chase.again(decided))?;
    Ok(chase.is_gaining(decided))
}

/// The node enters the next round of its lowest open instance, if that has one.
fn advance<L: Links>(locked: &mut Locked, links: &mut L) -> Result<(), Refusal>
    ensures { OnOk result (Ran L.gives (advancing locked.old) links.old links.new) }
{
    match links.tell(locked, &Input::Advance) {
        Ok(()) => Ok(()),
        Err(Refusal::RoundsOut) => Ok(()),
        Err(refusal) => Err(refusal),
    }
}

/// What a node finds at a tick.
fn found_in(core: &Core) -> Found
    ensures { result ≡ found_in core.now }
{
    let suspects = core.suspects().without(core.node());
    Found {
        decided: core.decided_count(),
        facts: core.facts(),
        has_majority: u32::from(majority(core.nodes())) + suspects.bits().count_ones()
            <= u32::from(core.nodes().count()),
    }
}

/// The node ticks, and advances where it has got no further.
fn beat<L: Links>(
    locked: &mut Locked,
    links: &mut L,
    standstill: &mut Standstill,
) -> Result<(), Refusal>
    ensures calls { OnOk result (Ran L.gives (beating locked.old standstill.old) links.old links.new) }
    ensures standstill { OnOk result (standstill.new ≡ standstill_after (found_in (node_step told.Tick locked.old)) standstill.old) }
{
    links.tell(locked, &Input::Tick)?;
    if standstill.count(found_in(locked.core())) {
        advance(locked, links)
    } else {
        Ok(())
    }
}

/// A tick is due. What has come is heard before. The node ticks unless it is catching up.
fn tick<L: Links>(
    locked: &mut Locked,
    chase: &mut Chase,
    links: &mut L,
    standstill: &mut Standstill,
    most: usize,
) -> Result<(), Refusal>
    ensures { OnOk result (TicksFrom L.gives locked.old most chase.old standstill.old links.old chase.new standstill.new links.new) }
{
    hear_all(locked, chase, links, most)?;
    if hear_again(locked, chase, links)? {
        Ok(())
    } else {
        beat(locked, links, standstill)
    }
}

/// As `tick`, in one section of the node's lock.
fn tick_in<L: Links, R: Wait>(
    rt: &R,
    node: &Mutex<Locked>,
    chase: &mut Chase,
    links: &mut L,
    standstill: &mut Standstill,
    most: usize,
) -> Result<(), Refusal>
    ensures { OnOk result ((s : NodeState) × TicksFrom L.gives s most chase.old standstill.old links.old chase.new standstill.new links.new) }
{
    let mut locked = node.lock(rt);
    tick(&mut *locked, chase, links, standstill, most)
}

/// The clock tells this time: the node ticks where it is time to. What is late is put into the inboxes before.
///
/// # Errors
/// Those of the node, and of a tape that has no place.
pub fn tick_next<L: Links, R: Wait>(
    rt: &R,
    now: Duration,
    node: &Mutex<Locked>,
    chase: &mut Chase,
    links: &mut L,
    clockwork: &mut Clockwork,
    most: usize,
) -> Result<(), Refusal>
    ensures ticks { clockwork.new.ticks ≡ ticks_after (as_nanos now) clockwork.old.ticks }
    ensures due { is_tick_due (as_nanos now) clockwork.old.ticks ≡ true → OnOk result (Ticked L.gives most chase.old clockwork.old.standstill links.old chase.new clockwork.new.standstill links.new) }
    ensures early { is_tick_due (as_nanos now) clockwork.old.ticks ≡ false → (result ≡ Ok tt) × (links.new ≡ links.old) × (chase.new ≡ chase.old) × (clockwork.new ≡ clockwork.old) }
{
    if !clockwork.ticks.look(now) {
        return Ok(());
    }
    links.put_late();
    tick_in(rt, node, chase, links, &mut clockwork.standstill, most)
}
