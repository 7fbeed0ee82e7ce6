//! The loop of a node.
//!
//! A turn has its clauses in rr_turn. That turn follows turn until the node goes down is read: `run_turns`, `run_node`.

ghost use Rattle.std.specs.Prelude.{◌≡◌, IfOk, OnOk};
ghost use Rattle.std.specs.Duration.{as_nanos};
ghost use Rattle.rr_threads.specs.Mails.{HearsOwn};

use crate::desk::Desk;
use crate::pacing::keep_pace;
use crate::shared::Shared;
use crate::wires::{Mail, NodeEnds, Wires};
use rr_turn::{Chase, Clockwork, Links, Standstill, Ticks, Turnstile, hear_kept, turn};
use rr_types::Refusal;
use rr_window::{ROOM, WindowName};
use std::sync::Wait;
use std::time::Clock;

/// The most messages that are heard in a turn, and the most that are sent.
const BATCH: usize = 64;

/// What the loop of a node owns: its ends, and what it chases by.
#[derive(Drop)]
pub struct Runner {
    pub ends: NodeEnds,
    pub chase: Chase,
}

/// The same, with what is called over the ends.
#[derive(Drop)]
struct Lane<'x, W: WindowName, T, R> {
    wires: Wires<'x, W, T, R>,
    chase: Chase,
}

/// What a node begins with: it hears what is kept of the messages that came before, which stays kept, and its clock starts. It ticks as often
/// as the run says.
fn begin<W: WindowName, T: Turnstile, R: Wait + Clock>(
    rt: &R,
    shared: &Shared<'_, T>,
    desk: &Desk<W>,
    lane: &mut Lane<'_, W, T, R>,
) -> Result<Clockwork, Refusal>
    ensures ticks { IfOk result (λ clockwork. clockwork.ticks.period ≡ as_nanos shared.now.tick) }
    ensures heard { OnOk result (HearsOwn (λ w. w.ends.mail) lane.old.chase lane.old.wires lane.new.chase) }
    ensures kept { OnOk result (lane.new.wires.ends.mail ≡ lane.old.wires.ends.mail) }
{
    let (chase, wires) = (&mut lane.chase, &mut lane.wires);
    let kept = wires.ends.mail.kept;
    hear_kept(rt, &desk.locked, chase, wires, &kept)?;
    let now = wires.read_clock()?;
    Ok(Clockwork {
        ticks: Ticks::new(now, shared.tick),
        standstill: Standstill::new(),
    })
}

/// Runs the turns of a node, until it goes down. By a refusal it fails.
fn run_turns<W: WindowName, T: Turnstile, R: Wait + Clock>(
    rt: &R,
    shared: &Shared<'_, T>,
    desk: &Desk<W>,
    lane: &mut Lane<'_, W, T, R>,
) -> Result<(), Refusal> {
    let mut clockwork = begin(rt, shared, desk, lane)?;
    let (node, order) = (&desk.locked, shared.running.order());
    let (chase, wires) = (&mut lane.chase, &mut lane.wires);
    for _ in rt.forever() {
        if desk.is_ending(shared) {
            break;
        }
        if clockwork.standstill.is_idle() {
            keep_pace(&mut clockwork.standstill, shared.pace(desk.node));
        }
        turn(rt, order, node, chase, wires, &mut clockwork, BATCH, ROOM)?;
    }
    Ok(())
}

/// Runs a node, until it goes down. Gives its mail back.
pub fn run_node<W: WindowName, T: Turnstile, R: Wait + Clock>(
    rt: &R,
    shared: &Shared<'_, T>,
    desk: &Desk<W>,
    runner: Runner,
) -> Mail {
    let Runner { ends, chase } = runner;
    let wires = Wires::new(
        rt,
        &shared.running,
        shared.switches,
        shared.turnstile,
        shared.recorder,
        desk,
        ends,
    );
    let mut lane = Lane { wires, chase };
    if let Err(refusal) = run_turns(rt, shared, desk, &mut lane) {
        shared.fail(rt, desk.node, refusal);
    }
    desk.ring_all();
    let Lane { wires, chase: _ } = lane;
    let Wires {
        rt: _,
        running: _,
        switches: _,
        turnstile: _,
        scribe: _,
        desk: _,
        ends,
        bell: _,
        rest: _,
    } = wires;
    let NodeEnds {
        mail,
        groups: _,
        backs: _,
    } = ends;
    mail
}
