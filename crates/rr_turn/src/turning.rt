//! A turn of a node's loop.

ghost use Rattle.std.specs.Prelude.{OnOk};
ghost use Rattle.rr_turn.specs.Looks.{RestsIf, Turned};

use crate::chase::Chase;
use crate::links::Links;
use crate::locked::Locked;
use crate::looking::look;
use crate::ticking::{Clockwork, tick_next};
use crate::ticks::Ticks;
use rr_types::Refusal;
use std::sync::{Mutex, Wait};

// Behind a look that found nothing the thread rests, until a tick is due at most.
fn rest_unless<L: Links>(links: &mut L, has: bool, ticks: &Ticks) -> Result<(), Refusal>
    ensures { OnOk result (RestsIf L.gives has ticks.now links.old links.new) }
{
    if has {
        links.go_on();
        return Ok(());
    }
    let now = links.read_clock()?;
    links.rest(ticks.until(now));
    Ok(())
}

/// A turn of a node's loop: a look at what there is to do, and a rest where there was nothing. Then the node ticks if it is time to,
/// whether there was something or not. At most `batch` messages are sent and heard by the look, and `room` where a client submits and at
/// a tick.
///
/// # Errors
/// Those of `look` and `tick_next`, and `Device` where the clock can't be read.
pub fn turn<L: Links, R: Wait>(
    rt: &R,
    order: &Mutex<()>,
    node: &Mutex<Locked>,
    chase: &mut Chase,
    links: &mut L,
    clockwork: &mut Clockwork,
    batch: usize,
    room: usize,
) -> Result<(), Refusal>
    ensures { OnOk result (Turned L.gives batch room chase.old clockwork.old.ticks clockwork.old.standstill links.old chase.new clockwork.new.ticks clockwork.new.standstill links.new) }
{
    let has = look(rt, order, node, chase, links, batch, room)?;
    rest_unless(links, has, &clockwork.ticks)?;
    let now = links.read_clock()?;
    tick_next(rt, now, node, chase, links, clockwork, room)
}
