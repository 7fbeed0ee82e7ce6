//! A look at what there is to do.

ghost use Rattle.std.specs.Prelude.{IfOk};
ghost use Rattle.rr_turn.specs.Looks.{Looked};

use crate::chase::Chase;
use crate::handing::{flush_next, mark_next};
use crate::hearing::hear_next;
use crate::links::Links;
use crate::locked::Locked;
use crate::sending::send_all;
use crate::submitting::submit_next;
use rr_types::Refusal;
use std::sync::{Mutex, Wait};

/// A look at what there is to do: marks what is flushed, submits what clients want, sends messages, hears messages, flushes
/// what is staged. In this order a group that comes back leaves in one look: what it backs is sent, and what was staged
/// meanwhile is flushed. At most `batch` messages are sent and heard, and `room` where a client submits. Answers whether there
/// was something.
///
/// # Errors
/// Those of the node, of a flush that failed, and of a tape that has no place. Then nothing is said of what was done.
pub fn look<L: Links, R: Wait>(
    rt: &R,
    order: &Mutex<()>,
    node: &Mutex<Locked>,
    chase: &mut Chase,
    links: &mut L,
    batch: usize,
    room: usize,
) -> Result<bool, Refusal>
    ensures { IfOk result (λ has. Looked L.gives batch room has chase.old links.old chase.new links.new) }
{
    let has_marked = mark_next(rt, node, links)?;
    let has_submitted = submit_next(rt, order, node, chase, links, room)?;
    let has_sent = send_all(rt, node, chase, links, batch)?;
    let has_heard = hear_next(rt, node, chase, links, batch)?;
    let has_staged = flush_next(rt, node, links)?;
    Ok(has_marked | has_submitted | has_sent | has_heard | has_staged)
}
