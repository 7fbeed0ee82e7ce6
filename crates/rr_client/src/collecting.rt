//! Guests get their seats, and come back.

ghost use Rattle.std.specs.Prelude.{◌≡◌, ◌≤◌, true, false, is_err, [], length, All, IfOk, IfErr, IfSome, Some, None};
ghost use Rattle.rr_client.specs.FreshNumbers.{least_free};
ghost use Rattle.rr_client.specs.Seating.{HasOwnNumbers, IsCalledOff, is_left_out, left_out_in};

use crate::error::ClusterError;
use crate::guest::{Place, Returned};
use crate::host::{Host, Standing};
use crate::numbers::block_from;
use crate::promises::least_free;
use crate::seated::{Coming, Resting, Seated, Slot};
use rr_folders::{Block, Reasons};
use rr_types::{NodeId, NodeSet, Nodes, Promise, Refusal};
use std::alloc::Global;
use std::rt::Files;
use std::sync::{Mutex, Wait};

/// A slot for each of so many guests.
pub(crate) fn open_slots<G: Drop>(alloc: Global, count: usize) -> Result<Vec<Slot<G>>, ClusterError>
    ensures { IfOk result (λ slots. length slots.items ≡ count) }
{
    let mut slots = Vec::new(alloc);
    'slots: for _ in 0..count {
        slots.push(Mutex::new(None))?;
    }
    Ok(slots)
}

// A row of guests for each node.
fn open_rows<C: Drop>(alloc: Global, nodes: Nodes) -> Result<Vec<Vec<C>>, ClusterError>
    ensures count { IfOk result (λ rows. length rows.items ≡ nodes) }
    ensures empty { IfOk result (λ rows. All (λ row. row.items ≡ []) rows.items) }
{
    let mut rows = Vec::new(alloc);
    'rows: for _ in 0..nodes.count() {
        rows.push(Vec::new(alloc))?;
    }
    Ok(rows)
}

// Request numbers above all that the promises name as this client's.
fn own_numbers<R: Files + AllocGlobal>(
    rt: &R,
    dir: &str,
    promises: &[Promise],
    client: u32,
) -> Result<Block, ClusterError>
    ensures { IfOk result (λ numbers. least_free client promises.now ≤ numbers.next) }
{
    let Some(least) = least_free(client, promises) else {
        let refusal = Refusal::TooLarge;
        return Err(ClusterError::Numbers { refusal });
    };
    block_from(rt, dir, least)
}

// A guest that comes to its node first, with request numbers of its client.
fn coming_first<G: Drop, R: Files + AllocGlobal>(
    rt: &R,
    dir: &str,
    promises: &[Promise],
    client: u32,
    guest: G,
) -> Result<Coming<G>, ClusterError>
    ensures own { IfOk result (λ coming. HasOwnNumbers promises.now (Some coming)) }
    ensures same { IfOk result (λ coming. (coming.guest ≡ guest) × (coming.client ≡ client) × (coming.unanswered ≡ None)) }
{
    let numbers = own_numbers(rt, dir, promises, client)?;
    Ok(Coming {
        guest,
        client,
        numbers,
        unanswered: None,
    })
}

// Whether a node is left out.
fn is_left_out(without: NodeSet, node: u8) -> bool
    ensures { result ≡ is_left_out without node }
{
    match NodeId::at(node) {
        Some(node) => without.contains(node),
        None => false,
    }
}

/// The node that is left out and that a guest asks, the first of them.
pub(crate) fn left_out_in<G>(without: NodeSet, places: &[Place<G>]) -> Option<u8>
    ensures { result ≡ left_out_in without places.now }
{
    match places {
        [] => None,
        [first, rest @ ..] => {
            if is_left_out(without, first.node) {
                Some(first.node)
            } else {
                left_out_in(without, rest)
            }
        }
    }
}

/// The guests at their nodes, each with a slot and with request numbers above all that the promises name as its client's.
///
/// # Errors
/// `NoNode`, `Numbers`, `OutOfMemory`.
pub(crate) fn seat_all<'x, G: Drop, R: Files + AllocGlobal>(
    host: &'x Host<'x, R>,
    dir: &str,
    looks: u32,
    promises: &[Promise],
    slots: &'x [Slot<G>],
    places: Vec<Place<G>>,
) -> Result<Vec<Vec<Seated<'x, G, R>>>, ClusterError>
    ensures rows { IfOk result (λ rows. length rows.items ≡ host.now.nodes) }
    ensures own { IfOk result (λ rows. All (λ row. All (λ s. HasOwnNumbers promises.now s.coming) row.items) rows.items) }
{
    let rt = host.rt();
    let nodes = host.nodes();
    let mut rows = open_rows(rt.alloc(), nodes)?;
    'places: for (place, slot) in places.into_iter().zip(slots) {
        let Place {
            node,
            client,
            guest,
        } = place;
        let coming = coming_first(rt, dir, promises, client, guest)?;
        let Some(row) = rows.get_mut(usize::from(node)) else {
            let last = nodes.count() - 1;
            return Err(ClusterError::NoNode { node, last });
        };
        row.push(Seated {
            host,
            looks,
            slot,
            coming: Some(coming),
        })?;
    }
    Ok(rows)
}

// Why a guest wasn't done: its node had failed, or was down.
fn called_off<R: AllocGlobal + Wait>(
    host: &Host<'_, R>,
    reasons: &Reasons,
    node: NodeId,
) -> ClusterError
    ensures { IsCalledOff node result }
{
    let Standing::Failed(refusal) = host.standing(node) else {
        return ClusterError::Over;
    };
    match reasons.text(host.rt().alloc(), node) {
        Ok(reason) => ClusterError::Node {
            node,
            refusal,
            reason,
        },
        Err(_) => ClusterError::OutOfMemory,
    }
}

// A guest that is back, with what it gave where it is done.
fn back_from<G: Drop, R: AllocGlobal + Wait>(
    host: &Host<'_, R>,
    reasons: &Reasons,
    resting: Resting<G>,
) -> Returned<G>
    ensures guest { result.guest ≡ resting.coming.guest }
    ensures done { resting.is_done ≡ true → result.told ≡ resting.told }
    ensures called_off { resting.is_done ≡ false → IfErr result.told (IsCalledOff resting.node) }
    ensures undone { resting.is_done ≡ false → is_err result.told ≡ true }
{
    let Resting {
        node,
        coming,
        told,
        is_done,
    } = resting;
    let Coming {
        guest,
        client: _,
        numbers: _numbers,
        unanswered: _,
    } = coming;
    let told = if is_done {
        told
    } else {
        Err(called_off(host, reasons, node))
    };
    Returned { guest, told }
}

/// The guests that lie in these slots, in their order.
///
/// # Errors
/// `Over`, where one is missing. `OutOfMemory`.
pub(crate) fn collect_all<G: Drop, R: AllocGlobal + Wait>(
    host: &Host<'_, R>,
    reasons: &Reasons,
    slots: Vec<Slot<G>>,
) -> Result<Vec<Returned<G>>, ClusterError>
    ensures { IfOk result (λ guests. length guests.items ≡ length slots.items) }
{
    let mut guests = Vec::new(host.rt().alloc());
    'slots: for slot in slots {
        let Some(resting) = slot.into_inner() else {
            return Err(ClusterError::Over);
        };
        guests.push(back_from(host, reasons, resting))?;
    }
    Ok(guests)
}
