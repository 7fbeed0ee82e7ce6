//! What a node of a host does: it is down, it opens, or it is up.

ghost use Rattle.std.specs.Prelude.{◌≡◌, None, Some, IsSome, IfOk, MatchOption};
ghost use Rattle.rr_host.specs.Doings.{written_in, IsOf};

use crate::disk::{HostDisk, Written};
use crate::up::Up;
use rr_core::Opening;
use rr_journal::Stepped;
use rr_types::Refusal;
use std::alloc::Global;

/// What a node does. It can't be dropped: what runs is given up.
pub enum Doing {
    Down,
    Opening(Opening<HostDisk>),
    Up(Up),
}

/// The device calls of an opening between two writes, and one more: none has as many.
const CALLS: usize = 16;

impl Doing {
    /// What runs is given up.
    pub fn give_up(self) {
        match self {
            Doing::Down => (),
            Doing::Opening(opening) => drop(opening.into_disk()),
            Doing::Up(up) => up.give_up(),
        }
    }

    /// The write that the host is asked for.
    pub fn written(&self) -> Option<&Written>
        ensures { MatchOption result (written_in self.now ≡ None) (λ w. written_in self.now ≡ Some w.now) }
    {
        match self {
            Doing::Down => None,
            Doing::Opening(opening) => opening.disk().written(),
            Doing::Up(up) => up.written(),
        }
    }
}

/// An opening goes on up to its next write, or to its end: then the node is up.
///
/// # Errors
/// `OutOfMemory`; `Device`; `Damaged`, of a disk that holds no facts; `TooLarge`, where an area of version 1 has no next epoch.
pub fn open_on(alloc: Global, opening: Opening<HostDisk>) -> Result<Doing, Refusal>
    ensures { IfOk result (λ doing. IsOf opening.nodes opening.node doing) }
{
    let mut left = opening;
    for _ in 0..CALLS {
        match left.step_on(alloc) {
            Ok(Stepped::More) => {
                if left.disk().written().is_some() {
                    return Ok(Doing::Opening(left));
                }
            }
            Ok(Stepped::Ended) => return close(alloc, left),
            Err(refusal) => {
                drop(left.into_disk());
                return Err(refusal);
            }
        }
    }
    drop(left.into_disk());
    Err(Refusal::Failed)
}

/// An opening ends, which has found its end.
fn close(alloc: Global, opening: Opening<HostDisk>) -> Result<Doing, Refusal>
    requires { IsSome opening.end }
    ensures { IfOk result (λ doing. IsOf opening.nodes opening.node doing) }
{
    match opening.close(alloc) {
        Ok((core, journal)) => Ok(Doing::Up(Up::new(core, journal))),
        Err((refusal, disk)) => {
            drop(disk);
            Err(refusal)
        }
    }
}
