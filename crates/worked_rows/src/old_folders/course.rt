//! An opening, call by call.

use super::seat::Seat;
use rr_core::{Opening, Progress};
use rr_disk::MemDisk;
use rr_types::Refusal;
use std::alloc::Global;

/// An opening under way, or the disk after its last device call.
#[derive(Drop)]
pub enum Course {
    Opening(Opening<MemDisk>),
    Opened(MemDisk),
}

impl Course {
    /// Before its first device call.
    pub fn start(seat: Seat, disk: MemDisk) -> Course {
        Course::Opening(Opening::start(seat.nodes, seat.node, disk))
    }

    /// Makes the next device call, if one is due.
    ///
    /// # Errors
    /// Those of an opening.
    pub fn step(self, alloc: Global) -> Result<Course, Refusal> {
        match self {
            Course::Opened(disk) => Ok(Course::Opened(disk)),
            Course::Opening(opening) => match opening.step(alloc) {
                Ok(Progress::More(opening)) => Ok(Course::Opening(opening)),
                Ok(Progress::Done(_, journal)) => Ok(Course::Opened(journal.into_disk())),
                Err((refusal, _)) => Err(refusal),
            },
        }
    }

    /// The disk as it is between two calls.
    pub fn disk(&self) -> &MemDisk {
        match self {
            Course::Opening(opening) => opening.disk(),
            Course::Opened(disk) => disk,
        }
    }

    /// Whether no device call is due any more.
    pub fn has_ended(&self) -> bool {
        matches!(self, Course::Opened(_))
    }
}
