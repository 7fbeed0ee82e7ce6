//! How far an area of a disk came, as its bytes are written or read.

use crate::cluster::{Course, Digest, Reached};
use rr_disk::Area;
use sha2::{Digest as _, Sha256};
use std::alloc::AllocError;

/// A gate that is open.
pub(crate) const OPEN: u8 = 0xA5;

/// How many bytes of an area are looked at at a time.
const HEAD: usize = 16;

/// How far an area came: the version and the epoch of its snapshot, the place of its last gate, and what came before that.
#[derive(Drop)]
pub(crate) struct Tip {
    pub(crate) area: Area,
    pub(crate) version: u8,
    pub(crate) epoch: u64,
    pub(crate) gate: u64,
    hasher: Sha256,
}

// The 64 bits of a digest from a byte on.
fn word(digest: &[u8; 32], at: usize) -> u64 {
    let mut number = 0u64;
    for byte in digest.iter().skip(at).take(8) {
        number = (number << 8) | u64::from(*byte);
    }
    number
}

/// The digest of what a hasher has taken.
pub(crate) fn digest_of(hasher: Sha256) -> Digest {
    let digest = hasher.finalize();
    Digest {
        first: word(&digest, 0),
        second: word(&digest, 8),
        third: word(&digest, 16),
        fourth: word(&digest, 24),
    }
}

/// The course of a node that switches to no other area.
pub(crate) fn settled(reached: Reached) -> Course {
    Course {
        from: reached,
        to: reached,
    }
}

// The version and the epoch that an area of these first bytes has, if it is formatted.
fn heading(bytes: &[u8]) -> Option<(u8, u64)> {
    match bytes {
        [OPEN, _, _, _, _, version, _, _, a, b, c, d, e, f, g, h, ..] => {
            let epoch = u64::from_be_bytes([*a, *b, *c, *d, *e, *f, *g, *h]);
            Some((*version, epoch))
        }
        _ => None,
    }
}

// Where the frame ends whose open gate stands here: the place of the next gate. None: it isn't whole.
fn frame_end(bytes: &[u8], gate: usize) -> Option<usize> {
    match bytes.get(gate..) {
        Some([OPEN, a, b, c, d, ..]) => {
            let payload = u32::from_be_bytes([*a, *b, *c, *d]);
            let end = gate.checked_add(5)?.checked_add(payload as usize)?;
            if end < bytes.len() { Some(end) } else { None }
        }
        _ => None,
    }
}

impl Tip {
    /// At a gate of an area, behind bytes that were taken.
    pub(crate) fn new(area: Area, version: u8, epoch: u64, gate: u64, hasher: Sha256) -> Tip {
        Tip {
            area,
            version,
            epoch,
            gate,
            hasher,
        }
    }

    // A copy of it.
    fn copied(&self) -> Result<Tip, AllocError> {
        Ok(Tip {
            area: self.area,
            version: self.version,
            epoch: self.epoch,
            gate: self.gate,
            hasher: self.hasher.clone()?,
        })
    }

    /// How far the area came.
    pub(crate) fn reached(&self) -> Result<Reached, AllocError> {
        Ok(Reached {
            epoch: self.epoch,
            length: self.gate,
            digest: digest_of(self.hasher.clone()?),
        })
    }

    /// Of an area behind whose first gate this is written: the frame of a snapshot and its next gate.
    pub(crate) fn of_body(area: Area, body: &[u8]) -> Option<Tip> {
        let [frame @ .., _] = body else {
            return None;
        };
        let mut head = [OPEN; HEAD];
        for (place, byte) in head.iter_mut().skip(1).zip(frame.iter()) {
            *place = *byte;
        }
        let (version, epoch) = heading(&head)?;
        let mut hasher = Sha256::new();
        hasher.update(&[OPEN]);
        hasher.update(frame);
        Some(Tip::new(area, version, epoch, body.len() as u64, hasher))
    }

    /// Of an area behind whose last gate this is written too: the frame of a group and its next gate.
    pub(crate) fn behind(&self, written: &[u8]) -> Option<Tip> {
        let [frame @ .., _] = written else {
            return None;
        };
        let mut tip = self.copied().ok()?;
        tip.hasher.update(&[OPEN]);
        tip.hasher.update(frame);
        tip.gate = tip.gate.checked_add(written.len() as u64)?;
        Some(tip)
    }

    // Goes on over the frames from its gate on.
    fn go_on(&mut self, bytes: &[u8]) {
        let mut gate = self.gate as usize;
        for _ in 0..bytes.len() {
            let Some(end) = frame_end(bytes, gate) else {
                break;
            };
            if let Some(frame) = bytes.get(gate..end) {
                self.hasher.update(frame);
            }
            gate = end;
        }
        self.gate = gate as u64;
    }

    /// Of an area of these bytes. None: it isn't formatted. What is known of it already isn't looked at again.
    pub(crate) fn found(area: Area, bytes: &[u8], known: &Option<Tip>) -> Option<Tip> {
        let (version, epoch) = heading(bytes)?;
        let mut tip = match known {
            Some(tip) if tip.area == area && tip.epoch == epoch && tip.gate < bytes.len() as u64 =>
                { tip.copied().ok()? }
            _ => Tip::new(area, version, epoch, 0, Sha256::new()),
        };
        tip.version = version;
        tip.go_on(bytes);
        Some(tip)
    }
}
