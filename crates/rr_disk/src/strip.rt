//! One area in memory: its bytes, and which of them are loose.

ghost use Rattle.std.specs.Prelude.{◌≡◌, ℕ, ◌+◌, ◌*◌, ◌<◌, ◌≤◌, ◌^◌, [], length, take, IfOk, IfErr, OnOk, OnErr, vec_len, vec_capacity};
ghost use Rattle.rr_types.specs.declared.refusal.Refusal.TheVariants.{Device};
ghost use Rattle.rr_disk.specs.Areas.{Torn, at_rest, bytes_of, read_of, written, loosened, settled};
ghost use Rattle.rr_disk.specs.Crash.{MayLeave, clamped, left_of, loose_count};
ghost use Rattle.rr_disk.specs.Strips.{IsRanged, is_loose};

use crate::cells::{behind, fill_within, front, write_over};
use crate::loose::Loose;
use rr_types::Refusal;
use std::alloc::{AllocError, Global};
use std::marker::Model;

/// An area in memory.
#[derive(Debug, Drop)]
pub struct Strip {
    bytes: Vec<u8>,
    safe: usize,
    loose: Loose,
}

impl Model for Strip {
    ghost use Rattle.rr_disk.specs.Areas.{Extent};
    ghost use Rattle.rr_disk.specs.Strips.{IsStrip, cells_from, is_loose};

    ghost Value = { Extent };

    ghost view = { λ s. record { cells = cells_from (is_loose s.loose) 0 s.bytes.items; safe = s.safe } };

    ghost invariant = { λ s. IsStrip s.bytes.items s.safe s.loose };
}

impl Strip {
    /// An empty area.
    pub fn new(alloc: Global) -> Strip
        ensures { result ≡ at_rest [] }
    {
        Strip {
            bytes: Vec::new(alloc),
            safe: 0,
            loose: Loose::new(alloc),
        }
    }

    /// A copy of it, with what is loose.
    pub fn copied(&self, alloc: Global) -> Result<Strip, AllocError>
        ensures { IfOk result (λ copy. copy ≡ self.now) }
    {
        Ok(Strip {
            bytes: Vec::from_slice(alloc, &self.bytes)?,
            safe: self.safe,
            loose: self.loose.copied(alloc)?,
        })
    }

    /// An area with these bytes, nothing loose and all of it safe.
    ///
    /// # Errors
    /// Where memory runs out.
    pub fn with_bytes(alloc: Global, bytes: &[u8]) -> Result<Strip, AllocError>
        ensures { IfOk result (λ s. s ≡ at_rest bytes.now) }
    {
        let mut strip = Strip::new(alloc);
        match strip.write(0, bytes) {
            Ok(()) => {
                strip.settle();
                Ok(strip)
            }
            Err(_) => Err(AllocError),
        }
    }

    /// How many bytes it has.
    pub fn len(&self) -> u64
        ensures { result ≡ length self.now.cells }
    {
        self.bytes.len() as u64
    }

    /// A law of it, and nothing else: its bytes as they stand are among what a crash may leave.
    pub fn may_stand(&self)
        ensures { MayLeave self.now (bytes_of self.now) }
    {
        // the proof has what a strip keeps of itself where a field is read
        let _safe = self.safe;
    }

    /// The bytes from an offset on, as many as are asked for or as there are.
    pub fn read(&self, alloc: Global, at: u64, count: u64) -> Result<Vec<u8>, AllocError>
        ensures { IfOk result (λ v. v.items ≡ read_of at count self.now) }
    {
        Vec::from_slice(alloc, front(behind(&self.bytes, at), count))
    }

    /// Writes over what is there and past the end; the range is loose. A write that starts past the end, or
    /// that finds no memory, changes no byte and no length, and what there is of its range is loose.
    pub fn write(&mut self, at: u64, bytes: &[u8]) -> Result<(), Refusal>
        ensures ok { OnOk result ((at ≤ length self.old.cells) × (self.new ≡ written at bytes.now self.old)) }
        ensures err { OnErr result ((length self.old.cells < at + length bytes.now) × (self.new ≡ loosened at (length bytes.now) self.old)) }
        ensures torn { OnErr result (Torn at (length bytes.now) self.old self.new) }
        ensures fits { OnOk result (at + length bytes.now < 2 ^ 64) }
        ensures device { IfErr result (λ e. e ≡ Device) }
    {
        let len = self.bytes.len();
        if at > len as u64 {
            return Err(Refusal::Device);
        }
        let at = at as usize;
        let growth = bytes.len().saturating_sub(len - at);
        if make_room(&mut self.bytes, &mut self.loose, growth).is_err() {
            self.loose.spread(at, len);
            return Err(Refusal::Device);
        }
        self.loose.spread(at, at + bytes.len());
        write_over(&mut self.bytes, at, bytes);
        Ok(())
    }

    /// Makes nothing loose, and all of it safe.
    pub fn settle(&mut self)
        ensures { self.new ≡ settled self.old }
    {
        self.loose.clear();
        self.safe = self.bytes.len();
    }

    /// Cuts it to a length, brought into the range from the safe to the present one. The loose cells that are
    /// left get the bytes of the fill in turn, from the byte with number `skip` on. With an empty fill they
    /// keep their own. Answers how many these are.
    pub fn crash(&mut self, cut: u64, fill: &[u8], skip: u64) -> u64
        ensures image { self.new ≡ at_rest (left_of fill.now skip (take (clamped cut self.old) self.old.cells)) }
        ensures count { result ≡ loose_count (take (clamped cut self.old) self.old.cells) }
        ensures among { MayLeave self.old (left_of fill.now skip (take (clamped cut self.old) self.old.cells)) }
    {
        let keep = cut.min(self.bytes.len() as u64).max(self.safe as u64) as usize;
        self.bytes.truncate(keep);
        let count = fill_within(&mut self.bytes, &self.loose, fill, skip);
        self.loose.clear();
        self.safe = keep;
        count
    }
}

// Makes room for so many more bytes and for their bits. It fails only if there are any, and changes none.
fn make_room(bytes: &mut Vec<u8>, loose: &mut Loose, growth: usize) -> Result<(), AllocError>
    requires ranged { IsRanged loose.old }
    requires bits { length bytes.old.items ≤ 8 * length loose.old.bits.items }
    ensures room { OnOk result (vec_len bytes.old + growth ≤ vec_capacity bytes.new) }
    ensures ok { OnOk result (vec_len bytes.old + growth ≤ 8 * length loose.new.bits.items) }
    ensures err { OnErr result (0 < growth) }
    ensures items { bytes.new.items ≡ bytes.old.items }
    ensures ranged { IsRanged loose.new }
    ensures more { length loose.old.bits.items ≤ length loose.new.bits.items }
    ensures high { loose.new.high ≡ loose.old.high }
    ensures same { (k : ℕ) → is_loose loose.new k ≡ is_loose loose.old k }
{
    bytes.reserve(growth)?;
    loose.make_room(bytes.len() + growth)
}
