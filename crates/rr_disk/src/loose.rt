//! Which bytes of an area in memory are loose.

ghost use Rattle.std.specs.Prelude.{◌≡◌, ℕ, ◌+◌, ◌*◌, ◌<◌, ◌≤◌, ◌⊎◌, Bool, true, false, [], length, IfOk, OnOk, OnErr, vec_len};
ghost use Rattle.rr_disk.specs.Strips.{IsRanged, bit_of, is_loose};

use std::alloc::{AllocError, Global};

/// What is loose: a range, without its gaps. Mostly it has none. Only a write apart from the others of this sync
/// makes some, and then each byte of the range has a bit. Bits are made as the area grows, so that no later write
/// has to find memory for them.
#[derive(Debug, Drop)]
pub struct Loose {
    low: usize,
    high: usize,
    gaps: bool,
    bits: Vec<u8>,
}

/// How many bytes of bits are made beyond those that are needed.
const MORE: usize = 64;

impl Loose {
    /// Nothing is loose.
    pub fn new(alloc: Global) -> Loose
        ensures ranged { IsRanged result }
        ensures none { (k : ℕ) → is_loose result k ≡ false }
        ensures high { result.high ≡ 0 }
    {
        Loose {
            low: 0,
            high: 0,
            gaps: false,
            bits: Vec::new(alloc),
        }
    }

    /// A copy of it.
    pub fn copied(&self, alloc: Global) -> Result<Loose, AllocError>
        ensures same { IfOk result (λ copy. (k : ℕ) → is_loose copy k ≡ is_loose self.now k) }
        ensures parts { IfOk result (λ copy. (copy.low ≡ self.now.low) × (copy.high ≡ self.now.high) × (copy.bits.items ≡ self.now.bits.items)) }
    {
        Ok(Loose {
            low: self.low,
            high: self.high,
            gaps: self.gaps,
            bits: Vec::from_slice(alloc, &self.bits)?,
        })
    }

    /// Whether the byte at a place is loose.
    pub fn has(&self, k: usize) -> bool
        requires { IsRanged self.now }
        ensures { result ≡ is_loose self.now k }
    {
        self.low <= k && k < self.high && (!self.gaps || bit(&self.bits, k))
    }

    /// Where what is loose begins.
    pub fn low(&self) -> usize
        ensures { result ≡ self.now.low }
    {
        self.low
    }

    /// Where what is loose ends.
    pub fn high(&self) -> usize
        ensures { result ≡ self.now.high }
    {
        self.high
    }

    /// Makes bits for an area of this length. Where memory is refused, nothing changes, and there were fewer.
    pub fn make_room(&mut self, len: usize) -> Result<(), AllocError>
        requires { IsRanged self.old }
        ensures room { OnOk result (len ≤ 8 * length self.new.bits.items) }
        ensures err { OnErr result (8 * length self.old.bits.items < len) }
        ensures ranged { IsRanged self.new }
        ensures more { length self.old.bits.items ≤ length self.new.bits.items }
        ensures high { self.new.high ≡ self.old.high }
        ensures same { (k : ℕ) → is_loose self.new k ≡ is_loose self.old k }
    {
        let whole = len / 8;
        let needed = if len % 8 == 0 { whole } else { whole + 1 };
        if self.bits.len() < needed {
            self.bits.resize(needed + MORE, 0)?;
        }
        Ok(())
    }

    /// Makes a range loose.
    pub fn spread(&mut self, from: usize, to: usize)
        requires ranged { IsRanged self.old }
        requires order { from ≤ to }
        requires room { to ≤ 8 * length self.old.bits.items }
        ensures ranged { IsRanged self.new }
        ensures inside { (k : ℕ) → from ≤ k → k < to → is_loose self.new k ≡ true }
        ensures outside { (k : ℕ) → (k < from) ⊎ (to ≤ k) → is_loose self.new k ≡ is_loose self.old k }
        ensures high { (self.new.high ≡ self.old.high) ⊎ (self.new.high ≡ to) }
        ensures bits { length self.new.bits.items ≡ length self.old.bits.items }
    {
        if from == to {
            return;
        }
        if self.low == self.high {
            self.low = from;
            self.high = to;
            self.gaps = false;
        } else if !self.gaps && from <= self.high && self.low <= to {
            self.low = self.low.min(from);
            self.high = self.high.max(to);
        } else {
            self.spread_apart(from, to);
        }
    }

    // The same where the range may have gaps then.
    fn spread_apart(&mut self, from: usize, to: usize)
        requires ranged { IsRanged self.old }
        requires order { from < to }
        requires some { self.old.low < self.old.high }
        requires room { to ≤ 8 * length self.old.bits.items }
        ensures ranged { IsRanged self.new }
        ensures inside { (k : ℕ) → from ≤ k → k < to → is_loose self.new k ≡ true }
        ensures outside { (k : ℕ) → (k < from) ⊎ (to ≤ k) → is_loose self.new k ≡ is_loose self.old k }
        ensures high { (self.new.high ≡ self.old.high) ⊎ (self.new.high ≡ to) }
        ensures bits { length self.new.bits.items ≡ length self.old.bits.items }
    {
        if !self.gaps {
            put_bits(&mut self.bits, self.low, self.high, true);
            self.gaps = true;
        }
        put_bits(&mut self.bits, self.high, from, false);
        put_bits(&mut self.bits, to, self.low, false);
        put_bits(&mut self.bits, from, to, true);
        self.low = self.low.min(from);
        self.high = self.high.max(to);
    }

    /// Makes nothing loose.
    pub fn clear(&mut self)
        ensures ranged { IsRanged self.new }
        ensures none { (k : ℕ) → is_loose self.new k ≡ false }
        ensures high { self.new.high ≡ 0 }
        ensures bits { self.new.bits ≡ self.old.bits }
    {
        self.low = 0;
        self.high = 0;
        self.gaps = false;
    }
}

// The bit with this number.
fn bit(bits: &Vec<u8>, k: usize) -> bool
    requires { k < 8 * vec_len bits.now }
    ensures { result ≡ bit_of bits.now.items k }
{
    (bits[k / 8] >> (k % 8)) & 1 == 1
}

// Sets or clears the bits from one number on and below another.
fn put_bits(bits: &mut Vec<u8>, from: usize, to: usize, on: bool)
    requires { to ≤ 8 * vec_len bits.old }
    ensures inside { (k : ℕ) → from ≤ k → k < to → bit_of bits.new.items k ≡ on }
    ensures outside { (k : ℕ) → (k < from) ⊎ (to ≤ k) → bit_of bits.new.items k ≡ bit_of bits.old.items k }
    ensures len { vec_len bits.new ≡ vec_len bits.old }
{
    for k in from..to {
        put_bit(bits, k, on);
    }
}

// Sets or clears the bit with this number.
fn put_bit(bits: &mut Vec<u8>, k: usize, on: bool)
    requires { k < 8 * vec_len bits.old }
    ensures here { bit_of bits.new.items k ≡ on }
    ensures elsewhere { (j : ℕ) → (j < k) ⊎ (k < j) → bit_of bits.new.items j ≡ bit_of bits.old.items j }
    ensures len { vec_len bits.new ≡ vec_len bits.old }
{
    let byte = bits[k / 8];
    let mask = 1u8 << (k % 8);
    bits[k / 8] = if on { byte | mask } else { byte & !mask };
}
