//! Reading bytes from left to right.

ghost use Rattle.std.specs.Prelude.{◌≡◌, ◌<◌, ◌≤◌, length, take, drop, IfOk, IfErr};
ghost use Rattle.rr_frame.specs.Reading.{Gives, number_at};
ghost use Rattle.rr_frame.specs.FactFormat.{instance_at, round_at};

use crate::stop::Fault;
use crate::version::Version;
use byteorder::{BigEndian, ByteOrder};
use rr_types::{Instance, Round};
use std::marker::Model;

/// Bytes that are read from left to right. A contract sees it as the bytes that are left. After a fault
/// it may stand anywhere.
#[derive(Debug, Drop)]
pub struct Reader<'a> {
    rest: &'a [u8],
}

impl<'a> Model for Reader<'a> {
    ghost use Rattle.std.specs.Prelude.{ℕ, List};

    ghost Value = { List ℕ };

    ghost view = { λ r. r.rest.now };
}

impl<'a> Reader<'a> {
    /// A reader before the first of these bytes.
    pub fn new(bytes: &'a [u8]) -> Reader<'a>
        ensures { result ≡ bytes.now }
    {
        Reader { rest: bytes }
    }

    /// How many bytes are left.
    pub fn left(&self) -> usize
        ensures { result ≡ length self.now }
    {
        self.rest.len()
    }

    /// The fault of the field that comes next.
    pub fn fault(&self) -> Fault
        ensures { result.left ≡ length self.now }
    {
        Fault {
            left: self.rest.len(),
        }
    }

    /// The next bytes, as many as count says.
    pub fn take(&mut self, count: usize) -> Result<&'a [u8], Fault>
        ensures ok { IfOk result (λ t. (count ≤ length self.old) × (t.now ≡ take count self.old) × (self.new ≡ drop count self.old)) }
        ensures err { IfErr result (λ f. (length self.old < count) × (f.left ≡ length self.old)) }
    {
        let rest = self.rest;
        if rest.len() < count {
            return Err(self.fault());
        }
        let (front, behind) = rest.split_at(count);
        self.rest = behind;
        Ok(front)
    }

    /// A number of one byte.
    #[tactic(auto, unfolding(crate::specs::Reading::number_at, crate::specs::Numbers::number_in))]
    pub fn u8(&mut self) -> Result<u8, Fault>
        ensures { Gives result self.new (number_at 1 self.old) }
    {
        let rest = self.rest;
        if rest.is_empty() {
            return Err(self.fault());
        }
        self.rest = &rest[1..];
        Ok(rest[0])
    }

    /// A number of two bytes.
    #[tactic(auto, unfolding(crate::specs::Reading::number_at, crate::specs::Numbers::number_in))]
    pub fn u16(&mut self) -> Result<u16, Fault>
        ensures { Gives result self.new (number_at 2 self.old) }
    {
        let rest = self.rest;
        if rest.len() < 2 {
            return Err(self.fault());
        }
        self.rest = &rest[2..];
        Ok(BigEndian::read_u16(rest))
    }

    /// A number of four bytes.
    #[tactic(auto, unfolding(crate::specs::Reading::number_at, crate::specs::Numbers::number_in))]
    pub fn u32(&mut self) -> Result<u32, Fault>
        ensures { Gives result self.new (number_at 4 self.old) }
    {
        let rest = self.rest;
        if rest.len() < 4 {
            return Err(self.fault());
        }
        self.rest = &rest[4..];
        Ok(BigEndian::read_u32(rest))
    }

    /// A number of eight bytes.
    #[tactic(auto, unfolding(crate::specs::Reading::number_at, crate::specs::Numbers::number_in))]
    pub fn u64(&mut self) -> Result<u64, Fault>
        ensures { Gives result self.new (number_at 8 self.old) }
    {
        let rest = self.rest;
        if rest.len() < 8 {
            return Err(self.fault());
        }
        self.rest = &rest[8..];
        Ok(BigEndian::read_u64(rest))
    }

    /// An instance of a version.
    #[tactic(auto, unfolding(crate::specs::FactFormat::instance_at))]
    pub fn instance(&mut self, version: Version) -> Result<Instance, Fault>
        ensures { Gives result self.new (instance_at version self.old) }
    {
        let here = self.fault();
        let number = self.u32()?;
        if number >= version.instances() {
            return Err(here);
        }
        Instance::new(number).ok_or(here)
    }

    /// A round.
    #[tactic(auto, unfolding(crate::specs::FactFormat::round_at))]
    pub fn round(&mut self) -> Result<Round, Fault>
        ensures { Gives result self.new (round_at self.old) }
    {
        let here = self.fault();
        let number = self.u32()?;
        Round::new(number).ok_or(here)
    }
}
