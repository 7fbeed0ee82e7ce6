//! The versions of the bytes.

ghost use Rattle.std.specs.Prelude.{◌≡◌, ◌≤◌, length};
ghost use Rattle.rr_types.specs.Commands.{op_kinds};
ghost use Rattle.rr_frame.specs.Reading.{Gives};
ghost use Rattle.rr_frame.specs.Versions.{version_number, longest_name, instances, operations, version_at};

use crate::reader::Reader;
use crate::stop::Fault;

/// A version of the bytes on a disk and of messages. Both have the same fields, and differ in what these may hold.
/// Either is read, and version 2 is written.
#[derive(Clone, Copy, Debug, PartialEq, Eq)]
pub enum Version {
    /// Names of at most 32 bytes, instances below 65,536, and no transfer.
    One,
    /// Names of at most 64 bytes, instances below 1,048,576, and transfer.
    Two,
}

impl Version {
    /// Its byte.
    pub fn number(self) -> u8
        ensures { result ≡ version_number self }
    {
        match self {
            Version::One => 1,
            Version::Two => 2,
        }
    }

    // The most bytes of a name.
    pub(crate) fn longest_name(self) -> usize
        ensures value { result ≡ longest_name self }
        ensures range { result ≤ 64 }
    {
        match self {
            Version::One => 32,
            Version::Two => 64,
        }
    }

    // How many instances there are.
    pub(crate) fn instances(self) -> u32
        ensures value { result ≡ instances self }
        ensures range { result ≤ 1048576 }
    {
        match self {
            Version::One => 65_536,
            Version::Two => 1_048_576,
        }
    }

    // How many operations there are.
    pub(crate) fn operations(self) -> u8
        ensures value { result ≡ operations self }
        ensures range { result ≤ length op_kinds }
    {
        match self {
            Version::One => 3,
            Version::Two => 4,
        }
    }
}

/// Reads a version. Another number is a fault.
#[tactic(auto, unfolding(crate::specs::Versions::version_at))]
pub fn read_version(reader: &mut Reader<'_>) -> Result<Version, Fault>
    ensures { Gives result reader.new (version_at reader.old) }
{
    let here = reader.fault();
    match reader.u8()? {
        1 => Ok(Version::One),
        2 => Ok(Version::Two),
        _ => Err(here),
    }
}
