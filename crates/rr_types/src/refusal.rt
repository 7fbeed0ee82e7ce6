//! The refusals: one enum for every call of every crate.

ghost use Rattle.std.specs.Prelude.{◌≡◌};
ghost use Rattle.rr_types.specs.declared.refusal.Refusal.TheVariants.{OutOfMemory};
ghost use Rattle.rr_types.specs.Refusal.{number_of, name_of};

use std::alloc::{AllocError, AllocFailed};
use std::error::Error;
use std::fmt;

/// Why a call was refused. Each has a number and a name that programs may rely on.
#[derive(Clone, Copy, Debug, PartialEq, Eq)]
pub enum Refusal {
    /// A growth was really refused.
    OutOfMemory,
    /// The disk's count of faults grew in this call, or a folder or file couldn't be opened or made.
    Device,
    /// An open gate stands at this offset of the area before bytes that are no lawful frame there.
    Damaged { area: u8, offset: u64 },
    /// An earlier call was refused with `Device`: open again.
    Failed,
    /// The node is down or still opening.
    Down,
    /// A number of nodes outside 1 to 7.
    BadNodes,
    /// Bytes that are no name.
    BadName,
    /// Bytes that are no value.
    BadValue,
    /// All instances are decided here, and the request number isn't among them.
    ListFull,
    /// The round is the last one already.
    RoundsOut,
    /// Bytes that are no spelling: the offset of the first field that is cut short or unlawful.
    Malformed(u64),
    /// A synced group, or a group put back, that isn't the running one.
    StrangeMark,
    /// A job runs, its synced group isn't marked yet, or the node needs no restart.
    Busy,
    /// A line, from 1, that is outside its grammar or names a node that isn't there.
    BadEvent(u64),
    /// No reader's place was got.
    SeatsTaken,
    /// An area, an epoch or the next fact number would pass its greatest value.
    TooLarge,
    /// The event with this index, from 1, isn't what the world gives.
    AuditNo(u64),
    /// The window gave this look no guard.
    NoGuard,
}

impl Refusal {
    /// Its number, from 1 to 18.
    pub fn number(&self) -> u8
        ensures { result ≡ number_of self.now }
    {
        match self {
            Refusal::OutOfMemory => 1,
            Refusal::Device => 2,
            Refusal::Damaged { .. } => 3,
            Refusal::Failed => 4,
            Refusal::Down => 5,
            Refusal::BadNodes => 6,
            Refusal::BadName => 7,
            Refusal::BadValue => 8,
            Refusal::ListFull => 9,
            Refusal::RoundsOut => 10,
            Refusal::Malformed(_) => 11,
            Refusal::StrangeMark => 12,
            Refusal::Busy => 13,
            Refusal::BadEvent(_) => 14,
            Refusal::SeatsTaken => 15,
            Refusal::TooLarge => 16,
            Refusal::AuditNo(_) => 17,
            Refusal::NoGuard => 18,
        }
    }

    /// Its name, without the numbers that it says beside.
    pub fn name(&self) -> &'static str
        ensures { result.now ≡ name_of self.now }
    {
        match self {
            Refusal::OutOfMemory => "OutOfMemory",
            Refusal::Device => "Device",
            Refusal::Damaged { .. } => "Damaged",
            Refusal::Failed => "Failed",
            Refusal::Down => "Down",
            Refusal::BadNodes => "BadNodes",
            Refusal::BadName => "BadName",
            Refusal::BadValue => "BadValue",
            Refusal::ListFull => "ListFull",
            Refusal::RoundsOut => "RoundsOut",
            Refusal::Malformed(_) => "Malformed",
            Refusal::StrangeMark => "StrangeMark",
            Refusal::Busy => "Busy",
            Refusal::BadEvent(_) => "BadEvent",
            Refusal::SeatsTaken => "SeatsTaken",
            Refusal::TooLarge => "TooLarge",
            Refusal::AuditNo(_) => "AuditNo",
            Refusal::NoGuard => "NoGuard",
        }
    }
}

impl fmt::Display for Refusal {
    ghost use Rattle.std.specs.Prelude.{Some};
    ghost use Rattle.rr_types.specs.Refusal.{refusal_text};

    ghost output = { λ r. Some (refusal_text r) };

    fn fmt<W: fmt::Write>(&self, f: &mut fmt::Formatter<W>) -> fmt::Result {
        let name = self.name();
        match self {
            Refusal::Damaged { area, offset } => write!(f, "{name} {area} {offset}"),
            Refusal::Malformed(number) | Refusal::BadEvent(number) | Refusal::AuditNo(number) => {
                write!(f, "{name} {number}")
            }
            _ => write!(f, "{name}"),
        }
    }
}

impl Error for Refusal {}

impl From<AllocError> for Refusal {
    ghost from_gives = { λ _ e. e ≡ OutOfMemory };

    fn from(_error: AllocError) -> Refusal {
        Refusal::OutOfMemory
    }
}

impl<T: Drop> From<AllocFailed<T>> for Refusal {
    ghost from_gives = { λ _ e. e ≡ OutOfMemory };

    fn from(_error: AllocFailed<T>) -> Refusal {
        Refusal::OutOfMemory
    }
}
