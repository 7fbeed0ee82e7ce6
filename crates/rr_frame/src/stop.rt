//! Why reading stopped.

ghost use Rattle.std.specs.Prelude.{◌≡◌, ◌-◌, length};
ghost use Rattle.rr_frame.specs.declared.stop.Stop.TheVariants.{OutOfMemory, Malformed};
ghost use Rattle.rr_frame.specs.Refused.{refusal_of};

use rr_types::Refusal;
use std::alloc::{AllocError, AllocFailed};

/// The first field that is cut short or holds no lawful value: how many bytes are left from its first
/// byte on.
#[derive(Clone, Copy, Debug, PartialEq, Eq)]
pub struct Fault {
    pub left: usize,
}

impl Fault {
    /// The fault of the field that these bytes begin with.
    pub fn at(bytes: &[u8]) -> Fault
        ensures { result.left ≡ length bytes.now }
    {
        Fault { left: bytes.len() }
    }

    /// The refusal of an input of `all` bytes that has this fault.
    pub fn refusal(self, all: usize) -> Refusal
        ensures { result ≡ Refusal.Malformed (all - self.left) }
    {
        Refusal::Malformed(all.saturating_sub(self.left) as u64)
    }
}

/// Why a reading that takes memory stopped.
#[derive(Clone, Copy, Debug, PartialEq, Eq)]
pub enum Stop {
    /// A growth was refused.
    OutOfMemory,
    /// A field is at fault.
    Malformed(Fault),
}

impl Stop {
    /// The refusal of an input of `all` bytes whose reading stopped for this reason.
    pub fn refusal(self, all: usize) -> Refusal
        ensures { result ≡ refusal_of all self }
    {
        match self {
            Stop::OutOfMemory => Refusal::OutOfMemory,
            Stop::Malformed(fault) => fault.refusal(all),
        }
    }
}

impl From<Fault> for Stop {
    ghost from_gives = { λ f e. e ≡ Malformed f };

    fn from(fault: Fault) -> Stop {
        Stop::Malformed(fault)
    }
}

impl From<AllocError> for Stop {
    ghost from_gives = { λ _ e. e ≡ OutOfMemory };

    fn from(_error: AllocError) -> Stop {
        Stop::OutOfMemory
    }
}

impl<T: Drop> From<AllocFailed<T>> for Stop {
    ghost from_gives = { λ _ e. e ≡ OutOfMemory };

    fn from(_error: AllocFailed<T>) -> Stop {
        Stop::OutOfMemory
    }
}
