//! How a run has ended, for those who wait for its answers.

ghost use Rattle.std.specs.Prelude.{◌≡◌};

use rr_types::Refusal;
use std::sync::{OnceLock, Wait};

/// Whether a run has ended, and by which refusal, if by one. Both are one value, so whoever sees the end sees its refusal.
#[derive(Drop)]
pub(crate) struct Ending {
    end: OnceLock<Option<Refusal>>,
}

/// What a look at the end of a run saw, and before it a look at a node. Only `Ending::look` gives this, so whoever is given it comes behind
/// that look.
#[derive(Drop)]
pub(crate) struct Seen {
    has_ended: bool,
    is_gone: bool,
}

/// That a run has ended so, as it is noted. Only `Ending::note` gives this.
#[derive(Drop)]
pub(crate) struct Ended {
    refusal: Option<Refusal>,
}

impl Ending {
    /// The run hasn't ended.
    pub(crate) fn new() -> Ending {
        Ending {
            end: OnceLock::new(),
        }
    }

    /// The run has ended, by this refusal or without one. A run that has ended before has ended as it has.
    pub(crate) fn note<R: Wait>(&self, rt: &R, refusal: Option<Refusal>) -> Ended
        ensures { result.refusal ≡ refusal }
    {
        match self.end.set(rt, refusal) {
            Ok(noted) => Ended {
                refusal: *self.end.value(&noted),
            },
            Err(refusal) => Ended { refusal },
        }
    }

    /// Whether the run has ended by now, behind a look at whether a node is gone.
    pub(crate) fn look(&self, is_gone: bool) -> Seen
        ensures { result.is_gone ≡ is_gone }
    {
        Seen {
            has_ended: self.end.get().is_some(),
            is_gone,
        }
    }

    /// The refusal by which the run has ended; `Down`, where it has ended without one.
    pub(crate) fn refusal(&self) -> Refusal {
        match self.end.get() {
            Some(Some(refusal)) => *refusal,
            _ => Refusal::Down,
        }
    }

    /// The refusal by which the run has ended, if it has by one.
    pub(crate) fn into_refusal(self) -> Option<Refusal> {
        let Ending { end } = self;
        end.into_inner()?
    }
}

impl Seen {
    /// Whether the run had ended.
    pub(crate) fn has_ended(&self) -> bool
        ensures { result ≡ self.now.has_ended }
    {
        self.has_ended
    }

    /// Whether the node that was looked at was down, so that it tells nothing any more.
    pub(crate) fn is_gone(&self) -> bool
        ensures { result ≡ self.now.is_gone }
    {
        self.is_gone
    }
}
