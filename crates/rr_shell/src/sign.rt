//! The sign by which the thread that hears a line tells the one that says changes meanwhile.

ghost use Rattle.std.specs.Prelude.{◌≡◌};

use crate::hearing::Heard;
use std::io;
use std::sync::atomic::{AtomicBool, Ordering};

/// Whether the next line is heard. Once it is, it stays so.
#[derive(Drop)]
pub(crate) struct LineSign {
    is_heard: AtomicBool,
}

/// What a look at the sign saw. Only `LineSign::look` gives this, so whoever is given it comes behind that look.
#[derive(Drop)]
pub(crate) struct Seen {
    is_heard: bool,
}

impl LineSign {
    /// No line is heard yet.
    pub(crate) fn new() -> LineSign {
        LineSign {
            is_heard: AtomicBool::new(false),
        }
    }

    /// This is heard.
    pub(crate) fn give(&self, _heard: &io::Result<Heard>) {
        self.is_heard.store(true, Ordering::SeqCst);
    }

    /// Whether it is heard by now.
    pub(crate) fn look(&self) -> Seen {
        Seen {
            is_heard: self.is_heard.load(Ordering::SeqCst),
        }
    }
}

impl Seen {
    /// Whether the line was heard.
    pub(crate) fn is_heard(&self) -> bool
        ensures { result ≡ self.now.is_heard }
    {
        self.is_heard
    }
}
