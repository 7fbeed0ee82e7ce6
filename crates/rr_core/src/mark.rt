//! How many of a node's facts are marked.

ghost use Rattle.std.specs.Prelude.{◌≡◌, ◌+◌, length};

use rr_journal::{Opened, Synced};
use rr_types::NodeId;
use std::marker::Model;

/// The facts of a node below its end are safe. It is made of the end of an opening or of a synced group alone.
#[derive(Clone, Copy, Debug)]
pub struct Mark {
    node: NodeId,
    end: u64,
}

impl Model for Mark {
    ghost use Rattle.rr_core.specs.Marks.{Marked};

    ghost Value = { Marked };

    ghost view = { λ m. record { node = m.node; end = m.end } };

    ghost inverse = { λ m. record { node = m.node; end = m.end } };
}

impl Mark {
    /// All facts that the opening found.
    pub fn opened(opened: &Opened) -> Mark
        ensures { result ≡ record { node = opened.now.node; end = opened.now.next } }
    {
        Mark {
            node: opened.node(),
            end: opened.next(),
        }
    }

    /// All facts up to the last one of the synced group.
    pub fn synced(synced: &Synced) -> Mark
        ensures { result ≡ record { node = synced.now.node; end = synced.now.group.serial + length synced.now.group.facts } }
    {
        let group = synced.group();
        Mark {
            node: synced.node(),
            end: group.serial() + group.facts().len() as u64,
        }
    }

    /// Whose facts they are.
    pub fn node(self) -> NodeId
        ensures { result ≡ self.node }
    {
        self.node
    }

    /// The number of the first fact that it doesn't cover.
    pub fn end(self) -> u64
        ensures { result ≡ self.end }
    {
        self.end
    }
}
