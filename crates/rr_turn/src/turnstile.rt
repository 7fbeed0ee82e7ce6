//! Places at which an observer may hold a run up.

use rr_types::NodeId;

/// A place in a run.
#[derive(Clone, Copy, Debug, PartialEq, Eq)]
pub enum Place {
    /// An opening, a flush or a snapshot of the node is about to call its disk.
    BeforeDevice,
    /// The node has answered a submit.
    AfterSubmit,
}

/// What is passed at each place of each node. It may hold up the thread that passes.
pub trait Turnstile {
    /// Called as a node comes to a place. The thread that calls it goes on once this returns.
    fn pass(&self, node: NodeId, place: Place);
}

/// A turnstile that holds up nobody.
#[derive(Clone, Copy, Debug)]
pub struct Open;

impl Turnstile for Open {
    fn pass(&self, _node: NodeId, _place: Place) {}
}
