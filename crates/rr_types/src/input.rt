//! What a node is told.

ghost use Rattle.std.specs.Prelude.{◌≡◌, Option, Some};
ghost use Rattle.rr_types.specs.Inputs.{HearsNothing, told_as};

use crate::command::Command;
use crate::node::NodeSet;

/// What a node is told. A message that it hears is an `M`: a `Message`, or on a wire the message's number, a `u32`. What the
/// node then does is `node_step` of `rr_model`.
#[derive(Clone, Copy, Debug)]
pub enum Input<M> {
    /// A client asks for this command.
    Submit(Command),
    /// This message comes. One for another node is dropped.
    Hear(M),
    /// These nodes, and no others, are suspected to be down.
    Suspect(NodeSet),
    /// The heartbeat detector ticks, and the node restates where it stands.
    Tick,
    /// The lowest open instance that has a round enters the next one.
    Advance,
}

impl<M> Input<M> {
    /// The same, which is no message, where messages are said otherwise.
    #[inline]
    pub fn unheard<N>(&self) -> Input<N>
        requires { HearsNothing self.now }
        ensures { (name : M → Option N) → told_as name self.now ≡ Some result }
    {
        match self {
            Input::Submit(command) => Input::Submit(*command),
            Input::Hear(_) => unreachable!(),
            Input::Suspect(suspects) => Input::Suspect(*suspects),
            Input::Tick => Input::Tick,
            Input::Advance => Input::Advance,
        }
    }
}
