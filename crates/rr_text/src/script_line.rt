//! The lines of a script.

ghost use Rattle.std.specs.Prelude.{◌≡◌};
ghost use Rattle.rr_text.specs.Scripted.{line_node};

use rr_types::{Command, Name, NodeId};

/// What a client asks of a node. Each node has one client, which asks line by line, in the order of the script.
#[derive(Clone, Copy, Debug)]
pub enum ScriptLine {
    /// The client submits a command, and waits for its acknowledgement.
    Submit { node: NodeId, command: Command },
    /// The client looks at who has a name.
    Look { node: NodeId, name: Name },
}

impl ScriptLine {
    /// The node that is asked.
    pub fn node(&self) -> NodeId
        ensures { result ≡ line_node self.now }
    {
        match self {
            ScriptLine::Submit { node, .. } => *node,
            ScriptLine::Look { node, .. } => *node,
        }
    }
}
