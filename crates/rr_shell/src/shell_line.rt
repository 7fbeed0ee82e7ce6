//! What a line of a shell asks for, or why it asks for nothing.

use rr_explain::ShellWord;
use rr_types::{Name, NodeId, Op};

/// The most bytes of a line, without its line feed.
pub const MAX_LINE: usize = 4096;

/// What a line of a shell asks for.
#[derive(Clone, Copy, Debug)]
pub enum ShellLine {
    /// This operation is submitted at the node that is asked.
    Submit(Op),
    /// The node that is asked looks at who has this name.
    Look(Name),
    /// The node that is asked lists the bound names that begin so, or all.
    Names(Option<Name>),
    /// The changes of the names that begin so, or of all, as the node that is asked publishes them, until the next line.
    Watch(Option<Name>),
    /// The node that is asked learns all that was acknowledged anywhere before.
    Sync,
    /// From now on this node is asked.
    At(NodeId),
    /// This node goes down, as by a crash.
    Stop(NodeId),
    /// This node comes up from its disk.
    Start(NodeId),
    /// This node writes a snapshot of its facts.
    Snapshot(NodeId),
    /// What each node knows.
    Status,
    /// The last command that wasn't acknowledged is submitted once more, under its request number.
    Again,
    /// How this command is used, or which ones there are.
    Help(Option<ShellWord>),
    /// The end of the shell.
    Quit,
}

/// Why a line asks for nothing. It names the command that the line is of.
#[derive(Clone, Copy, Debug)]
pub enum LineFault {
    /// Its first word is no command. This one was meant, if one was.
    NoCommand(Option<ShellWord>),
    /// No name stands where one is expected.
    BadName(ShellWord),
    /// What stands behind the name is no value.
    BadValue(ShellWord),
    /// No client's number stands behind the name.
    BadOwner(ShellWord),
    /// It names no node that there is.
    NoNode(ShellWord),
    /// Something stands behind what the command takes.
    Behind(ShellWord),
    /// It has more bytes than a line may have.
    TooLong,
}
