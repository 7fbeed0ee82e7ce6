//! What goes wrong with a cluster and its names.

use rr_folders::{Closed, Fault};
use rr_types::{Command, NodeId, Refusal};
use std::alloc::{AllocError, AllocFailed, Global};
use std::io;
use thiserror::Error;

/// What goes wrong with a cluster and its names.
#[derive(Debug, Drop, Error)]
pub enum ClusterError {
    /// Memory was refused.
    #[error("memory was refused")]
    OutOfMemory,
    /// A tick that isn't from 10 to 10,000 milliseconds.
    #[error("a tick of {tick} milliseconds is asked for, but it is from 10 to 10000")]
    BadTick {
        tick: u64,
    },
    /// A guest asks a node that isn't there.
    #[error("a guest asks node {node}, but the last of the nodes is {last}")]
    NoNode {
        node: u8,
        last: u8,
    },
    /// A guest asks a node that is left out.
    #[error("a guest asks node {node}, which is left out")]
    LeftOut {
        node: u8,
    },
    /// Another program has locked the folder of this path.
    #[error("{path}: another program has locked it")]
    InUse {
        path: String,
    },
    /// A call on this path failed. The reason names the call.
    #[error("{path}: {reason}")]
    Failed {
        path: String,
        reason: String,
    },
    /// The folder of this node may not be opened.
    #[error("the folder of node {}: {}", .node.index(), fault_text(.fault))]
    Refused {
        node: NodeId,
        fault: Fault,
    },
    /// The disk of this node can't be opened.
    #[error("the disk of node {} can't be opened: {}", .node.index(), refusal_text(.refusal))]
    Unopened {
        node: NodeId,
        refusal: Refusal,
    },
    /// The folder's file `requests` gives no request number.
    #[error("the file requests in the folder: {}", numbers_text(.refusal))]
    Numbers {
        refusal: Refusal,
    },
    /// The node hasn't acknowledged this command in time. It may come to be decided; `again` asks it once more.
    #[error("request {} of client {} isn't acknowledged yet, but it may still be decided", .command.request.seq, .command.request.client)]
    Unacknowledged {
        command: Command,
    },
    /// There is no command that isn't acknowledged, and that `again` could ask once more.
    #[error("no command waits to be asked again")]
    NothingToAsk,
    /// The request number of this command belongs to another one, which counts for it. Somebody else was this client, or the file
    /// `requests` was put back.
    #[error("request {} of client {} is another command: its number was used before", .command.request.seq, .command.request.client)]
    NumberUsed {
        command: Command,
    },
    /// As many commands are decided as a cluster can decide: this one never is.
    #[error("the list of commands is full: the command is never decided")]
    ListFull,
    /// The node goes down, or the run comes to its end: return. A guest is called again once its node is started.
    #[error("the node goes down, or the run is over")]
    Over,
    /// A look or a list saw nothing: look again.
    #[error("the node showed nothing: look again")]
    Unseen,
    /// More than 1,024 commands were published since the client was told of changes: list the names, and go on.
    #[error("changes were missed: list the names, and go on")]
    Late,
    /// The nodes' run has failed.
    #[error("the run has failed: {}", refusal_text(.refusal))]
    Run {
        refusal: Refusal,
    },
    /// This node has failed, and its guests were called off. The reason names the file, the call and what the system said.
    #[error("node {} has failed: {}", .node.index(), failure_text(.refusal, .reason))]
    Node {
        node: NodeId,
        refusal: Refusal,
        reason: Option<String>,
    },
    /// A call of the system failed: the clock can't be read, or nothing can be printed.
    #[error("a call of the system failed: {error}")]
    System {
        error: io::Error,
    },
    /// Bytes that are no name, no value or no number of nodes.
    #[error("{}", refusal_text(.refusal))]
    Unfit {
        refusal: Refusal,
    },
}

// What a refusal means.
fn refusal_text(refusal: &Refusal) -> &'static str {
    match refusal {
        Refusal::OutOfMemory => "memory was refused",
        Refusal::Device => "a file couldn't be read or written, or the clock couldn't be read",
        Refusal::Damaged { .. } => {
            "what the disk holds isn't what a node wrote, or two disks decide an instance differently"
        }
        Refusal::BadNodes => "there are 1 to 7 nodes",
        Refusal::BadName => "a name has 1 to 64 bytes of a-z, 0-9 and hyphen",
        Refusal::BadValue => "a value has up to 64 bytes of printable ASCII without spaces",
        Refusal::SeatsTaken => "a node has at most 64 guests",
        Refusal::TooLarge => "an area, an epoch or the facts of a node are at their end",
        other => other.name(),
    }
}

// Why a folder isn't opened.
fn fault_text(fault: &Fault) -> &'static str {
    match fault {
        Fault::Missing => "it is gone, so the node can't know any more what it promised",
        Fault::Blank => "its disk is blank, so the node can't know any more what it promised",
        Fault::Cut =>
            "a file of its disk is gone or cut, so the node can't know any more what it promised",
        Fault::OtherNode(_) => "it is another node's; put each folder back in its place",
        Fault::OtherNodes(_) => "its cluster has another number of nodes",
        Fault::OtherCluster => "it is another cluster's; put that of this one back",
        Fault::Unmarked => "no cluster has marked it; put the folder of this one back",
        Fault::Older => {
            "its newest area isn't the one that the node wrote last, so the node can't know any more what it promised"
        }
        Fault::Shorter => {
            "its newest area is shorter than it was, so the node can't know any more what it promised"
        }
        Fault::Altered => {
            "its newest area was altered, so the node can't know any more what it promised"
        }
        Fault::Outdated =>
            "it is an older copy of itself, so the node can't know any more what it promised",
        Fault::Replaced =>
            "it is from before the node was replaced, and has no say any more; put the new folder back",
        Fault::LeftOut => "it is left out, and more than half of the nodes have to be there",
        Fault::Unfounded => "it is left out, and there is no cluster yet that could do without it",
    }
}

// Why a node has failed.
fn failure_text<'x>(refusal: &Refusal, reason: &'x Option<String>) -> &'x str {
    match reason {
        Some(reason) if matches!(refusal, Refusal::Device) => reason.as_str(),
        _ => refusal_text(refusal),
    }
}

// Why there is no request number.
fn numbers_text(refusal: &Refusal) -> &'static str {
    match refusal {
        Refusal::Malformed(_) =>
            "it should hold the first number that is not reserved, and a line feed",
        Refusal::TooLarge => "all request numbers are reserved",
        Refusal::Device => "it can't be read or written",
        other => refusal_text(other),
    }
}

impl From<AllocError> for ClusterError {
    fn from(_error: AllocError) -> ClusterError {
        ClusterError::OutOfMemory
    }
}

impl<T: Drop> From<AllocFailed<T>> for ClusterError {
    fn from(_error: AllocFailed<T>) -> ClusterError {
        ClusterError::OutOfMemory
    }
}

impl From<Refusal> for ClusterError {
    fn from(refusal: Refusal) -> ClusterError {
        match refusal {
            Refusal::OutOfMemory => ClusterError::OutOfMemory,
            refusal => ClusterError::Unfit { refusal },
        }
    }
}

impl From<io::Error> for ClusterError {
    fn from(error: io::Error) -> ClusterError {
        ClusterError::System { error }
    }
}

/// Why the folders of a cluster aren't opened.
pub(crate) fn error_of(alloc: Global, closed: Closed) -> ClusterError {
    match closed {
        Closed::OutOfMemory => ClusterError::OutOfMemory,
        Closed::InUse(path) => ClusterError::InUse { path },
        Closed::Failed { path, call, error } => match format!(in alloc; "{call}: {error}") {
            Ok(reason) => ClusterError::Failed { path, reason },
            Err(_) => ClusterError::OutOfMemory,
        },
        Closed::Unopened(node, refusal) => ClusterError::Unopened { node, refusal },
        Closed::Refused(node, fault) => ClusterError::Refused { node, fault },
    }
}
